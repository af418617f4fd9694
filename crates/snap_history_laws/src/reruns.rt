//! What is printed of a live run, run again, is the same run, and prints the same report.
ghost use Rattle.snap_history_laws.specs.reruns.RunAgain.{LiveRunsAreCut, LiveRunsAreReadAgain};
ghost use Rattle.snap_history_laws.specs.reruns.Rerun.{LiveRunsAreRunAgain};

use snap_sched::{prints_again, reads_only_spelled};

/// What is printed of a live run is its whole history, as the text of a schedule, and then the
/// report of its end.
pub fn live_runs_are_cut()
    ensures { LiveRunsAreCut }
{}

/// What is printed of a live run before its report, read as a schedule, has the items of that run:
/// the run over that schedule is the same, and its report too.
pub fn live_runs_are_read_again()
    ensures { LiveRunsAreReadAgain }
{
    prints_again();
    reads_only_spelled();
}

/// What is printed of a live run before its report, run over the same listing, prints the report of
/// the live run, byte for byte. What is printed is one part of an input.
pub fn live_runs_are_run_again()
    ensures { LiveRunsAreRunAgain }
{
    live_runs_are_cut();
    live_runs_are_read_again();
}
