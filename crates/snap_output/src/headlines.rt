//! `headline`, the law of the whole program (what is printed is the run; what is assembled lists
//! back; U, B and M are snapshots), and that a trace is refused where a run is.
ghost use Rattle.snap_output.specs.Headline.{Headline};
ghost use Rattle.snap_output.specs.Refusals.{RefusesTracesAsRuns};

use snap_asm::{what_is_assembled_lists_back, what_is_canonical_is_kept};
use snap_sched::reads_only_spelled;
use snap_shipped::shipped_runs_keep_promises;

/// For every listing, schedule and debugger commands, what is printed is what the table of lines
/// gives; what is assembled lists back as its source; and each run of a shipped listing over a
/// schedule is linearizable and wait-free, with all else that is promised of the listing: no
/// process traps, every finished scan has a point, and double collects keep their bounds.
pub fn headline()
    ensures { Headline }
{
    what_is_assembled_lists_back();
    what_is_canonical_is_kept();
    reads_only_spelled();
    shipped_runs_keep_promises();
}

/// A trace is refused exactly where a run is, and for the same reason.
pub fn traces_are_refused_as_runs()
    ensures { RefusesTracesAsRuns }
{}
