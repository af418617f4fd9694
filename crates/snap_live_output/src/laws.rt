//! `live_runs_are_snapshots`: the law that what a live run of U, B or M writes is the history of a
//! run that keeps all its promises.
ghost use Rattle.snap_live_output.specs.LiveRuns.{LiveRunsAreSnapshots};

use snap_shipped::shipped_runs_keep_promises;

/// What a live run of U, B or M writes, of the shipped listing or of a text that is read as it, is
/// the history of a run that keeps all that is promised of the listing: every finished scan
/// answered the memory contents at one step between its call and its answer, and no call takes too
/// many turns.
pub fn live_runs_are_snapshots()
    ensures { LiveRunsAreSnapshots }
{
    shipped_runs_keep_promises();
}
