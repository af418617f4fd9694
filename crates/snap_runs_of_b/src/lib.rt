//! Listing B, and what every run of it keeps.
#![tactic(auto)]

ghost use Rattle.snap_runs_of_b.specs.Promises.{NeverTraps, ChangesOnlyAt46, WritesItsUpdate};
ghost use Rattle.snap_runs_of_b.specs.Promises.{WritesOnce, HavePoints, FewCollects, FewSteps};
ghost use Rattle.snap_runs_of_b.specs.Promises.{SharpCollects, MovesAreWrites};
ghost use Rattle.snap_runs_of_b.specs.Promises.{BorrowedViewsAreLent, OwnUpdatesAreSeen};
ghost use Rattle.snap_runs_of_b.specs.Promises.{PassedTestsAreClean, Linearizable};
ghost use Rattle.snap_runs_of_b.specs.Promises.{OperationsHavePlaces, WriteStronglyLinearizable};
ghost use Rattle.snap_runs_of_b.specs.Promises.{WaitFree, RunsAreSnapshots};
ghost use Rattle.snap_runs_of_b.specs.Bounded.{StaysBounded};

/// No process ever traps.
#[tactic(auto, using(crate::proofs::Every::never_traps_lem))]
pub fn never_traps()
    ensures { NeverTraps }
{}

/// The values change only at an item that executes line 46.
#[tactic(auto, using(crate::proofs::Every::changes_only_at_46_lem))]
pub fn changes_only_at_46()
    ensures { ChangesOnlyAt46 }
{}

/// An item that executes line 46 lies in an update of its process and writes that update's value,
/// nothing else.
#[tactic(auto, using(crate::proofs::Every::writes_its_update_lem))]
pub fn writes_its_update()
    ensures { WritesItsUpdate }
{}

/// An update executes line 46 at most once, and exactly once if it is done.
pub fn writes_once()
    ensures { WritesOnce }
{}

/// Every finished scan's view is the values at some state from its start to its end.
#[tactic(auto, using(crate::proofs::Every::have_points_lem))]
pub fn have_points()
    ensures { HavePoints }
{}

/// Every scan, finished or not, has at most n + 1 double collects.
#[tactic(auto, using(crate::proofs::Bounds::few_collects_lem))]
pub fn few_collects()
    ensures { FewCollects }
{}

/// Every scan, finished or not, has at most 8 n n + 12 n + 7 own steps.
#[tactic(auto, using(crate::proofs::Bounds::few_steps_lem))]
pub fn few_steps()
    ensures { FewSteps }
{}

/// No process sees itself move: every scan has at most n double collects.
#[tactic(auto, using(crate::proofs::Bounds::sharp_collects_lem))]
pub fn sharp_collects()
    ensures { SharpCollects }
{}

/// Where a scan sees a process move, that process has written since the scan's start; and at most
/// one double collect of the scan has ended since, the one that failed.
#[tactic(auto, using(crate::proofs::Moves::moves_are_writes_lem))]
pub fn moves_are_writes()
    ensures { MovesAreWrites }
{}

/// A scan that borrows a view, and returns it at line 28, has that of an embedded scan of another
/// process, all within it.
#[tactic(auto, using(crate::proofs::Lenders::borrowed_views_are_lent_lem))]
pub fn borrowed_views_are_lent()
    ensures { BorrowedViewsAreLent }
{}

/// A scan that a process calls after an update of its own shows that update's value.
pub fn own_updates_are_seen()
    ensures { OwnUpdatesAreSeen }
{}

/// Where a scan's test passes, there is a state between its two collects, and no word was written
/// between the scan's two reads of it.
#[tactic(auto, using(crate::proofs::CleanTests::passed_tests_are_clean_lem))]
pub fn passed_tests_are_clean()
    ensures { PassedTestsAreClean }
{}

/// Every run is linearizable: some order of its operations, in which one that ended before another
/// was called stands before it, is a run of the snapshot object of one process, with the answers
/// that were given.
pub fn linearizable()
    ensures { Linearizable }
{}

/// Each operation of a run has its place, an item between its call and its end: the place of an
/// update is an item at which it executes line 46, and that of a scan one after which the values
/// are its view; and in the order of their places they are a linearization.
#[tactic(auto, using(crate::proofs::Every::operations_have_places_lem))]
pub fn operations_have_places()
    ensures { OperationsHavePlaces }
{}

/// The listing is write strongly linearizable: its runs have linearizations in which the updates
/// keep their order as a run goes on, and more come only behind them.
#[tactic(auto, using(crate::proofs::Every::write_strongly_linearizable_lem))]
pub fn write_strongly_linearizable()
    ensures { WriteStronglyLinearizable }
{}

/// Every call is over after so many turns of its process, whatever the others do or stop doing: a
/// scan after at most 8 n n + 12 n + 7, and an update after at most 8 n n + 15 n + 12.
#[tactic(auto, using(crate::proofs::Every::wait_free_lem))]
pub fn wait_free()
    ensures { WaitFree }
{}

/// All that a snapshot promises, of every run of B.
pub fn runs_are_snapshots()
    ensures { RunsAreSnapshots }
{}

/// Every run is bounded, however long it is: each number of each state is within limits that n
/// alone decides, and each value is 0 or that of an update that was called before.
pub fn stays_bounded()
    ensures { StaysBounded }
{}
