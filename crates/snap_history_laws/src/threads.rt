//! What threads hear of their operations, and in which order these could have taken place.
ghost use Rattle.snap_history_laws.specs.threads.RunLaws.{LinearizationsAreTold, OperationsAreTold};
ghost use Rattle.snap_history_laws.specs.threads.DeskLaws.{DesksTellLinearizations, NotesOrderOperations};
ghost use Rattle.snap_history_laws.specs.threads.DeskLaws.{SeatsAreToldTheRecord, SeatsOwnWhatTheySaw};
ghost use Rattle.snap_history_laws.specs.threads.ShippedLaws.{ClosedDesksAreLinearizable};
ghost use Rattle.snap_history_laws.specs.threads.ShippedLaws.{LiveRunsAreLinearizable};

use snap_live::Gate;
use snap_shipped::shipped_runs_keep_promises;

/// The operations of a run are those of which its threads hear.
#[tactic(auto, using(crate::proofs::threads::Operations::operations_are_told))]
pub fn operations_are_told()
    ensures { OperationsAreTold }
{}

/// A list of operations is a linearization of a run exactly if it is one of what the threads hear.
#[tactic(auto, using(crate::proofs::threads::Linear::linearizations_are_told))]
pub fn linearizations_are_told()
    ensures { LinearizationsAreTold }
{}

/// The seats of a closed desk have the turns of its record, each those of its process.
#[tactic(auto, using(crate::proofs::threads::Closing::seats_are_told))]
pub fn seats_are_told_the_record()
    ensures { SeatsAreToldTheRecord }
{}

/// What the seats of a closed desk were told is linearizable where its record is.
pub fn desks_tell_linearizations()
    ensures { DesksTellLinearizations }
{}

/// What the seats of a closed desk of U, B or M were told is linearizable, whatever the threads
/// did.
pub fn closed_desks_are_linearizable()
    ensures { ClosedDesksAreLinearizable }
{
    shipped_runs_keep_promises();
}

/// What the threads of a live run of U, B or M were told is linearizable, whatever its gate
/// answered.
pub fn live_runs_are_linearizable<G: Gate>(gate: &G)
    ensures { LiveRunsAreLinearizable (G.may_answer gate.now) }
{
    shipped_runs_keep_promises();
}

/// At each moment a seat's turns are those of its process in a history that it has seen.
#[tactic(auto, using(crate::proofs::threads::Noting::own_what_they_saw))]
pub fn seats_own_what_they_saw()
    ensures { SeatsOwnWhatTheySaw }
{}

/// What a seat had ended when it made a note stands before whatever is called once the note is met.
pub fn notes_order_operations()
    ensures { NotesOrderOperations }
{}
