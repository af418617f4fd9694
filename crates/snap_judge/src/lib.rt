//! Histories of snapshot objects, and whether they are linearizable.
#![tactic(auto)]

ghost use Rattle.snap_judge.specs.Linearizable.{LinearizableFromTheBeginning};
ghost use Rattle.snap_judge.specs.Steps.{HistoriesAreExplained};

mod advance;
mod branches;
mod choices;
mod config;
mod decisions;
mod history;
mod judgements;
mod linearizability;
mod operation;
mod prepass;
mod scans;
mod search;
mod taking;

pub use history::{History, copied_events};
pub use judgements::{Failing, Judgement, decision, failing_of, judge, judge_without_order};
pub use linearizability::Linearizability;
pub use operation::{Action, Operation};

/// The moves that explain a history make a linearization of it, and each linearization is made by
/// such moves.
pub fn histories_are_explained()
    ensures { HistoriesAreExplained }
{}

/// What is linearizable was so from its beginning on.
pub fn linearizable_from_the_beginning()
    ensures { LinearizableFromTheBeginning }
{}
