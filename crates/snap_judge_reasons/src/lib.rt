//! Explanations of a history that is not linearizable: answers that would have been right where it
//! fails, and why no order explains the one that was given.
#![tactic(auto)]

ghost use Rattle.snap_judge_reasons.specs.Reasons.{CirclesRefute};

mod answers;
mod beginning;
mod candidates;
mod circles;
mod copies;
mod failure;
mod finding;
mod graph;
mod graph_search;
mod grounds;
mod operations;
mod reason;

pub use answers::right_answers;
pub use failure::failure_text;
pub use finding::reasons;
pub use reason::{Grounds, Reason};

/// A history with a circle of reasons is not linearizable.
pub fn circles_refute()
    ensures { CirclesRefute }
{}
