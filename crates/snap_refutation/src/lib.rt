//! Certificates of a history: why no order of its operations is a linearization, and whether an order
//! is one.
#![tactic(auto)]

ghost use Rattle.snap_refutation.specs.Operations.{OperationsAreAll};
ghost use Rattle.snap_refutation.specs.Refutations.{RefutationsRefute};

mod cases;
mod lines;
mod operations;
mod refutation;
mod sights;

pub use lines::{are_lines, is_circle};
pub use operations::operations_of;
pub use refutation::{Case, Grounds, Line, Part, Refutation, Standing, Why};

/// The operations of a history are all that it tells of, in the order of their calls.
pub fn operations_are_all()
    ensures { OperationsAreAll }
{}

/// A history with a refutation is not linearizable.
pub fn refutations_refute()
    ensures { RefutationsRefute }
{}
