//! What fails in a run, the first run that fails of those that a seed gives, and schedules whose
//! runs fail, shrunk.
#![tactic(auto)]

mod alone;
mod blocks;
mod candidate;
mod cuts;
mod failing;
mod failures;
mod follow;
mod found;
mod hunt;
mod judged;
mod narrow;
mod orders;
mod over;
mod parts;
mod passes;
mod places;
mod shrink;
mod step_bounds;
mod step_counter;
mod step_laws;
mod steps;
mod trials;
mod values;

pub use alone::first_failing_alone;
pub use failures::{Failure, FailureKind, OwnSteps, StepBound, Wanted};
pub use found::Found;
pub use hunt::{Hunt, Watcher, first_failing};
pub use over::failure_over;
pub use shrink::shrunk;
pub use step_laws::steps_are_of_operations;
