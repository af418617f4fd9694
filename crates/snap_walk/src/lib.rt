//! `Walk`: a machine on its way through the run of a program over a schedule, item by item.
#![tactic(auto)]

mod ahead;
mod passed;
mod told;
mod walk;

pub use passed::Passed;
pub use walk::Walk;
