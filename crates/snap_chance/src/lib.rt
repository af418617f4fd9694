//! Schedules that chance makes: a seed and a number decide each of them.
#![tactic(auto)]

mod draws;
mod laws;
mod moves;
mod plan;
mod priorities;
mod schedules;
mod stories;
mod turns;

pub use laws::priorities_are_distinct;
pub use plan::{MAX_TURNS, Pace, Plan};
pub use schedules::schedule_of;
