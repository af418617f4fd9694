//! Why a scan answered what it answered, and why a process trapped: what the audit and the trace of
//! a run say of one item, with the commands that go to the items named in it.
#![tactic(auto)]

mod answer;
mod conditions;
mod numbers;
mod operands;
mod point;
mod puts;
mod taker;
mod text;
mod trap;
mod trouble;
mod why;

pub use operands::line_trouble;
pub use taker::Taker;
pub use trouble::Trouble;
pub use why::push_why;
