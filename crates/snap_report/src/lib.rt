//! The printed texts of positions, registers, processes, events and outcomes, of where an item
//! writes, and the report of a machine.
#![tactic(auto)]

mod event_text;
mod outcomes;
mod printed;
mod process_text;
mod register_text;
mod reports;
mod word_text;
mod written_text;

pub use event_text::{event_line, event_lines, op_text};
pub use outcomes::{head_lines, outcome_line, outcome_text, reason_text};
pub use printed::Report;
pub use process_text::{head_line, process_lines, processes_lines};
pub use register_text::{bank_text, register_line, register_lines, values_line};
pub use reports::{position_line, report};
pub use written_text::{written_local, written_shared};
