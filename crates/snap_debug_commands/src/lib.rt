//! Debugger commands: how they are read and written, and why they are refused.
#![tactic(auto)]

mod command;
mod command_forms;
mod command_laws;
mod command_text;
mod commands;
mod fault;
mod fault_text;

pub use command::{Breakpoint, Command};
pub use command_forms::{keyword_form, number_form, numbers_form};
pub use command_laws::{commands_are_spelled, written_commands_are_read};
pub use command_text::push_command;
pub use commands::read_commands;
pub use fault::DebugFault;
pub use fault_text::{fault_line, push_refusal, push_refusal_line};
pub use snap_semantics::CommandRefusal;
