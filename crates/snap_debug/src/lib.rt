//! A debugger's session over a listing and a schedule, which goes back by checkpoints.
#![tactic(auto)]

mod checkpoint;
mod followed;
mod marks;
mod recording;
mod reply;
mod reversible_machine;
mod session;
mod stops;

pub use checkpoint::Checkpoint;
pub use marks::{Marks, same_address, same_breakpoint};
pub use recording::Recording;
pub use reply::Reply;
pub use reversible_machine::ReversibleMachine;
pub use session::Session;
pub use snap_debug_commands::{
    Breakpoint, Command, CommandRefusal, DebugFault, commands_are_spelled, fault_line,
    push_command, push_refusal, push_refusal_line, read_commands, written_commands_are_read,
};
pub use snap_report::Report;
