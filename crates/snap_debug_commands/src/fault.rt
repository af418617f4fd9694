//! `DebugFault`: why commands were not read, or a command was not done.
use snap_semantics::{CommandRefusal, Fault};

/// Why a command has no reply: memory ran out, or the command is refused.
pub type DebugFault = Fault<CommandRefusal>;
