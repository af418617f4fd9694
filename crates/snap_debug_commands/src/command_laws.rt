//! Laws of reading and writing debugger commands: a text is read as commands if and only if it
//! spells them, and what is written is read.
ghost use Rattle.snap_debug_commands.specs.CommandLaws.{ReadsSpelled, ReadsWritten};

/// A text is read as commands exactly if it spells them, one a line.
pub fn commands_are_spelled()
    ensures { ReadsSpelled }
{}

/// What is written of commands is read as those commands.
pub fn written_commands_are_read()
    ensures { ReadsWritten }
{}
