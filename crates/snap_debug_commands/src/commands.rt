//! `read_commands`: reads a text of debugger commands, one a line, or says why it is refused.
ghost use Rattle.std.specs.Prelude.{◌≡◌, ◌<◌, Err, length};
ghost use Rattle.snap_semantics.specs.Answers.{Answers};
ghost use Rattle.snap_semantics.specs.declared.fault.Fault.TheVariants.{Refused};
ghost use Rattle.snap_semantics.specs.declared.refusal.CommandRefusal.TheVariants.{TooLong};
ghost use Rattle.snap_text.specs.Lines.{view_line};
ghost use Rattle.snap_debug_commands.specs.Commands.{command_at, commands_of, max_text};
ghost use Rattle.snap_debug_commands.specs.CommandsInTurn.{admitted_at};

use crate::command::Command;
use crate::command_forms::command_form;
use snap_semantics::{CommandRefusal, Fault};
use snap_text::{TextLines, TokenLine};
use std::alloc::Global;

/// The most bytes that a text of commands may have.
const MAX_BYTES: usize = 1_048_576;

/// The most commands that a text may have.
const MAX_COMMANDS: usize = 10_000;

/// Returns the command on a line.
fn command_at(line: &TokenLine<'_>) -> Result<Command, CommandRefusal>
    ensures { result ≡ command_at (view_line line.now) }
{
    match &line.tokens {
        Some(tokens) => match command_form(tokens.as_slice()) {
            Some(command) => Ok(command),
            None => Err(CommandRefusal::BadCommand(line.number)),
        },
        None => Err(CommandRefusal::BadCommand(line.number)),
    }
}

/// Returns the command on a line, behind `count` commands.
fn admitted_at(count: usize, line: &TokenLine<'_>) -> Result<Command, CommandRefusal>
    ensures { result ≡ admitted_at count (view_line line.now) }
{
    if count >= MAX_COMMANDS {
        return Err(CommandRefusal::TooLong);
    }
    command_at(line)
}

/// Reads the commands that `text` spells.
///
/// # Errors
///
/// `Refused` with the first reason why `text` spells no commands; `Memory` where memory runs out.
pub fn read_commands(alloc: Global, text: &[u8]) -> Result<Vec<Command>, Fault<CommandRefusal>>
    ensures commands { Answers (λ commands. commands.items) result (commands_of text.now) }
    ensures too_long { max_text < length text.now → result ≡ Err (Refused TooLong) }
{
    if text.len() > MAX_BYTES {
        return Err(Fault::from(CommandRefusal::TooLong));
    }
    let mut commands = Vec::new(alloc);
    let mut lines = TextLines::new(text);
    while let Some(line) = lines.next_line(alloc)? {
        let command = admitted_at(commands.len(), &line)?;
        commands.push(command)?;
    }
    Ok(commands)
}
