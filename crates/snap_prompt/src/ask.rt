//! `Ask`: what a line at the debugger's prompt asks for; `ask_of` reads it, and `is_yes` an answer
//! to a question.
ghost use Rattle.std.specs.Prelude.{◌≡◌, IfOk};
ghost use Rattle.std.specs.Io.BufRead.{strip_last};
ghost use Rattle.snap_semantics.specs.Answers.{Answers};
ghost use Rattle.snap_semantics.specs.Token.{tokens_of};
ghost use Rattle.snap_prompt.specs.Ask.{ask_of, at_line, command_asked};
ghost use Rattle.snap_prompt.specs.Ask.{first_command, is_yes, prompt_ask_in};
ghost use Rattle.snap_debug_commands.specs.Commands.{commands_of};

use crate::addition::Addition;
use crate::forms::{prompt_ask, yes_form};
use crate::short::spelled_out;
use snap_debug_commands::{Command, read_commands};
use snap_semantics::{CommandRefusal, Fault};
use snap_text::tokens;
use std::alloc::{AllocError, Global};

/// The most bytes that a line may have.
const MAX_LINE: usize = 1_048_576;

/// A request at the prompt.
#[derive(Clone, Copy, PartialEq, Eq)]
pub enum Ask {
    /// Nothing: the line has no more than a comment.
    Nothing,
    /// The last request again.
    Again,
    /// The end of the dialog.
    Quit,
    /// The list of requests.
    Help,
    /// The status of each process.
    All,
    /// The report of the position.
    Report,
    /// The schedule.
    Save,
    /// The lines around the one at which the process of the last item stands.
    ListLast,
    /// The lines around the one at which a process stands.
    List(u64),
    /// Why the scan that an item answered had its answer, or why its process trapped; without a
    /// number, the item is that of the position.
    Why(Option<u64>),
    Add(Addition),
    /// As many steps as lead a process to a line, or to the end of its operation.
    Until { process: u64, line: u64 },
    /// As many steps as lead a process to the end of its operation.
    End { process: u64 },
    Do(Command),
}

/// Returns a line without the line feed at its end.
pub(crate) fn body(line: &[u8]) -> &[u8]
    ensures { result.now ≡ strip_last 10 line.now }
{
    match line {
        [front @ .., b'\n'] => front,
        _ => line,
    }
}

/// Returns the request of a line, if it is one of the prompt's own.
fn prompt_ask_in(alloc: Global, line: &[u8]) -> Result<Option<Ask>, AllocError>
    ensures { IfOk result (λ found. found ≡ prompt_ask_in (tokens_of line.now)) }
{
    match tokens(alloc, line)? {
        Some(tokens) => Ok(prompt_ask(tokens.as_slice())),
        None => Ok(None),
    }
}

/// Returns the refusal of a line with this number.
fn at_line(number: u64, refusal: CommandRefusal) -> CommandRefusal
    ensures { result ≡ at_line number refusal }
{
    match refusal {
        CommandRefusal::BadCommand(_) => CommandRefusal::BadCommand(number),
        _ => refusal,
    }
}

/// Returns the first command, if there is one, as a request.
fn first_command(commands: &[Command]) -> Ask
    ensures { result ≡ first_command commands.now }
{
    match commands {
        [] => Ask::Nothing,
        [command, ..] => Ask::Do(*command),
    }
}

/// Returns the command on line `number` as a request.
fn command_asked(alloc: Global, number: u64, line: &[u8]) -> Result<Ask, Fault<CommandRefusal>>
    ensures { Answers (λ ask. ask) result (command_asked number (commands_of line.now)) }
{
    match read_commands(alloc, line) {
        Ok(commands) => Ok(first_command(commands.as_slice())),
        Err(Fault::Memory) => Err(Fault::Memory),
        Err(Fault::Refused(refusal)) => Err(Fault::Refused(at_line(number, refusal))),
    }
}

/// Returns the request on line `number`.
///
/// # Errors
///
/// `Refused` with `TooLong` where `line` is too long, and with `BadCommand` where it is no request;
/// `Memory` where memory runs out.
pub fn ask_of(alloc: Global, number: u64, line: &[u8]) -> Result<Ask, Fault<CommandRefusal>>
    ensures { Answers (λ ask. ask) result (ask_of number line.now) }
{
    if line.len() > MAX_LINE {
        return Err(Fault::Refused(CommandRefusal::TooLong));
    }
    let body = body(line);
    if body.is_empty() {
        return Ok(Ask::Again);
    }
    if let Some(ask) = prompt_ask_in(alloc, body)? {
        return Ok(ask);
    }
    let line = spelled_out(alloc, line)?;
    command_asked(alloc, number, line.as_slice())
}

/// Returns whether `line` says yes.
///
/// # Errors
///
/// `AllocError` where memory runs out.
pub fn is_yes(alloc: Global, line: &[u8]) -> Result<bool, AllocError>
    ensures { IfOk result (λ yes. yes ≡ is_yes line.now) }
{
    match tokens(alloc, body(line))? {
        Some(tokens) => Ok(yes_form(tokens.as_slice()).is_some()),
        None => Ok(false),
    }
}
