//! `marks_asked`: the marks that the commands of an input leave, which a page in a browser shows.
ghost use Rattle.std.specs.Prelude.{◌≡◌, IfOk};
ghost use Rattle.std.specs.List.{list_any};
ghost use Rattle.snap_semantics.specs.Answers.{Answers};
ghost use Rattle.snap_text.specs.Drafted.{Adds};
ghost use Rattle.snap_debug.specs.Marks.{same_address, same_breakpoint};
ghost use Rattle.snap_page.specs.Marks.{mark_line, marks_asked, marks_text, meant_by};
ghost use Rattle.snap_page.specs.Marks.{is_same_mark, means, set_by, stays};

use snap_debug::{same_address, same_breakpoint};
use snap_debug_commands::{Breakpoint, Command, push_command, read_commands};
use snap_semantics::{Fault, Refusal};
use snap_text::Draft;
use snap_words::Address;
use std::alloc::{AllocError, Global};

/// What stops a run.
#[derive(Clone, Copy)]
pub enum AnyMark {
    /// A process that comes to a line.
    Line(Breakpoint),
    /// A register that changes.
    Register(Address),
}

/// Returns whether two marks are the same.
fn is_same_mark(a: AnyMark, b: AnyMark) -> bool
    ensures { result ≡ is_same_mark a b }
{
    match (a, b) {
        (AnyMark::Line(a), AnyMark::Line(b)) => same_breakpoint(a, b),
        (AnyMark::Register(a), AnyMark::Register(b)) => same_address(a, b),
        _ => false,
    }
}

/// Returns the mark that a command sets.
fn set_by(command: Command) -> Option<AnyMark>
    ensures { result ≡ set_by command }
{
    match command {
        Command::Break(breakpoint) => Some(AnyMark::Line(breakpoint)),
        Command::Watch(address) => Some(AnyMark::Register(address)),
        _ => None,
    }
}

/// Returns the mark that a command sets or takes away.
fn meant_by(command: Command) -> Option<AnyMark>
    ensures { result ≡ meant_by command }
{
    match command {
        Command::Clear(breakpoint) => Some(AnyMark::Line(breakpoint)),
        Command::Unwatch(address) => Some(AnyMark::Register(address)),
        _ => set_by(command),
    }
}

/// Returns whether a command sets or takes away this mark.
fn means(mark: AnyMark, command: Command) -> bool
    ensures { result ≡ means mark command }
{
    match meant_by(command) {
        Some(other) => is_same_mark(mark, other),
        None => false,
    }
}

/// Returns whether one of these commands sets or takes away this mark.
fn is_meant(mark: AnyMark, later: &[Command]) -> bool
    ensures { result ≡ list_any (means mark) later.now }
{
    later.iter().any(|command| means(mark, *command))
}

/// Returns whether a mark is set, and none of the commands behind sets it or takes it away.
fn stays(mark: Option<AnyMark>, later: &[Command]) -> bool
    ensures { result ≡ stays mark later.now }
{
    match mark {
        Some(mark) => !is_meant(mark, later),
        None => false,
    }
}

/// Appends the line of a command if its mark stays.
fn push_mark(out: &mut Draft, command: &Command, later: &[Command])
    ensures { Adds out.old out.new (mark_line command.now later.now) }
{
    if stays(set_by(*command), later) {
        push_command(out, command);
    }
}

/// Returns the lines of the marks that commands leave.
fn marks_text(alloc: Global, commands: &[Command]) -> Result<Vec<u8>, AllocError>
    ensures { IfOk result (λ text. text.items ≡ marks_text commands.now) }
{
    let mut out = Draft::new(alloc);
    let mut rest = commands;
    while let Some((command, later)) = rest.split_first() {
        push_mark(&mut out, command, later);
        rest = later;
    }
    out.finish()
}

/// Returns the marks that a text of commands leaves, a line each.
///
/// # Errors
///
/// `Refused` with the first reason why `text` spells no commands; `Memory` where memory runs out.
pub fn marks_asked(alloc: Global, text: &[u8]) -> Result<Vec<u8>, Fault<Refusal>>
    ensures { Answers (λ out. out.items) result (marks_asked text.now) }
{
    match read_commands(alloc, text) {
        Ok(commands) => Ok(marks_text(alloc, commands.as_slice())?),
        Err(Fault::Memory) => Err(Fault::Memory),
        Err(Fault::Refused(refusal)) => Err(Fault::Refused(Refusal::Commands(refusal))),
    }
}
