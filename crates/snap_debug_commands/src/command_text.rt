//! Debugger commands in their canonical text.
ghost use Rattle.std.specs.Prelude.{◌∷◌};
ghost use Rattle.snap_text.specs.Drafted.{Adds};
ghost use Rattle.snap_semantics.specs.Layout.{line_text};
ghost use Rattle.snap_semantics.specs.Token.{Identifier};
ghost use Rattle.snap_debug_commands.specs.CommandForms.{spelled_address};
ghost use Rattle.snap_debug_commands.specs.CommandForms.{spelled_breakpoint, spelled_command};

use crate::command::{Breakpoint, Command};
use snap_text::{Draft, Token};
use snap_words::{Address, Bank};

/// Appends the line of a keyword and a process with one of its lines.
fn push_breakpoint(out: &mut Draft, keyword: &[u8], breakpoint: &Breakpoint)
    ensures { Adds out.old out.new
        (line_text (Identifier keyword.now ∷ spelled_breakpoint breakpoint.now)) }
{
    out.push_laid_out(&[
        Token::Identifier(keyword),
        Token::Number(breakpoint.process),
        Token::Number(breakpoint.line),
    ]);
}

/// Appends the line of a keyword and a register.
fn push_register(out: &mut Draft, keyword: &[u8], address: &Address)
    ensures { Adds out.old out.new
        (line_text (Identifier keyword.now ∷ spelled_address address.now)) }
{
    let keyword = Token::Identifier(keyword);
    let i = Token::Number(address.i);
    let j = Token::Number(address.j);
    match address.bank {
        Bank::R => out.push_laid_out(&[keyword, Token::Identifier(b"r"), i]),
        Bank::Q => out.push_laid_out(&[keyword, Token::Identifier(b"q"), i, j]),
        Bank::P => out.push_laid_out(&[keyword, Token::Identifier(b"p"), i, j]),
        Bank::V => out.push_laid_out(&[keyword, Token::Identifier(b"v"), i]),
    }
}

/// Appends the line of `command`.
pub fn push_command(out: &mut Draft, command: &Command)
    ensures { Adds out.old out.new (line_text (spelled_command command.now)) }
{
    match command {
        Command::Step(k) => out.push_laid_out(&[Token::Identifier(b"step"), Token::Number(*k)]),
        Command::Back(k) => out.push_laid_out(&[Token::Identifier(b"back"), Token::Number(*k)]),
        Command::Goto(t) => out.push_laid_out(&[Token::Identifier(b"goto"), Token::Number(*t)]),
        Command::Run => out.push_laid_out(&[Token::Identifier(b"run")]),
        Command::ReverseRun => out.push_laid_out(&[Token::Identifier(b"rrun")]),
        Command::Break(breakpoint) => push_breakpoint(out, b"break", breakpoint),
        Command::Clear(breakpoint) => push_breakpoint(out, b"clear", breakpoint),
        Command::Watch(address) => push_register(out, b"watch", address),
        Command::Unwatch(address) => push_register(out, b"unwatch", address),
        Command::ShowRegister(address) => push_register(out, b"show", address),
        Command::ShowProcess(i) => out.push_laid_out(&[
            Token::Identifier(b"show"),
            Token::Number(*i),
        ]),
        Command::Values => out.push_laid_out(&[Token::Identifier(b"values")]),
        Command::Events => out.push_laid_out(&[Token::Identifier(b"events")]),
        Command::Where => out.push_laid_out(&[Token::Identifier(b"where")]),
    }
}
