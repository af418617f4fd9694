//! Runs listings over shared registers: standard input in, standard output out.
#![tactic(auto)]

ghost use Rattle.std.specs.Prelude.{IfOk};
ghost use Rattle.snap_program.specs.Invocations.{HasLimits};

use snap_options::{Invocation, Unasked, Unread, unasked_by, words_of};
use snap_program::{Order, answer, invocation_of, say_terminal};
use snap_streams::{Messages, Piped, Std, end};
use std::io::{self, IsTerminal};
use std::process::ExitCode;

/// Returns what the words of a command line ask for, in which a refusal is explained in any case at
/// a terminal.
fn line_of(
    rt: &HostRuntime,
    words: &Result<Vec<String>, Unread>,
) -> Result<Invocation<Order>, Unasked>
    ensures { IfOk result HasLimits }
{
    match words {
        Ok(words) => match invocation_of(rt.alloc(), words.as_slice()) {
            Ok(asked) => Ok(asked.explained_if(rt.stderr().is_terminal())),
            Err(error) => Err(unasked_by(rt.alloc(), &error)),
        },
        Err(unread) => Err(Unasked::Unread(*unread)),
    }
}

fn main(rt: HostRuntime) -> ExitCode {
    let line = line_of(&rt, &words_of(&rt));
    let mut source = Std::new(rt.reader());
    let mut sink = Piped::new(io::writer(&rt));
    if rt.stdin().is_terminal() {
        say_terminal(&line, &mut Std::new(rt.stderr()));
    }
    let mut errors = Messages::new(rt.alloc());
    let status = answer(&rt, rt.alloc(), &line, &mut source, &mut sink, &mut errors);
    ExitCode::from(end(status, &sink, &errors, &mut Std::new(rt.stderr())))
}
