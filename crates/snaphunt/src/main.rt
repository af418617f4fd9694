//! Looks for a run of a listing that fails, and prints a small one as an input of the debugger.
#![tactic(auto)]

ghost use Rattle.std.specs.Prelude.{IfOk};
ghost use Rattle.snaphunt.specs.Search.{IsSearch};

mod answers;
mod arguments;
mod progress;
mod searching;

use crate::answers::{Resources, answer};
use crate::arguments::{Search, invocation_of};
use crate::progress::Progress;
use snap_options::{Invocation, Unasked, Unread, unasked_by, words_of};
use snap_streams::{Disk, Messages, Piped, Std, end};
use std::io::{self, IsTerminal};
use std::process::ExitCode;

/// Returns what the words of a command line ask for, in which a refusal is explained in any case at
/// a terminal.
fn line_of<'a>(
    rt: &HostRuntime,
    words: &'a Result<Vec<String>, Unread>,
) -> Result<Invocation<Search<'a>>, Unasked>
    ensures { IfOk result (λ asked. IsSearch asked.request) }
{
    match words {
        Ok(words) => match invocation_of(rt.alloc(), words.as_slice()) {
            Ok(asked) => Ok(Invocation {
                request: asked.request,
                explains: asked.explains || rt.stderr().is_terminal(),
            }),
            Err(error) => Err(unasked_by(rt.alloc(), &error)),
        },
        Err(unread) => Err(Unasked::Unread(*unread)),
    }
}

fn main(rt: HostRuntime) -> ExitCode {
    let words = words_of(&rt);
    let line = line_of(&rt, &words);
    let mut progress = Progress::new(&rt);
    let mut sink = Piped::new(io::writer(&rt));
    let mut errors = Messages::new(rt.alloc());
    let resources = Resources {
        threads: &rt,
        alloc: rt.alloc(),
        files: &Disk(&rt),
    };
    let status = answer(&resources, &line, &mut progress, &mut sink, &mut errors);
    ExitCode::from(end(status, &sink, &errors, &mut Std::new(rt.stderr())))
}
