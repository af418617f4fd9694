//! A debugger with a prompt: a listing and a schedule from files, and lines from standard input.
#![tactic(auto)]

mod about;
mod answers;
mod arguments;
mod saved_files;
mod system_files;

use answers::answer;
use arguments::invocation_of;
use saved_files::SavedFiles;
use snap_named_files::Named;
use snap_options::{Invocation, Unasked, Unread, unasked_by, words_of};
use snap_prompt::Shows;
use snap_streams::{Disk, Messages, Piped, Std, Terminal, end};
use std::io::{self, IsTerminal};
use std::process::ExitCode;
use system_files::SystemFiles;

/// Returns what the words of a command line ask for, in which a refusal is explained in any case at
/// a terminal.
fn line_of<'a>(
    rt: &HostRuntime,
    words: &'a Result<Vec<String>, Unread>,
) -> Result<Invocation<Named<'a>>, Unasked> {
    match words {
        Ok(words) => match invocation_of(rt.alloc(), words.as_slice()) {
            Ok(asked) => Ok(asked.explained_if(rt.stderr().is_terminal())),
            Err(error) => Err(unasked_by(rt.alloc(), &error)),
        },
        Err(unread) => Err(Unasked::Unread(*unread)),
    }
}

/// Returns what is shown beside the answers: no greeting unless they are read at a terminal, and no
/// position unless lines are typed at one.
fn shows_at(rt: &HostRuntime) -> Shows {
    match (rt.stdin().is_terminal(), rt.stdout().is_terminal()) {
        (true, true) => Shows::Greeting,
        (true, false) => Shows::Positions,
        (false, _) => Shows::Answers,
    }
}

fn main(rt: HostRuntime) -> ExitCode {
    let words = words_of(&rt);
    let line = line_of(&rt, &words);
    let shows = shows_at(&rt);
    let writer = Piped::new(io::writer(&rt));
    let mut console = Terminal::new(Std::new(rt.reader()), writer);
    let mut errors = Messages::new(rt.alloc());
    let status = answer(
        rt.alloc(),
        &line,
        shows,
        &mut SavedFiles::new(Disk(&rt), SystemFiles::new(&rt)),
        &mut console,
        &mut errors,
    );
    let mut device = Std::new(rt.stderr());
    ExitCode::from(end(status, console.writer(), &errors, &mut device))
}
