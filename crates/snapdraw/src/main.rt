//! Draws the run of a listing under a schedule as SVG: files in, standard output out.
#![tactic(auto)]

mod answers;
mod arguments;
mod drawing;

use crate::arguments::{Drawing, invocation_of};
use answers::answer;
use snap_options::{Invocation, Unasked, Unread, unasked_by, words_of};
use snap_picture::{LEGEND, Look, STYLE};
use snap_streams::{Disk, Messages, Piped, Std, end};
use std::io::{self, IsTerminal};
use std::process::ExitCode;

/// The look of a picture.
const LOOK: Look<'static> = Look {
    style: STYLE,
    legend: LEGEND,
};

/// Returns what the words of a command line ask for, in which a refusal is explained in any case at
/// a terminal.
fn line_of<'a>(
    rt: &HostRuntime,
    words: &'a Result<Vec<String>, Unread>,
) -> Result<Invocation<Drawing<'a>>, Unasked> {
    match words {
        Ok(words) => match invocation_of(rt.alloc(), words.as_slice()) {
            Ok(asked) => Ok(asked.explained_if(rt.stderr().is_terminal())),
            Err(error) => Err(unasked_by(rt.alloc(), &error)),
        },
        Err(unread) => Err(Unasked::Unread(*unread)),
    }
}

fn main(rt: HostRuntime) -> ExitCode {
    let words = words_of(&rt);
    let line = line_of(&rt, &words);
    let mut sink = Piped::new(io::writer(&rt));
    let mut errors = Messages::new(rt.alloc());
    let status = answer(rt.alloc(), &line, &LOOK, &Disk(&rt), &mut sink, &mut errors);
    ExitCode::from(end(status, &sink, &errors, &mut Std::new(rt.stderr())))
}
