//! `Invocation`: what the arguments of a command line ask for; `Unasked`: what else a command line
//! comes to, and what a program does about that.
ghost use Rattle.std.specs.Prelude.{◌≡◌, false};
ghost use Rattle.snap_faults.specs.Names.{of_program};
ghost use Rattle.snap_options.specs.CommandLines.{AnswersUnasked, SaysUnread, explained_if};

use crate::advice::mended;
use clap::Error;
use clap::error::ErrorKind;
use snap_faults::{Names, help, say_no_memory, say_no_text};
use snap_streams::{ByteSink, say};
use std::alloc::Global;
use std::{env, io};

/// What arguments ask for, and whether a refusal is explained.
#[derive(Clone, Copy)]
pub struct Invocation<A> {
    pub request: A,
    pub explains: bool,
}

impl<A> Invocation<A> {
    /// Returns the same, in which a refusal is explained in any case if `explains`.
    pub fn explained_if(self, explains: bool) -> Invocation<A>
        ensures { result ≡ explained_if explains self }
    {
        Invocation {
            request: self.request,
            explains: self.explains || explains,
        }
    }
}

/// Why the words of a command line cannot be read.
#[derive(Clone, Copy)]
pub enum Unread {
    /// They are not valid UTF-8.
    NoText,
    NoMemory,
}

/// What a command line comes to that asks for nothing else.
#[derive(Drop)]
pub enum Unasked {
    /// The text of the help, or of the version, that it asks for.
    Help(String),
    /// What is said of invalid arguments.
    Wrong(String),
    /// It cannot be read.
    Unread(Unread),
}

/// Returns the words of the command line, the program's own name first.
///
/// # Errors
///
/// `Unread` where they are no texts, or memory runs out.
pub fn words_of(rt: &HostRuntime) -> Result<Vec<String>, Unread> {
    let arguments = match env::args(rt) {
        Ok(arguments) => arguments,
        Err(error) if error.kind() == io::ErrorKind::OutOfMemory => return Err(Unread::NoMemory),
        Err(_) => return Err(Unread::NoText),
    };
    match arguments.collect::<Vec<String>>(rt.alloc()) {
        Ok(words) => Ok(words),
        Err(_) => Err(Unread::NoMemory),
    }
}

/// Classifies an error of `clap`: a text that was asked for, wrong arguments, or no memory.
pub fn unasked_by(alloc: Global, error: &Error) -> Unasked {
    if error.kind() == ErrorKind::OutOfMemory {
        return Unasked::Unread(Unread::NoMemory);
    }
    let Ok(text) = format!(in alloc; "{error}") else {
        return Unasked::Unread(Unread::NoMemory);
    };
    if !error.use_stderr() {
        return Unasked::Help(text);
    }
    match mended(alloc, text.as_str()) {
        Ok(told) => Unasked::Wrong(told),
        Err(_) => Unasked::Unread(Unread::NoMemory),
    }
}

/// Says why a command line cannot be read, and returns the status.
pub fn say_unread<E: ByteSink>(unread: Unread, errors: &mut E) -> u8
    requires { (E.state errors.old).failed ≡ false }
    ensures { SaysUnread unread result (E.state errors.old) (E.state errors.new) }
{
    match unread {
        Unread::NoText => {
            say_no_text(errors);
            2
        }
        Unread::NoMemory => {
            say_no_memory(errors);
            1
        }
    }
}

/// Writes the help or the version, or says what is wrong with a command line of `program`, and
/// returns the status.
pub fn answer_unasked<W: ByteSink, E: ByteSink>(
    alloc: Global,
    program: &str,
    unasked: &Unasked,
    sink: &mut W,
    errors: &mut E,
) -> u8
    requires sink { (W.state sink.old).failed ≡ false }
    requires errors { (E.state errors.old).failed ≡ false }
    ensures { AnswersUnasked (of_program program.now) unasked.now result (W.state sink.old)
        (W.state sink.new) (E.state errors.old) (E.state errors.new) }
{
    match unasked {
        Unasked::Help(text) => {
            let names = Names::of_program(program);
            help(alloc, &names, text.as_bytes(), sink, errors)
        }
        Unasked::Wrong(text) => {
            say(text.as_bytes(), errors);
            2
        }
        Unasked::Unread(unread) => say_unread(*unread, errors),
    }
}
