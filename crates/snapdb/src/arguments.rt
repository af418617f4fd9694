//! `invocation_of`: the options and file names of snapdb, and the session that they ask for.
ghost use Rattle.std.specs.Prelude.{IfOk, IfSome};
ghost use Rattle.clap.specs.Matches.{found_of};
ghost use Rattle.clap.specs.declared.parser.matches.ArgMatches.{ArgMatches};
ghost use Rattle.snapdb.specs.Sessions.{IsAskedBy};

use clap::error::ErrorKind;
use clap::{Arg, ArgMatches, Command, Error};
use snap_named_files::{Named, named_of};
use snap_options::{Invocation, advised, flag, is_given, kind_given, shipped};
use std::alloc::{AllocError, Global};

/// The version of the program.
const VERSION: &str = "0.2.0";

/// What stands under the options.
const MORE: &str = "\
Reads: the files LISTING and SCHEDULE, or SCHEDULE alone with --shipped; and
lines from standard input, each of which is answered before the next is read

Examples:
  snapdb examples/u.txt examples/prompt/borrowed/schedule.txt
  snapdb --shipped seq examples/prompt/borrowed/schedule.txt";

/// Returns the arguments that the program takes.
fn command<'a>(alloc: Global) -> Result<Command<'a>, AllocError> {
    let files = Arg::new(alloc, "FILE").required(true).num_args(1..=2).help(
        "A listing and a schedule; a schedule alone with --shipped",
    );
    let kind = shipped(
        alloc,
        "Takes the shipped listing of this kind of registers;{n}no LISTING is named",
    );
    let explain = flag(
        alloc,
        "explain",
        "Explains on standard error where and why a file is{n}refused",
    );
    Command::new(alloc, "snapdb")
        .about("Opens a debugger with a prompt over a listing and a schedule")
        .version(VERSION)
        .after_help(MORE)
        .arg(files)?
        .arg(kind)?
        .arg(explain)
}

/// Returns what matched arguments ask for.
fn session_by<'a>(matches: &ArgMatches<'a>) -> Option<Invocation<Named<'a>>>
    ensures { IfSome result (IsAskedBy (found_of matches.now)) }
{
    let kind = kind_given(matches)?;
    let names = matches.get_strs("FILE")?;
    let request = named_of(kind, names)?;
    let explains = is_given(matches, "explain");
    Some(Invocation { request, explains })
}

/// Returns what the arguments ask for, the program's own name first: what matched arguments do. That
/// `clap` finds what stands there is its own promise.
///
/// # Errors
///
/// The error of `clap` where the arguments are invalid, or ask for help or the version.
pub(crate) fn invocation_of<'a>(
    alloc: Global,
    arguments: &'a [String],
) -> Result<Invocation<Named<'a>>, Error>
    ensures { IfOk result (λ asked. (m : ArgMatches) × IsAskedBy (found_of m) asked) }
{
    let mut command = command(alloc)?;
    let matches = match command.try_get_matches_from_mut(arguments) {
        Ok(matches) => matches,
        Err(error) => return Err(advised(&mut command, arguments, error)?),
    };
    match session_by(&matches) {
        Some(asked) => Ok(asked),
        None => Err(command.error(
            ErrorKind::WrongNumberOfValues,
            "a listing and a schedule are wanted, or a schedule alone with --shipped",
        )?),
    }
}
