//! `Drawing`: the picture that the options and file names of snapdraw are for.
ghost use Rattle.std.specs.Prelude.{IfOk, IfSome};
ghost use Rattle.clap.specs.Matches.{found_of};
ghost use Rattle.clap.specs.declared.parser.matches.ArgMatches.{ArgMatches};
ghost use Rattle.snapdraw.specs.Drawings.{IsAskedBy};

use clap::error::ErrorKind;
use clap::{Arg, ArgMatches, Command, Error};
use snap_named_files::{Named, named_of};
use snap_options::{Invocation, advised, flag, is_given, kind_given, number, number_of, shipped};
use snap_words::MAX_ITEMS;
use std::alloc::{AllocError, Global};

/// The version of the program.
const VERSION: &str = "0.2.0";

/// What stands under the options.
const MORE: &str = "\
Reads: the files LISTING and SCHEDULE, or SCHEDULE alone with --shipped

Examples:
  snapdraw examples/u.txt examples/prompt/borrowed/schedule.txt > run.svg
  snapdraw --shipped seq examples/shipped-borrowed-view/stdin --reads > run.svg";

/// The picture that a command line is for.
#[derive(Clone, Copy)]
pub struct Drawing<'a> {
    pub named: Named<'a>,
    pub from: Option<u64>,
    pub to: Option<u64>,
    pub reads: bool,
}

/// Returns the arguments that the program takes.
fn command<'a>(alloc: Global) -> Result<Command<'a>, AllocError> {
    let kind = shipped(
        alloc,
        "Draws the shipped listing of this kind of registers;{n}no LISTING is named",
    );
    let files = Arg::new(alloc, "FILE").required(true).num_args(1..=2).help(
        "A listing and a schedule; a schedule alone with --shipped",
    );
    let reads = flag(
        alloc,
        "reads",
        "Draws a line from the last write of a word to each{n}read of it",
    );
    let explain = flag(
        alloc,
        "explain",
        "Explains on standard error where and why a file is{n}refused",
    );
    Command::new(alloc, "snapdraw")
        .about("Draws the run of a listing under a schedule as SVG")
        .version(VERSION)
        .after_help(MORE)
        .arg(files)?
        .arg(kind)?
        .arg(number(
            alloc,
            "from",
            "ITEM",
            1,
            MAX_ITEMS,
            "The first item that is drawn",
        ))?
        .arg(number(
            alloc,
            "to",
            "ITEM",
            1,
            MAX_ITEMS,
            "The last item that is drawn",
        ))?
        .arg(reads)?
        .arg(explain)
}

/// Returns what matched arguments are for.
fn drawing_by<'a>(matches: &ArgMatches<'a>) -> Option<Invocation<Drawing<'a>>>
    ensures { IfSome result (IsAskedBy (found_of matches.now)) }
{
    let kind = kind_given(matches)?;
    let names = matches.get_strs("FILE")?;
    let request = Drawing {
        named: named_of(kind, names)?,
        from: number_of(matches, "from"),
        to: number_of(matches, "to"),
        reads: is_given(matches, "reads"),
    };
    let explains = is_given(matches, "explain");
    Some(Invocation { request, explains })
}

/// Returns what the arguments ask for, the program's own name first: what matched arguments do. That
/// `clap` finds what stands there is its own promise.
///
/// # Errors
///
/// The error of `clap` where the arguments are invalid, or ask for help or the version.
pub(crate) fn invocation_of<'a>(
    alloc: Global,
    arguments: &'a [String],
) -> Result<Invocation<Drawing<'a>>, Error>
    ensures { IfOk result (λ asked. (m : ArgMatches) × IsAskedBy (found_of m) asked) }
{
    let mut command = command(alloc)?;
    let matches = match command.try_get_matches_from_mut(arguments) {
        Ok(matches) => matches,
        Err(error) => return Err(advised(&mut command, arguments, error)?),
    };
    match drawing_by(&matches) {
        Some(asked) => Ok(asked),
        None => Err(command.error(
            ErrorKind::WrongNumberOfValues,
            "a listing and a schedule are wanted, or a schedule alone with --shipped",
        )?),
    }
}
