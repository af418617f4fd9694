//! `invocation_of`: the subcommands and options of snaplab, and the request that they make.
ghost use Rattle.std.specs.Prelude.{◌≡◌, ◌≤◌, IfOk, IfSome};
ghost use Rattle.clap.specs.Matches.{found_of};
ghost use Rattle.clap.specs.declared.parser.matches.ArgMatches.{ArgMatches};
ghost use Rattle.snap_tasks.specs.Request.{AreOptions, IsLimit};
ghost use Rattle.snap_program.specs.Invocations.{AreCrashesIn, AreOptionsIn, HasLimits, IsAsked};
ghost use Rattle.snap_program.specs.Invocations.{IsAskedBy, IsLimitIn, IsMostIn};
ghost use Rattle.snap_program.specs.Invocations.{crashes_or_none, limit_or_usual};
ghost use Rattle.snap_program.specs.Invocations.{most_or_usual, subject_of};

use crate::texts::{HELP, JUDGE, LIVE, OF_RUNS, OF_TEXTS, PROMELA, SURVEY, Told};
use clap::builder::ValueParser;
use clap::error::ErrorKind;
use clap::{Arg, ArgAction, ArgMatches, Command, Error};
use snap_options::{Invocation, advised, is_given, kind_given, number_of, shipped};
use snap_tasks::{Options, Request, Subject, request_of};
use snap_words::{KindTag, MAX_ITEMS};
use std::alloc::{AllocError, Global};

/// The version of the program.
const VERSION: &str = "0.2.0";

/// The most turns of a process if no limit is given.
const USUAL_LIMIT: u64 = 100_000;

/// The most processes that may crash in a model: all of them.
const MOST_CRASHES: u64 = 8;

/// The most configurations that a search keeps where no number is given.
const USUAL_MOST: u64 = 1_000_000;

/// What is said where the name of a file stands behind a subcommand.
const NO_FILES: &str = "\
snaplab takes no names of files, but reads standard input: use `<`,
       as in `snaplab check < FILE`";

/// What is asked for, and whether a survey is strict: ends with a status of its own where a run is
/// not clean.
#[derive(Clone, Copy)]
pub struct Order {
    pub request: Request,
    pub strict: bool,
}

/// Returns a subcommand with its help. The subcommand takes names of files, for which `NO_FILES` is
/// said.
fn subcommand<'a>(alloc: Global, told: Told) -> Result<Command<'a>, AllocError> {
    let (name, about, more) = told;
    let files = Arg::new(alloc, "FILE").num_args(0..=9).hide(true);
    Command::new(alloc, name)
        .about(about)
        .after_help(more)
        .arg(files)
}

/// Returns a subcommand that runs a listing: one of the input, or a shipped one.
fn running<'a>(alloc: Global, told: Told) -> Result<Command<'a>, AllocError> {
    let kind = shipped(
        alloc,
        "Takes the shipped listing of this kind of registers;{n}the input has none",
    );
    subcommand(alloc, told)?.arg(kind)
}

/// Returns the subcommand that plays scripts.
fn live<'a>(alloc: Global) -> Result<Command<'a>, AllocError> {
    let limit = Arg::new(alloc, "limit")
        .long("limit")
        .value_name("N")
        .value_parser(ValueParser::unsigned(1, MAX_ITEMS))
        .default_value("100000")
        .help("The most turns of a process");
    running(alloc, LIVE)?.arg(limit)
}

/// Returns an option without a value.
fn flag<'a>(alloc: Global, name: &'a str, help: &'a str) -> Arg<'a> {
    Arg::new(alloc, name)
        .long(name)
        .action(ArgAction::SetTrue)
        .help(help)
}

/// Returns the subcommand that surveys runs.
fn survey<'a>(alloc: Global) -> Result<Command<'a>, AllocError> {
    let strict = flag(
        alloc,
        "strict",
        "Ends with status 4 where a run is not linearizable,{n}or has a trap",
    );
    running(alloc, SURVEY)?.arg(strict)
}

/// Returns the subcommand that judges.
fn judge<'a>(alloc: Global) -> Result<Command<'a>, AllocError> {
    let history = flag(alloc, "history", "Judges a history: the whole input is one");
    let history = history.conflicts_with("shipped")?;
    let most = Arg::new(alloc, "most")
        .long("most")
        .value_name("N")
        .value_parser(ValueParser::unsigned(1, u64::MAX))
        .default_value("1000000")
        .help("The most configurations that a search{n}keeps");
    running(alloc, JUDGE)?.arg(history)?.arg(most)
}

/// Returns the subcommand that writes a model.
fn promela<'a>(alloc: Global) -> Result<Command<'a>, AllocError> {
    let crashes = Arg::new(alloc, "crashes")
        .long("crashes")
        .value_name("N")
        .value_parser(ValueParser::unsigned(0, MOST_CRASHES))
        .default_value("0")
        .help("So many processes may crash, at any time");
    running(alloc, PROMELA)?.arg(crashes)
}

/// Returns the option that has refusals explained.
fn explain<'a>(alloc: Global) -> Arg<'a> {
    flag(
        alloc,
        "explain",
        "Explains on standard error where and why an input{n}is refused",
    )
    .global(true)
}

/// Returns a command with the subcommands that read a text or an image.
fn with_texts<'a>(alloc: Global, command: Command<'a>) -> Result<Command<'a>, AllocError> {
    let mut command = command;
    for told in OF_TEXTS {
        command = command.subcommand(subcommand(alloc, told)?)?;
    }
    Ok(command)
}

/// Returns a command with the subcommands that run a listing.
fn with_runs<'a>(alloc: Global, command: Command<'a>) -> Result<Command<'a>, AllocError> {
    let mut command = command;
    for told in OF_RUNS {
        command = command.subcommand(running(alloc, told)?)?;
    }
    Ok(command)
}

/// Returns the arguments that the program takes.
fn command<'a>(alloc: Global) -> Result<Command<'a>, AllocError> {
    let command = Command::new(alloc, "snaplab")
        .override_help(HELP)
        .version(VERSION)
        .subcommand_required(true)
        .arg(explain(alloc))?;
    let command = with_texts(alloc, command)?;
    let command = with_runs(alloc, command)?;
    command
        .subcommand(judge(alloc)?)?
        .subcommand(survey(alloc)?)?
        .subcommand(live(alloc)?)?
        .subcommand(promela(alloc)?)
}

/// Returns the limit that is given, if processes may have it, or else the usual one.
fn limit_or_usual(given: Option<u64>) -> u64
    ensures value { result ≡ limit_or_usual given }
    ensures limit { IsLimit result }
{
    match given {
        Some(limit) if 1 <= limit && limit <= MAX_ITEMS => limit,
        _ => USUAL_LIMIT,
    }
}

/// Returns the limit among a subcommand's arguments, if it takes one. A subcommand takes no other
/// limit.
fn limit_of(arguments: &ArgMatches<'_>) -> u64
    ensures given { IsLimitIn (found_of arguments.now) result }
    ensures limit { IsLimit result }
{
    limit_or_usual(number_of(arguments, "limit"))
}

/// Returns the most configurations that a search is to keep, if a number is given, or else the
/// usual number.
fn most_or_usual(given: Option<u64>) -> u64
    ensures value { result ≡ most_or_usual given }
    ensures some { 1 ≤ result }
{
    match given {
        Some(most) if 1 <= most => most,
        _ => USUAL_MOST,
    }
}

/// Returns the most configurations that a search is to keep by a subcommand's arguments.
fn most_of(arguments: &ArgMatches<'_>) -> u64
    ensures given { IsMostIn (found_of arguments.now) result }
    ensures some { 1 ≤ result }
{
    most_or_usual(number_of(arguments, "most"))
}

/// Returns how many processes may crash at any time, if a number is given, or else none.
fn crashes_or_none(given: Option<u64>) -> u64
    ensures { result ≡ crashes_or_none given }
{
    match given {
        Some(crashes) => crashes,
        None => 0,
    }
}

/// Returns how many processes may crash at any time by a subcommand's arguments.
fn crashes_of(arguments: &ArgMatches<'_>) -> u64
    ensures { AreCrashesIn (found_of arguments.now) result }
{
    crashes_or_none(number_of(arguments, "crashes"))
}

/// Returns the listing that a subcommand runs: the shipped one of a kind if one is given.
fn subject_of(given: Option<KindTag>) -> Subject
    ensures { result ≡ subject_of given }
{
    match given {
        Some(kind) => Subject::Shipped(kind),
        None => Subject::FirstPart,
    }
}

/// Returns the options of a subcommand.
fn options_of(arguments: &ArgMatches<'_>) -> Option<Options>
    ensures given { IfSome result (AreOptionsIn (found_of arguments.now)) }
    ensures right { IfSome result AreOptions }
{
    let subject = subject_of(kind_given(arguments)?);
    Some(Options {
        subject,
        limit: limit_of(arguments),
        history: is_given(arguments, "history"),
        most: most_of(arguments),
        crashes: crashes_of(arguments),
    })
}

/// Returns the request of the subcommand `name`, by its own arguments and by all of them.
fn asked_by(name: &str, own: &ArgMatches<'_>, all: &ArgMatches<'_>) -> Option<Invocation<Order>>
    ensures asked { IfSome result (IsAskedBy name.now (found_of own.now) (found_of all.now)) }
    ensures limit { IfSome result HasLimits }
{
    let options = options_of(own)?;
    let request = request_of(name, &options)?;
    let strict = is_given(own, "strict");
    let explains = is_given(all, "explain");
    let request = Order { request, strict };
    Some(Invocation { request, explains })
}

/// Returns whether the name of a file stands behind the subcommand.
fn names_a_file(matches: &ArgMatches<'_>) -> bool {
    match matches.subcommand() {
        Some((_, arguments)) => arguments.contains_id("FILE"),
        None => false,
    }
}

/// Returns the request of the arguments of a subcommand.
fn request_by(matches: &ArgMatches<'_>) -> Option<Invocation<Order>>
    ensures asked { IfSome result (IsAsked matches.now) }
    ensures limit { IfSome result HasLimits }
{
    let (name, arguments) = matches.subcommand()?;
    asked_by(name, arguments, matches)
}

/// Returns what the arguments ask for, the program's own name first: what matched arguments do. That
/// `clap` finds what stands there is its own promise.
///
/// # Errors
///
/// The error of `clap` where the arguments are invalid, or ask for help or the version.
pub fn invocation_of<'a>(alloc: Global, arguments: &'a [String]) -> Result<Invocation<Order>, Error>
    ensures asked { IfOk result (λ asked. (m : ArgMatches) × IsAsked m asked) }
    ensures limit { IfOk result HasLimits }
{
    let mut command = command(alloc)?;
    let matches = match command.try_get_matches_from_mut(arguments) {
        Ok(matches) => matches,
        Err(error) => return Err(advised(&mut command, arguments, error)?),
    };
    if names_a_file(&matches) {
        return Err(command.error(ErrorKind::UnknownArgument, NO_FILES)?);
    }
    match request_by(&matches) {
        Some(asked) => Ok(asked),
        None => Err(command.error(ErrorKind::MissingSubcommand, "no subcommand")?),
    }
}
