//! `Search`: the arguments of snaphunt, and what they are for: a listing, a plan of schedules, and
//! the failures to hunt.
ghost use Rattle.std.specs.Prelude.{IfOk, IfSome};
ghost use Rattle.snaphunt.specs.Search.{IsSearch};

use clap::error::ErrorKind;
use clap::{Arg, ArgMatches, Command, Error};
use snap_chance::{MAX_TURNS, Pace, Plan};
use snap_hunt::{StepBound, Wanted};
use snap_hunt_output::HuntRequest;
use snap_options::{Invocation, advised, flag, is_given, kind_given, number, number_of, shipped};
use snap_words::{KindTag, MAX_COUNT, Shape};
use std::alloc::{AllocError, Global};

/// The version of the program.
const VERSION: &str = "0.2.0";

/// The paces that `--pace` takes.
const PACES: &[&str] = &[
    "mixed",
    "bursts",
    "interruptions",
    "rounds",
    "witnesses",
    "duels",
    "coins",
];

/// The failures that `--fails` takes.
const FAILURES: &[&str] = &["linearizable", "point", "trap", "steps"];

/// The failures that are hunted by default.
const USUAL: &[&str] = &["linearizable", "trap", "steps"];

/// The most runs of a hunt.
const MAX_RUNS: u64 = 1_000_000_000_000;

/// The greatest depth.
const MAX_DEPTH: u64 = 100;

/// What is said of `--pace`.
const PACE_HELP: &str = "\
How processes take turns [possible values: mixed,{n}\
bursts, interruptions, rounds, witnesses, duels,{n}coins]";

/// What is said of `--fails`.
const FAILS_HELP: &str = "\
What is hunted, with commas between;{n}linearizable,trap,steps by default{n}\
[possible values: linearizable, point, trap, steps]";

/// What is said of `--repeat`.
const REPEAT_HELP: &str = "\
In half of the runs values are from 0 to this, and come{n}\
back; 0: in none; without --depth in none with witnesses{n}or of duels";

/// What stands under the options.
const MORE: &str = "\
Reads: the file LISTING, or nothing with --shipped

Ends with status 4 where a run that fails was printed, as an input of
'snaplab debug'.

Examples:
  snaphunt --shipped seq --runs 5000
  snaphunt examples/hunts/gives-up.txt > found.txt";

/// The listing in whose runs is hunted.
#[derive(Clone, Copy)]
pub enum Listed<'a> {
    /// The one in the file of this name.
    File(&'a str),
    /// The one that is shipped for this kind.
    Shipped(KindTag),
}

/// What a command line is for: the listing, and what is hunted in its runs.
#[derive(Clone, Copy)]
pub struct Search<'a> {
    pub listed: Listed<'a>,
    pub asked: HuntRequest,
}

/// Returns an option that takes a number, with the number that it has if it is not given.
fn number_or<'a>(
    alloc: Global,
    name: &'a str,
    least: u64,
    most: u64,
    usual: &'a str,
    help: &'a str,
) -> Arg<'a> {
    number(alloc, name, "N", least, most, help).default_value(usual)
}

/// Returns the arguments that say how many processes and words there are.
fn with_shape<'a>(alloc: Global, command: Command<'a>) -> Result<Command<'a>, AllocError> {
    command
        .arg(number_or(
            alloc,
            "processes",
            1,
            MAX_COUNT,
            "3",
            "How many processes there are",
        ))?
        .arg(number_or(
            alloc,
            "words",
            0,
            MAX_COUNT,
            "0",
            "How many words there are;{n}0: one for each process",
        ))
}

/// Returns the arguments that say how schedules are made.
fn with_plan<'a>(alloc: Global, command: Command<'a>) -> Result<Command<'a>, AllocError> {
    let pace = Arg::new(alloc, "pace")
        .long("pace")
        .value_name("PACE")
        .value_parser(PACES)
        .default_value("mixed")
        .hide_possible_values(true)
        .help(PACE_HELP);
    with_shape(alloc, command)?
        .arg(pace)?
        .arg(number(
            alloc,
            "depth",
            "D",
            1,
            MAX_DEPTH,
            "Priorities, lowered at D - 1 turns, decide which{n}process moves",
        ))?
        .arg(number_or(
            alloc,
            "turns",
            1,
            MAX_TURNS,
            "120",
            "How many turns a schedule has",
        ))?
        .arg(number_or(
            alloc,
            "crash",
            0,
            1_000,
            "0",
            "How many of a thousand turns are crashes",
        ))?
        .arg(number_or(alloc, "repeat", 0, 4_294_967_295, "1", REPEAT_HELP))
}

/// Returns the arguments of the failures to hunt.
fn with_failures<'a>(alloc: Global, command: Command<'a>) -> Result<Command<'a>, AllocError> {
    let fails = Arg::new(alloc, "fails")
        .long("fails")
        .value_name("WHAT")
        .value_parser(FAILURES)
        .value_delimiter(',')
        .hide_possible_values(true)
        .help(FAILS_HELP);
    command
        .arg(fails)?
        .arg(number_or(
            alloc,
            "steps",
            0,
            1_000_000,
            "0",
            "Hunts an operation of more own steps than this; 0: than{n}the shipped listing takes",
        ))?
        .arg(number_or(
            alloc,
            "collects",
            0,
            1_000_000,
            "0",
            "Hunts a scan of more double collects than this;{n}0: none",
        ))
}

/// Returns the arguments that a hunt takes.
fn command<'a>(alloc: Global) -> Result<Command<'a>, AllocError> {
    let listing = Arg::new(alloc, "LISTING").help("The file of the listing");
    let kind = shipped(
        alloc,
        "Hunts in the shipped listing of this kind of registers;{n}no LISTING is named",
    );
    let explain = flag(
        alloc,
        "explain",
        "Explains on standard error where and why the listing{n}is refused",
    );
    let command = Command::new(alloc, "snaphunt")
        .about("Looks for a run of a listing that fails")
        .version(VERSION)
        .after_help(MORE)
        .arg(listing)?
        .arg(kind)?
        .arg(explain)?;
    let command = with_failures(alloc, command)?
        .arg(number_or(
            alloc,
            "runs",
            1,
            MAX_RUNS,
            "100000",
            "How many runs are made",
        ))?
        .arg(number_or(
            alloc,
            "seed",
            0,
            u64::MAX,
            "1",
            "What decides all schedules",
        ))?;
    with_plan(alloc, command)
}

/// Returns the most steps that an operation may take, if they are bounded by a number or by a word.
fn step_bound(most: u64, asked: bool) -> Option<StepBound> {
    if most > 0 {
        Some(StepBound::Given(most))
    } else if asked {
        Some(StepBound::Shipped)
    } else {
        None
    }
}

/// Returns whether a failure is among the words behind `--fails`, or among the usual ones where
/// there are none.
fn is_asked(words: Option<&[&str]>, failure: &str) -> bool {
    match words {
        Some(words) => words.contains(&failure),
        None => USUAL.contains(&failure),
    }
}

/// Returns the failures to hunt.
fn wanted_of(arguments: &ArgMatches<'_>) -> Option<Wanted> {
    let collects = number_of(arguments, "collects")?;
    let steps = number_of(arguments, "steps")?;
    let words = arguments.get_raw("fails");
    Some(Wanted {
        linearizable: is_asked(words, "linearizable"),
        point: is_asked(words, "point"),
        trap: is_asked(words, "trap"),
        steps: step_bound(steps, is_asked(words, "steps")),
        collects: if collects == 0 { None } else { Some(collects) },
    })
}

/// Returns how schedules are to be made.
fn plan_of(arguments: &ArgMatches<'_>) -> Option<Plan> {
    let processes = number_of(arguments, "processes")?;
    let words = number_of(arguments, "words")?;
    let words = if words == 0 { processes } else { words };
    let Ok(shape) = Shape::new(processes, words) else {
        return None;
    };
    let pace = match arguments.get_str("pace")? {
        "bursts" => Pace::Bursts,
        "interruptions" => Pace::Interruptions,
        "rounds" => Pace::Rounds,
        "witnesses" => Pace::Witnesses,
        "duels" => Pace::Duels,
        "coins" => Pace::Coins,
        _ => Pace::Mixed,
    };
    let turns = number_of(arguments, "turns")?;
    if turns > MAX_TURNS {
        return None;
    }
    let crashes = number_of(arguments, "crash")?;
    let Ok(repeated) = u32::try_from(number_of(arguments, "repeat")?) else {
        return None;
    };
    let plan = Plan::new(shape, pace, turns, crashes, repeated);
    Some(plan.with_depth(number_of(arguments, "depth")))
}

/// Returns the listing to hunt in: a file, or a shipped one, and not both.
fn listed_of<'a>(file: Option<&'a str>, shipped: Option<KindTag>) -> Option<Listed<'a>> {
    match (file, shipped) {
        (Some(name), None) => Some(Listed::File(name)),
        (None, Some(kind)) => Some(Listed::Shipped(kind)),
        _ => None,
    }
}

/// Returns what the arguments are for.
fn search_of<'a>(arguments: &ArgMatches<'a>) -> Option<Invocation<Search<'a>>>
    ensures { IfSome result (λ asked. IsSearch asked.request) }
{
    let runs = number_of(arguments, "runs")?;
    if runs > MAX_RUNS {
        return None;
    }
    let request = Search {
        listed: listed_of(arguments.get_str("LISTING"), kind_given(arguments)?)?,
        asked: HuntRequest {
            plan: plan_of(arguments)?,
            wanted: wanted_of(arguments)?,
            seed: number_of(arguments, "seed")?,
            runs,
        },
    };
    let explains = is_given(arguments, "explain");
    Some(Invocation { request, explains })
}

/// Returns what the arguments are for, the program's own name first. The arguments name a file or a
/// shipped listing, and not both.
///
/// # Errors
///
/// The error of `clap` where the arguments are invalid, or ask for help or the version.
pub fn invocation_of<'a>(
    alloc: Global,
    arguments: &'a [String],
) -> Result<Invocation<Search<'a>>, Error>
    ensures { IfOk result (λ asked. IsSearch asked.request) }
{
    let mut command = command(alloc)?;
    let matches = match command.try_get_matches_from_mut(arguments) {
        Ok(matches) => matches,
        Err(error) => return Err(advised(&mut command, arguments, error)?),
    };
    match search_of(&matches) {
        Some(asked) => Ok(asked),
        None => Err(command.error(
            ErrorKind::MissingRequiredArgument,
            "a listing is wanted: a file, or a kind behind --shipped",
        )?),
    }
}
