//! The options that programs share, and what is given by an option: a number (`number_of`), a flag
//! (`is_given`), or a kind of registers (`kind_given`).
ghost use Rattle.std.specs.Prelude.{◌≡◌, codes};
ghost use Rattle.clap.specs.Matches.{first_value, found_of, one_text};
ghost use Rattle.snap_options.specs.Given.{IsFlag, IsNumber, kind_given};

use clap::builder::ValueParser;
use clap::{Arg, ArgAction, ArgMatches};
use snap_tasks::kind_of;
use snap_words::KindTag;
use std::alloc::Global;

/// The kinds that `--shipped` takes.
const KINDS: &[&str] = &["seq", "bit", "multi"];

/// Returns an option without a value.
pub fn flag<'a>(alloc: Global, name: &'a str, help: &'a str) -> Arg<'a> {
    Arg::new(alloc, name)
        .long(name)
        .action(ArgAction::SetTrue)
        .help(help)
}

/// Returns an option that takes a number from `least` to `most`.
pub fn number<'a>(
    alloc: Global,
    name: &'a str,
    value: &'a str,
    least: u64,
    most: u64,
    help: &'a str,
) -> Arg<'a> {
    Arg::new(alloc, name)
        .long(name)
        .value_name(value)
        .value_parser(ValueParser::unsigned(least, most))
        .help(help)
}

/// Returns the option `--shipped`, which takes a kind of registers.
pub fn shipped<'a>(alloc: Global, help: &'a str) -> Arg<'a> {
    Arg::new(alloc, "shipped")
        .long("shipped")
        .value_name("KIND")
        .value_parser(KINDS)
        .help(help)
}

/// Returns the number that the option `name` gives; `None` where the option was not given, or its
/// text is no number.
pub fn number_of(arguments: &ArgMatches<'_>, name: &str) -> Option<u64>
    ensures { IsNumber (one_text (found_of arguments.now) name.now) result }
{
    arguments.get_one::<u64>(name)
}

/// Returns whether the flag `name` was given.
pub fn is_given(arguments: &ArgMatches<'_>, name: &str) -> bool
    ensures { IsFlag (one_text (found_of arguments.now) name.now) result }
{
    arguments.get_flag(name)
}

/// Returns the kind that `--shipped` gives, if it was given; `None` where there is no such kind.
pub fn kind_given(arguments: &ArgMatches<'_>) -> Option<Option<KindTag>>
    ensures { result ≡ kind_given (first_value (found_of arguments.now) (codes "shipped")) }
{
    match arguments.get_str("shipped") {
        Some(name) => Some(Some(kind_of(name)?)),
        None => Some(None),
    }
}
