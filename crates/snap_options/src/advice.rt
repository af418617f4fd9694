//! `advised`: the error of a command line, which names the kind that was meant where `--shipped`
//! names a listing by its letter; `mended`: its text, with advice that leads somewhere.
use clap::error::ErrorKind;
use clap::{Command, Error};
use std::alloc::{AllocError, Global};

/// Returns the advice on a value of `--shipped` that is the letter of a shipped listing.
fn advice_on(value: &str) -> Option<&'static str> {
    match value {
        "u" | "U" => Some("listing U is the one of kind seq: `--shipped seq`"),
        "b" | "B" => Some("listing B is the one of kind bit: `--shipped bit`"),
        "m" | "M" => Some("listing M is the one of kind multi: `--shipped multi`"),
        _ => None,
    }
}

/// Returns the value of `--shipped` in a word of the command line, where the word before it was
/// that option or not; an empty text if there is none.
fn value_in(word: &str, is_behind: bool) -> &str {
    if is_behind {
        return word;
    }
    match word.strip_prefix("--shipped=") {
        Some(value) => value,
        None => "",
    }
}

/// Returns the kind that was meant where `--shipped` gives the letter of a shipped listing, as
/// advice; `None` where it gives none.
fn shipped_advice(arguments: &[String]) -> Option<&'static str> {
    let mut is_behind = false;
    for argument in arguments {
        let word = argument.as_str();
        if let Some(advice) = advice_on(value_in(word, is_behind)) {
            return Some(advice);
        }
        is_behind = word == "--shipped";
    }
    None
}

/// Returns the error of a command line, which names the kind that was meant where `--shipped` gives
/// the letter of a shipped listing.
///
/// # Errors
///
/// `AllocError` where memory runs out.
pub fn advised(
    command: &mut Command<'_>,
    arguments: &[String],
    error: Error,
) -> Result<Error, AllocError> {
    match shipped_advice(arguments) {
        Some(advice) if error.kind() == ErrorKind::InvalidValue => {
            command.error(ErrorKind::InvalidValue, advice)
        }
        _ => Ok(error),
    }
}

/// What is said of a number that is not written in digits.
const DIGITS: &str = "\n\n  tip: a number is written in digits, as in 1000000";

/// Returns whether a line advises to pass an option as a value, which no program takes.
fn leads_nowhere(line: &str) -> bool {
    line.starts_with("  tip: to pass '")
}

/// Returns the advice behind a line: on a number that is not written in digits.
fn advice_behind(line: &str) -> &'static str {
    if line.ends_with(": invalid digit found in string") {
        DIGITS
    } else {
        ""
    }
}

/// Returns the text of an error of a command line, without a tip that leads nowhere and the empty
/// line behind it, and with advice on numbers.
///
/// # Errors
///
/// `AllocError` where memory runs out.
pub fn mended(alloc: Global, text: &str) -> Result<String, AllocError> {
    let mut told = String::new(alloc);
    let mut was_empty = false;
    for line in text.lines() {
        let is_empty = line.is_empty();
        if !leads_nowhere(line) && !(is_empty && was_empty) {
            told.push_str(line)?;
            told.push_str(advice_behind(line))?;
            told.push_str("\n")?;
        }
        was_empty = is_empty || was_empty && leads_nowhere(line);
    }
    Ok(told)
}
