//! The short forms of the prompt's commands: a line whose first word is one letter, as `s` for
//! `step`, is spelled out.
ghost use Rattle.std.specs.Prelude.{◌≡◌, ◌++◌, IfOk, OnOk};
ghost use Rattle.snap_prompt.specs.Ask.{long_word, spelled_out, stands_alone};

use std::alloc::{AllocError, Global};

/// Returns whether the byte before `rest` is a letter or a digit alone.
fn stands_alone(rest: &[u8]) -> bool
    ensures { result ≡ stands_alone rest.now }
{
    match rest {
        [next, ..] => !(next.is_ascii_lowercase() || next.is_ascii_digit()),
        [] => true,
    }
}

/// Appends the word that a letter stands for.
fn push_long_word(out: &mut Vec<u8>, letter: u8) -> Result<(), AllocError>
    ensures { OnOk result (out.new.items ≡ out.old.items ++ long_word letter) }
{
    match letter {
        b's' => out.extend_from_slice(b"step"),
        b'b' => out.extend_from_slice(b"back"),
        b'r' => out.extend_from_slice(b"run"),
        b'g' => out.extend_from_slice(b"goto"),
        b'p' => out.extend_from_slice(b"show"),
        _ => Ok(out.push(letter)?),
    }
}

/// Returns a line with its first word spelled out if it is short.
pub(crate) fn spelled_out(alloc: Global, line: &[u8]) -> Result<Vec<u8>, AllocError>
    ensures { IfOk result (λ text. text.items ≡ spelled_out line.now) }
{
    let mut text = Vec::new(alloc);
    match line {
        [first, rest @ ..] if stands_alone(rest) => {
            push_long_word(&mut text, *first)?;
            text.extend_from_slice(rest)?;
        }
        _ => text.extend_from_slice(line)?,
    }
    Ok(text)
}
