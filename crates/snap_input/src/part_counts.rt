//! `parts_for`: the parts of an input, once they are counted: the listing, if it is not a shipped
//! one, and the texts after it.
ghost use Rattle.std.specs.Prelude.{◌≡◌, ◌≤◌, ◌<◌, ℕ, List, IfOk, length, map};
ghost use Rattle.snap_semantics.specs.Answers.{Answers};
ghost use Rattle.snap_input.specs.Input.{checked_parts, counted_parts, texts_for};
ghost use Rattle.snap_input.specs.Parts.{max_input, parts_of};
ghost use Rattle.snap_input.specs.RefusesAtOnce.{RefusesAtOnce};

use crate::parts::{count_separators, split_parts};
use snap_semantics::{Fault, Refusal};
use snap_tasks::Subject;
use std::alloc::Global;

/// The most bytes that an input may have.
pub const MAX_INPUT: usize = 16_777_216;

/// Returns how many of `parts` parts are texts behind the listing.
pub fn count_texts(subject: Subject, parts: usize) -> usize
    requires { 0 < parts }
    ensures { (ps : List (List ℕ)) → parts ≡ length ps → result ≡ length (texts_for subject ps) }
{
    match subject {
        Subject::FirstPart => parts - 1,
        Subject::Shipped(_) => parts,
    }
}

/// Checks that `count` texts stand behind the listing.
fn check_parts(subject: Subject, count: usize, input: &[u8]) -> Result<(), Refusal>
    requires { length input.now ≤ max_input }
    ensures checked { result ≡ checked_parts subject count (parts_of input.now) }
    ensures some { 0 < length (parts_of input.now) }
{
    let found = count_separators(input) + 1;
    if count_texts(subject, found) == count {
        Ok(())
    } else {
        Err(Refusal::WrongParts(found as u64))
    }
}

/// Returns the parts of `input`, which has `count` texts behind the listing.
///
/// # Errors
///
/// `Refused` with `WrongParts` where there is another number of them, even where memory runs out;
/// `Memory` where it does.
pub fn parts_for(
    alloc: Global,
    subject: Subject,
    count: usize,
    input: &[u8],
) -> Result<Vec<&[u8]>, Fault<Refusal>>
    requires { length input.now ≤ max_input }
    ensures parts { Answers (λ parts. map (λ part. part.now) parts.items) result
        (counted_parts subject count (parts_of input.now)) }
    ensures at_once { RefusesAtOnce (checked_parts subject count (parts_of input.now)) result }
    ensures some { IfOk result (λ parts. 0 < length parts.items) }
{
    check_parts(subject, count, input)?;
    Ok(split_parts(alloc, input)?)
}
