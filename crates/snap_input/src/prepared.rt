//! `prepare` and `prepare_schedules`: what a task on an input works on, which is the program of a
//! listing and the texts behind it.
ghost use Rattle.std.specs.Prelude.{◌≡◌, ◌≤◌, ◌<◌, IfOk, length, map};
ghost use Rattle.snap_semantics.specs.Answers.{Answers};
ghost use Rattle.snap_input.specs.Input.{checked_parts, prepared, prepared_parts, texts_for};
ghost use Rattle.snap_input.specs.ManySchedules.{checked_schedules, prepared_schedules};
ghost use Rattle.snap_input.specs.Parts.{max_input, parts_of};
ghost use Rattle.snap_input.specs.RefusesAtOnce.{RefusesAtOnce};
ghost use Rattle.snap_tasks.specs.declared.subject.Subject.TheVariants.{FirstPart};

use crate::counts::check_schedules;
use crate::part_counts::parts_for;
use crate::split_parts;
use crate::subject::program_for;
use snap_asm_program::Program;
use snap_semantics::{Fault, Refusal};
use snap_tasks::Subject;
use std::alloc::Global;

/// The program of a listing, and the texts behind the listing.
#[derive(Drop)]
pub struct Prepared<'a> {
    pub program: Program,
    pub texts: Vec<&'a [u8]>,
}

/// Returns the parts behind the listing.
fn behind_listing<'a>(subject: Subject, mut parts: Vec<&'a [u8]>) -> Vec<&'a [u8]>
    requires { subject ≡ FirstPart → 0 < length parts.items }
    ensures { map (λ text. text.now) result.items
        ≡ texts_for subject (map (λ part. part.now) parts.entry.items) }
{
    if let Subject::FirstPart = subject {
        parts.remove(0);
    }
    parts
}

/// Returns what a task on parts works on.
fn prepare_parts<'a>(
    alloc: Global,
    subject: Subject,
    parts: Vec<&'a [u8]>,
) -> Result<Prepared<'a>, Fault<Refusal>>
    requires { subject ≡ FirstPart → 0 < length parts.items }
    ensures { Answers
        (λ p. record { source = p.program; texts = map (λ text. text.now) p.texts.items }) result
        (prepared_parts subject (map (λ part. part.now) parts.entry.items)) }
{
    let program = program_for(alloc, subject, parts.as_slice())?;
    let texts = behind_listing(subject, parts);
    Ok(Prepared { program, texts })
}

/// Returns the program that a task runs, and the `count` texts behind its listing.
///
/// # Errors
///
/// `Refused` with `WrongParts` where there is another number of texts, or with the reason why the
/// listing is refused; `Memory` where memory runs out. A wrong number of texts is refused even
/// then.
#[tactic(auto, unfolding(crate::specs::Input::prepared))]
pub fn prepare<'a>(
    alloc: Global,
    subject: Subject,
    count: usize,
    input: &'a [u8],
) -> Result<Prepared<'a>, Fault<Refusal>>
    requires { length input.now ≤ max_input }
    ensures prepared { Answers
        (λ p. record { source = p.program; texts = map (λ text. text.now) p.texts.items }) result
        (prepared subject count (parts_of input.now)) }
    ensures at_once { RefusesAtOnce (checked_parts subject count (parts_of input.now)) result }
    ensures texts { IfOk result (λ p. length p.texts.items ≡ count) }
{
    let parts = parts_for(alloc, subject, count, input)?;
    prepare_parts(alloc, subject, parts)
}

/// Returns the program that a task runs, and the 1 to 4,096 texts behind its listing.
///
/// # Errors
///
/// `Refused` with `WrongParts` where there is another number of texts, or with the reason why the
/// listing is refused; `Memory` where memory runs out. A wrong number of texts is refused even
/// then.
#[tactic(auto, unfolding(crate::specs::ManySchedules::prepared_schedules))]
pub fn prepare_schedules<'a>(
    alloc: Global,
    subject: Subject,
    input: &'a [u8],
) -> Result<Prepared<'a>, Fault<Refusal>>
    requires { length input.now ≤ max_input }
    ensures prepared { Answers
        (λ p. record { source = p.program; texts = map (λ text. text.now) p.texts.items }) result
        (prepared_schedules subject (parts_of input.now)) }
    ensures at_once { RefusesAtOnce (checked_schedules subject (parts_of input.now)) result }
{
    check_schedules(subject, input)?;
    prepare_parts(alloc, subject, split_parts(alloc, input)?)
}
