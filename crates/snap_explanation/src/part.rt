//! `part_place`: the `Part` of an input (its listing or one of its texts) that a refusal is about,
//! and how many lines precede it.
ghost use Rattle.std.specs.Prelude.{◌≡◌, ◌≤◌, ◌<◌, ◌^◌, ◌+◌, IfOk, length, map};
ghost use Rattle.snap_input.specs.Input.{texts_for};
ghost use Rattle.snap_input.specs.Parts.{part};
ghost use Rattle.snap_semantics.specs.Schedule.{schedule_of};
ghost use Rattle.snap_explanation.specs.Part.{whole_part, part_place, part_place_in, first_text};
ghost use Rattle.snap_explanation.specs.Part.{text_index};
ghost use Rattle.snap_explanation.specs.Part.{text_name, lines_through, lines_before};
ghost use Rattle.snap_explanation.specs.Part.{refused_schedule, is_taken};
ghost use Rattle.snap_explanation.specs.Views.{view_part};

use crate::layout::{Layout, Texts};
use snap_input::split_parts;
use snap_sched::read;
use snap_semantics::{Fault, Refusal};
use snap_tasks::Subject;
use snap_text::line_count;
use std::alloc::{AllocError, Global};

/// What a part of an input is.
#[derive(Clone, Copy, PartialEq, Eq)]
pub enum PartName {
    Listing,
    Schedule,
    /// One of several schedules, by its number.
    NthSchedule(usize),
    Scripts,
    Commands,
    History,
}

/// A part of an input, and how many lines of the input stand before it.
#[derive(Clone, Copy)]
pub struct Part<'a> {
    pub name: PartName,
    pub before: u64,
    pub text: &'a [u8],
}

/// Returns the number of the first part behind the listing, from 0.
fn first_text(subject: Subject) -> usize
    ensures value { result ≡ first_text subject }
    ensures small { result ≤ 1 }
{
    match subject {
        Subject::FirstPart => 1,
        Subject::Shipped(_) => 0,
    }
}

/// Returns whether a schedule is not refused: for its form, or for its shape where shapes are
/// refused.
fn is_taken(alloc: Global, shapes: bool, text: &[u8]) -> Result<bool, AllocError>
    ensures { IfOk result (λ taken. taken ≡ is_taken shapes (schedule_of text.now)) }
{
    match read(alloc, text) {
        Ok(schedule) => {
            let shape = schedule.shape();
            Ok(!shapes || shape.w() == shape.n())
        }
        Err(Fault::Refused(_)) => Ok(false),
        Err(Fault::Memory) => Err(AllocError),
    }
}

/// Returns the number of the first schedule that is refused, from 0.
fn refused_schedule(alloc: Global, shapes: bool, texts: &[&[u8]]) -> Result<usize, AllocError>
    ensures value { IfOk result (λ k. k ≡ refused_schedule shapes 0 (map (λ t. t.now) texts.now)) }
    ensures within { IfOk result (λ k. k ≤ length texts.now) }
{
    let mut index = 0;
    for text in texts {
        if !is_taken(alloc, shapes, text)? {
            return Ok(index);
        }
        index += 1;
    }
    Ok(index)
}

/// Returns which of the texts behind the listing is refused, from 0.
fn text_index(
    alloc: Global,
    texts: Texts,
    refusal: &Refusal,
    given: &[&[u8]],
) -> Result<usize, AllocError>
    ensures value { IfOk result (λ k. k ≡ text_index texts refusal.now
        (map (λ t. t.now) given.now)) }
    ensures within { IfOk result (λ k. k ≤ length given.now + 1) }
{
    match (texts, refusal) {
        (Texts::Schedules, Refusal::Words(_)) => refused_schedule(alloc, true, given),
        (Texts::Schedules, _) => refused_schedule(alloc, false, given),
        (_, Refusal::Commands(_)) => Ok(1),
        _ => Ok(0),
    }
}

/// Returns what the refused text behind the listing is.
fn text_name(texts: Texts, refusal: &Refusal, index: usize) -> PartName
    requires { index < 2 ^ 63 }
    ensures { result ≡ text_name texts refusal.now index }
{
    match (texts, refusal) {
        (Texts::Schedules, _) => PartName::NthSchedule(index + 1),
        (Texts::Scripts, _) => PartName::Scripts,
        (_, Refusal::Commands(_)) => PartName::Commands,
        _ => PartName::Schedule,
    }
}

/// Returns how many lines stand behind others, a part and the line `%` behind it.
pub fn lines_through(before: u64, part: &[u8]) -> u64
    ensures { result ≡ lines_through before part.now }
{
    before.saturating_add(line_count(part)).saturating_add(1)
}

/// Returns how many lines stand before part `index`.
#[tactic(auto, using(crate::proofs::Counts::none_before))]
fn lines_before(index: usize, parts: &[&[u8]]) -> u64
    ensures { result ≡ lines_before index 0 (map (λ p. p.now) parts.now) }
{
    let mut before = 0;
    let mut left = index;
    for part in parts {
        if left == 0 {
            return before;
        }
        before = lines_through(before, part);
        left -= 1;
    }
    before
}

/// Returns part `index`, counted from 0; an empty part if there are fewer.
pub fn part_at<'a>(parts: &[&'a [u8]], index: usize) -> &'a [u8]
    ensures { result.now ≡ part index (map (λ p. p.now) parts.now) }
{
    if index < parts.len() {
        parts[index]
    } else {
        &[]
    }
}

/// Returns the parts behind the listing.
fn texts_behind<'a, 'b>(subject: Subject, parts: &'a [&'b [u8]]) -> &'a [&'b [u8]]
    ensures { map (λ p. p.now) result.now ≡ texts_for subject (map (λ p. p.now) parts.now) }
{
    match (subject, parts) {
        (Subject::FirstPart, [_, rest @ ..]) => rest,
        _ => parts,
    }
}

/// Returns the part of an input with parts that is refused.
fn part_place_in<'a>(
    alloc: Global,
    subject: Subject,
    texts: Texts,
    refusal: &Refusal,
    parts: &[&'a [u8]],
) -> Result<Part<'a>, AllocError>
    ensures { IfOk result (λ p. view_part p
        ≡ part_place_in subject texts refusal.now (map (λ p. p.now) parts.now)) }
{
    if let Refusal::Listing(_) = refusal {
        return Ok(Part {
            name: PartName::Listing,
            before: 0,
            text: part_at(parts, 0),
        });
    }
    let index = text_index(alloc, texts, refusal, texts_behind(subject, parts))?;
    let place = first_text(subject) + index;
    Ok(Part {
        name: text_name(texts, refusal, index),
        before: lines_before(place, parts),
        text: part_at(parts, place),
    })
}

/// Returns an input without parts.
fn whole_part(name: PartName, input: &[u8]) -> Part<'_>
    ensures { view_part result ≡ whole_part name input.now }
{
    Part {
        name,
        before: 0,
        text: input,
    }
}

/// Returns the part of an input that is refused.
///
/// # Errors
///
/// `AllocError` where memory runs out.
pub fn part_place<'a>(
    alloc: Global,
    layout: Layout,
    input: &'a [u8],
    refusal: &Refusal,
) -> Result<Part<'a>, AllocError>
    ensures { IfOk result (λ p. view_part p ≡ part_place layout input.now refusal.now) }
{
    match layout {
        Layout::Parts(subject, texts) => {
            let parts = split_parts(alloc, input)?;
            part_place_in(alloc, subject, texts, refusal, parts.as_slice())
        }
        Layout::NamedSchedule => Ok(whole_part(PartName::Schedule, input)),
        _ => Ok(whole_part(PartName::Listing, input)),
    }
}
