//! `handed_picture`: puts the picture of a run into the page's memory, or the line that says why
//! there is none.
ghost use Rattle.std.specs.Prelude.{◌≡◌, ◌<◌, ◌⊎◌, ◌↔◌, ℕ, List, Result, length, take};
ghost use Rattle.snap_semantics.specs.Answers.{Answers};
ghost use Rattle.snap_picture.specs.Picture.{AnswersPicture};
ghost use Rattle.snap_picture.specs.declared.refusal.PictureRefusal.{PictureRefusal};
ghost use Rattle.snap_page.specs.Page.{IsHanded, answer_code};
ghost use Rattle.snap_page.specs.Picture.{FailsOver, drawn, drawn_listing, drawn_text};
ghost use Rattle.snap_page.specs.Picture.{options_from, picture_refusal_line, told};

use crate::answering::PAGE_CONFIGURATIONS;
use crate::handed::{Handed, handed_line, handed_refusal, handed_text};
use itoa::Buffer;
use snap_asm_program::Program;
use snap_input::program_of;
use snap_picture::{Look, Options, PictureRefusal, picture, told_shapes};
use snap_semantics::Fault;
use std::alloc::Global;

/// Returns the program of a listing's text.
fn drawn_program(alloc: Global, listing: &[u8]) -> Result<Program, Fault<PictureRefusal>>
    ensures { Answers (λ p. p) result (drawn_listing listing.now) }
{
    match program_of(alloc, listing) {
        Ok(program) => Ok(program),
        Err(Fault::Memory) => Err(Fault::Memory),
        Err(Fault::Refused(refusal)) => Err(Fault::Refused(PictureRefusal::Input(refusal))),
    }
}

/// Returns the items from `from` to `to`, as a picture takes them.
fn options_from(from: u64, to: u64) -> Options
    ensures { result ≡ options_from from to }
{
    Options {
        from: Some(from),
        to: Some(to),
        reads: false,
        most: PAGE_CONFIGURATIONS as usize,
    }
}

/// Returns the picture of a listing's run under a schedule, from item `from` to item `to`.
///
/// # Errors
///
/// `Refused` with the reason why there is no picture; `Memory` where memory runs out.
pub fn drawn(
    alloc: Global,
    listing: &[u8],
    schedule: &[u8],
    from: u64,
    to: u64,
    look: &Look<'_>,
) -> Result<Vec<u8>, Fault<PictureRefusal>>
    ensures { AnswersPicture (FailsOver listing.now schedule.now) result
        (drawn listing.now schedule.now from to look.now.style.now look.now.legend.now) }
{
    let program = drawn_program(alloc, listing)?;
    let options = options_from(from, to);
    picture(alloc, &program, Some(listing), schedule, &options, look)
}

/// Returns what a picture draws of a listing's run under a schedule, from item `from` to item `to`.
///
/// # Errors
///
/// `Refused` with the reason why there is no picture; `Memory` where memory runs out.
pub fn told(
    alloc: Global,
    listing: &[u8],
    schedule: &[u8],
    from: u64,
    to: u64,
) -> Result<Vec<u8>, Fault<PictureRefusal>>
    ensures { Answers (λ out. out.items) result (told listing.now schedule.now from to) }
{
    let program = drawn_program(alloc, listing)?;
    told_shapes(alloc, &program, schedule, &options_from(from, to))
}

/// Hands over the line of a picture that is refused.
fn handed_why(alloc: Global, refusal: &PictureRefusal, room: &mut [u8]) -> Handed
    ensures code { result.code ≡ 1 ⊎ (result.code ≡ 2 ⊎ result.code ≡ 3) }
    ensures small { result.code ≡ 3 ↔ length room.old < result.len }
    ensures text { result.code ≡ 1 → take result.len room.new ≡ picture_refusal_line refusal.now }
    ensures length { result.code ≡ 3 → result.len ≡ length (picture_refusal_line refusal.now) }
{
    let mut digits = Buffer::new();
    match refusal {
        PictureRefusal::Input(refusal) => handed_refusal(alloc, refusal, room),
        PictureRefusal::NoSuchItems(total) => {
            handed_line(b"D1 NoSuchItems ", digits.format(*total).as_bytes(), room)
        }
        PictureRefusal::TooManyItems(count) => {
            handed_line(b"D2 TooManyItems ", digits.format(*count).as_bytes(), room)
        }
    }
}

/// Hands over a picture, or why there is none.
pub fn handed_picture(
    alloc: Global,
    answer: Result<Vec<u8>, Fault<PictureRefusal>>,
    room: &mut [u8],
) -> Handed
    ensures { (d : Result (List ℕ) PictureRefusal) → Answers (λ out. out.items) answer d →
        IsHanded room.old room.new (answer_code d) (drawn_text d) result }
{
    match answer {
        Ok(text) => handed_text(0, text.as_slice(), room),
        Err(Fault::Memory) => Handed { code: 2, len: 0 },
        Err(Fault::Refused(refusal)) => handed_why(alloc, &refusal, room),
    }
}
