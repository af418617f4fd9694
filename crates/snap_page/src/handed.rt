//! `Handed`: what a page in a browser is handed, a code and the length of the output or of the line
//! of a refusal.
ghost use Rattle.std.specs.Prelude.{◌≡◌, ◌≢◌, ◌<◌, ◌≤◌, ◌+◌, ◌^◌, ◌++◌, ◌⊎◌, ◌↔◌, ℕ, List, true};
ghost use Rattle.std.specs.Prelude.{Err, IfOk, OnErr, Result, codes, length, take};
ghost use Rattle.snap_semantics.specs.Answers.{Answers};
ghost use Rattle.snap_semantics.specs.declared.fault.Fault.TheVariants.{Refused};
ghost use Rattle.snap_semantics.specs.declared.refusal.Refusal.{Refusal};
ghost use Rattle.snap_faults.specs.RefusalText.{refusal_line};
ghost use Rattle.snap_page.specs.Page.{IsHanded, answer_code, answer_text, needs_no_memory};
ghost use Rattle.snap_page.specs.Page.{numbered_line};

use itoa::Buffer;
use snap_faults::refusal_line;
use snap_semantics::{Fault, ImageRefusal, ListingRefusal, Refusal};
use std::alloc::{AllocError, Global};

/// What is handed to a page: what the first bytes of its room are, 0 an output, 1 the line of a
/// refusal; or why there are none, 2 a want of memory, 3 too little room, 4 no such task; and how
/// many bytes there are or would be.
#[repr(C)]
#[derive(Clone, Copy, Drop)]
pub struct Handed {
    pub code: u8,
    pub len: usize,
}

/// Puts a text at place `at` of a room, if it fits, and returns the place behind it.
fn put(room: &mut [u8], at: usize, text: &[u8]) -> usize
    requires { at + length text.now < 2 ^ 64 }
    ensures place { result ≡ at + length text.now }
    ensures text { result ≤ length room.old → take result room.new ≡ take at room.old ++ text.now }
{
    let end = at + text.len();
    if end <= room.len() {
        room[at..end].copy_from_slice(text);
    }
    end
}

/// Says whether the room was large enough for what is handed.
fn fitted(code: u8, len: usize, room: &[u8]) -> Handed
    requires { code < 2 }
    ensures code { result.code ≡ code ⊎ result.code ≡ 3 }
    ensures length { result.len ≡ len }
    ensures small { result.code ≡ 3 ↔ length room.now < len }
{
    if room.len() < len {
        Handed { code: 3, len }
    } else {
        Handed { code, len }
    }
}

/// Hands over a text under a code.
pub(crate) fn handed_text(code: u8, text: &[u8], room: &mut [u8]) -> Handed
    requires { code < 2 }
    ensures code { result.code ≡ code ⊎ result.code ≡ 3 }
    ensures text { result.code ≡ code → take result.len room.new ≡ text.now }
    ensures length { result.len ≡ length text.now }
    ensures small { result.code ≡ 3 ↔ length room.old < result.len }
{
    let len = put(room, 0, text);
    fitted(code, len, room)
}

/// Hands over the line of a refusal of a name and a number, without memory.
pub(crate) fn handed_line(name: &[u8], number: &[u8], room: &mut [u8]) -> Handed
    requires { length name.now + length number.now < 2 ^ 32 }
    ensures code { result.code ≡ 1 ⊎ result.code ≡ 3 }
    ensures text { result.code ≡ 1 → take result.len room.new ≡ numbered_line name.now number.now }
    ensures length { result.len ≡ length (numbered_line name.now number.now) }
    ensures small { result.code ≡ 3 ↔ length room.old < result.len }
{
    let name_at = put(room, 0, b"refused: ");
    let number_at = put(room, name_at, name);
    let end_at = put(room, number_at, number);
    let len = put(room, end_at, b"\n");
    fitted(1, len, room)
}

/// Hands over a text under a code, where there was memory for it.
pub(crate) fn handed_pushed(code: u8, text: Result<Vec<u8>, AllocError>, room: &mut [u8]) -> Handed
    requires { code < 2 }
    ensures code { result.code ≡ code ⊎ (result.code ≡ 2 ⊎ result.code ≡ 3) }
    ensures small { result.code ≡ 3 ↔ length room.old < result.len }
    ensures text { IfOk text (λ text. result.code ≡ code → take result.len room.new ≡ text.items) }
    ensures length { IfOk text (λ text. result.code ≡ 3 → result.len ≡ length text.items) }
    ensures memory { OnErr text (result.code ≡ 2) }
{
    match text {
        Ok(text) => handed_text(code, text.as_slice(), room),
        Err(_) => Handed { code: 2, len: 0 },
    }
}

/// Hands over the line of a refusal. A refusal that is found before any memory is allocated is
/// handed over without memory.
pub(crate) fn handed_refusal(alloc: Global, refusal: &Refusal, room: &mut [u8]) -> Handed
    ensures code { result.code ≡ 1 ⊎ (result.code ≡ 2 ⊎ result.code ≡ 3) }
    ensures at_once { needs_no_memory refusal.now ≡ true → result.code ≢ 2 }
    ensures small { result.code ≡ 3 ↔ length room.old < result.len }
    ensures text { result.code ≡ 1 → take result.len room.new ≡ refusal_line refusal.now }
    ensures length { result.code ≡ 3 → result.len ≡ length (refusal_line refusal.now) }
{
    match refusal {
        Refusal::InputTooLong => handed_line(b"P1 InputTooLong", b"", room),
        Refusal::WrongParts(found) => {
            let mut digits = Buffer::new();
            handed_line(b"P2 WrongParts ", digits.format(*found).as_bytes(), room)
        }
        Refusal::Listing(ListingRefusal::TooLong) => handed_line(b"L1 TooLong", b"", room),
        Refusal::Image(ImageRefusal::NotAnImage) => handed_line(b"I1 NotAnImage", b"", room),
        Refusal::Image(ImageRefusal::Version) => handed_line(b"I2 Version", b"", room),
        _ => handed_pushed(1, refusal_line(alloc, refusal), room),
    }
}

/// Hands over an output, or why there is none.
pub fn handed_answer(
    alloc: Global,
    answer: Result<Vec<u8>, Fault<Refusal>>,
    room: &mut [u8],
) -> Handed
    ensures code { result.code < 4 }
    ensures at_once { (r : Refusal) → answer ≡ Err (Refused r) → needs_no_memory r ≡ true →
        result.code ≡ 1 ⊎ result.code ≡ 3 }
    ensures small { result.code ≡ 3 ↔ length room.old < result.len }
    ensures answer { (d : Result (List ℕ) Refusal) → Answers (λ out. out.items) answer d →
        IsHanded room.old room.new (answer_code d) (answer_text d) result }
{
    match answer {
        Ok(text) => handed_text(0, text.as_slice(), room),
        Err(Fault::Memory) => Handed { code: 2, len: 0 },
        Err(Fault::Refused(refusal)) => handed_refusal(alloc, &refusal, room),
    }
}
