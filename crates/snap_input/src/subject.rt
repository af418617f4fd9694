//! `program_for`: the program of the listing that a task runs, from the input's first part or
//! shipped.
ghost use Rattle.std.specs.Prelude.{◌≡◌, ◌<◌, IfOk, length, map};
ghost use Rattle.snap_semantics.specs.Answers.{Answers};
ghost use Rattle.snap_input.specs.Input.{listing_for};
ghost use Rattle.snap_shipped.specs.Shipped.{shipped};
ghost use Rattle.snap_tasks.specs.declared.subject.Subject.TheVariants.{FirstPart};

use crate::images::program_of;
use snap_asm::load_listing;
use snap_asm_program::Program;
use snap_semantics::{Fault, Refusal};
use snap_shipped::shipped_listing;
use snap_tasks::Subject;
use snap_words::KindTag;
use std::alloc::{AllocError, Global};

/// Returns the program of the listing that is shipped for a kind.
///
/// # Errors
///
/// `AllocError` where memory runs out.
pub fn shipped(alloc: Global, kind: KindTag) -> Result<Program, AllocError>
    ensures { IfOk result (λ p. p ≡ shipped kind) }
{
    load_listing(alloc, shipped_listing(alloc, kind)?)
}

/// Returns the program that a task runs.
///
/// # Errors
///
/// `Refused` with the reason why the listing of the first part is refused; `Memory` where memory
/// runs out.
pub fn program_for(
    alloc: Global,
    subject: Subject,
    parts: &[&[u8]],
) -> Result<Program, Fault<Refusal>>
    requires { subject ≡ FirstPart → 0 < length parts.now }
    ensures { Answers (λ p. p) result (listing_for subject (map (λ part. part.now) parts.now)) }
{
    match subject {
        Subject::FirstPart => program_of(alloc, parts[0]),
        Subject::Shipped(kind) => Ok(shipped(alloc, kind)?),
    }
}
