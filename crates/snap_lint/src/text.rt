//! `lint_of`: what the task `lint` writes of a text, the warnings of the listing, or why it is no
//! listing.
ghost use Rattle.std.specs.Prelude.{◌≡◌, ◌<◌, Err, IfOk, length};
ghost use Rattle.snap_text.specs.Drafted.{Adds};
ghost use Rattle.snap_semantics.specs.declared.fault.Fault.TheVariants.{Refused};
ghost use Rattle.snap_semantics.specs.declared.refusal.ListingRefusal.TheVariants.{TooLong};
ghost use Rattle.snap_semantics.specs.declared.refusal.Refusal.TheVariants as refusal;
ghost use Rattle.snap_semantics.specs.Answers.{Answers};
ghost use Rattle.snap_semantics.specs.Listing.{max_text};
ghost use Rattle.snap_lint.specs.Warnings.{warnings};
ghost use Rattle.snap_lint.specs.Lint.{concern_text, lint_of, warning_line, warnings_text};

use crate::listing::read_listing;
use crate::{Concern, Warning, warnings};
use snap_listing_core::Listing;
use snap_semantics::{Fault, Refusal};
use snap_text::Draft;
use std::alloc::{AllocError, Global};

/// Returns what is said of a line.
fn concern_text(concern: Concern) -> &'static [u8]
    ensures { result.now ≡ concern_text concern }
{
    match concern {
        Concern::OffEnd => b"may run off the end",
        Concern::Nested => b"may call within a call",
        Concern::BadEnd => b"may return from an update, or finish a scan or a call",
        Concern::Owner => b"may write a register of another process",
        Concern::Unreached => b"is never reached",
        Concern::Endless => b"leads to no end",
        Concern::NoWrite => b"may finish an update that has written no word",
    }
}

/// Appends the line of a warning.
fn push_warning(out: &mut Draft, warning: &Warning)
    ensures { Adds out.old out.new (warning_line warning.now) }
{
    out.push(b"line ");
    out.push_number(warning.line);
    out.push(b": ");
    out.push(concern_text(warning.concern));
    out.push(b"\n");
}

/// Returns the lines of warnings.
fn warnings_text(alloc: Global, warnings: &[Warning]) -> Result<Vec<u8>, AllocError>
    ensures { IfOk result (λ out. out.items ≡ warnings_text warnings.now) }
{
    let mut out = Draft::new(alloc);
    for warning in warnings {
        push_warning(&mut out, warning);
    }
    out.finish()
}

/// Returns the text of the warnings of `listing`.
///
/// # Errors
///
/// `AllocError` where memory runs out.
pub fn lint(alloc: Global, listing: &Listing) -> Result<Vec<u8>, AllocError>
    ensures { IfOk result (λ out. out.items ≡ warnings_text (warnings listing.now)) }
{
    let warnings = warnings(alloc, listing)?;
    warnings_text(alloc, warnings.as_slice())
}

/// Returns the text of the warnings of the listing that `text` spells.
///
/// # Errors
///
/// `Refused` with the first reason why `text` is no listing; `Memory` where memory runs out.
#[tactic(auto, unfolding(crate::specs::Lint::lint_of))]
pub fn lint_of(alloc: Global, text: &[u8]) -> Result<Vec<u8>, Fault<Refusal>>
    ensures output { Answers (λ out. out.items) result (lint_of text.now) }
    ensures too_long { max_text < length text.now →
        result ≡ Err (Refused (refusal.Listing TooLong)) }
{
    let listing = read_listing(alloc, text)?;
    Ok(lint(alloc, &listing)?)
}
