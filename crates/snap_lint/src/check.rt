//! `check_of`: what the task `check` writes of a text, the listing's kind and number of lines, or
//! why it is no listing.
ghost use Rattle.std.specs.Prelude.{◌≡◌, ◌<◌, Err, IfOk, length};
ghost use Rattle.snap_semantics.specs.Answers.{Answers};
ghost use Rattle.snap_lint.specs.Check.{check_line, check_of};
ghost use Rattle.snap_semantics.specs.declared.fault.Fault.TheVariants.{Refused};
ghost use Rattle.snap_semantics.specs.declared.refusal.ListingRefusal.TheVariants.{TooLong};
ghost use Rattle.snap_semantics.specs.declared.refusal.Refusal.TheVariants as refusal;
ghost use Rattle.snap_semantics.specs.Listing.{max_text};

use crate::listing::read_listing;
use snap_listing::kind_keyword;
use snap_listing_core::Listing;
use snap_semantics::{Fault, Refusal};
use snap_text::Draft;
use std::alloc::{AllocError, Global};

/// Returns the kind of a listing, and how many numbered lines it has.
fn check_line(alloc: Global, listing: &Listing) -> Result<Vec<u8>, AllocError>
    ensures { IfOk result (λ line. line.items ≡ check_line listing.now) }
{
    let mut line = Draft::new(alloc);
    line.push(b"ok: ");
    line.push(kind_keyword(listing.kind()));
    line.push(b", ");
    line.push_number(listing.lines().len() as u64);
    line.push(b" lines\n");
    line.finish()
}

/// Returns the line that the task `check` writes of `text`.
///
/// # Errors
///
/// `Refused` with the first reason why `text` is no listing; `Memory` where memory runs out.
#[tactic(auto, unfolding(crate::specs::Check::check_of))]
pub fn check_of(alloc: Global, text: &[u8]) -> Result<Vec<u8>, Fault<Refusal>>
    ensures output { Answers (λ out. out.items) result (check_of text.now) }
    ensures too_long { max_text < length text.now →
        result ≡ Err (Refused (refusal.Listing TooLong)) }
{
    let listing = read_listing(alloc, text)?;
    Ok(check_line(alloc, &listing)?)
}
