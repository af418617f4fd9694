//! `read_listing`: reads a listing from its text, for the tasks that write of it.
ghost use Rattle.std.specs.Prelude.{◌≡◌, ◌<◌, Err, length};
ghost use Rattle.snap_semantics.specs.declared.fault.Fault.TheVariants.{Refused};
ghost use Rattle.snap_semantics.specs.declared.refusal.ListingRefusal.TheVariants.{TooLong};
ghost use Rattle.snap_semantics.specs.declared.refusal.Refusal.TheVariants as refusal;
ghost use Rattle.snap_semantics.specs.Answers.{Answers, refused_as};
ghost use Rattle.snap_semantics.specs.Listing.{listing_of, max_text};

use snap_listing_core::Listing;
use snap_semantics::{Fault, Refusal};
use std::alloc::Global;

/// Reads the listing that `text` spells.
///
/// # Errors
///
/// `Refused` with the first reason why `text` is no listing; `Memory` where memory runs out.
pub fn read_listing(alloc: Global, text: &[u8]) -> Result<Listing, Fault<Refusal>>
    ensures listing { Answers (λ l. l) result (refused_as refusal.Listing (listing_of text.now)) }
    ensures too_long { max_text < length text.now →
        result ≡ Err (Refused (refusal.Listing TooLong)) }
{
    Ok(snap_listing::read_source(alloc, text)?)
}
