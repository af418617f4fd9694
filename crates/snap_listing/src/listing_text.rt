//! `read_known`: reads a text that is known to be a listing, and fails only for want of memory.
ghost use Rattle.std.specs.Prelude.{◌≡◌, IfOk, Ok};
ghost use Rattle.snap_semantics.specs.Listing.{listing_of};
ghost use Rattle.snap_listing.specs.ListingTexts.{IsListingText};

use crate::fault::ListingFault;
use crate::reader::read_source;
use snap_listing_core::Listing;
use std::alloc::{AllocError, Global};

/// Reads the listing of `text`, which is known to be the text of a listing.
///
/// # Errors
///
/// `AllocError` where memory runs out.
pub fn read_known(alloc: Global, text: &[u8]) -> Result<Listing, AllocError>
    requires { IsListingText text.now }
    ensures { IfOk result (λ l. listing_of text.now ≡ Ok l) }
{
    match read_source(alloc, text) {
        Ok(listing) => Ok(listing),
        Err(ListingFault::Memory) => Err(AllocError),
        Err(ListingFault::Refused(_)) => unreachable!(),
    }
}
