//! `ListingFault`: why a text was not read as a listing: memory ran out, or the text is refused.
use snap_semantics::{Fault, ListingRefusal};

/// Why a text was not read: memory ran out, or the text is no listing.
pub type ListingFault = Fault<ListingRefusal>;
