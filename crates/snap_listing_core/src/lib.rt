//! Listings: their types, and the definition of the rules that they keep.
#![tactic(auto)]

mod commented;
mod header;
mod listing;

pub use commented::CommentedListing;
pub use header::Header;
pub use listing::{Listing, has_line};
