//! Images of listings: the format with its codes, encoded and decoded, and its laws.
#![tactic(auto)]

mod comments;
mod conditions;
mod cursor;
mod decoder;
mod encoder;
mod fault;
mod head;
mod image;
mod instrs;
mod laws;
mod lines;
mod terms;

pub use decoder::decode;
pub use encoder::encode;
pub use fault::ImageFault;
pub use image::ImageVersion;
pub use instrs::instr;
pub use laws::{
    images_are_bytes, more_than_an_image_is_refused, what_is_decoded_is_an_image,
    what_is_encoded_is_decoded,
};
pub use snap_listing_core::CommentedListing as Listing;
pub use snap_semantics::{Fault, ImageRefusal};
