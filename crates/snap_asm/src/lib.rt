//! Makes a listing ready to run; texts to images, images to texts, and images to programs.
#![tactic(auto)]

mod assembly;
mod code;
mod decode;
mod laws;
mod listing_program;
mod name_sorts;
mod slots;

pub use assembly::{assemble, list, load, program, upgrade};
pub use laws::{
    what_is_assembled_lists_back, what_is_canonical_is_kept, what_is_encoded_is_upgraded,
};
pub use listing_program::load_listing;
pub use snap_asm_program::Program;
pub use snap_image::ImageFault;
pub use snap_listing::{Listing, ListingFault};
pub use snap_semantics::{Name, Sort};
