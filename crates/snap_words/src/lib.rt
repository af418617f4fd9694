//! Shapes, views, addresses and the kinds of registers.
#![tactic(auto)]

mod address;
mod any_word;
mod contents;
mod copies;
mod handshakes;
mod kind;
mod kinds;
mod place;
mod shape;
mod view;

pub use address::{Address, Bank};
pub use any_word::{AnyWord, AnyWord as Parts};
pub use contents::{field_of, handshake_of, same_handshakes, view_of};
pub use copies::{copy_views, copy_words};
pub use kind::{Field, KindTag};
pub use kinds::{Bits, BitsWord, Kind, Multi, MultiWord, Seq, SeqWord};
pub use place::place_in;
pub use shape::{MAX_COUNT, MAX_ITEMS, Shape, WordFault};
pub use view::View;
