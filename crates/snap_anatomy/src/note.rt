//! `Note`: what an item read, wrote, took or set.
use snap_semantics::Name;
use snap_words::{AnyWord, View};

/// What an item read, wrote, took or set, beside what its step of the trace says.
#[derive(Drop)]
pub enum Note {
    /// The word that the item read or wrote.
    Word(AnyWord),
    /// The view that the item took, made, returned or wrote.
    View(View),
    /// The row that the item set, place by place, and its values.
    Row(Name, View),
    Nothing,
}
