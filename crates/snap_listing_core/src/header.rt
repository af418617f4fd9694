//! `Header`: what the header lines of a listing say:
//! its kind, its names by sort and its two entries.
use snap_semantics::Name;
use snap_words::KindTag;

/// What the header lines of a listing say.
#[derive(Drop)]
pub struct Header {
    pub kind: KindTag,
    pub scalars: Vec<Name>,
    pub rows: Vec<Name>,
    pub words: Vec<Name>,
    pub views: Vec<Name>,
    pub scan: u64,
    pub update: u64,
}
