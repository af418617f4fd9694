//! `KindTag`: the kinds of registers, seq, bits and multi; and
//! `Field`: the fields of their words that are one number.

/// A kind of registers: what its words have, and who may write them.
#[derive(Clone, Copy, PartialEq, Eq)]
pub enum KindTag {
    /// Single-writer words with a sequence number.
    Seq,
    /// Single-writer words with handshake bits and a toggle.
    Bits,
    /// Multi-writer words with a writer and a toggle.
    Multi,
}

/// A field of a word that is one number.
#[derive(Clone, Copy, PartialEq, Eq)]
pub enum Field {
    Datum,
    Seq,
    Id,
    Toggle,
}
