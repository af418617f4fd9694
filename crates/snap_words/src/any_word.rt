//! `AnyWord`: the fields of a word of any kind of
//! registers, from which a word of one kind is built.
use crate::view::View;

/// The fields of a word of any kind, from which a word of one kind is built. A kind ignores the
/// fields that its words lack.
#[derive(Drop)]
pub struct AnyWord {
    pub datum: u64,
    pub seq: u64,
    pub id: u64,
    pub toggle: u64,
    pub handshakes: View,
    pub view: View,
}
