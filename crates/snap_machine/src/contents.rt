//! `Contents` and `Local`: the contents of a register, and the value of a local of a process, read
//! from a machine.
use snap_words::{Kind, View};

/// What a register has.
#[derive(Drop)]
pub enum Contents<'a, K: Kind> {
    Word(&'a K::Word),
    Bit(u64),
    View(&'a View),
}

/// What a local has.
#[derive(Drop)]
pub enum Local<'a, K: Kind> {
    Number(u64),
    Row(&'a [u64]),
    Words(&'a [K::Word]),
    View(&'a View),
}
