//! `Subject`: which listing a task runs, the first part of the input or the one shipped for a kind
//! of registers. The program of that listing is made elsewhere.
use snap_words::KindTag;

/// The listing that a task runs: the first part of the input,
/// or the one that is shipped for a kind of registers.
#[derive(Clone, Copy, PartialEq, Eq)]
pub enum Subject {
    FirstPart,
    Shipped(KindTag),
}
