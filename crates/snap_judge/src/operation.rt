//! `Operation`: an operation of a process, from its call to its end.

/// What an operation does.
#[derive(Clone, Copy)]
pub enum Action<'a> {
    /// An update sets a word, counted from 1, to a value.
    Sets { word: u64, value: u64 },
    /// A scan sees these values.
    Sees(&'a [u64]),
}

/// An operation: the process that called it, the numbers of the events of its call and, if it has
/// ended, of its end, and what it does. What a scan sees stands in the history.
#[derive(Clone, Copy)]
pub struct Operation<'a> {
    pub process: u32,
    pub call: u64,
    pub end: Option<u64>,
    pub action: Action<'a>,
}
