//! `Act`: what an item of a run did, such as a call, a read, a write, a test or the borrowing of a
//! view.
use snap_semantics::{Name, Op};
use snap_words::View;

/// A place of a `words` local, counted from 1.
#[derive(Clone, Copy)]
pub struct Spot {
    pub words: Name,
    pub place: u64,
}

/// What an item did. Words and processes count from 1; a name is that of a view local of the item's
/// process.
#[derive(Drop)]
pub enum Act {
    /// The item called an operation.
    Call(Op),
    /// The item answered a scan, by the view in this local.
    Answer(View, Option<Name>),
    /// The item ended an update.
    Done,
    Crash,
    Trap,
    /// The item was skipped.
    Skip,
    /// The item wrote a word, after which memory has these values; beside the value stood the view
    /// in this local, if words have views.
    Write(u64, View, Option<Name>),
    /// The item wrote the view of a process, from this local.
    Publish(u64, Name),
    /// The item read a word into this place.
    Read(u64, Spot),
    /// The item took the view that a process had written into this local.
    Look(u64, Name),
    /// The item took the view beside the word at this place into this local.
    Borrow(Spot, Name),
    /// The item made a view of the words that the process had read, in this local.
    Collect(Name),
    /// The item ended a double collect by a test, which passed or not.
    Test(bool),
    /// The item began the scan of an update.
    Enter,
    /// The item ended the scan of an update, which saw the view in this local.
    Leave(Name),
    Other,
}

/// An item of a process, the line at which the process stood, 0 if it had none, and what the item
/// did.
#[derive(Drop)]
pub struct TraceStep {
    pub process: u32,
    pub item: u64,
    pub line: u64,
    pub act: Act,
}
