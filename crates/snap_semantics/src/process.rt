//! `Op`, `Item`, `Status` and `Outcome`: operations, the items of
//! a schedule, the status of a process, and what came of an item.
use snap_words::View;

/// An operation on the snapshot object.
#[derive(Clone, Copy, Debug, PartialEq, Eq)]
pub enum Op {
    Scan,
    /// Sets a word, counted from 1, to a value.
    Update { word: u64, value: u64 },
}

/// An item of a schedule: one atomic event of one process.
#[derive(Clone, Copy, PartialEq, Eq)]
pub enum Item {
    /// The process runs its line.
    Step(u32),
    /// The process is asked for an operation.
    Call(u32, Op),
    /// The process stops for good.
    Crash(u32),
}

/// Why a process trapped.
#[derive(Clone, Copy, Debug, PartialEq, Eq)]
pub enum Cause {
    /// A place outside its local or bank.
    Index,
    /// A sum above 2^64 - 1.
    Overflow,
    /// A bit, handshake bit or toggle to be written that is not 0 or 1.
    NotABit,
    /// A register of another process.
    Owner,
    /// A `call` within a `call`.
    Nested,
    /// A `return` or `finish` that does not end such an operation.
    BadEnd,
    /// No line follows.
    OffEnd,
}

/// The activity of a busy process: the line that it runs next, and its link.
#[derive(Clone, Copy, PartialEq, Eq)]
pub struct Activity {
    pub op: Op,
    /// The number of the line that it runs next.
    pub line: u64,
    /// The line to which `return` leads back.
    pub link: Option<u64>,
}

/// The status of a process.
#[derive(Clone, Copy, PartialEq, Eq)]
pub enum Status {
    Idle,
    Busy(Activity),
    /// Trapped for good, with the activity at that time.
    Trapped(Cause, Activity),
    /// Crashed for good, with the activity at that time if the process was busy.
    Crashed(Option<Activity>),
}

/// Why an item was skipped.
#[derive(Clone, Copy, Debug, PartialEq, Eq)]
pub enum Reason {
    Trapped,
    Crashed,
    Busy,
    Idle,
    NoSuchWord,
    NotOwner,
}

/// The outcome of an item.
#[derive(Debug, Drop)]
pub enum Outcome {
    Called,
    Stepped,
    Answered(View),
    Finished,
    Trapped(Cause),
    Crashed,
    Skipped(Reason),
}
