//! `Reason`: why one operation took place before another.
use snap_judge::Operation;

/// On which grounds one operation took place before another.
#[derive(Clone, Copy)]
pub enum Grounds {
    /// The first one ended before the second one was called.
    Ended,
    /// The second one, a scan, saw the first one, an update.
    Saw,
    /// The first one, a scan, did not see the second one, an update.
    Missed,
    /// The one operation, a scan, saw a value in a word that no update sets.
    Unset { word: u64, value: u64 },
}

/// Two operations, of which the first one took place before the second one, and the grounds for
/// that.
#[derive(Clone, Copy)]
pub struct Reason<'a> {
    pub grounds: Grounds,
    pub first: Operation<'a>,
    pub second: Operation<'a>,
}
