//! `Event`: a call, the answer of a scan, the end of an
//! update or a crash, with its item and its process.
use crate::process::Op;
use snap_words::View;

/// A call, how it ended, or a crash.
#[derive(Drop)]
pub enum Happening {
    Call(Op),
    /// The answer of a scan.
    Answer(View),
    /// The end of an update.
    Done,
    /// The process has stopped for good.
    Crash,
}

/// An event of a process at an item, counted from 1.
pub struct Event {
    pub item: u64,
    pub process: u32,
    pub what: Happening,
}

impl Drop for Event {
    // A drop that is written out is one call: it is proved once, and not again at each drop.
    fn drop(self) {
        let Event {
            item: _,
            process: _,
            what: _,
        } = self;
    }
}
