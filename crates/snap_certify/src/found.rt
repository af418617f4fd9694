//! `Finding`: what a certification finds of an item of a run: the write of an update, nothing, or
//! what a certificate lacks there.
use snap_semantics::{Activity, Outcome};
use snap_words::View;

/// An item as a certification sees it.
#[derive(Drop)]
pub struct SeenItem {
    pub process: u32,
    /// The activity of the process before the item, if the process is busy and the item is a step.
    pub activity: Option<Activity>,
    pub outcome: Outcome,
    /// The values before the item.
    pub values_before: View,
    /// The values after it.
    pub values_after: View,
}

/// How far a process is with its last call.
#[derive(Clone, Copy, PartialEq, Eq)]
pub struct Progress {
    /// The item of its last call, and 0 before the first one.
    pub call: u64,
    /// Whether the process has executed the line at which updates write since its last call.
    pub wrote: bool,
}

/// The write of an update. Items and words count from 1.
#[derive(Clone, Copy, PartialEq, Eq)]
pub struct UpdateWrite {
    pub process: u32,
    pub word: u64,
    pub value: u64,
    /// The item that called the update.
    pub call: u64,
    /// The item that writes.
    pub item: u64,
}

/// What is missing at an item.
#[derive(Clone, Copy, PartialEq, Eq)]
pub enum Lack {
    /// The item changes the values, and does not execute the line at which updates write.
    Line,
    /// The item executes the line at which updates write, in a scan.
    Update,
    /// The item executes the line at which updates write, in an update that has executed it before.
    FirstWrite,
    /// The item executes the line at which updates write, in an update, and does not write what the
    /// update was called for.
    OwnValue,
    /// The item ends an update that has not executed the line at which updates write.
    Write,
    /// The item answers a scan that has no linearization point.
    Point,
}

/// The first thing that is missing: what it is, of which process, at which call of that process,
/// and at which item.
#[derive(Clone, Copy, PartialEq, Eq)]
pub struct Missing {
    pub lack: Lack,
    pub process: u32,
    pub call: u64,
    pub item: u64,
}

/// What is found at an item.
#[derive(Clone, Copy, PartialEq, Eq)]
pub enum Finding {
    Nothing,
    Write(UpdateWrite),
    Lacks(Missing),
}
