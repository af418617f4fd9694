//! `Config`: where a search stands in a history.
ghost use Rattle.std.specs.Prelude.{IfOk};
ghost use Rattle.snap_judge.specs.Kept.{IsSameConfig};

use crate::operation::Operation;
use std::alloc::AllocError;

/// An event as a search sees it.
#[derive(Clone, Copy)]
pub enum Step<'a> {
    /// A crash, or the call of a scan that has no answer.
    Waits,
    /// The call of an operation, with its end.
    Calls(Operation<'a>),
    /// The end of what the process called.
    Ends(u32),
}

/// The open operation of a process, by the step that called it.
#[derive(Clone, Copy, PartialEq, Eq, Hash)]
pub enum Slot {
    Free,
    /// An operation that has not taken place.
    Open(usize),
    /// An operation that has taken place.
    Taken(usize),
}

/// How many steps have passed, the values, and what each process has open.
#[derive(PartialEq, Eq, Hash, Drop)]
pub struct Config {
    pub position: usize,
    pub values: Vec<u64>,
    pub slots: Vec<Slot>,
}

/// An open update, by its place and its step, with its word and its value.
#[derive(Clone, Copy)]
pub struct OpenUpdate {
    pub place: usize,
    pub call: usize,
    pub word: u64,
    pub value: u64,
}

impl Config {
    /// Returns a copy.
    ///
    /// # Errors
    ///
    /// `AllocError` where memory runs out.
    pub fn copy(&self) -> Result<Config, AllocError>
        ensures { IfOk result (λ c. IsSameConfig self.now c) }
    {
        Ok(Config {
            position: self.position,
            values: self.values.clone()?,
            slots: self.slots.clone()?,
        })
    }
}

/// A configuration before the end of the operation of the process at the place `ending`, which has
/// not taken place. The first `depth` operations of an order lead there. Each open update at a
/// place before `next` that has to be tried was tried; the one that ends is tried first of all, and
/// `begun` says that it was.
#[derive(Drop)]
pub struct Node {
    pub config: Config,
    pub depth: usize,
    pub begun: bool,
    pub next: usize,
    pub ending: usize,
}

/// A configuration that a search has come to, and whether it is at the end of the history.
#[derive(Drop)]
pub struct Entered {
    pub config: Config,
    pub at_end: bool,
}

/// What a search has found: an order in which the operations take place, by the steps that call
/// them; that nothing explains the history, and the most steps that it passed on any way; or
/// neither, within the bound.
#[derive(Drop)]
pub enum Found {
    Explained(Vec<usize>),
    Unexplained(usize),
    Undecided,
}
