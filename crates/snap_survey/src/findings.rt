//! `Survey`: what a run came to: counts of operations called and ended, of scans without a point,
//! and of traps, crashes and skips.
use snap_run_judge::Linearizability;
use snap_semantics::{Cause, Reason};

/// An item that trapped its process. Items count from 1.
#[derive(Clone, Copy, PartialEq, Eq)]
pub struct Trap {
    pub item: u64,
    pub process: u32,
    /// The number of the line that trapped.
    pub line: u64,
    pub cause: Cause,
}

/// An item that was skipped. Items count from 1.
#[derive(Clone, Copy, PartialEq, Eq)]
pub struct Skip {
    pub item: u64,
    pub process: u32,
    pub reason: Reason,
}

/// What a run came to.
#[derive(Clone, Copy, PartialEq, Eq)]
pub struct Survey {
    /// Scans that were called.
    pub scans_called: u64,
    /// Scans that were called and have been answered.
    pub scans_answered: u64,
    /// Answered scans that have no point.
    pub scans_without_point: u64,
    /// The most double collects of an answered scan, and 0 where none was answered.
    pub most_collects: u64,
    /// Updates that were called.
    pub updates_called: u64,
    /// Updates that are done.
    pub updates_done: u64,
    /// Operations that have not ended.
    pub open_operations: u64,
    /// Items that trapped their process.
    pub traps: u64,
    pub first_trap: Option<Trap>,
    /// Items that crashed their process.
    pub crashes: u64,
    /// Items that were skipped.
    pub skips: u64,
    pub first_skip: Option<Skip>,
}

/// What a run came to, and whether it is linearizable.
#[derive(Clone, Copy, PartialEq, Eq)]
pub struct JudgedSurvey {
    pub survey: Survey,
    pub linearizability: Linearizability,
}
