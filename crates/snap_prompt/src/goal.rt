//! `Goal`: where a process is to step, to a line or to the end of its operation; `NoSteps`: why no
//! steps lead there.

use thiserror::Error;

/// Where a process steps. The process stops earlier if it is no longer busy.
#[derive(Clone, Copy, PartialEq, Eq)]
pub enum Goal {
    /// To the line of this number.
    Line(u64),
    /// To the end of its operation.
    End,
}

/// Why a process takes no steps to a goal.
#[derive(Clone, Copy, Debug, PartialEq, Eq, Error)]
pub enum NoSteps {
    #[error("there is no such process")]
    NoSuchProcess,
    #[error("there is no such line")]
    NoSuchLine,
    #[error("the process is idle")]
    Idle,
    #[error("the process is trapped")]
    Trapped,
    #[error("the process has crashed")]
    Crashed,
    /// The schedule is full before the process is there.
    #[error("the schedule is full")]
    Full,
}
