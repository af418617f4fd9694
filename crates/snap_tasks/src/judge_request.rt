//! `JudgeRequest`: what is to be judged, the run of a listing or a history, and how many
//! configurations a search for an order keeps at most.
use crate::subject::Subject;

/// What is judged.
#[derive(Clone, Copy, PartialEq, Eq)]
pub enum JudgeSource {
    /// The run of a listing under a schedule.
    Run(Subject),
    /// The history that the whole input is.
    History,
}

/// What is judged, and how many configurations a search for an order keeps at most.
#[derive(Clone, Copy, PartialEq, Eq)]
pub struct JudgeRequest {
    pub source: JudgeSource,
    pub most: u64,
}
