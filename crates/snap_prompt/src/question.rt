//! `Question`: what the debugger's prompt has asked, which the next line answers.
use crate::addition::Addition;

/// What was asked.
#[derive(Clone, Copy, PartialEq, Eq)]
pub enum Question {
    /// Whether the schedule is cut before this is added.
    Cut(Addition),
    /// Whether the dialog ends, although items were added in it.
    End,
}
