//! `EventForm`: the form of a line of a history.
use snap_semantics::Happening;

/// An event as a line has it, whether or not it may come there: its number, if the line has it, its
/// process, and what happens to the process.
#[derive(Drop)]
pub struct EventForm {
    pub number: Option<u64>,
    pub process: u64,
    pub what: Happening,
}
