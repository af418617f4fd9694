//! `Passed`: an item that a walk has done, with the line that it ran and its outcome.
use snap_semantics::{Activity, Item, Outcome};

/// An item of a run with its number and its outcome.
#[derive(Drop)]
pub struct Passed {
    pub number: u64,
    pub item: Item,
    /// What the process was at before the item, if the item is a step that ran a line, and the line
    /// is not one of those that are quiet.
    pub activity: Option<Activity>,
    pub outcome: Outcome,
}
