//! Writes what comes of the calls in a scene: the line of an item's outcome, and the report of a
//! record.
use crate::scene_trouble::SceneTrouble;
use crate::trials::{tell, tried};
use snap_record::Record;
use snap_report::{outcome_text, report};
use snap_semantics::Outcome;
use snap_text::Draft;
use snap_words::Kind;
use std::alloc::{AllocError, Global};

/// Returns the line of an outcome.
fn outcome_line(alloc: Global, outcome: &Outcome) -> Result<Vec<u8>, AllocError> {
    let mut line = Draft::new(alloc);
    outcome_text(&mut line, outcome);
    line.push(b"\n");
    line.finish()
}

/// Writes the outcome of an item.
pub fn tell_outcome(rt: &HostRuntime, outcome: &Outcome) -> Result<(), SceneTrouble> {
    let line = tried!(rt, outcome_line(rt.alloc(), outcome));
    tell(rt, line.as_slice())
}

/// Returns the report of all items of a record.
///
/// # Errors
///
/// `AllocError` where memory runs out.
pub fn record_report<K: Kind>(alloc: Global, record: &Record<K>) -> Result<Vec<u8>, AllocError> {
    let mut text = Draft::new(alloc);
    let position = record.items().len();
    report(
        &mut text,
        record.machine(),
        record.events(),
        position,
        position,
    );
    text.finish()
}
