//! What each item of a run did, as far as a picture shows it: which operation it called or ended,
//! which register it wrote or read, and whether it tested, or took the view of another process.
//! Also the first or the last step of a sort, the view that a step takes, and the scan that saw it.
#![tactic(auto)]

mod act;
mod intent;
mod loans;
mod searches;
mod tracer;

pub use act::{Act, Spot, TraceStep};
pub use intent::index_value;
pub use loans::{Borrowed, ScanPlaces, lender_at, set_for, source_at, view_taken};
pub use searches::{StepPattern, first_step_from, first_within, last_before};
pub use tracer::trace;
