//! The anatomy of a run, as JSON: what each item did, with what it read or wrote; and of each scan
//! its double collects, the positions at which memory was what it answered, and where that answer
//! comes from.
#![tactic(auto)]

mod collects;
mod found;
mod json;
mod memory;
mod note;
mod notes;
mod run_text;
mod scan_text;
mod scans;
mod sources;
mod step_text;

pub use run_text::anatomy;
