//! `Certification`: a run is `Certified` by a line, writes and points, or something is `Missing`.
use crate::found::{Missing, UpdateWrite};
use snap_runs::Verdict;

/// What a run is certified by: the line at which updates write, the writes in the order of their
/// items, and the verdicts of the answered scans, each with its point, in the order of the answers.
#[derive(Drop)]
pub struct Certified {
    pub line: u64,
    pub writes: Vec<UpdateWrite>,
    pub points: Vec<Verdict>,
}

/// The run is certified, or something is missing.
#[derive(Drop)]
pub enum Certification {
    Certified(Certified),
    Missing(Missing),
}
