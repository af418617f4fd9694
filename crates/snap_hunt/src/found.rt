//! `Found`: a run that fails, by its number, and what fails in it.
use crate::failures::Failure;

/// A run that fails, by its number, and what fails in it.
#[derive(Clone, Copy)]
pub struct Found {
    pub run: u64,
    pub failure: Failure,
}
