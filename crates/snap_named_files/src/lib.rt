//! The files that a command line names: a listing and a schedule, or a schedule for a shipped listing; their texts; and
//! what explains why one of them is refused.
#![tactic(auto)]

mod named;
mod texts;
mod why;

pub use named::{Named, named_of, names_of};
pub use texts::{Texts, read_texts};
pub use why::explained;
