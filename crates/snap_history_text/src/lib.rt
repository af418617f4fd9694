//! Histories of snapshot objects and judgements of them, as texts.
#![tactic(auto)]

mod callers;
mod canonical_text;
mod event_form;
mod form;
mod judgement;
mod laws;
mod operations;
mod reader;
mod refusal;
mod verdicts;

pub use canonical_text::print;
pub use judgement::judgement_text;
pub use laws::{prints_again, reads_histories};
pub use operations::push_operations;
pub use reader::{MAX_BYTES, read};
pub use refusal::{HistoryFault, HistoryRefusal};
pub use verdicts::{push_not_linearizable, push_undecided};
