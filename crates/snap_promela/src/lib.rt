//! Promela models of a listing and scripts, for the model checker Spin: `model_text` writes one.
//! The translation is not proved; simulations of models are compared with runs.
#![tactic(auto)]

mod ends;
mod lines;
mod model;
mod monitor;
mod processes;
mod puts;
mod quantifiers;
mod report;
mod terms;
mod writer;

pub use model::model_text;
pub use snap_semantics::ModelRefusal;
