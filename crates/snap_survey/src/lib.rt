//! What a run came to: what was called, what was answered and done, each way in which an operation
//! did not end, and whether the run is linearizable, which explains an audit that finds little. The
//! output of the task `survey` on many runs is here too.
#![tactic(auto)]

mod findings;
mod in_threads;
mod scans;
mod summary;
mod survey_output;
mod surveyed;
mod surveys;
mod tally;
mod task;
mod text;
mod words;

pub use findings::{JudgedSurvey, Skip, Survey, Trap};
pub use in_threads::survey_in_threads;
pub use summary::Summary;
pub use survey_output::Output;
pub use surveyed::survey;
pub use task::survey_input;
