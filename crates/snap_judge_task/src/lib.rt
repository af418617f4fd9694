//! What the program writes for an input that is to be judged: whether a run, or a history, is
//! linearizable; or why there is no output.
#![tactic(auto)]

mod failing;
mod output;
mod run_history;

pub use output::{JudgeOutput, judge_input};
pub use snap_run_judge::Linearizability;
