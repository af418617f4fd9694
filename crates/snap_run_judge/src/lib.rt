//! The history of a run, and whether it is linearizable.
#![tactic(auto)]

ghost use Rattle.snap_run_judge.specs.RunHistory.{RunsHaveHistories};

mod history;
mod judging;
mod verdict;

pub use history::history_of;
pub use judging::{
    MOST_CONFIGURATIONS, has_history, judge_history, judge_record, linearizability_of, word_of,
};
pub use snap_judge::{Failing, History, Linearizability};
pub use verdict::push_verdict;

/// The events of a run of any listing are a history.
pub fn runs_have_histories()
    ensures { RunsHaveHistories }
{}
