//! Whether the run of a record is linearizable.
ghost use Rattle.std.specs.Prelude.{◌≡◌, IfOk};
ghost use Rattle.snap_judge.specs.History.{IsHistory};
ghost use Rattle.snap_runs.specs.Run.{Run};
ghost use Rattle.snap_judge.specs.Judgement.{NamesEvent};
ghost use Rattle.snap_run_judge.specs.RunHistory.{IsHistoryOf, history_of};
ghost use Rattle.snap_run_judge.specs.RunJudgement.{IsLinearizabilityOf, IsRunJudgement, word_of};

use crate::history::history_of;
use crate::runs_have_histories;
use snap_asm_program::Program;
use snap_judge::{
    Failing, History, Linearizability, judge_without_order, linearizable_from_the_beginning,
};
use snap_record::Record;
use snap_words::Kind;
use std::alloc::{AllocError, Global};

/// The most configurations that a search keeps, unless another bound is given.
pub const MOST_CONFIGURATIONS: usize = 1_000_000;

/// The events of the run of a record are a history.
pub fn has_history<K: Kind>(history: &Record<K>)
    ensures { IsHistory (history_of history.now) }
{
    // What `items` and `lines` promise: the run is a valid one, of a listing.
    let _items = history.items();
    let _lines = history.machine().program().listing().lines();
    runs_have_histories();
}

/// Returns where the run of `history` fails.
///
/// # Errors
///
/// `AllocError` where memory runs out.
#[tactic(auto, using(snap_judge::proofs::Judging::names_event))]
pub fn judge_record<K: Kind>(
    alloc: Global,
    history: &Record<K>,
    most: usize,
) -> Result<Failing, AllocError>
    ensures judgement { IfOk result (IsRunJudgement most history.now) }
    ensures names { IfOk result (NamesEvent (history_of history.now)) }
{
    has_history(history);
    let events = history_of(alloc, history)?;
    judge_without_order(alloc, &events, most)
}

/// Returns where the run of `program` that has the history `history` fails.
///
/// # Errors
///
/// `AllocError` where memory runs out.
pub fn judge_history(
    alloc: Global,
    program: &Program,
    history: &History,
    most: usize,
) -> Result<Failing, AllocError>
    requires { (r : Run) × IsHistoryOf r program.now history.now }
    ensures { IfOk result (λ f. (r : Run) → IsHistoryOf r program.now history.now →
        IsRunJudgement most r f) }
{
    // What `lines` promises: the listing keeps the rules of listings.
    let _lines = program.listing().lines();
    runs_have_histories();
    judge_without_order(alloc, history, most)
}

/// Returns the word for what is said of where a history fails.
pub fn word_of(failing: Failing) -> Linearizability
    ensures { result ≡ word_of failing }
{
    match failing {
        Failing::Nowhere => Linearizability::Linearizable,
        Failing::At(_) => Linearizability::NotLinearizable,
        Failing::Undecided(_) => Linearizability::Undecided,
    }
}

/// Returns the word for the run of a record, by where its history fails.
pub fn word_for<K: Kind>(history: &Record<K>, most: usize, failing: Failing) -> Linearizability
    requires { IsRunJudgement most history.now failing }
    ensures word { result ≡ word_of failing }
    ensures so { IsLinearizabilityOf most history.now result }
{
    has_history(history);
    linearizable_from_the_beginning();
    word_of(failing)
}

/// Returns whether the run of `history` is linearizable.
///
/// # Errors
///
/// `AllocError` where memory runs out.
pub fn linearizability_of<K: Kind>(
    alloc: Global,
    history: &Record<K>,
    most: usize,
) -> Result<Linearizability, AllocError>
    ensures { IfOk result (IsLinearizabilityOf most history.now) }
{
    let failing = judge_record(alloc, history, most)?;
    Ok(word_for(history, most, failing))
}
