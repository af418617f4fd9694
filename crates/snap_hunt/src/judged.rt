//! `of_judgement`: that a run is not linearizable, if that failure is wanted.
ghost use Rattle.std.specs.Prelude.{◌≡◌, IfOk, length};
ghost use Rattle.snap_words.specs.Shape.{IsOneOf};
ghost use Rattle.snap_runs.specs.Run.{Run};
ghost use Rattle.snap_run_judge.specs.RunHistory.{IsHistoryOf, history_of};
ghost use Rattle.snap_hunt.specs.Finding.{IsJudged, IsJudgedIf, failure_at};

use crate::failures::{Failure, Wanted};
use snap_asm_program::Program;
use snap_run_judge::{Failing, History, MOST_CONFIGURATIONS, judge_history};
use std::alloc::{AllocError, Global};

/// Returns that a run fails at this event of its history, counted from 1.
fn failure_at(history: &History, event: usize) -> Failure
    requires { IsOneOf (length history.now.events) event }
    ensures { (r : Run) → history.now ≡ history_of r → result ≡ failure_at r event }
{
    let event = &history.events[event - 1];
    Failure::NotLinearizable {
        process: event.process,
        item: event.item,
    }
}

/// Returns that the run of this history is not linearizable; `None` where it is linearizable, or
/// that is not decided.
fn judged(
    alloc: Global,
    program: &Program,
    history: &History,
) -> Result<Option<Failure>, AllocError>
    requires { (r : Run) × IsHistoryOf r program.now history.now }
    ensures { IfOk result (λ f. (r : Run) → IsHistoryOf r program.now history.now → IsJudged r f) }
{
    match judge_history(alloc, program, history, MOST_CONFIGURATIONS)? {
        Failing::At(event) => Ok(Some(failure_at(history, event))),
        Failing::Nowhere => Ok(None),
        Failing::Undecided(_) => Ok(None),
    }
}

/// Returns the failure of this history to be linearizable, if it is wanted and true.
pub(crate) fn of_judgement(
    alloc: Global,
    program: &Program,
    history: &History,
    wanted: &Wanted,
) -> Result<Option<Failure>, AllocError>
    requires { (r : Run) × IsHistoryOf r program.now history.now }
    ensures { IfOk result (λ f. (r : Run) → IsHistoryOf r program.now history.now →
        IsJudgedIf wanted.now.linearizable r f) }
{
    if wanted.linearizable {
        judged(alloc, program, history)
    } else {
        Ok(None)
    }
}
