//! `judge_input`: the output for an input that is to be judged, and whether its run or history is
//! linearizable.
ghost use Rattle.std.specs.Prelude.{◌≡◌, Err, IfOk, Some};
ghost use Rattle.snap_judge.specs.History.{IsHistory};
ghost use Rattle.snap_judge_task.specs.Judged.{found_at_once};
ghost use Rattle.snap_judge_task.specs.JudgeAnswer.{AnswersHistory, AnswersJudge, TellsOf};
ghost use Rattle.snap_faults.specs.declared.fault.ProgramFault.{ProgramFault};

use crate::failing::with_more;
use crate::run_history::history_in;
use snap_faults::ProgramFault;
use snap_history_text::judgement_text;
use snap_judge::{History, failing_of, judge};
use snap_run_judge::{Linearizability, word_of};
use snap_tasks::{JudgeRequest, JudgeSource};
use std::alloc::{AllocError, Global};

/// The output of a judgement, and the word for it.
#[derive(Drop)]
pub struct JudgeOutput {
    pub text: Vec<u8>,
    pub word: Linearizability,
}

/// Returns the output on a history, by a search that keeps at most `most` configurations.
#[tactic(auto, using(crate::proofs::Named::event_named))]
fn told(alloc: Global, history: History, most: u64) -> Result<JudgeOutput, AllocError>
    requires { IsHistory history }
    ensures { IfOk result (λ out. TellsOf most history out.text.items out.word) }
{
    let (judged, failing) = {
        let judgement = judge(alloc, &history, most as usize)?;
        let judged = judgement_text(alloc, &history, &judgement)?;
        (judged, failing_of(&judgement))
    };
    let text = with_more(alloc, judged, history, failing, most)?;
    let word = word_of(failing);
    Ok(JudgeOutput { text, word })
}

/// Returns the history that is judged.
#[tactic(auto, using(crate::proofs::AtOnce::of_run, crate::proofs::AtOnce::of_history))]
fn judged(alloc: Global, source: JudgeSource, input: &[u8]) -> Result<History, ProgramFault>
    ensures value { AnswersHistory source input.now result }
    ensures history { IfOk result (λ h. IsHistory h) }
    ensures at_once { (e : ProgramFault) → found_at_once source input.now ≡ Some e →
        result ≡ Err e }
{
    match source {
        JudgeSource::Run(subject) => Ok(history_in(alloc, subject, input)?),
        JudgeSource::History => Ok(snap_history_text::read(alloc, input)?),
    }
}

/// Returns the output for `input`, which is to be judged, and the word for the judgement.
///
/// # Errors
///
/// The first reason for which `input` is refused, or `Memory` where memory runs out.
pub fn judge_input(
    alloc: Global,
    request: &JudgeRequest,
    input: &[u8],
) -> Result<JudgeOutput, ProgramFault>
    ensures answers { AnswersJudge request.now input.now result }
    ensures at_once { (e : ProgramFault) → found_at_once request.now.source input.now ≡ Some e →
        result ≡ Err e }
{
    let history = judged(alloc, request.source, input)?;
    Ok(told(alloc, history, request.most)?)
}
