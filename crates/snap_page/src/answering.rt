//! `answer_to`: the output for an input that a page in a browser sends, by a task or a judgement.
ghost use Rattle.std.specs.Prelude.{◌≡◌};
ghost use Rattle.snap_input.specs.RefusesAtOnce.{IsRefusedAtOnce};
ghost use Rattle.snap_page.specs.Answer.{AnswersBy, IsAnswerFor, found_at_once, judge_request};
ghost use Rattle.snap_page.specs.declared.page_request.PageRequest.TheVariants.{Judge};

use crate::page_request::PageRequest;
use snap_faults::ProgramFault;
use snap_judge_task::judge_input;
use snap_output::output_alone;
use snap_semantics::{Fault, Refusal};
use snap_tasks::{JudgeRequest, JudgeSource, Subject};
use std::alloc::Global;

/// The most configurations that a search for an order keeps: a page waits some seconds for as many,
/// where the program itself allows ten times as many.
pub(crate) const PAGE_CONFIGURATIONS: u64 = 100_000;

/// Returns what is judged: the run of this listing.
pub(crate) fn judge_request(subject: Subject) -> JudgeRequest
    ensures { result ≡ judge_request subject }
{
    JudgeRequest {
        source: JudgeSource::Run(subject),
        most: PAGE_CONFIGURATIONS,
    }
}

/// Returns the judgement of the run of an input.
#[tactic(auto, using(crate::proofs::Judging::of_run))]
fn judged_run(alloc: Global, subject: Subject, input: &[u8]) -> Result<Vec<u8>, Fault<Refusal>>
    ensures output { AnswersBy (IsAnswerFor (Judge subject) input.now) result }
    ensures at_once { IsRefusedAtOnce (found_at_once (Judge subject) input.now) result }
{
    match judge_input(alloc, &judge_request(subject), input) {
        Ok(output) => Ok(output.text),
        Err(ProgramFault::Memory) => Err(Fault::Memory),
        Err(ProgramFault::Refused(refusal)) => Err(Fault::Refused(refusal)),
        Err(_) => unreachable!(),
    }
}

/// Returns the whole output for `input`.
///
/// # Errors
///
/// `Refused` with the reason why `input` is refused; `Memory` where memory runs out. What
/// `found_at_once` finds is refused even then.
pub fn answer_to(
    alloc: Global,
    asked: &PageRequest,
    input: &[u8],
) -> Result<Vec<u8>, Fault<Refusal>>
    ensures output { AnswersBy (IsAnswerFor asked.now input.now) result }
    ensures at_once { IsRefusedAtOnce (found_at_once asked.now input.now) result }
{
    match asked {
        PageRequest::Do(task) => output_alone(alloc, task, input),
        PageRequest::Judge(subject) => judged_run(alloc, *subject, input),
    }
}
