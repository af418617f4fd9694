//! `output`: what the program writes for an input, for each task, or why there is no output.
ghost use Rattle.std.specs.Prelude.{◌≤◌, [], length};
ghost use Rattle.snap_semantics.specs.Answers.{Answers};
ghost use Rattle.snap_input.specs.Input.{checked_parts, parted};
ghost use Rattle.snap_input.specs.Parts.{max_input, parts_of};
ghost use Rattle.snap_input.specs.RefusesAtOnce.{IsRefusedAtOnce, RefusesAtOnce};
ghost use Rattle.snap_output.specs.RunOutput.{end_text};
ghost use Rattle.snap_output.specs.AtOnce.{found_at_once};
ghost use Rattle.snap_run_judge.specs.Judged.{AnswersJudged};
ghost use Rattle.snap_output.specs.Output.{AnswersOutput, AreJudged, output_of, run_text};
ghost use Rattle.snap_tasks.specs.declared.task.Task.TheVariants.{Run, Survey};

use crate::debug_task::debug;
use crate::inputs::{audit, batch, batch_in_threads};
use crate::run_output::PlannedRun;
use crate::task::trace_input;
use snap_certify::certify_input;
use snap_input::{MAX_INPUT, assemble, list, upgrade};
use snap_lint::{check_of, lint_of};
use snap_semantics::{Fault, Refusal};
use snap_survey::{Output, survey_in_threads, survey_input};
use snap_tasks::{Subject, Task};
use std::alloc::Global;
use std::thread::Threads;

/// Returns the output of a listing under a schedule, to its end: the reply of a session to the one
/// command `run`.
fn run(alloc: Global, subject: Subject, input: &[u8]) -> Result<Vec<u8>, Fault<Refusal>>
    requires { length input.now ≤ max_input }
    ensures output { Answers (λ out. out.items) result
        (parted subject 1 (parts_of input.now) run_text) }
    ensures at_once { RefusesAtOnce (checked_parts subject 1 (parts_of input.now)) result }
{
    crate::inputs::run(alloc, subject, input)
}

/// Returns the program of a listing and the schedule of a text.
fn plan(alloc: Global, subject: Subject, input: &[u8]) -> Result<PlannedRun, Fault<Refusal>>
    requires { length input.now ≤ max_input }
    ensures output { Answers (λ run. end_text run.program run.schedule) result
        (parted subject 1 (parts_of input.now) run_text) }
    ensures at_once { RefusesAtOnce (checked_parts subject 1 (parts_of input.now)) result }
{
    crate::inputs::plan_input(alloc, subject, input)
}

/// Returns the program and the schedule of `input`. `run_planned` writes of them what `output`
/// writes for the task `run`, so a caller may free the input in between.
///
/// # Errors
///
/// `Refused` with the reason why `input` is refused; `Memory` where memory runs out. An input that
/// is too long or has a wrong number of parts is refused even then.
#[tactic(auto, using(crate::proofs::AtOnce::of_why), unfolding(crate::specs::Output::output_of))]
pub fn planned_run(
    alloc: Global,
    subject: Subject,
    input: &[u8],
) -> Result<PlannedRun, Fault<Refusal>>
    ensures output { Answers (λ run. end_text run.program run.schedule) result
        (output_of [] (Run subject) input.now) }
    ensures at_once { IsRefusedAtOnce (found_at_once (Run subject) input.now) result }
{
    if input.len() > MAX_INPUT {
        return Err(Fault::Refused(Refusal::InputTooLong));
    }
    plan(alloc, subject, input)
}

/// Returns the whole output for `input`, made in one thread.
///
/// # Errors
///
/// `Refused` with the reason why `input` is refused; `Memory` where memory runs out. What
/// `found_at_once` finds is refused even then.
#[tactic(auto, using(crate::proofs::AtOnce::of_text, crate::proofs::AtOnce::of_why), unfolding(crate::specs::Output::output_of))]
pub fn output_alone(alloc: Global, task: &Task, input: &[u8]) -> Result<Vec<u8>, Fault<Refusal>>
    ensures output { AnswersJudged (λ out. out.items) (AreJudged task.now input.now) result
        (λ judged. output_of judged task.now input.now) }
    ensures at_once { IsRefusedAtOnce (found_at_once task.now input.now) result }
{
    if input.len() > MAX_INPUT {
        return Err(Fault::Refused(Refusal::InputTooLong));
    }
    match *task {
        Task::Check => check_of(alloc, input),
        Task::Lint => lint_of(alloc, input),
        Task::Assemble => assemble(alloc, input),
        Task::List => list(alloc, input),
        Task::Upgrade => upgrade(alloc, input),
        Task::Run(subject) => run(alloc, subject, input),
        Task::Trace(subject) => trace_input(alloc, subject, input),
        Task::Debug(subject) => debug(alloc, subject, input),
        Task::Audit(subject) => audit(alloc, subject, input),
        Task::Certify(subject) => certify_input(alloc, subject, input),
        Task::Batch(subject) => batch(alloc, subject, input),
        Task::Survey(subject) => Ok(survey_input(alloc, subject, input)?.text),
    }
}

/// Returns the output for `input`, which is surveyed, and whether each of its runs is clean. The
/// schedules are read and run side by side.
#[tactic(auto, using(crate::proofs::AtOnce::of_why), unfolding(crate::specs::Output::output_of, crate::specs::Output::clean_of))]
fn survey_output(
    rt: &(impl Threads + Sync),
    alloc: Global,
    subject: Subject,
    input: &[u8],
) -> Result<Output, Fault<Refusal>>
    ensures output { AnswersOutput (Survey subject) input.now result }
    ensures at_once { IsRefusedAtOnce (found_at_once (Survey subject) input.now) result }
{
    if input.len() > MAX_INPUT {
        return Err(Fault::Refused(Refusal::InputTooLong));
    }
    survey_in_threads(rt, alloc, subject, input)
}

/// Returns the text for `input`, with the schedules of a batch read and run side by side. A batch
/// that has a fault there is made once more in one thread, which finds the first fault, and takes
/// less memory.
#[tactic(auto, using(crate::proofs::AtOnce::of_why), unfolding(crate::specs::Output::output_of))]
fn text_of(
    rt: &(impl Threads + Sync),
    alloc: Global,
    task: &Task,
    input: &[u8],
) -> Result<Vec<u8>, Fault<Refusal>>
    ensures output { AnswersJudged (λ out. out.items) (AreJudged task.now input.now) result
        (λ judged. output_of judged task.now input.now) }
    ensures at_once { IsRefusedAtOnce (found_at_once task.now input.now) result }
{
    match *task {
        Task::Batch(subject) if input.len() <= MAX_INPUT => {
            match batch_in_threads(rt, alloc, subject, input) {
                Ok(text) => Ok(text),
                Err(_) => output_alone(alloc, task, input),
            }
        }
        _ => output_alone(alloc, task, input),
    }
}

/// Returns the whole output for `input`, with the schedules of a batch or a survey read and run
/// side by side; and whether all runs that are surveyed are clean.
///
/// # Errors
///
/// `Refused` with the reason why `input` is refused; `Memory` where memory runs out. What
/// `found_at_once` finds is refused even then.
#[tactic(auto, unfolding(crate::specs::Output::clean_of))]
pub fn output(
    rt: &(impl Threads + Sync),
    alloc: Global,
    task: &Task,
    input: &[u8],
) -> Result<Output, Fault<Refusal>>
    ensures output { AnswersOutput task.now input.now result }
    ensures at_once { IsRefusedAtOnce (found_at_once task.now input.now) result }
{
    match *task {
        Task::Survey(subject) => survey_output(rt, alloc, subject, input),
        _ => {
            let text = text_of(rt, alloc, task, input)?;
            Ok(Output { text, clean: true })
        }
    }
}
