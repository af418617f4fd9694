//! The output of the tasks `run`, `audit` and `batch` for the parts of an input, or why they refuse
//! it.
ghost use Rattle.std.specs.Prelude.{◌≡◌, ◌≤◌, ◌<◌, IfOk, Ok, length, map};
ghost use Rattle.snap_semantics.specs.Answers.{Answers};
ghost use Rattle.snap_input.specs.Input.{checked_parts, parted};
ghost use Rattle.snap_input.specs.Parts.{max_input, parts_of};
ghost use Rattle.snap_input.specs.ManySchedules.{checked_schedules};
ghost use Rattle.snap_input.specs.RefusesAtOnce.{RefusesAtOnce};
ghost use Rattle.snap_output.specs.RunOutput.{end_text, run_of_first_text};
ghost use Rattle.snap_output.specs.ScheduleOutput.{audit_of_first_text, batched};

use crate::audit_output::audit_program;
use crate::batch_output::{batch_program, batch_side_by_side};
use crate::run_output::{PlannedRun, plan, run_planned};
use snap_input::{Prepared, prepare, prepare_schedules};
use snap_semantics::{Fault, Refusal};
use snap_tasks::Subject;
use std::alloc::Global;
use std::thread::Threads;

/// Returns a program and a schedule of which `run_planned` writes what `run` writes for `input`.
/// The run needs `input` no more.
///
/// # Errors
///
/// `Refused` with the reason why `input` is refused; `Memory` where memory runs out. A wrong number
/// of parts is refused even then.
#[tactic(auto, unfolding(snap_input::specs::Input::parted, snap_input::specs::Input::prepared))]
pub fn plan_input(
    alloc: Global,
    subject: Subject,
    input: &[u8],
) -> Result<PlannedRun, Fault<Refusal>>
    requires { length input.now ≤ max_input }
    ensures output { Answers (λ run. end_text run.program run.schedule) result
        (parted subject 1 (parts_of input.now) run_of_first_text) }
    ensures at_once { RefusesAtOnce (checked_parts subject 1 (parts_of input.now)) result }
{
    let Prepared { program, texts } = prepare(alloc, subject, 1, input)?;
    plan(alloc, program, texts[0])
}

/// Returns the output of a listing under a schedule, run to its end.
///
/// # Errors
///
/// `Refused` with the reason why `input` is refused; `Memory` where memory runs out. A wrong number
/// of parts is refused even then.
pub fn run(alloc: Global, subject: Subject, input: &[u8]) -> Result<Vec<u8>, Fault<Refusal>>
    requires { length input.now ≤ max_input }
    ensures output { Answers (λ out. out.items) result
        (parted subject 1 (parts_of input.now) run_of_first_text) }
    ensures at_once { RefusesAtOnce (checked_parts subject 1 (parts_of input.now)) result }
{
    let run = plan_input(alloc, subject, input)?;
    Ok(run_planned(alloc, run)?)
}

/// Returns the verdicts on a listing under a schedule.
///
/// # Errors
///
/// `Refused` with the reason why `input` is refused; `Memory` where memory runs out. A wrong number
/// of parts is refused even then.
#[tactic(auto, unfolding(snap_input::specs::Input::parted, snap_input::specs::Input::prepared))]
pub fn audit(alloc: Global, subject: Subject, input: &[u8]) -> Result<Vec<u8>, Fault<Refusal>>
    requires { length input.now ≤ max_input }
    ensures output { Answers (λ out. out.items) result
        (parted subject 1 (parts_of input.now) audit_of_first_text) }
    ensures at_once { RefusesAtOnce (checked_parts subject 1 (parts_of input.now)) result }
{
    let given = prepare(alloc, subject, 1, input)?;
    audit_program(alloc, &given.program, given.texts[0])
}

/// Returns the reports of a listing under many schedules.
///
/// # Errors
///
/// `Refused` with the first reason why `input` is refused; `Memory` where memory runs out. A wrong
/// number of parts is refused even then.
#[tactic(auto, unfolding(crate::specs::ScheduleOutput::batched, snap_input::specs::ManySchedules::prepared_schedules))]
pub fn batch(alloc: Global, subject: Subject, input: &[u8]) -> Result<Vec<u8>, Fault<Refusal>>
    requires { length input.now ≤ max_input }
    ensures output { Answers (λ out. out.items) result (batched subject (parts_of input.now)) }
    ensures at_once { RefusesAtOnce (checked_schedules subject (parts_of input.now)) result }
{
    let given = prepare_schedules(alloc, subject, input)?;
    batch_program(alloc, &given.program, given.texts.as_slice())
}

/// Returns what `batch` returns, with the schedules read and run side by side.
///
/// # Errors
///
/// `Refused` or `Memory`. No clause says which, or why, except that a wrong number of parts is
/// refused as such; call `batch` for the reason.
#[tactic(auto, unfolding(crate::specs::ScheduleOutput::batched, snap_input::specs::ManySchedules::prepared_schedules))]
pub fn batch_in_threads(
    rt: &(impl Threads + Sync),
    alloc: Global,
    subject: Subject,
    input: &[u8],
) -> Result<Vec<u8>, Fault<Refusal>>
    requires { length input.now ≤ max_input }
    ensures output { IfOk result (λ out. batched subject (parts_of input.now) ≡ Ok out.items) }
    ensures at_once { RefusesAtOnce (checked_schedules subject (parts_of input.now)) result }
{
    let given = prepare_schedules(alloc, subject, input)?;
    batch_side_by_side(rt, alloc, &given.program, given.texts.as_slice())
}
