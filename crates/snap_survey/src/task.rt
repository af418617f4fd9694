//! `survey_input`: what the task `survey` writes for an input.
ghost use Rattle.std.specs.Prelude.{◌≤◌, length};
ghost use Rattle.snap_input.specs.Parts.{max_input, parts_of};
ghost use Rattle.snap_input.specs.ManySchedules.{checked_schedules};
ghost use Rattle.snap_input.specs.RefusesAtOnce.{RefusesAtOnce};
ghost use Rattle.snap_survey.specs.Surveys.{AnswersSurvey, WereJudgedIn, clean_runs, surveyed};

use crate::survey_output::{Output, survey_runs};
use snap_input::prepare_schedules;
use snap_semantics::{Fault, Refusal};
use snap_tasks::Subject;
use std::alloc::Global;

/// Returns what the runs of a listing under many schedules came to, and whether each of them is
/// clean.
///
/// # Errors
///
/// `Refused` with the reason why `input` is refused; `Memory` where memory runs out. A wrong number
/// of parts is refused even then.
#[tactic(auto, unfolding(crate::specs::Surveys::surveyed, crate::specs::Surveys::clean_runs, snap_input::specs::ManySchedules::prepared_schedules))]
pub fn survey_input(alloc: Global, subject: Subject, input: &[u8]) -> Result<Output, Fault<Refusal>>
    requires { length input.now ≤ max_input }
    ensures output { let parts = parts_of input.now in
        AnswersSurvey (WereJudgedIn subject parts) result (λ judged. surveyed judged subject parts)
        (λ judged. clean_runs judged subject parts) }
    ensures at_once { RefusesAtOnce (checked_schedules subject (parts_of input.now)) result }
{
    let given = prepare_schedules(alloc, subject, input)?;
    survey_runs(alloc, &given.program, given.texts.as_slice())
}
