//! What the runs of one program over many schedules came to, one after another or side by side.
ghost use Rattle.std.specs.Prelude.{◌≡◌, IfOk, map};
ghost use Rattle.snap_semantics.specs.Answers.{Answers};
ghost use Rattle.snap_runs.specs.Run.{run_over};
ghost use Rattle.snap_input.specs.ManySchedules.{schedules_for};
ghost use Rattle.snap_survey.specs.Survey.{IsSurveyOf};
ghost use Rattle.snap_survey.specs.Surveys.{AreSurveysOf};

use crate::{JudgedSurvey, survey};
use rayon::prelude::*;
use snap_asm_program::Program;
use snap_input::{read_schedules, read_side_by_side};
use snap_sched::Schedule;
use snap_semantics::{Fault, Refusal};
use snap_words::{Bits, KindTag, Multi, Seq};
use std::alloc::{AllocError, Global};
use std::thread::Threads;

/// Returns what the run over a schedule came to.
fn survey_of(
    alloc: Global,
    program: &Program,
    schedule: &Schedule,
) -> Result<JudgedSurvey, AllocError>
    ensures { IfOk result (IsSurveyOf (run_over program.now schedule.now)) }
{
    match program.kind() {
        KindTag::Seq => survey::<Seq>(alloc, program, schedule),
        KindTag::Bits => survey::<Bits>(alloc, program, schedule),
        KindTag::Multi => survey::<Multi>(alloc, program, schedule),
    }
}

/// Returns what the run over each of `schedules` came to, in their order.
pub(crate) fn surveys_alone(
    alloc: Global,
    program: &Program,
    schedules: &[Schedule],
) -> Result<Vec<JudgedSurvey>, AllocError>
    ensures { IfOk result (λ surveys. AreSurveysOf program.now schedules.now surveys.items) }
{
    let mut surveys = Vec::new(alloc);
    for schedule in schedules {
        surveys.push(survey_of(alloc, program, schedule)?)?;
    }
    Ok(surveys)
}

/// Returns what the run over each of `schedules` came to, in their order, whichever thread made it
/// and when.
fn surveys_side_by_side(
    rt: &(impl Threads + Sync),
    alloc: Global,
    program: &Program,
    schedules: &[Schedule],
) -> Result<Vec<JudgedSurvey>, AllocError>
    ensures { IfOk result (λ surveys. AreSurveysOf program.now schedules.now surveys.items) }
{
    // Each schedule is worth a thread. A chain of rayon runs in one thread if it is short, unless
    // it is told otherwise.
    let surveys: Result<Vec<JudgedSurvey>, AllocError> = schedules
        .par_iter()
        .with_min_len(1)
        .map(
            |schedule: &Schedule| -> Result<JudgedSurvey, AllocError>
                ensures { IfOk result (IsSurveyOf (run_over program.entry.now schedule.now)) }
            { survey_of(alloc, program, schedule) },
        )
        .collect(rt, alloc)?;
    surveys
}

/// Returns what the run over each of `schedules` came to, made side by side, or one after another
/// if memory runs out for that.
pub(crate) fn surveys_in_threads(
    rt: &(impl Threads + Sync),
    alloc: Global,
    program: &Program,
    schedules: &[Schedule],
) -> Result<Vec<JudgedSurvey>, AllocError>
    ensures { IfOk result (λ surveys. AreSurveysOf program.now schedules.now surveys.items) }
{
    match surveys_side_by_side(rt, alloc, program, schedules) {
        Ok(surveys) => Ok(surveys),
        Err(_) => surveys_alone(alloc, program, schedules),
    }
}

/// Reads schedules whose shapes fit a program, side by side, and once more one after another if one
/// of them has a fault, which finds the first fault, and takes less memory.
pub(crate) fn read_in_threads(
    rt: &(impl Threads + Sync),
    alloc: Global,
    program: &Program,
    texts: &[&[u8]],
) -> Result<Vec<Schedule>, Fault<Refusal>>
    ensures { Answers (λ ss. ss.items) result
        (schedules_for program.now (map (λ text. text.now) texts.now)) }
{
    match read_side_by_side(rt, alloc, program, texts) {
        Ok(schedules) => Ok(schedules),
        Err(_) => read_schedules(alloc, program, texts),
    }
}
