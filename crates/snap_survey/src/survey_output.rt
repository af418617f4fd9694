//! `survey_runs`: what the runs of one listing over many schedules came to, a line for each and one
//! for all of them.
ghost use Rattle.std.specs.Prelude.{◌≡◌, IfOk, map};
ghost use Rattle.snap_text.specs.Drafted.{Adds};
ghost use Rattle.std.specs.List.{list_all};
ghost use Rattle.snap_survey.specs.SurveyText.{survey_lines, surveys_text};
ghost use Rattle.snap_survey.specs.Surveys.{AnswersSurvey, WereJudgedOver};
ghost use Rattle.snap_survey.specs.Surveys.{are_clean, is_clean, survey_text};

use crate::JudgedSurvey;
use crate::summary::summary_of;
use crate::surveys::{read_in_threads, surveys_alone, surveys_in_threads};
use crate::text::{summary_line, survey_line};
use crate::words::is_not_linearizable;
use snap_asm_program::Program;
use snap_input::read_schedules;
use snap_semantics::{Fault, Refusal};
use snap_text::Draft;
use std::alloc::{AllocError, Global};
use std::thread::Threads;

/// Appends the lines of surveys, each with the number of its schedule.
fn push_survey_lines(out: &mut Draft, surveys: &[JudgedSurvey])
    ensures { Adds out.old out.new (survey_lines 1 surveys.now) }
{
    for k in 0..surveys.len() {
        survey_line(out, k as u64 + 1, &surveys[k]);
    }
}

/// Returns a line for each survey, and one for all of them.
fn surveys_text(alloc: Global, surveys: &[JudgedSurvey]) -> Result<Vec<u8>, AllocError>
    ensures { IfOk result (λ out. out.items ≡ surveys_text surveys.now) }
{
    let mut out = Draft::new(alloc);
    push_survey_lines(&mut out, surveys);
    summary_line(&mut out, &summary_of(surveys));
    out.finish()
}

/// Returns whether a run is not found to be not linearizable, and no item trapped its process.
fn is_clean(judged: &JudgedSurvey) -> bool
    ensures { result ≡ is_clean judged.now }
{
    !is_not_linearizable(judged.linearizability) && judged.survey.traps == 0
}

/// Returns whether each run is clean.
fn are_clean(surveys: &[JudgedSurvey]) -> bool
    ensures { result ≡ list_all is_clean surveys.now }
{
    surveys.iter().all(|survey| is_clean(survey))
}

/// The output on many runs, and whether each of them is clean.
#[derive(Drop)]
pub struct Output {
    pub text: Vec<u8>,
    pub clean: bool,
}

/// Returns the output on `surveys`, and whether each of them is clean.
fn output_of(alloc: Global, surveys: &[JudgedSurvey]) -> Result<Output, AllocError>
    ensures text { IfOk result (λ out. out.text.items ≡ surveys_text surveys.now) }
    ensures clean { IfOk result (λ out. out.clean ≡ list_all is_clean surveys.now) }
{
    Ok(Output {
        text: surveys_text(alloc, surveys)?,
        clean: are_clean(surveys),
    })
}

/// Returns what the run of `program` over each of `texts` came to, a line for each, and one for all
/// of them; and whether each of the runs is clean.
///
/// # Errors
///
/// `Refused` with the reason why the first text that is refused is; `Memory` where memory runs out.
#[tactic(auto, unfolding(crate::specs::Surveys::survey_text, crate::specs::Surveys::are_clean))]
pub fn survey_runs(
    alloc: Global,
    program: &Program,
    texts: &[&[u8]],
) -> Result<Output, Fault<Refusal>>
    ensures { let given = map (λ text. text.now) texts.now in
        AnswersSurvey (WereJudgedOver program.now given) result
        (λ judged. survey_text judged program.now given)
        (λ judged. are_clean judged program.now given) }
{
    let schedules = read_schedules(alloc, program, texts)?;
    let surveys = surveys_alone(alloc, program, schedules.as_slice())?;
    Ok(output_of(alloc, surveys.as_slice())?)
}

/// Returns what `survey_runs` returns, with the schedules read and run side by side.
///
/// # Errors
///
/// `Refused` with the reason why the first text that is refused is; `Memory` where memory runs out.
#[tactic(auto, unfolding(crate::specs::Surveys::survey_text, crate::specs::Surveys::are_clean))]
pub fn survey_runs_in_threads(
    rt: &(impl Threads + Sync),
    alloc: Global,
    program: &Program,
    texts: &[&[u8]],
) -> Result<Output, Fault<Refusal>>
    ensures { let given = map (λ text. text.now) texts.now in
        AnswersSurvey (WereJudgedOver program.now given) result
        (λ judged. survey_text judged program.now given)
        (λ judged. are_clean judged program.now given) }
{
    let schedules = read_in_threads(rt, alloc, program, texts)?;
    let surveys = surveys_in_threads(rt, alloc, program, schedules.as_slice())?;
    Ok(output_of(alloc, surveys.as_slice())?)
}
