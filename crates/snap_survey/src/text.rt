//! The printed texts of surveys.
ghost use Rattle.snap_text.specs.Drafted.{Adds};
ghost use Rattle.snap_survey.specs.SurveyText.{
  counts_text,
  field_text,
  first_text,
  halts_text,
  scans_text,
  skip_text,
  summary_halts,
  summary_line,
  summary_scans,
  summary_updates,
  summary_words,
  survey_line,
  trap_text,
  updates_text,
  word_text,
};

use crate::findings::{JudgedSurvey, Skip, Survey, Trap};
use crate::summary::Summary;
use snap_report::outcome_text;
use snap_run_judge::Linearizability;
use snap_semantics::Outcome;
use snap_text::Draft;

/// Appends a number behind its name.
#[tactic(auto, unfolding(crate::specs::SurveyText::field_text))]
fn push_field(out: &mut Draft, name: &[u8], number: u64)
    ensures { Adds out.old out.new (field_text name.now number) }
{
    out.push(name);
    out.push_number(number);
}

/// Appends how many scans were answered, and how many were called; how many lack a point; and the
/// most double collects of one.
#[tactic(auto, unfolding(crate::specs::SurveyText::scans_text))]
fn scans_text(out: &mut Draft, survey: &Survey)
    ensures { Adds out.old out.new (scans_text survey.now) }
{
    push_field(out, b" scans ", survey.scans_answered);
    push_field(out, b" of ", survey.scans_called);
    push_field(out, b" without point ", survey.scans_without_point);
    push_field(out, b" collects ", survey.most_collects);
}

/// Appends how many updates are done, and how many were called; and how many operations have not
/// ended.
#[tactic(auto, unfolding(crate::specs::SurveyText::updates_text))]
fn updates_text(out: &mut Draft, survey: &Survey)
    ensures { Adds out.old out.new (updates_text survey.now) }
{
    push_field(out, b" updates ", survey.updates_done);
    push_field(out, b" of ", survey.updates_called);
    push_field(out, b" open ", survey.open_operations);
}

/// Appends how many items trapped or crashed their process, or were skipped.
#[tactic(auto, unfolding(crate::specs::SurveyText::halts_text))]
fn halts_text(out: &mut Draft, survey: &Survey)
    ensures { Adds out.old out.new (halts_text survey.now) }
{
    push_field(out, b" traps ", survey.traps);
    push_field(out, b" crashes ", survey.crashes);
    push_field(out, b" skips ", survey.skips);
}

/// Appends an item and its process.
#[tactic(auto, unfolding(crate::specs::SurveyText::first_text))]
fn first_text(out: &mut Draft, item: u64, process: u64)
    ensures { Adds out.old out.new (first_text item process) }
{
    out.push(b" first");
    push_field(out, b" item ", item);
    push_field(out, b" process ", process);
}

/// Appends the first trap, if there is one.
#[tactic(auto, unfolding(crate::specs::SurveyText::trap_text))]
fn trap_text(out: &mut Draft, trap: Option<Trap>)
    ensures { Adds out.old out.new (trap_text trap) }
{
    let Some(trap) = trap else {
        return;
    };
    first_text(out, trap.item, u64::from(trap.process));
    out.push(b" ");
    outcome_text(out, &Outcome::Trapped(trap.cause));
    push_field(out, b" at ", trap.line);
}

/// Appends the first skipped item, if there is one.
#[tactic(auto, unfolding(crate::specs::SurveyText::skip_text))]
fn skip_text(out: &mut Draft, skip: Option<Skip>)
    ensures { Adds out.old out.new (skip_text skip) }
{
    let Some(skip) = skip else {
        return;
    };
    first_text(out, skip.item, u64::from(skip.process));
    out.push(b" ");
    outcome_text(out, &Outcome::Skipped(skip.reason));
}

/// Appends the word for a run, at the end of its line.
fn word_text(out: &mut Draft, word: Linearizability)
    ensures { Adds out.old out.new (word_text word) }
{
    match word {
        Linearizability::Linearizable => out.push(b" linearizable"),
        Linearizability::NotLinearizable => out.push(b" not linearizable"),
        Linearizability::Undecided => out.push(b" undecided"),
    }
}

/// Appends a survey, in numbers, and its first trap and first skipped item.
#[tactic(auto, unfolding(crate::specs::SurveyText::counts_text))]
fn counts_text(out: &mut Draft, survey: &Survey)
    ensures { Adds out.old out.new (counts_text survey.now) }
{
    scans_text(out, survey);
    updates_text(out, survey);
    halts_text(out, survey);
    trap_text(out, survey.first_trap);
    skip_text(out, survey.first_skip);
}

/// Appends what the run over the schedule of this number came to, in one line.
#[tactic(auto, unfolding(crate::specs::SurveyText::survey_line))]
pub fn survey_line(out: &mut Draft, number: u64, judged: &JudgedSurvey)
    ensures { Adds out.old out.new (survey_line number judged.now) }
{
    push_field(out, b"schedule ", number);
    counts_text(out, &judged.survey);
    word_text(out, judged.linearizability);
    out.push(b"\n");
}

/// Appends the runs in which scans were answered, and have no point; the most double collects of a
/// scan.
#[tactic(auto, unfolding(crate::specs::SurveyText::summary_scans))]
fn summary_scans(out: &mut Draft, summary: &Summary)
    ensures { Adds out.old out.new (summary_scans summary.now) }
{
    push_field(out, b" scans ", summary.answering);
    push_field(out, b" without point ", summary.without_point);
    push_field(out, b" collects ", summary.most_collects);
}

/// Appends the runs in which updates are done, and operations have not ended.
#[tactic(auto, unfolding(crate::specs::SurveyText::summary_updates))]
fn summary_updates(out: &mut Draft, summary: &Summary)
    ensures { Adds out.old out.new (summary_updates summary.now) }
{
    push_field(out, b" updates ", summary.updating);
    push_field(out, b" open ", summary.unfinished);
}

/// Appends the runs with traps, crashes and skipped items.
#[tactic(auto, unfolding(crate::specs::SurveyText::summary_halts))]
fn summary_halts(out: &mut Draft, summary: &Summary)
    ensures { Adds out.old out.new (summary_halts summary.now) }
{
    push_field(out, b" traps ", summary.trapping);
    push_field(out, b" crashes ", summary.crashing);
    push_field(out, b" skips ", summary.skipping);
}

/// Appends how many runs are linearizable, how many are not, and of how many it is undecided.
fn summary_words(out: &mut Draft, summary: &Summary)
    ensures { Adds out.old out.new (summary_words summary.now) }
{
    push_field(out, b" linearizable ", summary.linearizable);
    push_field(out, b" not linearizable ", summary.not_linearizable);
    push_field(out, b" undecided ", summary.undecided);
}

/// Appends how many of many runs have what the fields of a survey count, in one line.
#[tactic(auto, unfolding(crate::specs::SurveyText::summary_line))]
pub fn summary_line(out: &mut Draft, summary: &Summary)
    ensures { Adds out.old out.new (summary_line summary.now) }
{
    push_field(out, b"schedules ", summary.schedules);
    summary_scans(out, summary);
    summary_updates(out, summary);
    summary_halts(out, summary);
    summary_words(out, summary);
    out.push(b"\n");
}
