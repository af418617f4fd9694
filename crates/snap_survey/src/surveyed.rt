//! `survey`: a machine goes through the run of a schedule, watched as for an audit, and a `Tally`
//! is kept of its items. Of what was noted the `Survey` of the run is made.
ghost use Rattle.std.specs.Prelude.{◌≡◌, IfOk, length};
ghost use Rattle.snap_runs.specs.Run.{run_over};
ghost use Rattle.snap_runs.specs.Scan.{count};
ghost use Rattle.snap_walk.specs.Walk.{Way};
ghost use Rattle.snap_audit.specs.Watch.{Watches};
ghost use Rattle.snap_survey.specs.Survey.{IsSurveyOf, is_trap, survey_of};
ghost use Rattle.snap_survey.specs.Tally.{TalliesOn, is_open_in, tally_of};

use crate::findings::{JudgedSurvey, Survey};
use crate::scans::{most_collects, without_point};
use crate::tally::Tally;
use snap_asm_program::Program;
use snap_audit::Watch;
use snap_machine::Machine;
use snap_run_judge::{History, MOST_CONFIGURATIONS, judge_history, word_of};
use snap_sched::Schedule;
use snap_semantics::{Outcome, Status, who};
use snap_walk::{Passed, Walk};
use snap_words::Kind;
use std::alloc::{AllocError, Global};

/// Returns whether an item trapped its process.
fn is_trap(outcome: &Outcome) -> bool
    ensures { result ≡ is_trap outcome.now }
{
    matches!(outcome, Outcome::Trapped(_))
}

/// Notes the item that was told last in a tally.
fn note<K: Kind>(tally: &mut Tally, walk: &Walk<'_, K>, passed: &Passed)
    requires passed { (w : Way) × TalliesOn w tally.old passed.now walk.now }
    ensures { tally.new ≡ tally_of walk.now.run walk.now.at }
{
    // The status is noted of a trap alone.
    let status = if is_trap(&passed.outcome) {
        walk.machine().status(who(passed.item))
    } else {
        Status::Idle
    };
    tally.note(passed.number, passed.item, &passed.outcome, status);
}

/// Returns how many processes are at an operation, or were at one when they trapped or crashed.
fn open_operations<K: Kind>(machine: &Machine<K>) -> u64
    ensures { result ≡ count (is_open_in machine.now.state) 0 machine.now.shape.n }
{
    let mut open = 0;
    for k in 0..machine.shape().n() {
        if machine.operation(k as u32 + 1).is_some() {
            open += 1;
        }
    }
    open
}

/// Returns what a run came to, behind its last item.
fn survey_of<K: Kind>(
    alloc: Global,
    walk: &Walk<'_, K>,
    watch: &Watch,
    tally: &Tally,
) -> Result<Survey, AllocError>
    requires end { walk.now.at ≡ length walk.now.run.items }
    requires watch { Watches walk.now watch.now }
    requires tally { tally.now ≡ tally_of walk.now.run walk.now.at }
    ensures { IfOk result (λ s. s ≡ survey_of walk.now.run) }
{
    let verdicts = watch.verdicts(alloc)?;
    Ok(Survey {
        scans_called: tally.scans_called,
        scans_answered: verdicts.len() as u64,
        scans_without_point: without_point(verdicts.as_slice()),
        most_collects: most_collects(verdicts.as_slice()),
        updates_called: tally.updates_called,
        updates_done: tally.updates_done,
        open_operations: open_operations(walk.machine()),
        traps: tally.traps,
        first_trap: tally.first_trap,
        crashes: tally.crashes,
        skips: walk.skipped(),
        first_skip: tally.first_skip,
    })
}

/// Returns what the run came to, and whether it is linearizable.
fn judged_survey<K: Kind>(
    alloc: Global,
    walk: &Walk<'_, K>,
    watch: Watch,
    tally: &Tally,
) -> Result<JudgedSurvey, AllocError>
    requires end { walk.now.at ≡ length walk.now.run.items }
    requires watch { Watches walk.now watch }
    requires tally { tally.now ≡ tally_of walk.now.run walk.now.at }
    ensures { IfOk result (IsSurveyOf walk.now.run) }
{
    let survey = survey_of(alloc, walk, &watch, tally)?;
    let machine = walk.machine();
    let history = History {
        shape: machine.shape(),
        events: watch.into_events(),
    };
    let failing = judge_history(alloc, machine.program(), &history, MOST_CONFIGURATIONS)?;
    Ok(JudgedSurvey {
        survey,
        linearizability: word_of(failing),
    })
}

/// Returns what the run of `program` over `schedule` came to, and whether it is linearizable.
///
/// # Errors
///
/// `AllocError` where memory runs out.
pub fn survey<K: Kind>(
    alloc: Global,
    program: &Program,
    schedule: &Schedule,
) -> Result<JudgedSurvey, AllocError>
    requires { program.now.kind ≡ K.TAG }
    ensures { IfOk result (IsSurveyOf (run_over program.now schedule.now)) }
{
    let mut walk = Walk::<K>::over(alloc, program, schedule)?;
    let mut watch = Watch::new(alloc, program, schedule)?;
    let mut tally = Tally::new();
    while let Some(passed) = walk.next_told(watch.silent_lines(), tally.seeks_skip())? {
        note(&mut tally, &walk, &passed);
        watch.note(&walk, passed)?;
    }
    judged_survey(alloc, &walk, watch, &tally)
}
