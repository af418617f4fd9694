//! `history_in`: the history of the run of an input, of a listing under a schedule.
ghost use Rattle.std.specs.Prelude.{◌≡◌, ◌≤◌, ◌<◌, Err, IfOk, length, map};
ghost use Rattle.snap_semantics.specs.Answers.{Answers};
ghost use Rattle.snap_semantics.specs.declared.fault.Fault.TheVariants.{Refused};
ghost use Rattle.snap_semantics.specs.declared.refusal.Refusal.TheVariants.{InputTooLong};
ghost use Rattle.snap_runs.specs.Run.{run_over};
ghost use Rattle.snap_input.specs.Input.{checked_parts, parted};
ghost use Rattle.snap_input.specs.Parts.{max_input, parts_of};
ghost use Rattle.snap_input.specs.RefusesAtOnce.{RefusesAtOnce};
ghost use Rattle.snap_judge.specs.History.{IsHistory};
ghost use Rattle.snap_run_judge.specs.RunHistory.{history_of};
ghost use Rattle.snap_judge_task.specs.Judged.{history_in, history_of_texts, run_history};

use snap_asm_program::Program;
use snap_input::{MAX_INPUT, prepare, schedule_for};
use snap_judge::History;
use snap_record::record_over;
use snap_run_judge::{has_history, history_of};
use snap_sched::Schedule;
use snap_semantics::{Fault, Refusal};
use snap_tasks::Subject;
use snap_words::{Bits, Kind, KindTag, Multi, Seq};
use std::alloc::{AllocError, Global};

/// Returns the history of the run of a program under a schedule.
fn history_over<K: Kind>(
    alloc: Global,
    program: &Program,
    schedule: &Schedule,
) -> Result<History, AllocError>
    requires { program.now.kind ≡ K.TAG }
    ensures value { IfOk result (λ h. h ≡ history_of (run_over program.now schedule.now)) }
    ensures history { IfOk result (λ h. IsHistory h) }
{
    let record = record_over::<K>(alloc, program, schedule)?;
    has_history(&record);
    history_of(alloc, &record)
}

/// Returns the history of the run of a program of a kind under the schedule of a text.
#[tactic(auto, unfolding(crate::specs::Judged::run_history))]
fn history_of_kind<K: Kind>(
    alloc: Global,
    program: &Program,
    schedule: &[u8],
) -> Result<History, Fault<Refusal>>
    requires { program.now.kind ≡ K.TAG }
    ensures value { Answers (λ h. h) result (run_history program.now schedule.now) }
    ensures history { IfOk result (λ h. IsHistory h) }
{
    let schedule = schedule_for::<K>(alloc, program, schedule)?;
    Ok(history_over::<K>(alloc, program, &schedule)?)
}

/// Returns the history of the run of a program under the schedule of a text.
fn run_history(alloc: Global, program: &Program, schedule: &[u8]) -> Result<History, Fault<Refusal>>
    ensures value { Answers (λ h. h) result (run_history program.now schedule.now) }
    ensures history { IfOk result (λ h. IsHistory h) }
{
    match program.kind() {
        KindTag::Seq => history_of_kind::<Seq>(alloc, program, schedule),
        KindTag::Bits => history_of_kind::<Bits>(alloc, program, schedule),
        KindTag::Multi => history_of_kind::<Multi>(alloc, program, schedule),
    }
}

/// Returns the history of the run of the parts of an input.
#[tactic(auto, unfolding(snap_input::specs::Input::parted, snap_input::specs::Input::prepared))]
fn history_for(alloc: Global, subject: Subject, input: &[u8]) -> Result<History, Fault<Refusal>>
    requires { length input.now ≤ max_input }
    ensures value { Answers (λ h. h) result
        (parted subject 1 (parts_of input.now) history_of_texts) }
    ensures history { IfOk result (λ h. IsHistory h) }
    ensures at_once { RefusesAtOnce (checked_parts subject 1 (parts_of input.now)) result }
{
    let given = prepare(alloc, subject, 1, input)?;
    run_history(alloc, &given.program, given.texts[0])
}

/// Returns the history of the run of `input`: of its listing, or the shipped one, under the
/// schedule behind it.
///
/// # Errors
///
/// `Refused` with the reason why `input` is refused; `Memory` where memory runs out. An input that
/// is too long or has a wrong number of parts is refused even then.
#[tactic(auto, unfolding(crate::specs::Judged::history_in))]
pub fn history_in(alloc: Global, subject: Subject, input: &[u8]) -> Result<History, Fault<Refusal>>
    ensures value { Answers (λ h. h) result (history_in subject input.now) }
    ensures history { IfOk result (λ h. IsHistory h) }
    ensures too_long { max_input < length input.now → result ≡ Err (Refused InputTooLong) }
    ensures at_once { length input.now ≤ max_input →
        RefusesAtOnce (checked_parts subject 1 (parts_of input.now)) result }
{
    if input.len() > MAX_INPUT {
        return Err(Fault::Refused(Refusal::InputTooLong));
    }
    history_for(alloc, subject, input)
}
