//! `run_planned`: the output of a listing under a schedule that is run to its end, without a
//! session. `PlannedRun` has what such a run needs, and nothing of the texts that it was read from.
ghost use Rattle.std.specs.Prelude.{◌≡◌, IfOk};
ghost use Rattle.snap_semantics.specs.Answers.{Answers};
ghost use Rattle.snap_batch.specs.End.{IsEnd};
ghost use Rattle.snap_output.specs.RunOutput.{end_text, run_listing};

use snap_asm_program::Program;
use snap_batch::{Course, run_to_end};
use snap_input::read_schedule;
use snap_report::position_line;
use snap_sched::Schedule;
use snap_semantics::{Fault, Refusal};
use snap_text::Draft;
use snap_words::{Bits, Kind, KindTag, Multi, Seq};
use std::alloc::{AllocError, Global};

/// The program and the schedule of an input.
#[derive(Drop)]
pub struct PlannedRun {
    pub program: Program,
    pub schedule: Schedule,
}

/// Runs a program over a whole schedule, and keeps what callers saw alone.
fn end_of<K: Kind>(
    alloc: Global,
    program: &Program,
    schedule: Schedule,
) -> Result<Course<K>, AllocError>
    requires { program.now.kind ≡ K.TAG }
    ensures { IfOk result (λ c. IsEnd program.now schedule c) }
{
    run_to_end(alloc, program, &schedule)
}

/// Returns the reply of a session without marks to `run` at the beginning of a schedule, and the
/// report of the end. No session is opened for it.
fn run_kind<K: Kind>(
    alloc: Global,
    program: &Program,
    schedule: Schedule,
) -> Result<Vec<u8>, AllocError>
    requires { program.now.kind ≡ K.TAG }
    ensures { IfOk result (λ out. out.items ≡ end_text program.now schedule) }
{
    let total = schedule.items().len();
    let course = end_of::<K>(alloc, program, schedule)?;
    let mut out = Draft::new(alloc);
    out.push(b"> run\n");
    position_line(&mut out, total, total);
    course.push_report(&mut out);
    out.finish()
}

/// Returns the reply to `run` and the report of the end, whatever the kind of the program.
fn run_schedule(alloc: Global, program: &Program, schedule: Schedule) -> Result<Vec<u8>, AllocError>
    ensures { IfOk result (λ out. out.items ≡ end_text program.now schedule) }
{
    match program.kind() {
        KindTag::Seq => run_kind::<Seq>(alloc, program, schedule),
        KindTag::Bits => run_kind::<Bits>(alloc, program, schedule),
        KindTag::Multi => run_kind::<Multi>(alloc, program, schedule),
    }
}

/// Returns `program` with the schedule that `schedule` spells.
///
/// # Errors
///
/// `Refused` with the reason why `schedule` is refused; `Memory` where memory runs out.
#[tactic(auto, unfolding(crate::specs::RunOutput::run_listing))]
pub fn plan(alloc: Global, program: Program, schedule: &[u8]) -> Result<PlannedRun, Fault<Refusal>>
    ensures { Answers (λ run. end_text run.program run.schedule) result
        (run_listing program schedule.now) }
{
    let schedule = read_schedule(alloc, &program, schedule)?;
    Ok(PlannedRun { program, schedule })
}

/// Returns the output of a run that was planned.
///
/// # Errors
///
/// `AllocError` where memory runs out.
pub fn run_planned(alloc: Global, run: PlannedRun) -> Result<Vec<u8>, AllocError>
    ensures { IfOk result (λ out. out.items ≡ end_text run.program run.schedule) }
{
    let PlannedRun { program, schedule } = run;
    run_schedule(alloc, &program, schedule)
}
