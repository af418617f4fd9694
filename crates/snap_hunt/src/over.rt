//! What fails in the run of a program over a schedule.
ghost use Rattle.std.specs.Prelude.{◌≡◌, IfOk, None, Some};
ghost use Rattle.snap_runs.specs.Run.{run_over};
ghost use Rattle.snap_hunt.specs.Finding.{Finds};

use crate::failing::failure;
use crate::failures::{Failure, StepBound, Wanted};
use crate::step_bounds::most_steps;
use crate::step_counter::StepCounter;
use snap_asm_program::Program;
use snap_audit::Watch;
use snap_sched::Schedule;
use snap_walk::Walk;
use snap_words::{Bits, Kind, KindTag, Multi, Seq};
use std::alloc::{AllocError, Global};

/// Returns what fails in the run of a program of a kind, with no bound on steps.
fn failure_of_run<K: Kind>(
    alloc: Global,
    program: &Program,
    schedule: &Schedule,
    wanted: &Wanted,
) -> Result<Option<Failure>, AllocError>
    requires kind { program.now.kind ≡ K.TAG }
    requires steps { wanted.now.steps ≡ None }
    ensures { IfOk result (Finds wanted.now (run_over program.now schedule.now)) }
{
    let mut walk = Walk::<K>::over(alloc, program, schedule)?;
    let mut watch = Watch::new(alloc, program, schedule)?;
    while let Some(passed) = walk.next_told(watch.silent_lines(), false)? {
        watch.note(&walk, passed)?;
    }
    failure(alloc, &walk, watch, None, wanted)
}

/// Returns what fails in the run of a program of a kind, with this bound on steps.
fn failure_of_steps<K: Kind>(
    alloc: Global,
    program: &Program,
    schedule: &Schedule,
    wanted: &Wanted,
    bound: StepBound,
) -> Result<Option<Failure>, AllocError>
    requires kind { program.now.kind ≡ K.TAG }
    requires steps { wanted.now.steps ≡ Some bound }
    ensures { IfOk result (Finds wanted.now (run_over program.now schedule.now)) }
{
    let most = most_steps(program.kind(), schedule.shape(), bound);
    let mut walk = Walk::<K>::over(alloc, program, schedule)?;
    let mut watch = Watch::new(alloc, program, schedule)?;
    let mut counter = StepCounter::new(alloc, schedule, most)?;
    while let Some(passed) = walk.next_told(watch.silent_lines(), false)? {
        counter.note(&walk, &passed);
        watch.note(&walk, passed)?;
    }
    let overrun = counter.finish(&walk);
    failure(alloc, &walk, watch, overrun, wanted)
}

/// Returns what fails in the run of a program of a kind.
fn failure_in<K: Kind>(
    alloc: Global,
    program: &Program,
    schedule: &Schedule,
    wanted: &Wanted,
) -> Result<Option<Failure>, AllocError>
    requires { program.now.kind ≡ K.TAG }
    ensures { IfOk result (Finds wanted.now (run_over program.now schedule.now)) }
{
    match wanted.steps {
        None => failure_of_run::<K>(alloc, program, schedule, wanted),
        Some(bound) => failure_of_steps::<K>(alloc, program, schedule, wanted, bound),
    }
}

/// Returns what fails in the run of a program over a schedule.
///
/// # Errors
///
/// `AllocError` where memory runs out.
pub fn failure_over(
    alloc: Global,
    program: &Program,
    schedule: &Schedule,
    wanted: &Wanted,
) -> Result<Option<Failure>, AllocError>
    ensures { IfOk result (Finds wanted.now (run_over program.now schedule.now)) }
{
    match program.kind() {
        KindTag::Seq => failure_in::<Seq>(alloc, program, schedule, wanted),
        KindTag::Bits => failure_in::<Bits>(alloc, program, schedule, wanted),
        KindTag::Multi => failure_in::<Multi>(alloc, program, schedule, wanted),
    }
}
