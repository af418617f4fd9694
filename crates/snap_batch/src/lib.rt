//! Runs many schedules of one program, side by side (`batch`) or one after another (`batch_alone`):
//! the report of the end of each. A run is one of a machine alone (`run_to_end`): no history is
//! kept, only what callers saw.
#![tactic(auto)]

ghost use Rattle.std.specs.Prelude.{◌≡◌, IfOk, map};
ghost use Rattle.snap_batch.specs.End.{end_report};

mod course;

pub use course::{Course, run_to_end};
use rayon::prelude::*;
use snap_asm_program::Program;
pub use snap_report::Report;
use snap_sched::Schedule;
use snap_text::Draft;
use snap_words::{Bits, Kind, KindTag, Multi, Seq};
use std::alloc::{AllocError, Global};
use std::thread::Threads;

/// Returns the report of the end of a schedule, over registers of a kind.
fn report_of<K: Kind>(
    alloc: Global,
    program: &Program,
    schedule: &Schedule,
) -> Result<Report, AllocError>
    requires { program.now.kind ≡ K.TAG }
    ensures { IfOk result (λ report. report ≡ end_report program.now schedule.now) }
{
    let course = run_to_end::<K>(alloc, program, schedule)?;
    let mut text = Draft::new(alloc);
    course.push_report(&mut text);
    Ok(Report::of(text.finish()?))
}

/// Returns the report of the end of a schedule.
fn end_report(alloc: Global, program: &Program, schedule: &Schedule) -> Result<Report, AllocError>
    ensures { IfOk result (λ report. report ≡ end_report program.now schedule.now) }
{
    match program.kind() {
        KindTag::Seq => report_of::<Seq>(alloc, program, schedule),
        KindTag::Bits => report_of::<Bits>(alloc, program, schedule),
        KindTag::Multi => report_of::<Multi>(alloc, program, schedule),
    }
}

/// Returns the report of the end of each of `schedules`, in their order, whichever thread made it
/// and when.
///
/// # Errors
///
/// `AllocError` where memory runs out.
pub fn batch(
    rt: &(impl Threads + Sync),
    alloc: Global,
    program: &Program,
    schedules: &[Schedule],
) -> Result<Vec<Report>, AllocError>
    ensures { IfOk result (λ reports. reports.items ≡ map (end_report program.now) schedules.now) }
{
    // Each schedule is worth a thread. A chain of rayon runs in one thread if it is short, unless
    // it is told otherwise.
    let reports: Result<Vec<Report>, AllocError> = schedules
        .par_iter()
        .with_min_len(1)
        .map(
            |schedule: &Schedule| -> Result<Report, AllocError>
                ensures { IfOk result (λ report. report
                    ≡ end_report program.entry.now schedule.now) }
            { end_report(alloc, program, schedule) },
        )
        .collect(rt, alloc)?;
    reports
}

/// Returns the report of the end of each of `schedules`, in their order, made in one thread.
///
/// # Errors
///
/// `AllocError` where memory runs out.
pub fn batch_alone(
    alloc: Global,
    program: &Program,
    schedules: &[Schedule],
) -> Result<Vec<Report>, AllocError>
    ensures { IfOk result (λ reports. reports.items ≡ map (end_report program.now) schedules.now) }
{
    let mut collected = Vec::new(alloc);
    for schedule in schedules {
        collected.push(end_report(alloc, program, schedule)?)?;
    }
    Ok(collected)
}
