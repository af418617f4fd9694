//! `batch_program`: what the task `batch` writes, the report of the end of each of many schedules
//! of one listing. The schedules are read and run one after another or side by side.
ghost use Rattle.std.specs.Prelude.{◌≡◌, ◌<◌, ◌^◌, Ok, IfOk, length, map};
ghost use Rattle.snap_text.specs.Drafted.{Adds};
ghost use Rattle.snap_semantics.specs.Answers.{Answers};
ghost use Rattle.snap_batch.specs.Reports.{numbered_report, reports_text};
ghost use Rattle.snap_output.specs.ScheduleOutput.{batch_text};

use snap_asm_program::Program;
use snap_batch::{batch, batch_alone};
use snap_input::{read_schedules, read_side_by_side};
use snap_report::Report;
use snap_semantics::{Fault, Refusal};
use snap_text::Draft;
use std::alloc::{AllocError, Global};
use std::thread::Threads;

/// Appends a report behind the line of its number.
fn push_report(out: &mut Draft, number: u64, report: &Report)
    ensures { Adds out.old out.new (numbered_report number report.now) }
{
    out.push(b"schedule ");
    out.push_number(number);
    out.push(b"\n");
    out.push(report.as_slice());
}

/// Appends reports, each behind the line of its number.
fn push_reports(out: &mut Draft, reports: &[Report])
    requires { length reports.now < 2 ^ 64 }
    ensures { Adds out.old out.new (reports_text 1 reports.now) }
{
    for k in 0..reports.len() {
        push_report(out, k as u64 + 1, &reports[k]);
    }
}

/// Returns reports, each behind the line of its number.
fn reports_text(alloc: Global, reports: &[Report]) -> Result<Vec<u8>, AllocError>
    requires { length reports.now < 2 ^ 64 }
    ensures { IfOk result (λ out. out.items ≡ reports_text 1 reports.now) }
{
    let mut out = Draft::new(alloc);
    push_reports(&mut out, reports);
    out.finish()
}

/// Returns the report of the end of `program` under each of `texts`, behind the line of its number.
///
/// # Errors
///
/// `Refused` with the reason why the first text that is refused is; `Memory` where memory runs out.
#[tactic(auto, unfolding(crate::specs::ScheduleOutput::batch_text))]
pub fn batch_program(
    alloc: Global,
    program: &Program,
    texts: &[&[u8]],
) -> Result<Vec<u8>, Fault<Refusal>>
    ensures { Answers (λ out. out.items) result
        (batch_text program.now (map (λ text. text.now) texts.now)) }
{
    let schedules = read_schedules(alloc, program, texts)?;
    let reports = batch_alone(alloc, program, schedules.as_slice())?;
    Ok(reports_text(alloc, reports.as_slice())?)
}

/// Returns what `batch_program` returns, with the schedules read and run side by side.
///
/// # Errors
///
/// `Refused` or `Memory`; no clause says which, or why: call `batch_program` for the reason.
#[tactic(auto, unfolding(crate::specs::ScheduleOutput::batch_text))]
pub fn batch_side_by_side(
    rt: &(impl Threads + Sync),
    alloc: Global,
    program: &Program,
    texts: &[&[u8]],
) -> Result<Vec<u8>, Fault<Refusal>>
    ensures { IfOk result (λ out.
        batch_text program.now (map (λ text. text.now) texts.now) ≡ Ok out.items) }
{
    let schedules = read_side_by_side(rt, alloc, program, texts)?;
    let reports = batch(rt, alloc, program, schedules.as_slice())?;
    Ok(reports_text(alloc, reports.as_slice())?)
}
