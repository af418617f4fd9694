//! `push_why`: what `why` prints of an item of a run, be it the answer of a scan, a trap, or
//! neither.
ghost use Rattle.std.specs.Prelude.{◌≡◌, ◌≤◌, ℕ, List};
ghost use Rattle.std.specs.Prelude.{IfOk, IfSome, OnOk, None, length, map, option_map};
ghost use Rattle.snap_text.specs.Drafted.{Adds};
ghost use Rattle.snap_words.specs.Shape.{IsOneOf};
ghost use Rattle.snap_runs.specs.Run.{run_over, state};
ghost use Rattle.snap_listing.specs.LineTexts.{written};
ghost use Rattle.snap_acts.specs.Trace.{trace_of};
ghost use Rattle.snap_why.specs.Answer.{run_until};
ghost use Rattle.snap_why.specs.Why.{IsWhy, item_of, item_there, nothing_line};
ghost use Rattle.snap_why.specs.Why.{nothing_lines, trapped_at, trapped_by};

use crate::answer::{item_at, push_answer, push_goto_line, verdict_with};
use crate::point::point_text;
use crate::trap::push_trap;
use snap_acts::{Act, StepPattern, TraceStep, first_step_from, last_before, trace};
use snap_asm_program::Program;
use snap_audit::audit_over;
use snap_listing::LineTexts;
use snap_record::Record;
use snap_sched::Schedule;
use snap_text::Draft;
use snap_words::Kind;
use std::alloc::{AllocError, Global};

/// Returns the process that a step leaves trapped.
fn trapped_by(step: &TraceStep) -> Option<u32>
    ensures { result ≡ trapped_by step.now.process step.now.act }
{
    match &step.act {
        Act::Trap => Some(step.process),
        _ => None,
    }
}

/// Returns the process that traps at an item.
fn trapped_at(steps: &[TraceStep], item: u64) -> Option<u32>
    requires { item ≤ length steps.now }
    ensures { result ≡ trapped_at steps.now item }
{
    if item == 0 {
        None
    } else {
        trapped_by(&steps[(item - 1) as usize])
    }
}

/// Returns the item of a step.
fn item_of(step: Option<&TraceStep>) -> Option<u64>
    ensures { result ≡ item_of (option_map (λ s. s.now) step.entry) }
{
    match step {
        Some(step) => Some(step.item),
        None => None,
    }
}

/// Returns the item of the step at a place.
fn item_there(steps: &[TraceStep], place: Option<usize>) -> Option<u64>
    ensures { result ≡ item_there steps.now place }
{
    match place {
        Some(place) => Some(item_at(steps, place)),
        None => None,
    }
}

/// Returns the process that traps at an item of `schedule`, which has such an item.
fn trapped_in(program: &Program, schedule: &Schedule, steps: &[TraceStep], item: u64) -> Option<u32>
    requires steps { steps.now ≡ trace_of (run_over program.now schedule.now) }
    requires within { item ≤ length schedule.now.items }
    requires as_many { item ≤ length steps.now }
    ensures process { result ≡ trapped_at steps.now item }
    ensures one { IfSome result (λ i. IsOneOf schedule.now.shape.n i) }
{
    // What `shape` promises: the schedule keeps the rules of schedules.
    let _shape = schedule.shape();
    trapped_at(steps, item)
}

/// Appends that there is nothing to explain from here on, and where there was.
fn push_last(out: &mut Draft, last: Option<u64>)
    ensures { Adds out.old out.new (nothing_line None last) }
{
    match last {
        Some(item) => push_goto_line(
            out,
            b"nothing to explain here; the last answer or trap",
            item,
        ),
        None => out.push(
            b"nothing to explain here, nor at another item: no scan is answered, \
and no process traps\n",
        ),
    }
}

/// Appends that there is nothing to explain, and where there is.
fn push_nothing(out: &mut Draft, next: Option<u64>, last: Option<u64>)
    ensures { Adds out.old out.new (nothing_line next last) }
{
    match next {
        Some(item) => push_goto_line(
            out,
            b"nothing to explain here; the next answer or trap",
            item,
        ),
        None => push_last(out, last),
    }
}

/// Appends that there is nothing to explain of an item, and where there is.
#[tactic(auto, unfolding(crate::specs::Why::nothing_lines))]
fn push_nothing_at(out: &mut Draft, steps: &[TraceStep], item: u64)
    requires { item ≤ length steps.now }
    ensures { Adds out.old out.new (nothing_lines steps.now item) }
{
    let next = first_step_from(steps, item as usize, StepPattern::AnswerOrTrap);
    let last = last_before(steps, item as usize, StepPattern::AnswerOrTrap);
    push_nothing(out, item_of(next), item_there(steps, last));
}

/// Returns the record of the first items of a schedule.
#[tactic(auto, using(crate::proofs::Traces::first_items))]
pub(crate) fn record_of_first<K: Kind>(
    alloc: Global,
    program: &Program,
    schedule: &Schedule,
    count: u64,
) -> Result<Record<K>, AllocError>
    requires kind { program.now.kind ≡ K.TAG }
    requires few { count ≤ length schedule.now.items }
    ensures run { IfOk result (λ r. r ≡ run_until (run_over program.now schedule.now) count) }
    ensures source { IfOk result (λ r. r.source ≡ program.now) }
    ensures shape { IfOk result (λ r. r.shape ≡ schedule.now.shape) }
    ensures state { IfOk result (λ r. state r (length r.items)
        ≡ state (run_over program.now schedule.now) count) }
{
    let mut record = Record::new(alloc, program, schedule.shape())?;
    record.apply_first(schedule.items(), count)?;
    Ok(record)
}

/// Appends why the scan that item `item` answered had this answer, or why the process of the item
/// trapped; or that the item did neither, and which item does. The run is judged only up to an
/// answer that has no point.
///
/// # Errors
///
/// `AllocError` where memory runs out.
#[tactic(auto, using(crate::proofs::Traces::as_many))]
pub fn push_why<K: Kind>(
    alloc: Global,
    out: &mut Draft,
    program: &Program,
    schedule: &Schedule,
    texts: &LineTexts,
    item: u64,
) -> Result<(), AllocError>
    requires kind { program.now.kind ≡ K.TAG }
    requires within { item ≤ length schedule.now.items }
    requires texts { texts.now ≡ map written program.now.lines }
    ensures { OnOk result ((text : List ℕ) × IsWhy (run_over program.now schedule.now) item text
        × Adds out.old out.new text) }
{
    let verdicts = audit_over::<K>(alloc, program, schedule)?;
    let steps = trace::<K>(alloc, program, schedule)?;
    if let Some(verdict) = verdict_with(verdicts.as_slice(), item) {
        let point = point_text::<K>(alloc, program, schedule, verdict.point, item)?;
        push_answer(out, steps.as_slice(), &verdict, item, point.as_slice());
        return Ok(());
    }
    match trapped_in(program, schedule, steps.as_slice(), item) {
        Some(process) => {
            let record = record_of_first::<K>(alloc, program, schedule, item)?;
            push_trap(out, texts, record.machine(), process);
        }
        None => push_nothing_at(out, steps.as_slice(), item),
    }
    Ok(())
}
