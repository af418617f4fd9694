//! `skipped_text`: the calls that items of a run skipped, and the text on them.
ghost use Rattle.std.specs.Prelude.{◌≡◌, IfOk, length};
ghost use Rattle.snap_runs.specs.Run.{run_over};
ghost use Rattle.snap_semantics.specs.Answers.{Answers};
ghost use Rattle.snap_text.specs.Drafted.{Adds};
ghost use Rattle.snap_program.specs.Skipped.{run_in, skipped_call, skipped_calls, skipped_line};
ghost use Rattle.snap_program.specs.Skipped.{skipped_lines, skipped_text, told_in, told_of};

use snap_asm_program::Program;
use snap_input::{MAX_INPUT, prepare, read_schedule};
use snap_live_output::{push_front, push_others};
use snap_output::PlannedRun;
use snap_report::{op_text, reason_text};
use snap_sched::Schedule;
use snap_semantics::{Fault, Item, Op, Outcome, Reason, Refusal};
use snap_tasks::Subject;
use snap_text::Draft;
use snap_walk::{Passed, Walk};
use snap_words::{Bits, Kind, KindTag, Multi, Seq};
use std::alloc::{AllocError, Global};

/// The most calls that have a line of their own.
const LINES: usize = 8;

/// A call that an item of a run skipped, and the reason for it.
#[derive(Clone, Copy, PartialEq, Eq)]
pub struct SkippedCall {
    pub item: u64,
    pub process: u64,
    pub op: Op,
    pub reason: Reason,
}

/// Returns the call that an item skipped, if it is one.
fn skipped_call(passed: &Passed) -> Option<SkippedCall>
    ensures { result ≡ skipped_call passed.now.number passed.now.item passed.now.outcome }
{
    let Item::Call(process, op) = passed.item else {
        return None;
    };
    match &passed.outcome {
        Outcome::Skipped(reason) => Some(SkippedCall {
            item: passed.number,
            process: u64::from(process),
            op,
            reason: *reason,
        }),
        _ => None,
    }
}

/// Returns the calls that the items of a run over registers of a kind skipped, in order.
fn skipped_calls<K: Kind>(
    alloc: Global,
    program: &Program,
    schedule: &Schedule,
) -> Result<Vec<SkippedCall>, AllocError>
    requires { program.now.kind ≡ K.TAG }
    ensures { let r = run_over program.now schedule.now in
        IfOk result (λ calls. calls.items ≡ skipped_calls r (length r.items)) }
{
    let mut walk = Walk::<K>::over(alloc, program, schedule)?;
    let mut calls = Vec::new(alloc);
    while let Some(passed) = walk.next()? {
        if let Some(call) = skipped_call(&passed) {
            calls.push(call)?;
        }
    }
    Ok(calls)
}

/// Returns the calls that the items of a run skipped, in order.
fn calls_of(alloc: Global, run: &PlannedRun) -> Result<Vec<SkippedCall>, AllocError>
    ensures { let r = run_over run.now.program run.now.schedule in
        IfOk result (λ calls. calls.items ≡ skipped_calls r (length r.items)) }
{
    match run.program.kind() {
        KindTag::Seq => skipped_calls::<Seq>(alloc, &run.program, &run.schedule),
        KindTag::Bits => skipped_calls::<Bits>(alloc, &run.program, &run.schedule),
        KindTag::Multi => skipped_calls::<Multi>(alloc, &run.program, &run.schedule),
    }
}

/// Appends a line for a call that was skipped.
fn push_line(out: &mut Draft, call: &SkippedCall)
    ensures { Adds out.old out.new (skipped_line call.now) }
{
    push_front(out);
    out.push(b"item ");
    out.push_number(call.item);
    out.push(b" process ");
    out.push_number(call.process);
    out.push(b" ");
    op_text(out, call.op);
    out.push(b" ");
    reason_text(out, call.reason);
    out.push(b"\n");
}

/// Appends a line for each of `calls`.
fn push_lines(out: &mut Draft, calls: &[SkippedCall])
    ensures { Adds out.old out.new (skipped_lines calls.now) }
{
    for call in calls {
        push_line(out, call);
    }
}

/// Appends a line for each of the first eight of `calls`, and one for the others.
#[tactic(auto, unfolding(crate::specs::Skipped::skipped_text))]
fn push_calls(out: &mut Draft, calls: &[SkippedCall])
    ensures { Adds out.old out.new (skipped_text calls.now) }
{
    let listed = LINES.min(calls.len());
    push_lines(out, &calls[..listed]);
    push_others(out, (calls.len() - listed) as u64);
}

/// Returns the text on the calls that a run skipped.
fn text_of(alloc: Global, run: &PlannedRun) -> Result<Vec<u8>, AllocError>
    ensures { IfOk result (λ text.
        text.items ≡ told_of (run_over run.now.program run.now.schedule)) }
{
    let calls = calls_of(alloc, run)?;
    let mut out = Draft::new(alloc);
    push_calls(&mut out, calls.as_slice());
    out.finish()
}

/// Returns the run that an input asks for.
fn planned(alloc: Global, subject: Subject, input: &[u8]) -> Result<PlannedRun, Fault<Refusal>>
    ensures { Answers (λ run. run_over run.program run.schedule) result
        (run_in subject input.now) }
{
    if input.len() > MAX_INPUT {
        return Err(Fault::Refused(Refusal::InputTooLong));
    }
    let prepared = prepare(alloc, subject, 1, input)?;
    let schedule = read_schedule(alloc, &prepared.program, prepared.texts[0])?;
    Ok(PlannedRun {
        program: prepared.program,
        schedule,
    })
}

/// Returns the text on the calls that the run of an input skips; an empty text if there are none,
/// or if the input asks for no run.
///
/// # Errors
///
/// `AllocError` where memory runs out.
pub(crate) fn skipped_text(
    alloc: Global,
    subject: Subject,
    input: &[u8],
) -> Result<Vec<u8>, AllocError>
    ensures { IfOk result (λ text. text.items ≡ told_in (run_in subject input.now)) }
{
    match planned(alloc, subject, input) {
        Ok(run) => text_of(alloc, &run),
        Err(Fault::Refused(_)) => Ok(Vec::new(alloc)),
        Err(Fault::Memory) => Err(AllocError),
    }
}
