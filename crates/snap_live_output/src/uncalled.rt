//! The calls that items of a live run skipped, and the text on them: an update whose word does not
//! exist, or is another process's.
ghost use Rattle.std.specs.Prelude.{◌≡◌, ◌++◌, IfOk, OnOk, length};
ghost use Rattle.snap_text.specs.Drafted.{Adds};
ghost use Rattle.snap_live_output.specs.Uncalled.{line_front, others_line, others_text};
ghost use Rattle.snap_live_output.specs.Uncalled.{by_process, calls_of, skipped_calls, uncalled};
ghost use Rattle.snap_live_output.specs.Uncalled.{uncalled_calls, uncalled_item, uncalled_line};
ghost use Rattle.snap_live_output.specs.Uncalled.{uncalled_lines, uncalled_text};

use crate::setup::Setup;
use snap_machine::call_skip;
use snap_record::History;
use snap_report::{op_text, reason_text};
use snap_sched::Script;
use snap_semantics::{Item, Op, Reason};
use snap_text::Draft;
use snap_words::{KindTag, Shape};
use std::alloc::{AllocError, Global};

/// The most calls that have a line of their own.
const LINES: usize = 8;

/// A call that an item of a process skipped, and the reason for it.
#[derive(Clone, Copy, PartialEq, Eq)]
pub struct UncalledCall {
    pub process: u64,
    pub op: Op,
    pub reason: Reason,
}

/// Returns an operation of a process, if it calls nothing.
fn uncalled(kind: KindTag, shape: Shape, process: u64, op: Op) -> Option<UncalledCall>
    ensures { result ≡ uncalled kind shape process op }
{
    let reason = call_skip(kind, shape, process, op)?;
    Some(UncalledCall {
        process,
        op,
        reason,
    })
}

/// Returns the call of an item that calls nothing.
fn uncalled_item(kind: KindTag, shape: Shape, item: Item) -> Option<UncalledCall>
    ensures { result ≡ uncalled_item kind shape item }
{
    match item {
        Item::Call(process, op) => uncalled(kind, shape, u64::from(process), op),
        Item::Step(_) | Item::Crash(_) => None,
    }
}

/// Returns the calls that the items of a run skipped, in order.
fn skipped_calls(
    alloc: Global,
    kind: KindTag,
    shape: Shape,
    items: &History,
) -> Result<Vec<UncalledCall>, AllocError>
    ensures { IfOk result (λ calls. calls.items ≡ skipped_calls kind shape items.now.items) }
{
    let mut calls = Vec::new(alloc);
    let mut left = items.iter();
    while let Some(item) = left.next() {
        if let Some(call) = uncalled_item(kind, shape, item) {
            calls.push(call)?;
        }
    }
    Ok(calls)
}

/// Appends those of `calls` that are a process's.
fn push_calls_of(
    out: &mut Vec<UncalledCall>,
    process: u64,
    calls: &[UncalledCall],
) -> Result<(), AllocError>
    ensures { OnOk result (out.new.items ≡ out.old.items ++ calls_of process calls.now) }
{
    for call in calls {
        if call.process == process {
            out.push(*call)?;
        }
    }
    Ok(())
}

/// Returns calls process by process, of as many processes as there are scripts.
fn by_process(
    alloc: Global,
    scripts: &[Script],
    calls: &[UncalledCall],
) -> Result<Vec<UncalledCall>, AllocError>
    ensures { IfOk result (λ found. found.items ≡ by_process 1 scripts.now calls.now) }
{
    let mut found = Vec::new(alloc);
    for k in 0..scripts.len() {
        push_calls_of(&mut found, k as u64 + 1, calls)?;
    }
    Ok(found)
}

/// Returns the calls that the items of a live run skipped, process by process.
fn uncalled_calls(
    alloc: Global,
    setup: &Setup,
    items: &History,
) -> Result<Vec<UncalledCall>, AllocError>
    ensures { IfOk result (λ calls. calls.items ≡ uncalled_calls setup.now items.now.items) }
{
    let scripts = setup.scripts();
    let skipped = skipped_calls(alloc, setup.program().kind(), scripts.shape(), items)?;
    by_process(alloc, scripts.scripts(), skipped.as_slice())
}

/// Appends the front of a line on a call that was skipped.
#[tactic(auto, unfolding(crate::specs::Uncalled::line_front))]
pub fn push_front(out: &mut Draft)
    ensures { Adds out.old out.new line_front }
{
    out.push(b"not called: ");
}

/// Appends a line for an operation that calls nothing.
fn push_line(out: &mut Draft, call: &UncalledCall)
    ensures { Adds out.old out.new (uncalled_line call.now) }
{
    push_front(out);
    out.push(b"process ");
    out.push_number(call.process);
    out.push(b" ");
    op_text(out, call.op);
    out.push(b" ");
    reason_text(out, call.reason);
    out.push(b"\n");
}

/// Appends a line for each of `calls`.
fn push_lines(out: &mut Draft, calls: &[UncalledCall])
    ensures { Adds out.old out.new (uncalled_lines calls.now) }
{
    for call in calls {
        push_line(out, call);
    }
}

/// Appends a line for `count` other operations.
#[tactic(auto, unfolding(crate::specs::Uncalled::others_text))]
fn push_others_text(out: &mut Draft, count: u64)
    ensures { Adds out.old out.new (others_text count) }
{
    push_front(out);
    out.push_number(count);
    out.push(b" more\n");
}

/// Appends a line for `count` other operations, if there are any.
pub fn push_others(out: &mut Draft, count: u64)
    ensures { Adds out.old out.new (others_line count) }
{
    if count == 0 {
        return;
    }
    push_others_text(out, count);
}

/// Appends a line for each of the first eight of `calls`, and one for the others.
#[tactic(auto, unfolding(crate::specs::Uncalled::uncalled_text))]
fn push_calls(out: &mut Draft, calls: &[UncalledCall])
    ensures { Adds out.old out.new (uncalled_text calls.now) }
{
    let listed = LINES.min(calls.len());
    push_lines(out, &calls[..listed]);
    push_others(out, (calls.len() - listed) as u64);
}

/// Returns the text on the calls that the items of a live run skipped; an empty text if there are
/// none.
///
/// # Errors
///
/// `AllocError` where memory runs out.
pub(crate) fn uncalled_text(
    alloc: Global,
    setup: &Setup,
    items: &History,
) -> Result<Vec<u8>, AllocError>
    ensures { IfOk result (λ out.
        out.items ≡ uncalled_text (uncalled_calls setup.now items.now.items)) }
{
    let calls = uncalled_calls(alloc, setup, items)?;
    let mut out = Draft::new(alloc);
    push_calls(&mut out, calls.as_slice());
    out.finish()
}
