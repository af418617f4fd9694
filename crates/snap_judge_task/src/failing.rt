//! `with_more`: the text on a history that is not linearizable, behind the event at which it fails.
ghost use Rattle.std.specs.Prelude.{IfOk, length};
ghost use Rattle.snap_text.specs.Drafted.{Adds};
ghost use Rattle.snap_words.specs.Shape.{IsOneOf};
ghost use Rattle.snap_judge.specs.History.{IsHistory};
ghost use Rattle.snap_judge.specs.Judgement.{IsFailing};
ghost use Rattle.snap_judge_task.specs.Failing.{Fails, IsMore, TellsWhy, WasBefore, before_text};
ghost use Rattle.snap_judge_task.specs.Failing.{order_text};

use snap_history_text::push_operations;
use snap_judge::{Failing, History, Judgement, Operation, judge};
use snap_judge_reasons::{failure_text, reasons, right_answers};
use snap_text::Draft;
use std::alloc::{AllocError, Global};

/// Appends an order of what was before an event, if it has operations.
fn push_order(out: &mut Draft, order: &[Operation<'_>])
    ensures { Adds out.old out.new (order_text order.now) }
{
    if order.is_empty() {
        return;
    }
    out.push(b"before it:\n");
    push_operations(out, order);
}

/// Appends the order that was found of what was before an event.
fn push_found(out: &mut Draft, judgement: &Judgement<'_>)
    ensures { Adds out.old out.new (before_text judgement.now) }
{
    match judgement {
        Judgement::Linearizable(order) => push_order(out, order.as_slice()),
        Judgement::NotLinearizable(_) | Judgement::Undecided(_) => {}
    }
}

/// A text, and behind it an order of what was before this event, counted from 1.
#[tactic(auto, using(snap_judge::proofs::KeptSteps::history_up_to, crate::proofs::Named::was_before))]
fn with_before(
    alloc: Global,
    text: Vec<u8>,
    history: History,
    count: usize,
    most: u64,
) -> Result<Vec<u8>, AllocError>
    requires history { IsHistory history }
    requires event { IsOneOf (length history.events) count }
    ensures { IfOk result (λ longer. WasBefore most history count text.items longer.items) }
{
    let mut beginning = history;
    beginning.events.truncate(count - 1);
    let judgement = judge(alloc, &beginning, most as usize)?;
    let mut out = Draft::of(text);
    push_found(&mut out, &judgement);
    out.finish()
}

/// Returns why the history fails at this event, counted from 1: answers that would have been right
/// there, and a circle of reasons where one is found.
fn failing_text(
    alloc: Global,
    history: &History,
    count: usize,
    most: u64,
) -> Result<Vec<u8>, AllocError>
    requires { IsHistory history.now }
    ensures { IfOk result (λ text. TellsWhy history.now count text.items) }
{
    let views = right_answers(alloc, history, count, most as usize)?;
    match reasons(alloc, history, count)? {
        Some(reasons) => failure_text(alloc, views.as_slice(), reasons.as_slice()),
        None => failure_text(alloc, views.as_slice(), &[]),
    }
}

/// A text, and behind it an order of what was before the event at which a history fails, and why it
/// fails there.
fn with_failing(
    alloc: Global,
    text: Vec<u8>,
    history: History,
    count: usize,
    most: u64,
) -> Result<Vec<u8>, AllocError>
    requires history { IsHistory history }
    requires event { IsOneOf (length history.events) count }
    ensures { IfOk result (λ longer. Fails most history count text.items longer.items) }
{
    let why = failing_text(alloc, &history, count, most)?;
    let mut out = Draft::of(with_before(alloc, text, history, count, most)?);
    out.push(why.as_slice());
    out.finish()
}

/// Returns `text`, and behind it why `history` fails, if it fails.
///
/// # Errors
///
/// `AllocError` where memory runs out.
pub fn with_more(
    alloc: Global,
    text: Vec<u8>,
    history: History,
    failing: Failing,
    most: u64,
) -> Result<Vec<u8>, AllocError>
    requires history { IsHistory history }
    requires failing { IsFailing most history failing }
    ensures { IfOk result (λ longer. IsMore most history failing text.items longer.items) }
{
    match failing {
        Failing::At(count) => with_failing(alloc, text, history, count, most),
        Failing::Nowhere | Failing::Undecided(_) => Ok(text),
    }
}
