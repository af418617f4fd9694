//! Whether the first events of a history are linearizable.
ghost use Rattle.std.specs.Prelude.{◌≡◌, ◌≤◌, IfOk, length, map};
ghost use Rattle.snap_judge.specs.History.{IsHistory};
ghost use Rattle.snap_judge.specs.Linearizable.{up_to};
ghost use Rattle.snap_judge.specs.Kept.{called_at, called_by, operation_of, step_of_kept};
ghost use Rattle.snap_judge.specs.Judgement.{IsDecision};
ghost use Rattle.snap_judge.specs.Nodes.{HasFound};
ghost use Rattle.snap_judge.specs.Steps as steps;

use crate::config::{Found, Step};
use crate::history::History;
use crate::linearizability::Linearizability;
use crate::operation::{Action, Operation};
use crate::prepass::steps_of;
use crate::search::search;
use std::alloc::{AllocError, Global};

/// Returns an operation that sees no words, which stands for the operation of a step that calls
/// none.
fn no_operation(process: u32) -> Operation<'static>
    ensures { operation_of result ≡ called_by (steps.Ends process) }
{
    Operation {
        process,
        call: 0,
        end: None,
        action: Action::Sees(&[]),
    }
}

/// Returns the operation that this step calls; of another step, one that sees no words.
fn called(step: Step<'_>) -> Operation<'_>
    ensures { operation_of result ≡ called_by (step_of_kept step.entry) }
{
    match step {
        Step::Calls(operation) => operation,
        Step::Ends(process) => no_operation(process),
        Step::Waits => no_operation(0),
    }
}

/// Returns the operation that step `call` calls.
fn operation_at<'a>(steps: &[Step<'a>], call: usize) -> Operation<'a>
    ensures { operation_of result ≡ called_at steps.now call }
{
    match steps.get(call) {
        Some(step) => called(*step),
        None => called(Step::Waits),
    }
}

/// Returns the operations that the steps of `order` call, in this order.
///
/// # Errors
///
/// `AllocError` where memory runs out.
pub fn operations<'a>(
    alloc: Global,
    steps: &[Step<'a>],
    order: &[usize],
) -> Result<Vec<Operation<'a>>, AllocError>
    ensures { IfOk result (λ os. map operation_of os.items ≡ map (called_at steps.now) order.now) }
{
    let mut all = Vec::new(alloc);
    for call in order {
        all.push(operation_at(steps, *call))?;
    }
    Ok(all)
}

/// Searches for an order of the operations that the first `count` events tell of, and returns what
/// it has found, with the steps of these events.
///
/// # Errors
///
/// `AllocError` where memory runs out.
pub fn search_events<'a>(
    alloc: Global,
    history: &'a History,
    count: usize,
    most: usize,
) -> Result<(Vec<Step<'a>>, Found), AllocError>
    requires history { IsHistory history.now }
    requires count { count ≤ length history.now.events }
    ensures { IfOk result (λ r. HasFound most (up_to count history.now) r.0.items r.1) }
{
    let steps = steps_of(alloc, &history.events[..count])?;
    let processes = history.shape.n() as usize;
    let words = history.shape.w() as usize;
    let found = search(alloc, &steps, processes, words, most)?;
    Ok((steps, found))
}

/// Decides whether the first `count` events of the history are linearizable.
///
/// # Errors
///
/// `AllocError` where memory runs out.
pub fn decide(
    alloc: Global,
    history: &History,
    count: usize,
    most: usize,
) -> Result<Linearizability, AllocError>
    requires history { IsHistory history.now }
    requires count { count ≤ length history.now.events }
    ensures { IfOk result (IsDecision most (up_to count history.now)) }
{
    let (_, found) = search_events(alloc, history, count, most)?;
    match found {
        Found::Explained(_) => Ok(Linearizability::Linearizable),
        Found::Unexplained(_) => Ok(Linearizability::NotLinearizable),
        Found::Undecided => Ok(Linearizability::Undecided),
    }
}
