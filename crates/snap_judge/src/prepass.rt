//! The steps of a history, which a search goes through.
ghost use Rattle.std.specs.Prelude.{◌≡◌, None, Some, IfOk, MatchOption};
ghost use Rattle.snap_judge.specs.Steps.{next_of, scan_step, step_of, steps_of, update_end};
ghost use Rattle.snap_judge.specs.Kept.{step_of_kept, steps_kept};

use crate::config::Step;
use crate::operation::{Action, Operation};
use snap_semantics::{Event, Happening, Op};
use std::alloc::{AllocError, Global};

/// Returns the first of `events` that is one of the process.
fn next_event(process: u32, events: &[Event]) -> Option<&Event>
    ensures { MatchOption result (next_of process events.now ≡ None)
        (λ e. next_of process events.now ≡ Some e.now) }
{
    for event in events {
        if event.process == process {
            return Some(event);
        }
    }
    None
}

/// Returns the number of the event among `rest` at which an update of the process ends.
fn end_of_update(process: u32, rest: &[Event]) -> Option<u64>
    ensures { result ≡ update_end (next_of process rest.now) }
{
    let Some(event) = next_event(process, rest) else {
        return None;
    };
    match &event.what {
        Happening::Done => Some(event.item),
        Happening::Call(_) => None,
        Happening::Answer(_) => None,
        Happening::Crash => None,
    }
}

/// Returns the step that calls a scan of the process at event `call`, which `rest` follow.
fn call_of_scan(process: u32, call: u64, rest: &[Event]) -> Step<'_>
    ensures { step_of_kept result ≡ scan_step process call (next_of process rest.now) }
{
    let Some(event) = next_event(process, rest) else {
        return Step::Waits;
    };
    match &event.what {
        Happening::Answer(view) => Step::Calls(Operation {
            process,
            call,
            end: Some(event.item),
            action: Action::Sees(view.as_slice()),
        }),
        Happening::Call(_) => Step::Waits,
        Happening::Done => Step::Waits,
        Happening::Crash => Step::Waits,
    }
}

/// Returns the step of an event that `rest` follow.
fn step_at<'a>(event: &Event, rest: &'a [Event]) -> Step<'a>
    ensures { step_of_kept result
        ≡ step_of event.now.process event.now.item event.now.what rest.now }
{
    match &event.what {
        Happening::Call(Op::Scan) => call_of_scan(event.process, event.item, rest),
        Happening::Call(Op::Update { word, value }) => Step::Calls(Operation {
            process: event.process,
            call: event.item,
            end: end_of_update(event.process, rest),
            action: Action::Sets {
                word: *word,
                value: *value,
            },
        }),
        Happening::Answer(_) => Step::Ends(event.process),
        Happening::Done => Step::Ends(event.process),
        Happening::Crash => Step::Waits,
    }
}

/// Returns the steps of `events`, one for each. The end of an operation is sought among the events
/// up to the next one of its process alone, so that each event is looked at at most once for each
/// process.
///
/// # Errors
///
/// `AllocError` where memory runs out.
pub fn steps_of(alloc: Global, events: &[Event]) -> Result<Vec<Step<'_>>, AllocError>
    ensures { IfOk result (λ s. steps_kept s.items ≡ steps_of events.now) }
{
    let mut steps = Vec::with_capacity(alloc, events.len())?;
    for place in 0..events.len() {
        let step = step_at(&events[place], &events[place + 1..]);
        steps.push(step)?;
    }
    Ok(steps)
}
