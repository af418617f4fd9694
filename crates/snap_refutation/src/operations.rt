//! The operations of a history, and what is known of each.
ghost use Rattle.std.specs.Prelude.{◌≡◌, ◌≤◌, ◌++◌, ℕ, [], ◌∷◌, Some, None, false, true};
ghost use Rattle.std.specs.Prelude.{IfOk, IfSome, MatchOption};
ghost use Rattle.snap_runs.specs.Operation.{EndedBefore, HasEnded, Sets};
ghost use Rattle.snap_judge.specs.Kept.{operation_of};
ghost use Rattle.snap_judge.specs.Steps.{next_of, scan_step, step_of, steps_of, update_end};
ghost use Rattle.snap_refutation.specs.Candidates.{IsUpdateOf, ScanShows};
ghost use Rattle.snap_refutation.specs.Operations.{called, called_in, kept, no_operation};
ghost use Rattle.snap_refutation.specs.Operations.{operation_at, operations_of};

use snap_judge::{Action, History, Operation};
use snap_semantics::{Event, Happening, Op};
use std::alloc::{AllocError, Global};

/// Returns the first of `events` that is one of the process.
fn next_event(process: u32, events: &[Event]) -> Option<&Event>
    ensures { MatchOption result (next_of process events.now ≡ None)
        (λ e. next_of process events.now ≡ Some e.now) }
{
    for event in events {
        if event.process == process {
            return Some(event);
        }
    }
    None
}

/// Returns the number of the event among `rest` at which an update of the process ends.
fn end_of_update(process: u32, rest: &[Event]) -> Option<u64>
    ensures { result ≡ update_end (next_of process rest.now) }
{
    let Some(event) = next_event(process, rest) else {
        return None;
    };
    match &event.what {
        Happening::Done => Some(event.item),
        Happening::Call(_) => None,
        Happening::Answer(_) => None,
        Happening::Crash => None,
    }
}

/// Returns the scan that the process calls at event `call`, if it is answered among `rest`.
fn answered_scan(process: u32, call: u64, rest: &[Event]) -> Option<Operation<'_>>
    ensures { MatchOption result (called (scan_step process call (next_of process rest.now)) ≡ [])
        (λ o. called (scan_step process call (next_of process rest.now)) ≡ operation_of o ∷ []) }
{
    let Some(event) = next_event(process, rest) else {
        return None;
    };
    match &event.what {
        Happening::Answer(view) => Some(Operation {
            process,
            call,
            end: Some(event.item),
            action: Action::Sees(view.as_slice()),
        }),
        Happening::Call(_) => None,
        Happening::Done => None,
        Happening::Crash => None,
    }
}

/// Returns the operation that an event calls, which `rest` follow. A scan that has no answer is
/// none.
fn called<'a>(event: &Event, rest: &'a [Event]) -> Option<Operation<'a>>
    ensures { MatchOption result
        (called (step_of event.now.process event.now.item event.now.what rest.now) ≡ [])
        (λ o. called (step_of event.now.process event.now.item event.now.what rest.now)
        ≡ operation_of o ∷ []) }
{
    match &event.what {
        Happening::Call(Op::Scan) => answered_scan(event.process, event.item, rest),
        Happening::Call(Op::Update { word, value }) => Some(Operation {
            process: event.process,
            call: event.item,
            end: end_of_update(event.process, rest),
            action: Action::Sets {
                word: *word,
                value: *value,
            },
        }),
        Happening::Answer(_) => None,
        Happening::Done => None,
        Happening::Crash => None,
    }
}

/// Appends the operation that an event calls, which `rest` follow, if it calls one.
fn push_called<'a>(
    operations: &mut Vec<Operation<'a>>,
    event: &Event,
    rest: &'a [Event],
) -> Result<(), AllocError>
    ensures { IfOk result (λ _. kept operations.new.items ≡ kept operations.old.items
        ++ called (step_of event.now.process event.now.item event.now.what rest.now)) }
{
    match called(event, rest) {
        Some(operation) => {
            operations.push(operation)?;
            Ok(())
        }
        None => Ok(()),
    }
}

/// Returns the operations that `events` tell of, in the order of their calls. The end of an operation
/// is sought among the events up to the next one of its process alone, so that each event is looked
/// at at most once for each process.
fn operations_in(alloc: Global, events: &[Event]) -> Result<Vec<Operation<'_>>, AllocError>
    ensures { IfOk result (λ os. kept os.items ≡ called_in (steps_of events.now)) }
{
    let mut operations = Vec::new(alloc);
    for place in 0..events.len() {
        push_called(&mut operations, &events[place], &events[place + 1..])?;
    }
    Ok(operations)
}

/// Returns the operations of the history in the order of their calls.
///
/// # Errors
///
/// `AllocError` where memory runs out.
pub fn operations_of(alloc: Global, history: &History) -> Result<Vec<Operation<'_>>, AllocError>
    ensures { IfOk result (λ os. kept os.items ≡ operations_of history.now) }
{
    operations_in(alloc, &history.events)
}

/// Returns an operation that neither sets nor sees a word.
fn no_operation() -> Operation<'static>
    ensures { operation_of result ≡ no_operation }
{
    Operation {
        process: 0,
        call: 0,
        end: None,
        action: Action::Sees(&[]),
    }
}

/// Returns the operation at a place; past the end, one that neither sets nor sees a word.
pub fn operation_at<'a>(operations: &[Operation<'a>], place: usize) -> Operation<'a>
    ensures { operation_of result ≡ operation_at (kept operations.now) place }
{
    match operations.get(place) {
        Some(operation) => *operation,
        None => no_operation(),
    }
}

/// Returns the word that the operation sets, if it is an update.
pub fn word_of(operation: &Operation<'_>) -> Option<u64>
    ensures { IfSome result (λ word. IsUpdateOf word (operation_of operation.now)) }
{
    match &operation.action {
        Action::Sets { word, value: _ } => Some(*word),
        Action::Sees(_) => None,
    }
}

/// Returns whether the operation sets the word to the value.
pub fn sets(operation: &Operation<'_>, word: u64, value: u64) -> bool
    ensures { result ≡ false → (operation_of operation.now).action ≡ Sets word value → ⊥ }
{
    match &operation.action {
        Action::Sets {
            word: set_word,
            value: set_value,
        } => *set_word == word && *set_value == value,
        Action::Sees(_) => false,
    }
}

/// Returns what the operation, a scan, shows in the word.
pub fn shown(operation: &Operation<'_>, word: u64) -> Option<u64>
    ensures { IfSome result (ScanShows (operation_of operation.now) word) }
{
    let Action::Sees(view) = &operation.action else {
        return None;
    };
    if 0 < word && word <= view.len() as u64 {
        Some(view[(word - 1) as usize])
    } else {
        None
    }
}

/// Returns whether the operation has ended.
pub fn has_ended(operation: &Operation<'_>) -> bool
    ensures ended { result ≡ true → HasEnded (operation_of operation.now) }
    ensures unended { result ≡ false → HasEnded (operation_of operation.now) → ⊥ }
{
    match operation.end {
        Some(_) => true,
        None => false,
    }
}

/// Returns whether the operation ended before event number `event`.
pub fn ends_by(operation: &Operation<'_>, event: u64) -> bool
    ensures { result ≡ false → (end : ℕ) → operation.now.end ≡ Some end → event ≤ end }
{
    match operation.end {
        Some(end) => end < event,
        None => false,
    }
}

/// Returns whether the first operation ended before the second one was called.
pub fn ended_before(first: &Operation<'_>, second: &Operation<'_>) -> bool
    ensures { result ≡ true → EndedBefore (operation_of first.now) (operation_of second.now) }
{
    match first.end {
        Some(end) => end < second.call,
        None => false,
    }
}
