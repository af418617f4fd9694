//! Whether a history gives the grounds of a reason.
ghost use Rattle.std.specs.Prelude.{◌≡◌, ◌↔◌, ◌<◌, Some, false, true, IfSome, IsTrue};
ghost use Rattle.std.specs.List.{Contains};
ghost use Rattle.snap_semantics.specs.declared.event.Event.{Event};
ghost use Rattle.snap_semantics.specs.declared.event.Happening.TheVariants as what;
ghost use Rattle.snap_semantics.specs.declared.process.Op.TheVariants as op;
ghost use Rattle.snap_runs.specs.Operation.{EndedBefore, Sets};
ghost use Rattle.snap_judge.specs.Linearizable.{CameToEnd, IsOperationOf, called_as, ends_as, event};
ghost use Rattle.snap_judge.specs.Kept.{action_of, operation_of};
ghost use Rattle.snap_judge_reasons.specs.Reasons.{AreGrounds, HasMissed, HasSeen, IsNeverSet};
ghost use Rattle.snap_judge_reasons.specs.Reasons.{IsReason, IsSetOnlyAt, Shows, ShowsUnset};
ghost use Rattle.snap_judge_reasons.specs.Reasons.{StoodBefore};

use crate::beginning::Beginning;
use crate::reason::{Grounds, Reason};
use snap_judge::{Action, Operation};
use snap_semantics::{Event, Happening, Op};

/// Returns whether an operation of this action is called so.
fn is_call(happening: &Happening, action: &Action<'_>) -> bool
    ensures { result ≡ true → happening.now ≡ what.Call (called_as (action_of action.now)) }
{
    match happening {
        Happening::Call(Op::Scan) => match action {
            Action::Sees(_) => true,
            Action::Sets { .. } => false,
        },
        Happening::Call(Op::Update { word, value }) => match action {
            Action::Sets {
                word: set_word,
                value: set_value,
            } => set_word == word && set_value == value,
            Action::Sees(_) => false,
        },
        Happening::Answer(_) => false,
        Happening::Done => false,
        Happening::Crash => false,
    }
}

/// Returns whether an operation of this action ends so.
fn is_end(happening: &Happening, action: &Action<'_>) -> bool
    ensures { result ≡ true → happening.now ≡ ends_as (action_of action.now) }
{
    match happening {
        Happening::Answer(view) => match action {
            Action::Sees(seen) => view.as_slice() == *seen,
            Action::Sets { .. } => false,
        },
        Happening::Done => match action {
            Action::Sets { .. } => true,
            Action::Sees(_) => false,
        },
        Happening::Call(_) => false,
        Happening::Crash => false,
    }
}

/// Returns whether the operation is called in `events`.
fn is_called(events: &[Event], operation: &Operation<'_>) -> bool
    ensures { result ≡ true → Contains events.now
        (event operation.now.process operation.now.call
        (what.Call (called_as (action_of operation.now.action)))) }
{
    for event in events {
        if event.item == operation.call
            && event.process == operation.process
            && is_call(&event.what, &operation.action)
        {
            return true;
        }
    }
    false
}

/// Returns whether the operation ends at event number `end` in `events`.
fn ends_at(events: &[Event], operation: &Operation<'_>, end: u64) -> bool
    ensures { result ≡ true → Contains events.now
        (event operation.now.process end (ends_as (action_of operation.now.action))) }
{
    for event in events {
        if event.item == end
            && event.process == operation.process
            && is_end(&event.what, &operation.action)
        {
            return true;
        }
    }
    false
}

/// Returns whether the process comes to nothing after event number `call` and before event number
/// `end`.
fn is_quiet(events: &[Event], process: u32, call: u64, end: u64) -> bool
    ensures { result ≡ true → (e : Event) → Contains events.now e → e.process ≡ process
        → call < e.item → e.item < end → ⊥ }
{
    for event in events {
        if event.process == process && call < event.item && event.item < end {
            return false;
        }
    }
    true
}

/// Returns whether the event is one of the process after event number `call`, and no crash.
fn is_step_after(event: &Event, process: u32, call: u64) -> bool
    ensures { result ≡ false → event.now.process ≡ process → call < event.now.item
        → event.now.what ≡ what.Crash }
{
    match &event.what {
        Happening::Crash => false,
        _ => event.process == process && call < event.item,
    }
}

/// Returns whether the process comes to nothing but crashes after event number `call`.
fn only_crashes(events: &[Event], process: u32, call: u64) -> bool
    ensures { result ≡ true → (e : Event) → Contains events.now e → e.process ≡ process
        → call < e.item → e.what ≡ what.Crash }
{
    for event in events {
        if is_step_after(event, process, call) {
            return false;
        }
    }
    true
}

/// Returns whether the operation, once it is called, comes to an end at event number `end`.
fn came_to(events: &[Event], operation: &Operation<'_>, end: u64) -> bool
    ensures { result ≡ true → CameToEnd events.now operation.now.process operation.now.call
        (Some end) (action_of operation.now.action) }
{
    if operation.call < end {
        if ends_at(events, operation, end) {
            return is_quiet(events, operation.process, operation.call, end);
        }
    }
    false
}

/// Returns whether the operation, once it is called, comes to its end, or remains open.
fn came_to_end(events: &[Event], operation: &Operation<'_>) -> bool
    ensures { result ≡ true → CameToEnd events.now operation.now.process operation.now.call
        operation.now.end (action_of operation.now.action) }
{
    match operation.end {
        Some(end) => came_to(events, operation, end),
        None => match &operation.action {
            Action::Sets { .. } => only_crashes(events, operation.process, operation.call),
            Action::Sees(_) => false,
        },
    }
}

/// Returns whether the operation is one of the history.
fn is_operation(history: &Beginning<'_>, operation: &Operation<'_>) -> bool
    ensures { result ≡ true → IsOperationOf history.now (operation_of operation.now) }
{
    is_called(history.events, operation) && came_to_end(history.events, operation)
}

/// Returns whether the event calls an update of this word to this value.
fn sets(event: &Event, word: u64, value: u64) -> bool
    ensures { IsTrue result ↔ (event.now.what ≡ what.Call (op.Update word value)) }
{
    match &event.what {
        Happening::Call(
            Op::Update {
                word: set_word,
                value: set_value,
            },
        ) => *set_word == word && *set_value == value,
        _ => false,
    }
}

/// Returns whether no update that is called sets the word to the value.
fn is_never_set(events: &[Event], word: u64, value: u64) -> bool
    ensures { result ≡ true → IsNeverSet events.now word value }
{
    for event in events {
        if sets(event, word, value) {
            return false;
        }
    }
    true
}

/// Returns whether another event than number `call` calls an update of this word to this value.
fn sets_elsewhere(event: &Event, call: u64, word: u64, value: u64) -> bool
    ensures { result ≡ false → event.now.what ≡ what.Call (op.Update word value)
        → event.now.item ≡ call }
{
    event.item != call && sets(event, word, value)
}

/// Returns whether no update that is called sets the word to the value, but for the one that is
/// called at event number `call`.
fn is_set_only_at(events: &[Event], call: u64, word: u64, value: u64) -> bool
    ensures { result ≡ true → IsSetOnlyAt events.now call word value }
{
    for event in events {
        if sets_elsewhere(event, call, word, value) {
            return false;
        }
    }
    true
}

/// Returns what the view shows in the word, if it is one of its words.
fn shown(view: &[u64], word: u64) -> Option<u64>
    ensures { IfSome result (λ value. Shows view.now word value) }
{
    if 0 < word && word <= view.len() as u64 {
        Some(view[(word - 1) as usize])
    } else {
        None
    }
}

/// Returns whether the first operation ended before the second one was called.
fn ended_before(first: &Operation<'_>, second: &Operation<'_>) -> bool
    ensures { result ≡ true → EndedBefore (operation_of first.now) (operation_of second.now) }
{
    match first.end {
        Some(end) => end < second.call,
        None => false,
    }
}

/// Returns whether the scan saw the update.
fn has_seen(events: &[Event], update: &Operation<'_>, scan: &Operation<'_>) -> bool
    ensures { result ≡ true → HasSeen events.now (operation_of update.now)
        (operation_of scan.now) }
{
    let Action::Sets { word, value } = &update.action else {
        return false;
    };
    let Action::Sees(view) = &scan.action else {
        return false;
    };
    *value != 0
        && shown(view, *word) == Some(*value)
        && is_set_only_at(events, update.call, *word, *value)
}

/// Returns whether the value is 0, which no update sets the word to.
fn stood_from_the_beginning(events: &[Event], word: u64, value: u64) -> bool
    ensures { result ≡ true → (value ≡ 0) × IsNeverSet events.now word 0 }
{
    value == 0 && is_never_set(events, word, 0)
}

/// Returns whether the operation is an update of this word to this value.
fn is_update(operation: &Operation<'_>, word: u64, value: u64) -> bool
    ensures { result ≡ true → (operation_of operation.now).action ≡ Sets word value }
{
    match &operation.action {
        Action::Sets {
            word: set_word,
            value: set_value,
        } => *set_word == word && *set_value == value,
        Action::Sees(_) => false,
    }
}

/// Returns whether this earlier operation alone sets the word to the value, and had ended when the
/// update was called.
fn stood_from(
    history: &Beginning<'_>,
    word: u64,
    value: u64,
    earlier: &Operation<'_>,
    update: &Operation<'_>,
) -> bool
    ensures { result ≡ true → StoodBefore history.now word value (operation_of update.now) }
{
    if is_update(earlier, word, value) {
        if ended_before(earlier, update) {
            if is_operation(history, earlier) {
                return is_set_only_at(history.events, earlier.call, word, value);
            }
        }
    }
    false
}

/// Returns whether the value stood in the word before the update, and not again. The update that
/// set it is sought among the operations.
fn stood_before(
    history: &Beginning<'_>,
    operations: &[Operation<'_>],
    word: u64,
    value: u64,
    update: &Operation<'_>,
) -> bool
    ensures { result ≡ true → StoodBefore history.now word value (operation_of update.now) }
{
    if stood_from_the_beginning(history.events, word, value) {
        return true;
    }
    for earlier in operations {
        if stood_from(history, word, value, earlier, update) {
            return true;
        }
    }
    false
}

/// Returns whether the scan did not see the update.
fn has_missed(
    history: &Beginning<'_>,
    operations: &[Operation<'_>],
    scan: &Operation<'_>,
    update: &Operation<'_>,
) -> bool
    ensures { result ≡ true → HasMissed history.now (operation_of scan.now)
        (operation_of update.now) }
{
    let Action::Sees(view) = &scan.action else {
        return false;
    };
    let Action::Sets { word, value: _ } = &update.action else {
        return false;
    };
    match shown(view, *word) {
        Some(seen) => stood_before(history, operations, *word, seen, update),
        None => false,
    }
}

/// Returns whether the scan shows this value in the word, not 0, and no update sets it.
fn shows_unset(events: &[Event], word: u64, value: u64, scan: &Operation<'_>) -> bool
    ensures { result ≡ true → ShowsUnset events.now word value (operation_of scan.now) }
{
    let Action::Sees(view) = &scan.action else {
        return false;
    };
    value != 0 && shown(view, word) == Some(value) && is_never_set(events, word, value)
}

/// Returns whether two actions are the same.
fn is_same_action(one: &Action<'_>, other: &Action<'_>) -> bool
    ensures { result ≡ true → action_of one.now ≡ action_of other.now }
{
    match one {
        Action::Sets { word, value } => match other {
            Action::Sets {
                word: other_word,
                value: other_value,
            } => word == other_word && value == other_value,
            Action::Sees(_) => false,
        },
        Action::Sees(view) => match other {
            Action::Sees(other_view) => view == other_view,
            Action::Sets { .. } => false,
        },
    }
}

/// Returns whether two operations are the same.
pub fn is_same(one: &Operation<'_>, other: &Operation<'_>) -> bool
    ensures { result ≡ true → operation_of one.now ≡ operation_of other.now }
{
    one.process == other.process
        && one.call == other.call
        && one.end == other.end
        && is_same_action(&one.action, &other.action)
}

/// Returns whether the history gives the grounds of the reason.
fn are_grounds(history: &Beginning<'_>, operations: &[Operation<'_>], reason: &Reason<'_>) -> bool
    ensures { result ≡ true → AreGrounds history.now reason.now.grounds
        (operation_of reason.now.first) (operation_of reason.now.second) }
{
    match reason.grounds {
        Grounds::Ended => ended_before(&reason.first, &reason.second),
        Grounds::Saw => has_seen(history.events, &reason.first, &reason.second),
        Grounds::Missed => has_missed(history, operations, &reason.first, &reason.second),
        Grounds::Unset { word, value } => {
            is_same(&reason.second, &reason.first)
                && shows_unset(history.events, word, value, &reason.first)
        }
    }
}

/// Returns whether the history gives this reason. An update that a scan saw in place of another one
/// is sought among the operations.
pub fn is_reason(history: &Beginning<'_>, operations: &[Operation<'_>], reason: &Reason<'_>) -> bool
    ensures { result ≡ true → IsReason history.now reason.now }
{
    is_operation(history, &reason.first)
        && is_operation(history, &reason.second)
        && are_grounds(history, operations, reason)
}
