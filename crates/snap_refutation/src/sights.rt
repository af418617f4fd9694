//! What a scan may have seen in a word.
ghost use Rattle.std.specs.Prelude.{◌≡◌, ℕ, Option, false, true, IfSome};
ghost use Rattle.snap_judge.specs.Kept.{operation_of};
ghost use Rattle.snap_runs.specs.Operation.{EndedBefore};
ghost use Rattle.snap_refutation.specs.Candidates.{HasSeen, IsAlone, IsUpdateOf};
ghost use Rattle.snap_refutation.specs.Operations.{kept};
ghost use Rattle.snap_refutation.specs.Sights.{HidesUpTo, IsHiddenBy, IsOutOfSight, IsPastBeginning};
ghost use Rattle.snap_refutation.specs.Sights.{IsSight, MaySee};

use crate::cases::is_among;
use crate::operations::{ended_before, operation_at, sets, shown, word_of};
use crate::refutation::Case;
use snap_judge::Operation;

/// A scan that shows a value in a word, and when the latest of the updates of the word was called
/// that had ended when the scan was called.
#[derive(Clone, Copy)]
struct Sight<'a> {
    operation: Operation<'a>,
    scan: usize,
    word: u64,
    value: u64,
    hidden: Option<u64>,
}

/// Returns whether the operation is an update of the word that ended before the scan was called.
fn hides(operation: &Operation<'_>, scan: &Operation<'_>, word: u64) -> bool
    ensures { result ≡ true → IsUpdateOf word (operation_of operation.now)
        × EndedBefore (operation_of operation.now) (operation_of scan.now) }
{
    if word_of(operation) == Some(word) {
        ended_before(operation, scan)
    } else {
        false
    }
}

/// Returns whether an event comes after another one, if there is one.
fn is_later(event: u64, latest: Option<u64>) -> bool {
    match latest {
        Some(other) => other < event,
        None => true,
    }
}

/// Returns when the later one of two updates of the word was called that ended before the scan was
/// called: of the one at this place, if it is one, and of the latest one so far.
fn later_hider(
    operations: &[Operation<'_>],
    scan: &Operation<'_>,
    word: u64,
    place: usize,
    latest: Option<u64>,
) -> Option<u64>
    ensures { IfSome latest (HidesUpTo (kept operations.now) (operation_of scan.now) word)
        → IfSome result (HidesUpTo (kept operations.now) (operation_of scan.now) word) }
{
    let operation = operation_at(operations, place);
    if hides(&operation, scan, word) {
        if is_later(operation.call, latest) {
            return Some(operation.call);
        }
    }
    latest
}

/// Returns when the latest of the updates of the word was called that ended before the scan was
/// called.
fn hidden_before(operations: &[Operation<'_>], scan: &Operation<'_>, word: u64) -> Option<u64>
    ensures { IfSome result (HidesUpTo (kept operations.now) (operation_of scan.now) word) }
{
    let mut latest = None;
    for place in 0..operations.len() {
        latest = later_hider(operations, scan, word, place, latest);
    }
    latest
}

/// Returns the sight of the scan at this place in the word, if it is a scan that shows the word.
fn sight_of<'a>(operations: &[Operation<'a>], scan: usize, word: u64) -> Option<Sight<'a>>
    ensures { IfSome result (IsSight (kept operations.now) scan word) }
{
    let operation = operation_at(operations, scan);
    let value = shown(&operation, word)?;
    let hidden = hidden_before(operations, &operation, word);
    Some(Sight {
        operation,
        scan,
        word,
        value,
        hidden,
    })
}

/// Returns whether the update is hidden from the scan.
fn is_hidden(update: &Operation<'_>, hidden: Option<u64>) -> bool
    ensures { result ≡ true → IsHiddenBy (operation_of update.now) hidden }
{
    match update.end {
        Some(end) => match hidden {
            Some(call) => end < call,
            None => false,
        },
        None => false,
    }
}

/// Returns whether the scan may have seen the update, by values and times.
fn may_have_seen(sight: &Sight<'_>, update: &Operation<'_>) -> bool
    ensures { result ≡ false → IsOutOfSight sight.now (operation_of update.now) }
{
    if !sets(update, sight.word, sight.value) {
        return false;
    }
    if ended_before(&sight.operation, update) {
        return false;
    }
    !is_hidden(update, sight.hidden)
}

/// Returns whether the scan may have seen the beginning of the word, by values and times.
fn may_have_seen_beginning(sight: &Sight<'_>) -> bool
    ensures { result ≡ false → IsPastBeginning sight.now }
{
    if sight.value != 0 {
        return false;
    }
    sight.hidden.is_none()
}

/// Returns whether the scan may have seen this in the word.
fn is_candidate(operations: &[Operation<'_>], sight: &Sight<'_>, seen: Option<usize>) -> bool
    requires { IsSight (kept operations.now) sight.now.scan sight.now.word sight.now }
    ensures { result ≡ false → MaySee (kept operations.now) sight.now seen → ⊥ }
{
    match seen {
        Some(place) => may_have_seen(sight, &operation_at(operations, place)),
        None => may_have_seen_beginning(sight),
    }
}

/// Returns whether this is a candidate, and another one than `seen`.
fn is_other(
    operations: &[Operation<'_>],
    sight: &Sight<'_>,
    other: Option<usize>,
    seen: Option<usize>,
) -> bool
    requires { IsSight (kept operations.now) sight.now.scan sight.now.word sight.now }
    ensures { result ≡ false → MaySee (kept operations.now) sight.now other → other ≡ seen }
{
    if other == seen {
        return false;
    }
    is_candidate(operations, sight, other)
}

/// Returns whether the scan may have seen nothing else in the word.
fn is_only(operations: &[Operation<'_>], sight: &Sight<'_>, seen: Option<usize>) -> bool
    requires { IsSight (kept operations.now) sight.now.scan sight.now.word sight.now }
    ensures { result ≡ true → (other : Option ℕ) → MaySee (kept operations.now) sight.now other
        → other ≡ seen }
{
    if is_other(operations, sight, None, seen) {
        return false;
    }
    for place in 0..operations.len() {
        if is_other(operations, sight, Some(place), seen) {
            return false;
        }
    }
    true
}

/// Returns whether the scan has no other candidate in the word.
fn is_alone(operations: &[Operation<'_>], scan: usize, word: u64, seen: Option<usize>) -> bool
    ensures { result ≡ true → IsAlone (kept operations.now) scan word seen }
{
    match sight_of(operations, scan, word) {
        Some(sight) => is_only(operations, &sight, seen),
        None => false,
    }
}

/// Returns whether the scan saw this in the word, by a case or because it has no other candidate.
pub fn has_seen(
    operations: &[Operation<'_>],
    cases: &[Case],
    scan: usize,
    word: u64,
    seen: Option<usize>,
) -> bool
    ensures { result ≡ true → HasSeen (kept operations.now) cases.now scan word seen }
{
    if is_among(cases, &Case::Saw { scan, word, seen }) {
        return true;
    }
    is_alone(operations, scan, word, seen)
}
