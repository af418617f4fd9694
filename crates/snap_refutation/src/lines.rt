//! Whether lines are right, and whether they lead from one operation to another.
ghost use Rattle.std.specs.Prelude.{◌≡◌, ◌<◌, true, IfSome, length, slice_index_or, take};
ghost use Rattle.snap_refutation.specs.declared.refutation.Line.{Line as KeptLine};
ghost use Rattle.snap_refutation.specs.Operations.{kept};
ghost use Rattle.snap_refutation.specs.Refutations.{AreLines, AreOfBlocks, HasSeenBeginning};
ghost use Rattle.snap_refutation.specs.Refutations.{HasSeenUpdate, Leads};
ghost use Rattle.snap_refutation.specs.Refutations.{IsBehindBlock, IsCircle, IsLine, IsOfBlock, IsWay};

use crate::cases::is_among;
use crate::operations::{ended_before, operation_at, word_of};
use crate::refutation::{Case, Grounds, Line};
use crate::sights::has_seen;
use snap_judge::Operation;

/// The operations from which and to which lines lead.
#[derive(Clone, Copy)]
struct Ends {
    from: usize,
    to: usize,
}

/// Returns whether the scan saw the update.
pub fn has_seen_update(
    operations: &[Operation<'_>],
    cases: &[Case],
    update: usize,
    scan: usize,
) -> bool
    ensures { result ≡ true → HasSeenUpdate (kept operations.now) cases.now update scan }
{
    match word_of(&operation_at(operations, update)) {
        Some(word) => has_seen(operations, cases, scan, word, Some(update)),
        None => false,
    }
}

/// Returns whether the scan saw the beginning of the word that the update sets.
fn has_seen_beginning(
    operations: &[Operation<'_>],
    cases: &[Case],
    scan: usize,
    update: usize,
) -> bool
    ensures { result ≡ true → HasSeenBeginning (kept operations.now) cases.now scan update }
{
    match word_of(&operation_at(operations, update)) {
        Some(word) => has_seen(operations, cases, scan, word, None),
        None => false,
    }
}

/// Returns whether the operation belongs to the block of the update in the word.
fn is_of_block(
    operations: &[Operation<'_>],
    cases: &[Case],
    word: u64,
    update: usize,
    operation: usize,
) -> bool
    ensures { result ≡ true → IsOfBlock (kept operations.now) cases.now word update operation }
{
    if operation == update && word_of(&operation_at(operations, update)) == Some(word) {
        return true;
    }
    has_seen(operations, cases, operation, word, Some(update))
}

/// Returns the operation to which the lines at these places lead from another one.
fn end_of(lines: &[Line], from: usize, way: &[usize]) -> Option<usize>
    ensures { IfSome result (λ to. Leads lines.now from way.now to) }
{
    let mut at = from;
    for place in way {
        let line = lines.get(*place)?;
        if line.first != at {
            return None;
        }
        at = line.second;
    }
    Some(at)
}

/// Returns the operations from which and to which the lines at these places lead.
fn ends_of(lines: &[Line], way: &[usize]) -> Option<Ends>
    ensures { IfSome result (λ ends. IsWay lines.now ends.from way.now ends.to) }
{
    let place = way.first()?;
    let from = lines.get(*place)?.first;
    let to = end_of(lines, from, way)?;
    Some(Ends { from, to })
}

/// Returns whether lines that lead from one of these operations to the other lead from the block of
/// the update, to which the first operation of the line belongs, to the block of the second one,
/// another update of the word.
fn are_of_blocks(
    operations: &[Operation<'_>],
    cases: &[Case],
    update: usize,
    line: &Line,
    ends: Ends,
) -> bool
    ensures { result ≡ true → AreOfBlocks (kept operations.now) cases.now update line.now.first
        line.now.second ends.from ends.to }
{
    match word_of(&operation_at(operations, line.second)) {
        Some(word) => {
            line.second != update
                && is_of_block(operations, cases, word, update, line.first)
                && is_of_block(operations, cases, word, update, ends.from)
                && is_of_block(operations, cases, word, line.second, ends.to)
        }
        None => false,
    }
}

/// Returns whether the way of lines puts the first operation of the line, which belongs to the block
/// of the update, before the second one.
fn is_behind_block(
    operations: &[Operation<'_>],
    cases: &[Case],
    lines: &[Line],
    update: usize,
    way: &[usize],
    line: &Line,
) -> bool
    ensures { result ≡ true → IsBehindBlock (kept operations.now) cases.now lines.now update way.now
        line.now.first line.now.second }
{
    match ends_of(lines, way) {
        Some(ends) => are_of_blocks(operations, cases, update, line, ends),
        None => false,
    }
}

/// Returns whether the line is right, by the lines in front of it.
fn is_line(operations: &[Operation<'_>], cases: &[Case], lines: &[Line], line: &Line) -> bool
    ensures { result ≡ true → IsLine (kept operations.now) cases.now lines.now line.now }
{
    let first = line.first;
    let second = line.second;
    match &line.grounds {
        Grounds::Ended => ended_before(
            &operation_at(operations, first),
            &operation_at(operations, second),
        ),
        Grounds::Saw => has_seen_update(operations, cases, first, second),
        Grounds::First => has_seen_beginning(operations, cases, first, second),
        Grounds::Assumed => is_among(cases, &Case::Order { first, second }),
        Grounds::Blocks { update, way } => {
            is_behind_block(operations, cases, lines, *update, way, line)
        }
    }
}

/// Returns whether the line at this place is right, by the lines in front of it.
fn is_line_at(operations: &[Operation<'_>], cases: &[Case], lines: &[Line], place: usize) -> bool
    requires { place < length lines.now }
    ensures { result ≡ true → (line : KeptLine) → slice_index_or lines.now place line ≡ line
        → IsLine (kept operations.now) cases.now (take place lines.now) line }
{
    is_line(operations, cases, &lines[..place], &lines[place])
}

/// Returns whether each line is right, by the lines in front of it.
pub fn are_lines(operations: &[Operation<'_>], cases: &[Case], lines: &[Line]) -> bool
    ensures { result ≡ true → AreLines (kept operations.now) cases.now lines.now }
{
    for place in 0..lines.len() {
        if !is_line_at(operations, cases, lines, place) {
            return false;
        }
    }
    true
}

/// Returns whether the lines at these places lead from an operation back to it.
pub fn is_circle(lines: &[Line], way: &[usize]) -> bool
    ensures { result ≡ true → IsCircle lines.now way.now }
{
    match ends_of(lines, way) {
        Some(ends) => ends.from == ends.to,
        None => false,
    }
}
