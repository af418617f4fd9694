//! Orders of the items of a failing schedule that change less often from process to process; each
//! process keeps the order of its own items.
ghost use Rattle.std.specs.Prelude.{◌≤◌, length, IfSome};

use snap_semantics::{Item, who};
use std::alloc::{AllocError, Global};

/// What stands between items of a process and its next ones: the first of its places, and the one
/// behind the last.
#[derive(Clone, Copy)]
struct Gap {
    from: usize,
    to: usize,
}

/// Returns where the items of one process that stand at a place end.
fn turn_end(items: &[Item], at: usize) -> usize
    requires { at ≤ length items.now }
    ensures after { at ≤ result }
    ensures inside { result ≤ length items.now }
{
    let mut end = at;
    while end < items.len() && who(items[end]) == who(items[at]) {
        end += 1;
    }
    end
}

/// Returns the first place from `from` on with an item of a process.
fn next_turn(items: &[Item], from: usize, process: u32) -> Option<usize>
    ensures after { IfSome result (λ k. from ≤ k) }
    ensures inside { IfSome result (λ k. k ≤ length items.now) }
{
    for k in from..items.len() {
        if who(items[k]) == process {
            return Some(k);
        }
    }
    None
}

/// Returns the gap behind the items of one process that begin at a place.
fn gap_behind(items: &[Item], at: usize) -> Option<Gap>
    ensures { IfSome result (λ gap. (at ≤ gap.from) × (gap.from ≤ gap.to)
        × (gap.to ≤ length items.now)) }
{
    if at >= items.len() || (at > 0 && who(items[at - 1]) == who(items[at])) {
        return None;
    }
    let from = turn_end(items, at);
    let to = next_turn(items, from, who(items[at]))?;
    Some(Gap { from, to })
}

/// Returns a copy of the items in which two neighbouring segments are exchanged: up to place
/// `middle`, and from it on.
fn exchanged(
    alloc: Global,
    items: &[Item],
    at: usize,
    middle: usize,
    end: usize,
) -> Result<Vec<Item>, AllocError>
    requires before { at ≤ middle }
    requires behind { middle ≤ end }
    requires inside { end ≤ length items.now }
{
    let mut other = Vec::from_slice(alloc, &items[..at])?;
    other.extend_from_slice(&items[middle..end])?;
    other.extend_from_slice(&items[at..middle])?;
    other.extend_from_slice(&items[end..])?;
    Ok(other)
}

/// Returns a copy of the items in which the next items of a process stand directly behind those of
/// the same process at a place.
pub(crate) fn with_next_sooner(
    alloc: Global,
    items: &[Item],
    at: usize,
) -> Result<Option<Vec<Item>>, AllocError> {
    match gap_behind(items, at) {
        Some(gap) => Ok(Some(exchanged(alloc, items, gap.from, gap.to, turn_end(items, gap.to))?)),
        None => Ok(None),
    }
}

/// Returns a copy of the items in which those of a process that begin at a place stand directly
/// before its next ones.
pub(crate) fn with_turn_later(
    alloc: Global,
    items: &[Item],
    at: usize,
) -> Result<Option<Vec<Item>>, AllocError> {
    match gap_behind(items, at) {
        Some(gap) => Ok(Some(exchanged(alloc, items, at, gap.from, gap.to)?)),
        None => Ok(None),
    }
}

/// Returns how often an item is of another process than the one before it.
pub(crate) fn switches(items: &[Item]) -> usize {
    let mut count: usize = 0;
    for k in 1..items.len() {
        count = count.saturating_add(usize::from(who(items[k]) != who(items[k - 1])));
    }
    count
}
