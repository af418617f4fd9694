//! Which items of a failing schedule are left out together, as `Cut`s: those of a process, of an
//! operation, or of a segment.
ghost use Rattle.std.specs.Prelude.{◌<◌};

use crate::cuts::Cut;
use snap_semantics::{Item, who};
use snap_words::Shape;
use std::alloc::{AllocError, Global};

/// Returns the items of each process.
pub(crate) fn processes(alloc: Global, shape: Shape) -> Result<Vec<Cut>, AllocError> {
    let mut cuts = Vec::new(alloc);
    for k in 0..shape.process_count() {
        cuts.push(Cut::Turns {
            process: k + 1,
            from: 0,
            count: usize::MAX,
        })?;
    }
    Ok(cuts)
}

/// Returns how many of the items are those of a process.
pub(crate) fn turns_of(items: &[Item], process: u32) -> usize {
    items.iter().filter(|item| who(**item) == process).count()
}

/// Returns how many items of a process stand before its next call.
fn turns_to_call(items: &[Item], process: u32) -> usize {
    let mut turns: usize = 0;
    for item in items {
        match item {
            Item::Call(caller, _) if *caller == process => return turns,
            _ => turns = turns.saturating_add(usize::from(who(*item) == process)),
        }
    }
    turns
}

/// Returns the operation that the item at a place calls, if it is a call: its process's items up to
/// its next call.
fn operation_at(items: &[Item], at: usize) -> Option<Cut> {
    let (before, rest) = items.split_at_checked(at)?;
    let (call, behind) = rest.split_first()?;
    let Item::Call(process, _) = call else {
        return None;
    };
    Some(Cut::Turns {
        process: *process,
        from: turns_of(before, *process),
        count: turns_to_call(behind, *process).saturating_add(1),
    })
}

/// Returns the operations that are called.
pub(crate) fn operations(alloc: Global, items: &[Item]) -> Result<Vec<Cut>, AllocError> {
    let mut cuts = Vec::new(alloc);
    for at in 0..items.len() {
        if let Some(cut) = operation_at(items, at) {
            cuts.push(cut)?;
        }
    }
    Ok(cuts)
}

/// Returns the segments of `size` items, one behind another.
pub(crate) fn segments(alloc: Global, items: &[Item], size: usize) -> Result<Vec<Cut>, AllocError>
    requires { 0 < size }
{
    let mut cuts = Vec::new(alloc);
    let mut at: usize = 0;
    while at < items.len() {
        cuts.push(Cut::Segment { at, count: size })?;
        at = at.saturating_add(size);
    }
    Ok(cuts)
}

/// Appends the segments of `size` items of a process, which has `turns` items.
fn push_turns(
    cuts: &mut Vec<Cut>,
    process: u32,
    turns: usize,
    size: usize,
) -> Result<(), AllocError>
    requires { 0 < size }
{
    let mut from: usize = 0;
    while from < turns {
        cuts.push(Cut::Turns {
            process,
            from,
            count: size,
        })?;
        from = from.saturating_add(size);
    }
    Ok(())
}

/// Returns the segments of `size` items of each process, whatever stands between them.
pub(crate) fn turns(
    alloc: Global,
    shape: Shape,
    items: &[Item],
    size: usize,
) -> Result<Vec<Cut>, AllocError>
    requires { 0 < size }
{
    let mut cuts = Vec::new(alloc);
    for k in 0..shape.process_count() {
        push_turns(&mut cuts, k + 1, turns_of(items, k + 1), size)?;
    }
    Ok(cuts)
}
