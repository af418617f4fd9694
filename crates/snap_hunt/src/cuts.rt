//! `Cut`: some of the items of a failing schedule, to be left out as it is shrunk; and what is
//! left.
ghost use Rattle.std.specs.Prelude.{◌≡◌, ◌+◌, ◌<◌, ◌≤◌};
ghost use Rattle.std.specs.Prelude.{drop, length, IfOk};
ghost use Rattle.snap_semantics.specs.ScheduleText.{IsSchedule};
ghost use Rattle.snap_hunt.specs.Shrinking.{without};

use snap_sched::{Items, Schedule};
use snap_semantics::{Item, who};
use snap_words::Shape;
use std::alloc::{AllocError, Global};

/// Some of the items of a candidate.
#[derive(Clone, Copy)]
pub(crate) enum Cut {
    /// A number of items, from a place on.
    Segment {
        at: usize,
        count: usize,
    },
    /// A number of items of a process, behind the first of its own.
    Turns {
        process: u32,
        from: usize,
        count: usize,
    },
}

/// Returns the items of a schedule.
pub(crate) fn items_of(alloc: Global, schedule: &Schedule) -> Result<Vec<Item>, AllocError>
    ensures { IfOk result (λ v. v.items ≡ schedule.now.items) }
{
    schedule.items().iter().collect(alloc)
}

/// Returns the schedule of these items.
pub(crate) fn schedule_with(
    alloc: Global,
    shape: Shape,
    items: &[Item],
) -> Result<Schedule, AllocError>
    requires { IsSchedule (record { shape = shape; items = items.now }) }
    ensures { IfOk result (λ s. s ≡ record { shape = shape; items = items.now }) }
{
    let mut all = Items::new(alloc);
    for item in items {
        all.push(*item)?;
    }
    Ok(Schedule::new(shape, all))
}

/// Returns the items behind `count` of them at place `at`.
#[tactic(auto, using(crate::proofs::Cutting::past_end))]
fn behind(items: &[Item], at: usize, count: usize) -> &[Item]
    requires { at ≤ length items.now }
    ensures { result.now ≡ drop (at + count) items.now }
{
    if count < items.len() - at {
        &items[at + count..]
    } else {
        &items[items.len()..]
    }
}

/// Returns a copy of the items without `count` of them at place `at`.
pub(crate) fn without(
    alloc: Global,
    items: &[Item],
    at: usize,
    count: usize,
) -> Result<Vec<Item>, AllocError>
    requires { at ≤ length items.now }
    ensures { IfOk result (λ v. v.items ≡ without at count items.now) }
{
    let mut left = Vec::from_slice(alloc, &items[..at])?;
    left.extend_from_slice(behind(items, at, count))?;
    Ok(left)
}

/// Returns a copy of the items without `count` items of a process, behind its first `from`.
fn without_turns(
    alloc: Global,
    items: &[Item],
    process: u32,
    from: usize,
    count: usize,
) -> Result<Vec<Item>, AllocError> {
    let mut left = Vec::new(alloc);
    let mut own: usize = 0;
    for item in items {
        let is_own = who(*item) == process;
        if !is_own || own < from || own - from >= count {
            left.push(*item)?;
        }
        own = own.saturating_add(usize::from(is_own));
    }
    Ok(left)
}

/// Returns what a cut leaves of items.
pub(crate) fn left_by(alloc: Global, items: &[Item], cut: Cut) -> Result<Vec<Item>, AllocError> {
    match cut {
        Cut::Segment { at, count } => without(alloc, items, at.min(items.len()), count),
        Cut::Turns {
            process,
            from,
            count,
        } => without_turns(alloc, items, process, from, count),
    }
}
