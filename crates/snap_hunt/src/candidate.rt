//! `Candidate`: a shape and items that may be a schedule, while a failing schedule is shrunk.
ghost use Rattle.std.specs.Prelude.{◌≡◌, IfOk, IsTrue};
ghost use Rattle.std.specs.List.{AllByRecursion};
ghost use Rattle.snap_words.specs.Shape.{IsOneOf};
ghost use Rattle.snap_semantics.specs.ScheduleText.{FitsItem, FitsWords, IsSchedule};
ghost use Rattle.snap_semantics.specs.Table.{who};
ghost use Rattle.snap_hunt.specs.Shrinking.{IsWithin, drawn};

use crate::cuts::items_of;
use snap_sched::Schedule;
use snap_semantics::{Item, Op, who};
use snap_words::{MAX_ITEMS, Shape};
use std::alloc::{AllocError, Global};

/// A shape and items, which are known to be a schedule only once they are tried.
#[derive(Drop)]
pub(crate) struct Candidate {
    pub(crate) shape: Shape,
    pub(crate) items: Vec<Item>,
}

/// Returns the candidate of a schedule.
pub(crate) fn candidate_of(alloc: Global, schedule: &Schedule) -> Result<Candidate, AllocError>
    ensures { IfOk result (λ d. drawn d ≡ schedule.now) }
{
    Ok(Candidate {
        shape: schedule.shape(),
        items: items_of(alloc, schedule)?,
    })
}

/// Returns whether the numbers of an operation have 64 bits, as they do.
fn fits_words(op: Op) -> bool
    ensures { IsTrue result → FitsWords op }
{
    match op {
        Op::Scan => true,
        Op::Update { word, value } => word <= u64::MAX && value <= u64::MAX,
    }
}

/// Returns whether the numbers of an item have 64 bits, as they do.
fn fits_item(item: Item) -> bool
    ensures { IsTrue result → FitsItem item }
{
    match item {
        Item::Call(_, op) => fits_words(op),
        Item::Step(_) | Item::Crash(_) => true,
    }
}

/// Returns whether a shape has the process of an item.
pub(crate) fn has_process(shape: Shape, item: Item) -> bool
    ensures { IsTrue result → IsOneOf shape.n (who item) }
{
    let process = who(item);
    1 <= process && u64::from(process) <= shape.n()
}

/// Returns whether a schedule of `shape` may have each of `items`.
fn may_have_all(shape: Shape, items: &[Item]) -> bool
    ensures processes { IsTrue result
        → AllByRecursion (λ x. IsOneOf shape.n (who x)) items.now }
    ensures fits { IsTrue result → AllByRecursion FitsItem items.now }
{
    for item in items {
        if !(has_process(shape, *item) && fits_item(*item)) {
            return false;
        }
    }
    true
}

/// Returns whether `items` are the items of a schedule of `shape`.
pub(crate) fn is_schedule(shape: Shape, items: &[Item]) -> bool
    ensures { IsTrue result → IsSchedule (record { shape = shape; items = items.now }) }
{
    items.len() as u64 <= MAX_ITEMS
        && Shape::new(shape.n(), shape.w()).is_ok()
        && may_have_all(shape, items)
}

/// Returns whether a candidate has no more processes, words and items than another.
pub(crate) fn is_within(candidate: &Candidate, other: &Candidate) -> bool
    ensures { IsTrue result → IsWithin (drawn candidate.now) (drawn other.now) }
{
    candidate.shape.n() <= other.shape.n()
        && candidate.shape.w() <= other.shape.w()
        && candidate.items.len() <= other.items.len()
}
