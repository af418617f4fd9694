//! The items of a record as a schedule.
ghost use Rattle.std.specs.Prelude.{◌≡◌, ◌+◌, ◌<◌, ◌≤◌, IfOk, OnOk, length};
ghost use Rattle.std.specs.Prelude.{take};
ghost use Rattle.snap_words.specs.Shape.{max_items};

use crate::items::History;
use crate::record::Record;
use snap_sched::{Items, Schedule};
use snap_words::Kind;
use std::alloc::{AllocError, Global};

impl<K: Kind> Record<K> {
    /// Returns the items as a schedule, whose run is the record's.
    ///
    /// # Errors
    ///
    /// `AllocError` where memory runs out.
    pub fn schedule(&self) -> Result<Schedule, AllocError>
        ensures shape { IfOk result (λ s. s.shape ≡ self.now.shape) }
        ensures items { IfOk result (λ s. s.items ≡ self.now.items) }
    {
        let items = items_of(self.allocator(), self.items())?;
        let shape = self.machine().shape();
        // What `segments` and `n` promise: each item fits, and the shape has few processes.
        let _fits = items.segments();
        let _count = shape.n();
        Ok(Schedule::new(shape, items))
    }
}

/// Returns the items of a history, as a schedule keeps them.
fn items_of(alloc: Global, history: &History) -> Result<Items, AllocError>
    requires { length history.now.items ≤ max_items }
    ensures { IfOk result (λ items. items ≡ history.now.items) }
{
    let mut items = Items::new(alloc);
    for t in 0..history.len() {
        push_next(&mut items, history, t)?;
    }
    Ok(items)
}

/// Appends the item of a history behind its first `t` items.
fn push_next(items: &mut Items, history: &History, t: u64) -> Result<(), AllocError>
    requires there { t < length history.now.items }
    requires few { length history.now.items ≤ max_items }
    requires first { items.old ≡ take t history.now.items }
    ensures { OnOk result (items.new ≡ take (t + 1) history.now.items) }
{
    let Some(item) = history.item(t + 1) else {
        unreachable!()
    };
    items.push(item)?;
    Ok(())
}
