//! `Schedule`: a shape (the numbers of processes and words), and the items of one interleaving in
//! order.
ghost use Rattle.std.specs.Prelude.{◌≡◌, IfOk};
ghost use Rattle.snap_semantics.specs.ScheduleText.{IsSchedule};

use crate::items::Items;
use snap_words::Shape;
use std::alloc::{AllocError, Global};
use std::marker::Model;

/// The most bytes of the text of a schedule.
pub const MAX_BYTES: usize = 4_194_304;

/// A shape, and the items in order, of processes of the shape and at most `MAX_ITEMS` in number.
pub struct Schedule {
    shape: Shape,
    items: Items,
}

impl Drop for Schedule {
    // A drop that is written out is one call: it is proved once, and not again at each drop.
    fn drop(self) {
        let Schedule { shape: _, items: _ } = self;
    }
}

impl Model for Schedule {
    ghost use Rattle.snap_semantics.specs.Schedule.{Schedule};
    ghost use Rattle.snap_semantics.specs.ScheduleText.{IsSchedule};

    ghost Value = { Schedule };

    ghost view = { λ s. record { shape = s.shape; items = s.items } };

    ghost invariant = { λ s. IsSchedule (record { shape = s.shape; items = s.items }) };
}

impl Schedule {
    /// Returns the schedule of `items` for the processes and words of `shape`.
    pub fn new(shape: Shape, items: Items) -> Schedule
        requires { IsSchedule (record { shape = shape; items = items }) }
        ensures { result ≡ record { shape = shape; items = items } }
    {
        Schedule { shape, items }
    }

    /// Returns a copy.
    ///
    /// # Errors
    ///
    /// `AllocError` where memory runs out.
    pub fn copy(&self, alloc: Global) -> Result<Schedule, AllocError>
        ensures { IfOk result (λ s. s ≡ self.now) }
    {
        Ok(Schedule {
            shape: self.shape,
            items: self.items.copy(alloc)?,
        })
    }

    /// Returns the numbers of processes and of words.
    pub fn shape(&self) -> Shape
        ensures shape { result ≡ self.now.shape }
        ensures schedule { IsSchedule self.now }
    {
        self.shape
    }

    /// Returns the items in order.
    pub fn items(&self) -> &Items
        ensures items { result.now ≡ self.now.items }
        ensures schedule { IsSchedule self.now }
    {
        &self.items
    }
}
