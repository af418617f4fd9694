//! `ItemIter`: the items of a schedule, one by one.
ghost use Rattle.std.specs.Prelude.{◌≡◌};
ghost use Rattle.snap_semantics.specs.Readers.{nth};

use crate::items::Items;
use crate::segments::{Segment, Segments};
use snap_semantics::Item;
use std::marker::Model;

/// An iterator over items in order, seen as the list of those that are still to come.
#[derive(Drop)]
pub struct ItemIter<'a> {
    /// The process whose segment was begun last.
    process: u32,
    /// How many steps of that process are left.
    steps: u64,
    /// The segments behind the steps that are left.
    rest: Segments<'a>,
}

impl<'a> Model for ItemIter<'a> {
    ghost use Rattle.std.specs.Prelude.{List};
    ghost use Rattle.std.specs.List.{AllByRecursion};
    ghost use Rattle.snap_semantics.specs.declared.process.Item.{Item};
    ghost use Rattle.snap_sched.specs.ItemsLeft.{IsSome, items_left};

    ghost Value = { List Item };

    ghost view = { λ c. items_left c.process c.steps c.rest };

    ghost invariant = { λ c. AllByRecursion IsSome c.rest };
}

impl<'a> Iterator for ItemIter<'a> {
    type Item = Item;

    ghost use Rattle.std.specs.Iterator.{YieldsFirst, item_count};

    ghost next_gives = { YieldsFirst (λ s. s) };

    ghost remaining = { item_count (λ s. s) };

    fn next(&mut self) -> Option<Item> {
        if self.steps > 0 {
            self.steps -= 1;
            return Some(Item::Step(self.process));
        }
        match self.rest.next()? {
            Segment::Steps { process, count } => {
                self.process = process;
                self.steps = count - 1;
                Some(Item::Step(process))
            }
            Segment::Call { process, op } => Some(Item::Call(process, op)),
            Segment::Crash { process } => Some(Item::Crash(process)),
        }
    }
}

impl Items {
    /// Returns an iterator over the items in order.
    pub fn iter(&self) -> ItemIter<'_>
        ensures { result ≡ self.now }
    {
        ItemIter {
            process: 0,
            steps: 0,
            rest: self.segments(),
        }
    }

    /// Returns item `t`, counted from 1; `None` where there are fewer.
    pub fn item(&self, t: u64) -> Option<Item>
        ensures { result ≡ nth t self.now }
    {
        if t == 0 {
            return None;
        }
        let mut items = self.iter();
        for _passed in 1..t {
            items.next()?;
        }
        items.next()
    }
}
