//! `Ahead`: the items of a schedule that a walk has still to do, segment by segment.
ghost use Rattle.std.specs.Prelude.{◌≡◌, ◌<◌, ◌∷◌, ◌++◌, length, replicate, slice_get, MatchOption};
ghost use Rattle.snap_semantics.specs.declared.process.Item.{Item};
ghost use Rattle.snap_sched.specs.Segments.{segment_items};

use snap_sched::{Items, Segment, Segments};
use snap_semantics::Item;
use std::marker::Model;

/// Items in order, of which the first are alike, seen as their list.
#[derive(Drop)]
pub(crate) struct Ahead<'a> {
    /// The item that comes next.
    item: Item,
    /// How often the item comes side by side; 0 behind the last item.
    count: u64,
    /// The segments behind these.
    rest: Segments<'a>,
}

impl<'a> Model for Ahead<'a> {
    ghost use Rattle.std.specs.Prelude.{List, ◌++◌, replicate};
    ghost use Rattle.snap_semantics.specs.declared.process.Item.{Item};
    ghost use Rattle.snap_sched.specs.Segments.{items_of_segments};

    ghost Value = { List Item };

    ghost use Rattle.snap_walk.specs.Walking.{IsAhead};

    ghost view = { λ a. replicate a.count a.item ++ items_of_segments a.rest };

    ghost invariant = { λ a. IsAhead a.count a.rest };
}

/// Returns the item of a segment, and how often the segment has it.
fn repeated(segment: Option<Segment>) -> (Item, u64)
    ensures { MatchOption segment (result.1 ≡ 0)
        (λ s. replicate result.1 result.0 ≡ segment_items s) }
{
    match segment {
        Some(segment) => segment.repeated(),
        None => (Item::Step(0), 0),
    }
}

impl<'a> Ahead<'a> {
    /// Returns the items in order.
    pub(crate) fn new(items: &'a Items) -> Ahead<'a>
        ensures { result ≡ items.now }
    {
        let mut rest = items.segments();
        let (item, count) = repeated(rest.next());
        Ahead { item, count, rest }
    }

    /// Returns the item that comes next, if there is one.
    #[inline(always)]
    pub(crate) fn first(&self) -> Option<Item>
        ensures { result ≡ slice_get self.now 0 }
    {
        if self.count > 0 {
            Some(self.item)
        } else {
            None
        }
    }

    /// Goes on behind the item that comes next.
    #[inline(always)]
    pub(crate) fn pass(&mut self)
        requires { 0 < length self.old }
        ensures { (x : Item) × (self.old ≡ x ∷ self.new) }
    {
        if self.count > 1 {
            self.count -= 1;
        } else {
            let (item, count) = repeated(self.rest.next());
            self.item = item;
            self.count = count;
        }
    }

    /// Goes on behind the items that come next and are alike, and returns how many they are.
    #[inline(always)]
    pub(crate) fn pass_alike(&mut self) -> u64
        requires { 0 < length self.old }
        ensures some { 0 < result }
        ensures alike { (x : Item) × (self.old ≡ replicate result x ++ self.new) }
    {
        let passed = self.count;
        let (item, count) = repeated(self.rest.next());
        self.item = item;
        self.count = count;
        passed
    }
}
