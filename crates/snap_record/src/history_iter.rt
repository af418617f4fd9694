//! `HistoryIter`: goes through the items of a history, one by one.
ghost use Rattle.std.specs.Prelude.{◌≡◌, length};
ghost use Rattle.std.specs.List.{AllByRecursion};
ghost use Rattle.snap_record.specs.Items.{IsThere, kept_items};

use crate::items::{Called, StoredItem, kept_item};
use snap_semantics::Item;
use std::marker::Model;

/// An iterator over items in order, seen as the list of those that are still to come.
#[derive(Drop)]
pub struct HistoryIter<'a> {
    calls: &'a [Called],
    items: &'a [StoredItem],
}

impl<'a> Model for HistoryIter<'a> {
    ghost use Rattle.std.specs.Prelude.{List, length};
    ghost use Rattle.std.specs.List.{AllByRecursion};
    ghost use Rattle.snap_semantics.specs.declared.process.Item.{Item};
    ghost use Rattle.snap_record.specs.Items.{IsThere, kept_items};

    ghost Value = { List Item };

    ghost view = { λ h. kept_items h.calls.now h.items.now };

    ghost invariant = { λ h. AllByRecursion (IsThere (length h.calls.now)) h.items.now };
}

impl<'a> HistoryIter<'a> {
    /// Returns an iterator over the items that are kept so, with these calls.
    pub(crate) fn new(calls: &'a [Called], items: &'a [StoredItem]) -> HistoryIter<'a>
        requires { AllByRecursion (IsThere (length calls.now)) items.now }
        ensures { result ≡ kept_items calls.now items.now }
    {
        HistoryIter { calls, items }
    }
}

impl<'a> Iterator for HistoryIter<'a> {
    type Item = Item;

    ghost use Rattle.std.specs.Iterator.{YieldsFirst, item_count};

    ghost next_gives = { YieldsFirst (λ s. s) };

    ghost remaining = { item_count (λ s. s) };

    fn next(&mut self) -> Option<Item> {
        let (first, rest) = self.items.split_first()?;
        self.items = rest;
        Some(kept_item(self.calls, *first))
    }
}
