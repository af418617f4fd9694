//! `History`: the items that a run has done, stored compactly: operations are stored for calls
//! alone.
ghost use Rattle.std.specs.Prelude.{◌≡◌, ◌<◌, ◌++◌, ◌∷◌, ◌^◌, ◌↔◌, [], true, length, IsTrue, OnOk};
ghost use Rattle.snap_semantics.specs.Readers.{nth};
ghost use Rattle.snap_record.specs.Items.{IsThere, kept_item};

use crate::history_iter::HistoryIter;
use snap_semantics::{Item, Op};
use std::alloc::{AllocError, Global};
use std::marker::Model;

/// A call of an operation.
#[derive(Clone, Copy)]
pub(crate) struct Called {
    process: u32,
    op: Op,
}

/// An item as it is kept: a step or a crash of a process, or the call at a place among the calls.
#[derive(Clone, Copy)]
pub(crate) enum StoredItem {
    Step(u32),
    Call(u32),
    Crash(u32),
}

/// Items in order, seen as their list and as whether there is room for one more. Operations are
/// kept for calls alone.
pub struct History {
    items: Vec<StoredItem>,
    calls: Vec<Called>,
}

impl Drop for History {
    // A drop that is written out is one call: it is proved once, and not again at each drop.
    fn drop(self) {
        let History { items: _, calls: _ } = self;
    }
}

impl Model for History {
    ghost use Rattle.std.specs.Prelude.{◌&&◌, nat_lt, vec_len, vec_capacity};
    ghost use Rattle.snap_record.specs.Items.{AreKept, HistoryView, kept_items};

    ghost Value = { HistoryView };

    ghost view = { λ h. record {
      items = kept_items h.calls.items h.items.items;
      ready = nat_lt (vec_len h.items) (vec_capacity h.items)
          && nat_lt (vec_len h.calls) (vec_capacity h.calls);
    } };

    ghost invariant = { λ h. AreKept h.calls.items h.items.items };
}

/// Returns the item that is kept as this one.
pub(crate) fn kept_item(calls: &[Called], kept: StoredItem) -> Item
    requires { IsThere (length calls.now) kept }
    ensures { result ≡ kept_item calls.now kept }
{
    match kept {
        StoredItem::Step(i) => Item::Step(i),
        StoredItem::Call(k) => {
            let call = calls[k as usize];
            Item::Call(call.process, call.op)
        }
        StoredItem::Crash(i) => Item::Crash(i),
    }
}

impl History {
    /// Returns an empty history.
    pub fn new(alloc: Global) -> History
        ensures items { result.items ≡ [] }
    {
        History {
            items: Vec::new(alloc),
            calls: Vec::new(alloc),
        }
    }

    /// Returns how many items there are.
    pub fn len(&self) -> u64
        ensures { result ≡ length self.now.items }
    {
        self.items.len() as u64
    }

    /// Returns whether there are none.
    pub fn is_empty(&self) -> bool
        ensures { IsTrue result ↔ self.now.items ≡ [] }
    {
        self.items.is_empty()
    }

    /// Goes through the items in order.
    pub fn iter(&self) -> HistoryIter<'_>
        ensures { result ≡ self.now.items }
    {
        HistoryIter::new(self.calls.as_slice(), self.items.as_slice())
    }

    /// Returns item `t`, counted from 1; `None` where there are fewer.
    pub fn item(&self, t: u64) -> Option<Item>
        ensures { result ≡ nth t self.now.items }
    {
        if t == 0 {
            return None;
        }
        let kept = self.items.get((t - 1) as usize)?;
        Some(kept_item(self.calls.as_slice(), *kept))
    }

    /// Makes room for one more.
    ///
    /// # Errors
    ///
    /// `AllocError` where memory runs out.
    pub fn reserve(&mut self) -> Result<(), AllocError>
        ensures items { self.new.items ≡ self.old.items }
        ensures ready { OnOk result (self.new.ready ≡ true) }
    {
        self.items.reserve(1)?;
        self.calls.reserve(1)?;
        Ok(())
    }

    /// Appends an item, for which there is room.
    pub fn push_reserved(&mut self, item: Item)
        requires room { self.old.ready ≡ true }
        requires few { length self.old.items < 2 ^ 32 }
        ensures items { self.new.items ≡ self.old.items ++ item ∷ [] }
    {
        match item {
            Item::Step(i) => self.items.push_reserved(StoredItem::Step(i)),
            Item::Call(process, op) => {
                let place = self.calls.len() as u32;
                self.calls.push_reserved(Called { process, op });
                self.items.push_reserved(StoredItem::Call(place));
            }
            Item::Crash(i) => self.items.push_reserved(StoredItem::Crash(i)),
        }
    }
}
