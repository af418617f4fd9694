//! `Followed`: a machine with the items that were done and what callers saw of them.
ghost use Rattle.std.specs.Prelude.{◌≡◌, ◌<◌, ◌≤◌, ◌++◌, [], IfOk, OnErr, OnOk, length};
ghost use Rattle.std.specs.Prelude.{vec_capacity, vec_len};
ghost use Rattle.snap_words.specs.Shape.{IsOneOf, max_items};
ghost use Rattle.snap_semantics.specs.Run.{event_of};
ghost use Rattle.snap_semantics.specs.Table.{who};
ghost use Rattle.snap_runs.specs.Run.{IsValidRun, events_of, state};
ghost use Rattle.snap_record.specs.Longer.{with_item};

use snap_asm_program::Program;
use snap_machine::Machine;
use snap_record::{History, event_of};
use snap_semantics::{Event, Item, Outcome, who};
use snap_words::{Kind, Shape};
use std::alloc::{AllocError, Global};
use std::marker::Model;

/// A machine with the items that were done and what callers saw of them, seen as their run. Nothing
/// else is noted, so that going on by an item costs little more than the item.
pub struct Followed<K: Kind> {
    machine: Machine<K>,
    items: History,
    events: Vec<Event>,
}

impl<K: Kind> Drop for Followed<K> {
    // A drop that is written out is one call: it is proved once, and not again at each drop.
    fn drop(self) {
        let Followed {
            machine: _,
            items: _,
            events: _,
        } = self;
    }
}

impl<K: Kind> Model for Followed<K> {
    ghost use Rattle.snap_runs.specs.Run.{Run};
    ghost use Rattle.snap_debug.specs.Followed.{IsFollowed};

    ghost Value = { Run };

    ghost view = { λ f. record {
      source = f.machine.source;
      shape = f.machine.shape;
      items = f.items.items;
    } };

    ghost invariant = { λ f. IsFollowed
        (record { source = f.machine.source; shape = f.machine.shape; items = f.items.items })
        K.TAG f.machine.state f.events.items };
}

/// Notes what callers see of an item, for which there is room.
#[inline(always)]
fn note_event(events: &mut Vec<Event>, number: u64, item: Item, outcome: Outcome)
    requires { vec_len events.old < vec_capacity events.old }
    ensures { events.new.items ≡ events.old.items ++ event_of number item outcome }
{
    // Most items are steps of which nobody sees anything.
    if let Outcome::Stepped = outcome {
        return;
    }
    if let Some(event) = event_of(number, item, outcome) {
        events.push_reserved(event);
    }
}

impl<K: Kind> Followed<K> {
    /// Returns the machine of a program over a shape, with no items done.
    ///
    /// # Errors
    ///
    /// `AllocError` where memory runs out.
    pub fn new(alloc: Global, program: &Program, shape: Shape) -> Result<Followed<K>, AllocError>
        requires { program.now.kind ≡ K.TAG }
        ensures { IfOk result (λ f. f
            ≡ record { source = program.now; shape = shape; items = [] }) }
    {
        Ok(Followed {
            machine: Machine::new(alloc, program, shape)?,
            items: History::new(alloc),
            events: Vec::new(alloc),
        })
    }

    /// Does one item, whose number has 64 bits.
    ///
    /// # Errors
    ///
    /// `AllocError` where memory runs out; everything is as before then.
    pub fn apply(&mut self, item: Item) -> Result<(), AllocError>
        requires process { IsOneOf self.old.shape.n (who item) }
        requires few { length self.old.items < max_items }
        ensures done { OnOk result (self.new ≡ with_item self.old item) }
        ensures unchanged { OnErr result (self.new ≡ self.old) }
    {
        self.items.reserve()?;
        self.events.reserve(1)?;
        let outcome = self.machine.apply(item)?;
        self.items.push_reserved(item);
        note_event(&mut self.events, self.items.len(), item, outcome);
        Ok(())
    }

    /// Returns the items, in order.
    pub fn items(&self) -> &History
        ensures items { result.now.items ≡ self.now.items }
        ensures fits { IsValidRun self.now }
        ensures few { length self.now.items ≤ max_items }
    {
        &self.items
    }

    /// Returns what callers saw, in order.
    pub fn events(&self) -> &[Event]
        ensures { result.now ≡ events_of self.now (length self.now.items) }
    {
        self.events.as_slice()
    }

    /// Returns the machine after the last item.
    pub fn machine(&self) -> &Machine<K>
        ensures { result.now ≡ record {
          source = self.now.source;
          shape = self.now.shape;
          state = state self.now (length self.now.items);
        } }
    {
        &self.machine
    }
}
