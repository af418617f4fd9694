//! `Record`: a machine with the items that were done, their events, and the changes of the values
//! of the words.
ghost use Rattle.std.specs.Prelude.{◌≡◌, ◌↔◌, ◌<◌, ◌≤◌, ◌+◌, []};
ghost use Rattle.std.specs.Prelude.{ℕ, drop, get_or, length, map};
ghost use Rattle.std.specs.Prelude.{replicate, take, Err, IfOk, OnOk, OnErr};
ghost use Rattle.std.specs.List.{AllByRecursion};
ghost use Rattle.snap_words.specs.Shape.{IsOneOf, max_items};
ghost use Rattle.snap_semantics.specs.Table.{who};
ghost use Rattle.snap_runs.specs.Run.{outcome, state, IsValidRun, events_of};
ghost use Rattle.snap_record.specs.Longer.{with_item, with_items};
ghost use Rattle.snap_record.specs.Record.{collects_of, values_after};
ghost use Rattle.snap_record.specs.Searches.{scan_collects};
ghost use Rattle.snap_semantics.specs.declared.event.Event.{Event};
ghost use Rattle.snap_record.specs.History.{LeadsAlong, collects_at};
ghost use Rattle.snap_record.specs.declared.fault.RecordFault.TheVariants.{Full};

use crate::fault::RecordFault;
use crate::history::{Change, Done, note_collect, note_item, note_outcome, reserve_changes};
use crate::items::History;
use crate::roles::{LineRole, new_roles};
use crate::row::Row;
use crate::search::{collects_until, scans};
use crate::step_role::step_role_of;
use crate::walk::advance;
use snap_asm_program::Program;
use snap_machine::Machine;
use snap_sched::Items;
use snap_semantics::{Event, Item, Outcome, who};
use snap_words::{Kind, MAX_ITEMS, Shape, View};
use std::alloc::{AllocError, Global};
use std::marker::Model;

/// A machine with the items that were done, seen as their run.
pub struct Record<K: Kind> {
    alloc: Global,
    machine: Machine<K>,
    items: History,
    values: Row,
    /// The changes of values, in order.
    changes: Vec<Change>,
    events: Vec<Event>,
    /// How many double collects each process has had.
    collects: Vec<u64>,
    /// At each event, how many double collects its process had had.
    at_events: Vec<u64>,
    /// What the lines are, by their numbers.
    roles: Vec<LineRole>,
}

impl<K: Kind> Drop for Record<K> {
    // A drop that is written out is one call: it is proved once, and not again at each drop.
    fn drop(self) {
        let Record {
            alloc: _,
            machine: _,
            items: _,
            values: _,
            changes: _,
            events: _,
            collects: _,
            at_events: _,
            roles: _,
        } = self;
    }
}

impl<K: Kind> Model for Record<K> {
    ghost use Rattle.snap_runs.specs.Run.{Run};
    ghost use Rattle.snap_record.specs.History.{IsRecord};
    ghost use Rattle.snap_record.specs.Roles.{AreRoles};

    ghost Value = { Run };

    ghost view = { λ r. record {
      source = r.machine.source;
      shape = r.machine.shape;
      items = r.items.items;
    } };

    ghost invariant = { λ r. IsRecord
        (record { source = r.machine.source; shape = r.machine.shape; items = r.items.items })
        K.TAG r.machine.state r.values r.changes.items r.events.items r.collects.items
        r.at_events.items
        × AreRoles r.machine.source r.roles.items };
}

/// Returns `count` zeros.
fn zeros(alloc: Global, count: u64) -> Result<Vec<u64>, AllocError>
    ensures { IfOk result (λ v. v.items ≡ replicate count 0) }
{
    Ok(vec![in alloc; 0; count as usize]?)
}

impl<K: Kind> Record<K> {
    /// Returns the record of `program` before the first item.
    ///
    /// # Errors
    ///
    /// `AllocError` where memory runs out.
    pub fn new(alloc: Global, program: &Program, shape: Shape) -> Result<Record<K>, AllocError>
        requires { program.now.kind ≡ K.TAG }
        ensures { IfOk result (λ r. r
            ≡ record { source = program.now; shape = shape; items = [] }) }
    {
        Ok(Record {
            alloc,
            items: History::new(alloc),
            values: Row::zeros(alloc, shape.w())?,
            changes: Vec::new(alloc),
            events: Vec::new(alloc),
            collects: zeros(alloc, shape.n())?,
            at_events: Vec::new(alloc),
            roles: new_roles(alloc, program)?,
            // Last, so that nothing fails where there is a machine to let go of.
            machine: Machine::new(alloc, program, shape)?,
        })
    }

    /// Does one item, for which there is a number.
    #[inline(always)]
    fn add(&mut self, item: Item) -> Result<Outcome, AllocError>
        requires process { IsOneOf self.old.shape.n (who item) }
        requires few { length self.old.items < max_items }
        ensures done { IfOk result (λ o. (self.new ≡ with_item self.old item) ×
            (o ≡ outcome self.new (length self.new.items))) }
        ensures unchanged { OnErr result (self.new ≡ self.old) }
    {
        let step_role = step_role_of(self.alloc, &self.machine, self.roles.as_slice(), item)?;
        self.items.reserve()?;
        reserve_changes(&mut self.changes, &step_role, self.values.as_slice().len())?;
        self.events.reserve(1)?;
        self.at_events.reserve(1)?;
        let outcome = self.machine.apply(item)?;
        self.items.push_reserved(item);
        let number = self.items.len();
        note_item(
            &mut self.values,
            &mut self.changes,
            number,
            &step_role,
            &self.machine,
        );
        note_collect(&mut self.collects, who(item), &step_role, &outcome);
        let done = Done {
            number,
            item,
            outcome: &outcome,
        };
        note_outcome(
            &mut self.events,
            &mut self.at_events,
            self.collects.as_slice(),
            &done,
            step_role,
        );
        Ok(outcome)
    }

    /// Does one item, and returns its outcome.
    ///
    /// # Errors
    ///
    /// `Full` where 1,000,000 items are kept; `Memory` where memory runs out. The record is as
    /// before then.
    pub fn apply(&mut self, item: Item) -> Result<Outcome, RecordFault>
        requires { IsOneOf self.old.shape.n (who item) }
        ensures done { IfOk result (λ o. (self.new ≡ with_item self.old item) ×
            (o ≡ outcome self.new (length self.new.items))) }
        ensures full { (length self.old.items ≡ max_items) ↔ (result ≡ Err Full) }
        ensures unchanged { OnErr result (self.new ≡ self.old) }
    {
        if self.items.len() == MAX_ITEMS {
            return Err(RecordFault::Full);
        }
        Ok(self.add(item)?)
    }

    /// Does the first `count` of `items`.
    ///
    /// # Errors
    ///
    /// `AllocError` where memory runs out; the items before stay done.
    pub fn apply_first(&mut self, items: &Items, count: u64) -> Result<(), AllocError>
        requires processes { AllByRecursion (λ x. IsOneOf self.old.shape.n (who x)) items.now }
        requires few { length self.old.items + count ≤ max_items }
        ensures done { OnOk result (self.new ≡ with_items self.old (take count items.now)) }
        ensures begun { OnErr result ((m : ℕ) × (m ≤ count) ×
            (self.new ≡ with_items self.old (take m items.now))) }
    {
        let mut left = items.iter();
        let mut k = 0;
        while k < count {
            let Some(item) = left.next() else {
                return Ok(());
            };
            let _outcome = self.add(item)?;
            k += 1;
        }
        Ok(())
    }

    /// Returns the allocator that `new` took.
    pub(crate) fn allocator(&self) -> Global {
        self.alloc
    }

    /// Returns the items, in order.
    pub fn items(&self) -> &History
        ensures items { result.now.items ≡ self.now.items }
        ensures fits { IsValidRun self.now }
        ensures few { length self.now.items ≤ max_items }
    {
        &self.items
    }

    /// Returns what callers saw, in order.
    pub fn events(&self) -> &[Event]
        ensures { result.now ≡ events_of self.now (length self.now.items) }
    {
        self.events.as_slice()
    }

    /// Returns how many double collects the process of each event had made at it.
    pub fn event_collects(&self) -> &[u64]
        ensures { result.now ≡ map (collects_at self.now)
            (events_of self.now (length self.now.items)) }
    {
        self.at_events.as_slice()
    }

    /// Returns the changes of values, in order.
    pub fn changes(&self) -> &[Change]
        ensures { LeadsAlong self.now result.now }
    {
        self.changes.as_slice()
    }

    /// Returns the machine after the last item.
    pub fn machine(&self) -> &Machine<K>
        ensures { result.now ≡ record {
          source = self.now.source;
          shape = self.now.shape;
          state =
              state self.now (length self.now.items);
        } }
    {
        &self.machine
    }

    /// Returns the values after `t` items; `None` where fewer are done.
    ///
    /// # Errors
    ///
    /// `AllocError` where memory runs out.
    pub fn values_after(&self, t: u64) -> Result<Option<View>, AllocError>
        ensures { IfOk result (λ v. v ≡ values_after self.now t) }
    {
        if t > self.items.len() {
            return Ok(None);
        }
        let mut values = Row::zeros(self.alloc, self.machine.shape().w())?;
        let _next = advance(&mut values, self.changes.as_slice(), 0, t);
        Ok(Some(values.into_view()))
    }

    /// Returns how many double collects the scan makes that event `k` calls; `None` where it calls
    /// none.
    fn scan_collects(&self, k: usize) -> Option<u64>
        requires { k < length (events_of self.now (length self.now.items)) }
        ensures { (d : Event) → let events = events_of self.now (length self.now.items) in
            result ≡ scan_collects self.now (get_or events k d) (drop (k + 1) events) }
    {
        let event = &self.events[k];
        let i = scans(event.process, &event.what)?;
        let all = self.collects[(i - 1) as usize];
        let until = collects_until(
            self.events.as_slice(),
            self.at_events.as_slice(),
            k + 1,
            i,
            all,
        );
        Some(until.saturating_sub(self.at_events[k]))
    }

    /// Returns how many double collects the scan makes that item `call` calls, up to its answer or
    /// to the last item; `None` where it calls none.
    pub fn collects_of(&self, call: u64) -> Option<u64>
        ensures { result ≡ collects_of self.now call }
    {
        // What `items` promises: the run of the record is a valid one.
        let _items = self.items();
        let events = self.events();
        let mut k = 0;
        while k < events.len() {
            if events[k].item == call {
                return self.scan_collects(k);
            }
            k += 1;
        }
        None
    }
}
