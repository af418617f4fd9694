//! `Recording`: the first items of a schedule with what callers saw of them, as far as the debugger
//! has followed its run, with checkpoints of the machine at some of the positions.
ghost use Rattle.std.specs.Prelude.{◌≡◌, ◌<◌, ◌≤◌, ◌+◌, ◌∷◌, List, drop, length, IfOk, OnErr, OnOk};
ghost use Rattle.std.specs.List.{AllByRecursion};
ghost use Rattle.snap_words.specs.Shape.{IsOneOf, max_items};
ghost use Rattle.snap_semantics.specs.Table.{who};
ghost use Rattle.snap_semantics.specs.declared.process.Item.{Item};
ghost use Rattle.snap_runs.specs.Run.{Run, item, outcome, events_of, run_over};
ghost use Rattle.snap_debug.specs.Recording.{ContinuesWith, IsRecorded, IsCheckpoint};

use crate::checkpoint::Checkpoint;
use crate::followed::Followed;
use snap_asm_program::Program;
use snap_machine::Machine;
use snap_sched::{ItemIter, Schedule};
use snap_semantics::{Event, Item, Outcome, who};
use snap_words::Kind;
use std::alloc::{AllocError, Global};
use std::marker::Model;

/// How many items lie between checkpoints, for each process: the larger a machine is, the fewer
/// copies are kept.
const FAR: u64 = 64;

/// How many items lie between checkpoints at least.
const LEAST: u64 = 512;

/// The first items of a schedule with what callers saw of them, as many as were needed so far, and
/// checkpoints: copies of the machine at the beginning and at even distances from it. No item is
/// recorded twice.
pub struct Recording<K: Kind> {
    schedule: Schedule,
    history: Followed<K>,
    first: Checkpoint<K>,
    later: Vec<Checkpoint<K>>,
}

impl<K: Kind> Drop for Recording<K> {
    // A drop that is written out is one call: it is proved once, and not again at each drop.
    fn drop(self) {
        let Recording {
            schedule: _,
            history: _,
            first: _,
            later: _,
        } = self;
    }
}

impl<K: Kind> Model for Recording<K> {
    ghost use Rattle.std.specs.Prelude.{◌≡◌, length};
    ghost use Rattle.std.specs.List.{AllByRecursion};
    ghost use Rattle.snap_runs.specs.Run.{run_over};
    ghost use Rattle.snap_debug.specs.Recording.{IsRecorded, IsCheckpoint, Recording};

    ghost Value = { Recording };

    ghost view = { λ t. record {
      run = run_over t.history.source t.schedule;
      reached = length t.history.items;
    } };

    ghost invariant = { λ t. IsRecorded (run_over t.history.source t.schedule) t.history
        × IsCheckpoint (run_over t.history.source t.schedule) t.first
        × (t.first.position ≡ 0)
        × AllByRecursion (IsCheckpoint (run_over t.history.source t.schedule)) t.later.items };
}

/// Returns the next of the items to come.
fn next_item(items: &mut ItemIter<'_>) -> Item
    requires { 0 < length items.old }
    ensures { items.old ≡ result ∷ items.new }
{
    match items.next() {
        Some(item) => item,
        None => unreachable!(),
    }
}

/// Skips `count` items.
fn skip(items: &mut ItemIter<'_>, count: u64)
    requires { count ≤ length items.old }
    ensures { items.new ≡ drop count items.old }
{
    for _t in 0..count {
        let _item = next_item(items);
    }
}

/// Keeps a copy of the machine, if a checkpoint is due.
fn keep_checkpoint<K: Kind>(
    later: &mut Vec<Checkpoint<K>>,
    history: &Followed<K>,
    spacing: u64,
) -> Result<(), AllocError>
    ensures { (r : Run) (xs : List Item) → ContinuesWith r history.now xs →
        AllByRecursion (IsCheckpoint r) later.old.items →
        AllByRecursion (IsCheckpoint r) later.new.items }
{
    let position = history.items().len();
    // There is no division here, since the test is made at each item.
    let due = (later.len() as u64 + 1).wrapping_mul(spacing);
    if position == due {
        let machine = history.machine().copy()?;
        later.push(Checkpoint { machine, position })?;
    }
    Ok(())
}

/// Records the next of the items to come.
fn record_next<K: Kind>(
    history: &mut Followed<K>,
    items: &mut ItemIter<'_>,
) -> Result<(), AllocError>
    requires { (r : Run) × ContinuesWith r history.old items.old ×
        (length history.old.items < length r.items) }
    ensures done { (r : Run) → ContinuesWith r history.old items.old →
        OnOk result (ContinuesWith r history.new items.new) }
    ensures more { OnOk result (length history.new.items ≡ length history.old.items + 1) }
    ensures unchanged { OnErr result (history.new ≡ history.old) }
{
    let item = next_item(items);
    history.apply(item)
}

/// Records `count` items more, with the checkpoints on the way. If memory runs out for one, the
/// items before it stay recorded.
fn record_more<K: Kind>(
    history: &mut Followed<K>,
    later: &mut Vec<Checkpoint<K>>,
    items: &mut ItemIter<'_>,
    count: u64,
    spacing: u64,
) -> Result<(), AllocError>
    requires spacing { 0 < spacing }
    requires items { (r : Run) × ContinuesWith r history.old items.old ×
        (length history.old.items + count ≤ length r.items) }
    ensures begun { (r : Run) → ContinuesWith r history.old items.old →
        AllByRecursion (IsCheckpoint r) later.old.items →
        IsRecorded r history.new × AllByRecursion (IsCheckpoint r) later.new.items }
    ensures grows { length history.old.items ≤ length history.new.items }
    ensures done { OnOk result (length history.new.items ≡ length history.old.items + count) }
{
    for _t in 0..count {
        keep_checkpoint(later, history, spacing)?;
        record_next(history, items)?;
    }
    Ok(())
}

/// Returns how far to go on from what is recorded: to a position, and an eighth beyond what is
/// recorded, so that going on item by item seldom copies the earlier ones.
fn further(reached: u64, position: u64, total: u64) -> u64
    requires position { position ≤ total }
    requires reached { reached ≤ total }
    requires few { total ≤ max_items }
    ensures least { position ≤ result }
    ensures most { result ≤ total }
{
    position.max(reached + reached / 8).min(total)
}

/// Returns the events of the first `position` items.
fn events_until(events: &[Event], position: u64) -> &[Event]
    ensures { (r : Run) → events.now ≡ events_of r (length r.items) →
        result.now ≡ events_of r position }
{
    let mut k = 0;
    while k < events.len() {
        if events[k].item > position {
            return &events[..k];
        }
        k += 1;
    }
    events
}

impl<K: Kind> Recording<K> {
    /// Returns a recording before the first item of `schedule`.
    ///
    /// # Errors
    ///
    /// `AllocError` where memory runs out.
    pub fn new(
        alloc: Global,
        program: &Program,
        schedule: Schedule,
    ) -> Result<Recording<K>, AllocError>
        requires { program.now.kind ≡ K.TAG }
        ensures { IfOk result (λ t. t
            ≡ record { run = run_over program.now schedule; reached = 0 }) }
    {
        let shape = schedule.shape();
        Ok(Recording {
            schedule,
            history: Followed::new(alloc, program, shape)?,
            first: Checkpoint {
                machine: Machine::new(alloc, program, shape)?,
                position: 0,
            },
            later: Vec::new(alloc),
        })
    }

    /// Returns how many items there are.
    pub fn total(&self) -> u64
        ensures { result ≡ length self.now.run.items }
    {
        self.schedule.items().len()
    }

    /// Returns how many items are recorded.
    fn reached(&self) -> u64
        ensures reached { result ≡ self.now.reached }
        ensures within { result ≤ length self.now.run.items }
    {
        self.history.items().len()
    }

    /// Returns how many processes there are.
    pub fn processes(&self) -> u32
        ensures count { result ≡ self.now.run.shape.n }
        ensures some { 0 < result }
        ensures few { result ≤ 64 }
    {
        self.schedule.shape().process_count()
    }

    /// Returns how many items lie between checkpoints.
    fn spacing(&self) -> u64
        ensures { 0 < result }
    {
        (u64::from(self.processes()) * FAR).max(LEAST)
    }

    /// Goes on until at least `position` items are recorded.
    ///
    /// # Errors
    ///
    /// `AllocError` where memory runs out.
    pub fn reach(&mut self, position: u64) -> Result<(), AllocError>
        requires { position ≤ length self.old.run.items }
        ensures run { self.new.run ≡ self.old.run }
        ensures grows { self.old.reached ≤ self.new.reached }
        ensures reached { OnOk result (position ≤ self.new.reached) }
    {
        let reached = self.reached();
        if position <= reached {
            return Ok(());
        }
        let count = further(reached, position, self.total()) - reached;
        let spacing = self.spacing();
        let mut items = self.schedule.items().iter();
        skip(&mut items, reached);
        record_more(
            &mut self.history,
            &mut self.later,
            &mut items,
            count,
            spacing,
        )
    }

    /// Returns the item behind the first `t`.
    pub fn item(&self, t: u64) -> Item
        requires { t < self.now.reached }
        ensures item { result ≡ item self.now.run (t + 1) }
        ensures process { IsOneOf self.now.run.shape.n (who result) }
        ensures within { t < length self.now.run.items }
        ensures few { t < max_items }
    {
        let items = self.history.items();
        match items.item(t + 1) {
            Some(item) => item,
            None => unreachable!(),
        }
    }

    /// Does the next item of `current`, and returns its process and its outcome.
    ///
    /// # Errors
    ///
    /// `AllocError` where memory runs out.
    pub fn advance(&self, current: &mut Checkpoint<K>) -> Result<(u32, Outcome), AllocError>
        requires stands { IsCheckpoint self.now.run current.old }
        requires reached { current.old.position < self.now.reached }
        ensures stands { IfOk result (λ _. IsCheckpoint self.now.run current.new) }
        ensures position { IfOk result (λ _. current.new.position ≡ current.old.position + 1) }
        ensures process { let r = self.now.run in
            IfOk result (λ o. (o.0 ≡ who (item r (current.old.position + 1))) ×
            IsOneOf r.shape.n o.0) }
        ensures outcome { IfOk result (λ o. o.1 ≡ outcome self.now.run (current.old.position + 1)) }
    {
        let item = self.item(current.position);
        let outcome = current.machine.apply(item)?;
        current.position += 1;
        Ok((who(item), outcome))
    }

    /// Does the items up to a position.
    ///
    /// # Errors
    ///
    /// `AllocError` where memory runs out.
    pub fn run_to(&self, current: &mut Checkpoint<K>, position: u64) -> Result<(), AllocError>
        requires stands { IsCheckpoint self.now.run current.old }
        requires before { current.old.position ≤ position }
        requires reached { position ≤ self.now.reached }
        ensures stands { OnOk result (IsCheckpoint self.now.run current.new) }
        ensures position { OnOk result (current.new.position ≡ position) }
    {
        while current.position < position {
            let _done = self.advance(current)?;
        }
        Ok(())
    }

    /// Returns a checkpoint at `position` or before it. The later it is, the fewer items have to be
    /// done again; no clause says how late it is.
    pub fn checkpoint(&self, position: u64) -> &Checkpoint<K>
        ensures stands { IsCheckpoint self.now.run result.now }
        ensures not_after { result.now.position ≤ position }
    {
        let k = (position / self.spacing()).min(self.later.len() as u64);
        if k > 0 {
            let current = &self.later[(k - 1) as usize];
            if current.position <= position {
                return current;
            }
        }
        &self.first
    }

    /// Returns what callers saw of the first `position` items.
    pub fn events(&self, position: u64) -> &[Event]
        requires { position ≤ self.now.reached }
        ensures { result.now ≡ events_of self.now.run position }
    {
        events_until(self.history.events(), position)
    }
}
