//! `Walk`: a machine that does the items of a schedule in order.
ghost use Rattle.std.specs.Prelude.{◌≡◌, ◌≤◌, ◌<◌, suc, length, IfOk, IsTrue, MatchOption, OnErr, OnOk};
ghost use Rattle.std.specs.Prelude.{[], false, IfSome};
ghost use Rattle.snap_words.specs.Shape.{IsOneOf, max_items};
ghost use Rattle.snap_semantics.specs.Memory.{may_grow};
ghost use Rattle.snap_semantics.specs.State.{process_at};
ghost use Rattle.snap_semantics.specs.Table.{done, who};
ghost use Rattle.snap_semantics.specs.declared.process.Item.TheVariants as item;
ghost use Rattle.snap_semantics.specs.declared.process.Status.TheVariants.{Busy};
ghost use Rattle.snap_runs.specs.Run.{item as item_at, outcome as outcome_at, run_over, state};
ghost use Rattle.snap_runs.specs.Scan.{count};
ghost use Rattle.snap_walk.specs.Walk.{Passes, PassesOver, Tells, TellsNone, further, is_skip, is_skipped, line_told, look_ahead};
ghost use Rattle.snap_walk.specs.Walking.{runs_line, skips_by};
ghost use Rattle.snap_walk.specs.Glance as looks;

use crate::ahead::Ahead;
use crate::passed::Passed;
use crate::told::{has_stepped, is_quiet, is_skip, is_step, skip_reason, told};
use snap_asm_program::Program;
use snap_machine::{Machine, OwnCode};
use snap_sched::Schedule;
use snap_semantics::{Activity, Item, Outcome, Status, who};
use snap_words::Kind;
use std::alloc::{AllocError, Global};
use std::marker::Model;

/// A machine on its way through the run of a program over a schedule, seen as the run and the
/// number of items that are done.
pub struct Walk<'a, K: Kind> {
    /// The machine is of a kind of its own, so that its step is inlined into `advance`, the only
    /// loop that steps such machines. The machine of `run` has another kind.
    machine: Machine<OwnCode<OwnCode<K>>>,
    schedule: &'a Schedule,
    /// How many items are done.
    done: u64,
    /// How many of these were skipped.
    skipped: u64,
    /// The items that are left.
    ahead: Ahead<'a>,
}

impl<'a, K: Kind> Drop for Walk<'a, K> {
    // A drop that is written out is one call: it is proved once, and not again at each drop.
    fn drop(self) {
        let Walk {
            machine: _,
            schedule: _,
            done: _,
            skipped: _,
            ahead: _,
        } = self;
    }
}

impl<'a, K: Kind> Model for Walk<'a, K> {
    ghost use Rattle.snap_walk.specs.Walk.{Way};
    ghost use Rattle.snap_runs.specs.Run.{run_over};

    ghost Value = { Way };

    ghost use Rattle.snap_walk.specs.Walking.{IsWalking};

    ghost view = { λ w. record {
      run = run_over w.machine.source w.schedule.now;
      at = w.done;
    } };

    ghost invariant = { λ w. IsWalking w.machine w.schedule.now w.done w.skipped w.ahead };
}

/// Returns how many items are skipped by one of this outcome.
fn skip_count(outcome: &Outcome) -> u64
    ensures { result ≡ skips_by outcome.now }
{
    if is_skip(outcome) { 1 } else { 0 }
}

/// Does an item that is no step of a busy process, and returns its outcome.
fn apply_idle<K: Kind>(machine: &mut Machine<K>, item: Item) -> Outcome
    requires process { IsOneOf machine.old.shape.n (who item) }
    requires idle { runs_line item (process_at machine.old.state (who item)).status ≡ false }
    ensures done { done machine.old.source machine.old.shape machine.old.state item
        ≡ (machine.new.state, result) }
    ensures source { machine.new.source ≡ machine.old.source }
    ensures shape { machine.new.shape ≡ machine.old.shape }
{
    match item {
        Item::Step(i) => Outcome::Skipped(skip_reason(machine.status(i))),
        Item::Call(i, op) => machine.call(i, op),
        Item::Crash(i) => machine.crash(i),
    }
}

impl<'a, K: Kind> Walk<'a, K> {
    /// Returns a walk before the first item of the run of `program` over `schedule`.
    ///
    /// # Errors
    ///
    /// `AllocError` where memory runs out.
    pub fn over(
        alloc: Global,
        program: &Program,
        schedule: &'a Schedule,
    ) -> Result<Walk<'a, K>, AllocError>
        requires { program.now.kind ≡ K.TAG }
        ensures { IfOk result (λ w.
            w ≡ record { run = run_over program.now schedule.now; at = 0 }) }
    {
        let machine = Machine::new(alloc, program, schedule.shape())?;
        Ok(Walk {
            machine,
            schedule,
            done: 0,
            skipped: 0,
            ahead: Ahead::new(schedule.items()),
        })
    }

    /// Returns the machine, which has done the items so far.
    pub fn machine(&self) -> &Machine<OwnCode<OwnCode<K>>>
        ensures source { result.now.source ≡ self.now.run.source }
        ensures shape { result.now.shape ≡ self.now.run.shape }
        ensures state { result.now.state ≡ state self.now.run self.now.at }
    {
        &self.machine
    }

    /// Returns how many items are done.
    pub fn done(&self) -> u64
        ensures done { result ≡ self.now.at }
        ensures within { self.now.at ≤ length self.now.run.items }
    {
        self.done
    }

    /// Returns how many of the items that are done were skipped.
    pub fn skipped(&self) -> u64
        ensures { result ≡ count (is_skipped self.now.run) 0 self.now.at }
    {
        self.skipped
    }

    /// Returns the item that comes next, if there is one.
    #[inline(always)]
    pub fn upcoming(&self) -> Option<Item>
        ensures { MatchOption result (self.now.at ≡ length self.now.run.items)
            (λ x. (self.now.at < length self.now.run.items) ×
            (x ≡ item_at self.now.run (suc self.now.at))
            × IsOneOf self.now.run.shape.n (who x)) }
    {
        self.ahead.first()
    }

    /// Does the next item, which is a step of process `i`, which is at `activity`.
    #[inline(always)]
    fn step_at(&mut self, i: u32, activity: &Activity) -> Result<Outcome, AllocError>
        requires left { self.old.at < length self.old.run.items }
        requires next { item.Step i ≡ item_at self.old.run (suc self.old.at) }
        requires at { (process_at (state self.old.run self.old.at) i).status ≡ Busy activity.now }
        ensures outcome { IfOk result (λ o. o ≡ outcome_at self.old.run (suc self.old.at)) }
        ensures done { IfOk result (λ o. is_skip o ≡ false) }
        ensures further { OnOk result (self.new ≡ further self.old) }
        ensures unchanged { OnErr result (self.new ≡ self.old) }
        ensures grows { OnErr result (IsTrue (may_grow self.old.run.source self.old.run.shape
            (state self.old.run self.old.at) (item_at self.old.run (suc self.old.at)))) }
    {
        let outcome = self.machine.step_at(i, activity)?;
        self.done += 1;
        self.ahead.pass();
        Ok(outcome)
    }

    /// Does the next item, which is no step of a busy process, and returns it with its outcome.
    #[inline(never)]
    fn take(&mut self) -> (Item, Outcome)
        requires left { self.old.at < length self.old.run.items }
        requires idle { runs_line (item_at self.old.run (suc self.old.at))
            (process_at (state self.old.run self.old.at)
            (who (item_at self.old.run (suc self.old.at)))).status ≡ false }
        ensures item { result.0 ≡ item_at self.old.run (suc self.old.at) }
        ensures outcome { result.1 ≡ outcome_at self.old.run (suc self.old.at) }
        ensures further { self.new ≡ further self.old }
    {
        let Some(item) = self.upcoming() else {
            unreachable!()
        };
        let outcome = apply_idle(&mut self.machine, item);
        self.done += 1;
        self.ahead.pass();
        self.skipped += skip_count(&outcome);
        (item, outcome)
    }

    /// Passes over the items that come next and are alike, which are steps of a process that is not
    /// busy.
    #[inline(always)]
    fn pass_idle(&mut self, quiet: &[bool])
        requires left { self.old.at < length self.old.run.items }
        requires idle { look_ahead quiet.now self.old ≡ looks.Idle }
        ensures over { PassesOver quiet.now false self.old self.new }
        ensures some { self.old.at < self.new.at }
        ensures within { self.new.at ≤ length self.old.run.items }
    {
        let count = self.ahead.pass_alike();
        self.done += count;
        self.skipped += count;
    }

    /// Does items up to the next one that is told, and that one.
    #[inline(never)]
    fn advance(&mut self, quiet: &[bool], tells_skips: bool) -> Result<Option<Passed>, AllocError>
        ensures told { IfOk result (λ o. MatchOption o
            (TellsNone quiet.now tells_skips self.old self.new)
            (λ p. Tells quiet.now tells_skips self.old p self.new)) }
        ensures over { OnErr result (PassesOver quiet.now tells_skips self.old self.new) }
        ensures grows { OnErr result ((self.new.at < length self.new.run.items)
            × IsTrue (may_grow self.new.run.source self.new.run.shape
            (state self.new.run self.new.at)
            (item_at self.new.run (suc self.new.at)))) }
    {
        while let Some(item) = self.upcoming() {
            if let Item::Step(i) = item
                && let Status::Busy(activity) = self.machine().status(i)
            {
                let is_quiet = is_quiet(quiet, activity.line);
                let outcome = self.step_at(i, &activity)?;
                if !is_quiet || !has_stepped(&outcome) {
                    return Ok(Some(self.passed(Item::Step(i), told(is_quiet, activity), outcome)));
                }
            } else if is_step(item) && !tells_skips {
                self.pass_idle(quiet);
            } else {
                let (item, outcome) = self.take();
                if tells_skips || !is_skip(&outcome) {
                    return Ok(Some(self.passed(item, None, outcome)));
                }
            }
        }
        Ok(None)
    }

    /// Returns the item that was done last, as it is told.
    #[inline(always)]
    fn passed(&self, item: Item, activity: Option<Activity>, outcome: Outcome) -> Passed
        ensures { result ≡ record {
          number = self.now.at;
          item = item;
          activity = activity;
          outcome = outcome;
        } }
    {
        Passed {
            number: self.done,
            item,
            activity,
            outcome,
        }
    }

    /// Does the next item, if there is one, and tells what its process was at, if the item is a
    /// step of a busy process.
    ///
    /// # Errors
    ///
    /// `AllocError` where memory runs out; the walk is as before then.
    pub fn next(&mut self) -> Result<Option<Passed>, AllocError>
        ensures passed { IfOk result (λ o.
            MatchOption o ((self.old.at ≡ length self.old.run.items) × (self.new ≡ self.old))
            (λ p. Passes self.old p self.new)) }
        ensures activity { IfOk result (λ o.
            IfSome o (λ p. p.activity ≡ line_told (look_ahead [] self.old))) }
        ensures few { length self.old.run.items ≤ max_items }
        ensures unchanged { OnErr result (self.new ≡ self.old) }
        ensures grows { OnErr result ((self.old.at < length self.old.run.items)
            × IsTrue (may_grow self.old.run.source self.old.run.shape
            (state self.old.run self.old.at)
            (item_at self.old.run (suc self.old.at)))) }
    {
        // What `shape` promises: the schedule has at most as many items as schedules may have.
        let _shape = self.schedule.shape();
        self.advance(&[], true)
    }

    /// Does items up to the next one that is told, and that one, if there is one. Steps that go on
    /// from lines that are `quiet` are not told, nor are skipped items unless `tells_skips`.
    ///
    /// # Errors
    ///
    /// `AllocError` where memory runs out; all items done before that are passed over.
    pub fn next_told(
        &mut self,
        quiet: &[bool],
        tells_skips: bool,
    ) -> Result<Option<Passed>, AllocError>
        ensures told { IfOk result (λ o. MatchOption o
            (TellsNone quiet.now tells_skips self.old self.new)
            (λ p. Tells quiet.now tells_skips self.old p self.new)) }
        ensures over { OnErr result (PassesOver quiet.now tells_skips self.old self.new) }
    {
        self.advance(quiet, tells_skips)
    }
}
