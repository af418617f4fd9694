//! `StepCounter`: the steps that the operations of a run take, counted along a walk that passes
//! over most of its items.
ghost use Rattle.std.specs.Prelude.{◌≡◌, ◌≤◌, ◌<◌, ◌-◌, ◌&&◌, Bool, List, false, IfOk, get_or, length, suc};
ghost use Rattle.snap_words.specs.Shape.{IsOneOf};
ghost use Rattle.snap_semantics.specs.Table.{who};
ghost use Rattle.snap_runs.specs.Run.{Run};
ghost use Rattle.snap_walk.specs.Walk.{IsUntold, Passes, Tells, TellsNone, Way, way};
ghost use Rattle.snap_walk.specs.Walking.{is_busy, is_step};
ghost use Rattle.snap_hunt.specs.Counting.{AreUntold, HasCounted};
ghost use Rattle.snap_hunt.specs.Failing.{many_steps};

use crate::failures::{Failure, OwnSteps};
use crate::steps::{first, none_taken, note};
use snap_sched::{ItemIter, Schedule};
use snap_semantics::{Item, Outcome, Status, who};
use snap_walk::{Passed, Walk};
use snap_words::Kind;
use std::alloc::{AllocError, Global};

/// The steps of the operations of a run, over its first items.
#[derive(Drop)]
pub(crate) struct StepCounter<'a> {
    /// The items that come next.
    ahead: ItemIter<'a>,
    /// How many items are done.
    done: u64,
    /// How many steps an operation may take.
    most: u64,
    owns: Vec<OwnSteps>,
    /// Whether each process is busy.
    busy: Vec<bool>,
    /// The first operation that has taken more steps than it may.
    overrun: Option<Failure>,
}

/// Returns whether this status is `Busy`.
fn is_busy(status: Status) -> bool
    ensures { result ≡ is_busy status }
{
    matches!(status, Status::Busy(_))
}

/// Returns whether an item is a step of a process that is busy.
fn runs_line(item: Item, busy: &[bool]) -> bool
    requires { IsOneOf (length busy.now) (who item) }
    ensures { (d : Bool) → result ≡ (is_step item && get_or busy.now (who item - 1) d) }
{
    match item {
        Item::Step(process) => busy[(process - 1) as usize],
        Item::Call(_, _) | Item::Crash(_) => false,
    }
}

impl<'a> StepCounter<'a> {
    /// Returns a counter before the first item of a run over `schedule`.
    ///
    /// # Errors
    ///
    /// `AllocError` where memory runs out.
    pub(crate) fn new(
        alloc: Global,
        schedule: &'a Schedule,
        most: u64,
    ) -> Result<StepCounter<'a>, AllocError>
        ensures { IfOk result (λ c. (r : Run) → r.items ≡ schedule.now.items →
            r.shape ≡ schedule.now.shape → HasCounted r most 0 c) }
    {
        let items = schedule.items();
        let n = schedule.shape().n();
        Ok(StepCounter {
            ahead: items.iter(),
            done: 0,
            most,
            owns: none_taken(alloc, n)?,
            busy: vec![in alloc; false; n as usize]?,
            overrun: None,
        })
    }

    /// Counts the next item, over which a walk passes.
    fn pass_next(&mut self)
        requires { (r : Run) × (quiet : List Bool) ×
            HasCounted r self.old.most self.old.done self.old
            × IsUntold quiet false (way r self.old.done) }
        ensures counted { (r : Run) (quiet : List Bool) →
            HasCounted r self.old.most self.old.done self.old →
            IsUntold quiet false (way r self.old.done) →
            HasCounted r self.old.most (suc self.old.done) self.new }
        ensures most { self.new.most ≡ self.old.most }
    {
        let Some(item) = self.ahead.next() else {
            unreachable!()
        };
        self.done += 1;
        if runs_line(item, self.busy.as_slice()) {
            let found = note(
                &mut self.owns,
                self.most,
                self.done,
                item,
                &Outcome::Stepped,
            );
            self.overrun = first(self.overrun, found);
        }
    }

    /// Counts the items up to item number `until`, over all of which a walk passes.
    fn pass(&mut self, until: u64)
        requires { (r : Run) × (quiet : List Bool) ×
            HasCounted r self.old.most self.old.done self.old
            × AreUntold quiet r self.old.done until × (self.old.done ≤ until) }
        ensures counted { (r : Run) (quiet : List Bool) →
            HasCounted r self.old.most self.old.done self.old →
            AreUntold quiet r self.old.done until → self.old.done ≤ until →
            HasCounted r self.old.most until self.new }
        ensures most { self.new.most ≡ self.old.most }
    {
        while self.done < until {
            self.pass_next();
        }
    }

    /// Counts the next item, which a walk has told last.
    fn note_told<K: Kind>(&mut self, walk: &Walk<'_, K>, passed: &Passed)
        requires { (v : Way) × HasCounted v.run self.old.most v.at self.old
            × Passes v passed.now walk.now }
        ensures counted { HasCounted walk.now.run self.old.most walk.now.at self.new }
        ensures most { self.new.most ≡ self.old.most }
    {
        let _told = self.ahead.next();
        self.done += 1;
        let found = note(
            &mut self.owns,
            self.most,
            passed.number,
            passed.item,
            &passed.outcome,
        );
        self.overrun = first(self.overrun, found);
        let process = who(passed.item);
        self.busy[(process - 1) as usize] = is_busy(walk.machine().status(process));
    }

    /// Counts the items up to the one that a walk has told last.
    pub(crate) fn note<K: Kind>(&mut self, walk: &Walk<'_, K>, passed: &Passed)
        requires { (w : Way) × (quiet : List Bool) × HasCounted w.run self.old.most w.at self.old
            × Tells quiet false w passed.now walk.now }
        ensures counted { HasCounted walk.now.run self.old.most walk.now.at self.new }
        ensures most { self.new.most ≡ self.old.most }
    {
        self.pass(passed.number - 1);
        self.note_told(walk, passed);
    }

    /// Counts the items that are left, over all of which a walk has passed, and returns the first
    /// operation of its run that has taken more steps than it may.
    pub(crate) fn finish<K: Kind>(mut self, walk: &Walk<'_, K>) -> Option<Failure>
        requires { (w : Way) × (quiet : List Bool) × HasCounted w.run self.most w.at self
            × TellsNone quiet false w walk.now }
        ensures { result ≡ many_steps self.entry.most walk.now.run }
    {
        self.pass(walk.done());
        self.overrun
    }
}
