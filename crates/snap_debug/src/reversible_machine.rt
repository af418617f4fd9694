//! `ReversibleMachine`: a machine at a position of a run, with what the items since an earlier
//! position overwrote, so that the debugger can go back there.
ghost use Rattle.std.specs.Prelude.{◌≡◌, ◌<◌, ◌≤◌, ◌+◌, [], IfOk, IsTrue, OnErr, OnOk, length};
ghost use Rattle.snap_words.specs.Shape.{IsOneOf};
ghost use Rattle.snap_runs.specs.Run.{Run, outcome};
ghost use Rattle.snap_debug.specs.Recording.{IsReversible, IsCheckpoint, start};

use crate::checkpoint::Checkpoint;
use crate::recording::Recording;
use snap_machine::Undo;
use snap_semantics::Outcome;
use snap_words::Kind;
use std::alloc::{AllocError, Global};

/// How many items a machine that comes from a checkpoint can go back, if as many lie between.
const NEAR: u64 = 256;

/// An item that was done: its outcome, and what it overwrote.
#[derive(Drop)]
pub struct DoneItem<K: Kind> {
    pub outcome: Outcome,
    pub undo: Undo<K>,
}

/// A machine at a position, and the items by which it came there from an earlier one, the earliest
/// first.
pub struct ReversibleMachine<K: Kind> {
    pub current: Checkpoint<K>,
    pub done: Vec<DoneItem<K>>,
}

impl<K: Kind> Drop for ReversibleMachine<K> {
    // A drop that is written out is one call: it is proved once, and not again at each drop.
    fn drop(self) {
        let ReversibleMachine {
            current: _,
            done: _,
        } = self;
    }
}

/// Returns a copy of the outcome.
fn copy_outcome(alloc: Global, outcome: &Outcome) -> Result<Outcome, AllocError>
    ensures { IfOk result (λ o. o ≡ outcome.now) }
{
    Ok(match outcome {
        Outcome::Called => Outcome::Called,
        Outcome::Stepped => Outcome::Stepped,
        Outcome::Answered(view) => Outcome::Answered(view.copy(alloc)?),
        Outcome::Finished => Outcome::Finished,
        Outcome::Trapped(cause) => Outcome::Trapped(*cause),
        Outcome::Crashed => Outcome::Crashed,
        Outcome::Skipped(reason) => Outcome::Skipped(*reason),
    })
}

impl<K: Kind> ReversibleMachine<K> {
    /// Returns a machine at a checkpoint, with no way back.
    fn new(alloc: Global, current: Checkpoint<K>) -> ReversibleMachine<K>
        ensures current { result.current ≡ current }
        ensures done { result.done.items ≡ [] }
    {
        ReversibleMachine {
            current,
            done: Vec::new(alloc),
        }
    }

    /// Returns the earliest position to which the machine can go back.
    fn start(&self) -> u64
        requires { length self.now.done.items ≤ self.now.current.position }
        ensures { result ≡ start self.now }
    {
        self.current.position - self.done.len() as u64
    }

    /// Takes the last item back.
    fn step_back(&mut self)
        requires leads { (r : Run) × IsReversible r self.old }
        requires some { 0 < length self.old.done.items }
        ensures leads { (r : Run) → IsReversible r self.old → IsReversible r self.new }
        ensures position { self.new.current.position + 1 ≡ self.old.current.position }
        ensures start { start self.new ≡ start self.old }
    {
        match self.done.pop() {
            Some(last) => {
                self.current.machine.revert(last.undo);
                self.current.position -= 1;
            }
            None => unreachable!(),
        }
    }

    /// Goes back to `position`. No memory is allocated.
    fn go_back(&mut self, position: u64)
        requires leads { (r : Run) × IsReversible r self.old }
        requires within { start self.old ≤ position }
        requires before { position ≤ self.old.current.position }
        ensures leads { (r : Run) → IsReversible r self.old → IsReversible r self.new }
        ensures position { self.new.current.position ≡ position }
        ensures start { start self.new ≡ start self.old }
    {
        while position < self.current.position {
            self.step_back();
        }
    }

    /// Does the next item.
    fn step_on(&mut self, recording: &Recording<K>) -> Result<(), AllocError>
        requires leads { IsReversible recording.now.run self.old }
        requires reached { self.old.current.position < recording.now.reached }
        ensures leads { IsReversible recording.now.run self.new }
        ensures done { OnOk result (self.new.current.position ≡ self.old.current.position + 1) }
        ensures unchanged { OnErr result (self.new.current.position ≡ self.old.current.position) }
        ensures start { start self.new ≡ start self.old }
    {
        self.done.reserve(1)?;
        let item = recording.item(self.current.position);
        let (outcome, undo) = self.current.machine.apply_undo(item)?;
        self.current.position += 1;
        self.done.push_reserved(DoneItem { outcome, undo });
        Ok(())
    }

    /// Goes on to `position`, or as far as there is memory.
    fn go_on(&mut self, recording: &Recording<K>, position: u64) -> Result<(), AllocError>
        requires leads { IsReversible recording.now.run self.old }
        requires before { self.old.current.position ≤ position }
        requires reached { position ≤ recording.now.reached }
        ensures leads { IsReversible recording.now.run self.new }
        ensures grows { self.old.current.position ≤ self.new.current.position }
        ensures done { OnOk result (self.new.current.position ≡ position) }
        ensures start { start self.new ≡ start self.old }
    {
        while self.current.position < position {
            self.step_on(recording)?;
        }
        Ok(())
    }

    /// Returns a machine that went from the last checkpoint before `position` to `position`. It can
    /// go back over the last items alone, since it costs more to keep what an item overwrote than
    /// to do the item.
    ///
    /// # Errors
    ///
    /// `AllocError` where memory runs out.
    pub fn to(
        alloc: Global,
        recording: &Recording<K>,
        position: u64,
    ) -> Result<ReversibleMachine<K>, AllocError>
        requires { position ≤ recording.now.reached }
        ensures leads { IfOk result (λ p. IsReversible recording.now.run p) }
        ensures position { IfOk result (λ p. p.current.position ≡ position) }
        ensures last { IfOk result (λ p. 0 < position → start p < position) }
    {
        let mut current = recording.checkpoint(position.saturating_sub(1)).copy()?;
        let begin = position.saturating_sub(NEAR).max(current.position);
        recording.run_to(&mut current, begin)?;
        let mut reversible = ReversibleMachine::new(alloc, current);
        reversible.go_on(recording, position)?;
        Ok(reversible)
    }

    /// Returns whether a position lies on the way, or ahead before the next checkpoint.
    pub fn is_near(&self, recording: &Recording<K>, position: u64) -> bool
        requires { IsReversible recording.now.run self.now }
        ensures { IsTrue result → start self.now < position }
    {
        let start = self.start();
        start < position && recording.checkpoint(position.saturating_sub(1)).position <= start
    }

    /// Goes back or on to `position`, which is near.
    ///
    /// # Errors
    ///
    /// `AllocError` where memory runs out; the machine stays where it was then.
    pub fn go_to(&mut self, recording: &Recording<K>, position: u64) -> Result<(), AllocError>
        requires leads { IsReversible recording.now.run self.old }
        requires near { start self.old < position }
        requires reached { position ≤ recording.now.reached }
        ensures leads { IsReversible recording.now.run self.new }
        ensures start { start self.new ≡ start self.old }
        ensures done { OnOk result (self.new.current.position ≡ position) }
        ensures unchanged { OnErr result (self.new.current.position ≡ self.old.current.position) }
    {
        let from = self.current.position;
        if position <= from {
            self.go_back(position);
            return Ok(());
        }
        match self.go_on(recording, position) {
            Ok(()) => Ok(()),
            Err(refused) => {
                self.go_back(from);
                Err(refused)
            }
        }
    }

    /// Returns the outcome of the last item.
    ///
    /// # Errors
    ///
    /// `AllocError` where memory runs out.
    pub fn last(&self, alloc: Global) -> Result<Outcome, AllocError>
        requires { 0 < length self.now.done.items }
        ensures { (r : Run) → IsReversible r self.now →
            IfOk result (λ o. o ≡ outcome r self.now.current.position) }
    {
        let done = self.done.as_slice();
        copy_outcome(alloc, &done[done.len() - 1].outcome)
    }
}
