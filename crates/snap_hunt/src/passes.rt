//! The passes that shrink a failing schedule: they leave items out, bring those of a process
//! together, and make values plain. After each of them the run still fails.
ghost use Rattle.std.specs.Prelude.{◌<◌, IfOk};
ghost use Rattle.snap_hunt.specs.Shrinking.{Fails, IsSmall, Shrinks, drawn};

use crate::candidate::Candidate;
use crate::cuts::{Cut, left_by, without};
use crate::orders::{switches, with_next_sooner, with_turn_later};
use crate::parts::{operations, processes, segments, turns};
use crate::trials::Shrinker;
use crate::values::with_plain_values;
use snap_semantics::Item;
use std::alloc::AllocError;

impl Shrinker<'_> {
    /// Returns `items`, if they are fewer and their run fails, or else `kept`.
    #[tactic(auto, using(crate::proofs::Cutting::itself))]
    fn fewer(&self, kept: Candidate, items: Vec<Item>) -> Result<Candidate, AllocError>
        requires { Fails self.now.program.now self.now.wanted.now kept.shape kept.items.items }
        ensures { IfOk result (λ d.
            Shrinks self.now.program.now self.now.wanted.now (drawn kept) (drawn d)) }
    {
        let shape = kept.shape;
        if items.len() < kept.items.len() {
            self.better(kept, Candidate { shape, items })
        } else {
            Ok(kept)
        }
    }

    /// Leaves out each of `cuts` without which the run still fails, from the last to the first.
    #[tactic(auto, using(crate::proofs::Cutting::itself, crate::proofs::Cutting::onward))]
    fn drop_cuts(&self, candidate: Candidate, cuts: &[Cut]) -> Result<Candidate, AllocError>
        requires { Fails self.now.program.now self.now.wanted.now candidate.shape
            candidate.items.items }
        ensures { IfOk result (λ d.
            Shrinks self.now.program.now self.now.wanted.now (drawn candidate) (drawn d)) }
    {
        let mut kept = candidate;
        for k in 0..cuts.len() {
            let items = left_by(self.alloc, kept.items.as_slice(), cuts[cuts.len() - 1 - k])?;
            kept = self.fewer(kept, items)?;
        }
        Ok(kept)
    }

    /// Leaves out whole processes, and then whole operations.
    #[tactic(auto, using(crate::proofs::Cutting::itself, crate::proofs::Cutting::onward))]
    pub(crate) fn drop_operations(&self, candidate: Candidate) -> Result<Candidate, AllocError>
        requires { Fails self.now.program.now self.now.wanted.now candidate.shape
            candidate.items.items }
        ensures { IfOk result (λ d.
            Shrinks self.now.program.now self.now.wanted.now (drawn candidate) (drawn d)) }
    {
        let all = processes(self.alloc, candidate.shape)?;
        let fewer = self.drop_cuts(candidate, all.as_slice())?;
        let called = operations(self.alloc, fewer.items.as_slice())?;
        self.drop_cuts(fewer, called.as_slice())
    }

    /// Leaves out segments of `size` items, of all and of each process.
    #[tactic(auto, using(crate::proofs::Cutting::itself, crate::proofs::Cutting::onward))]
    fn drop_segments_of(&self, candidate: Candidate, size: usize) -> Result<Candidate, AllocError>
        requires fails { Fails self.now.program.now self.now.wanted.now candidate.shape
            candidate.items.items }
        requires some { 0 < size }
        ensures { IfOk result (λ d.
            Shrinks self.now.program.now self.now.wanted.now (drawn candidate) (drawn d)) }
    {
        let all = segments(self.alloc, candidate.items.as_slice(), size)?;
        let fewer = self.drop_cuts(candidate, all.as_slice())?;
        if size == 1 {
            return Ok(fewer);
        }
        let own = turns(self.alloc, fewer.shape, fewer.items.as_slice(), size)?;
        self.drop_cuts(fewer, own.as_slice())
    }

    /// Leaves out segments of at least `least` items, long ones first.
    #[tactic(auto, using(crate::proofs::Cutting::itself, crate::proofs::Cutting::onward))]
    pub(crate) fn drop_segments(
        &self,
        candidate: Candidate,
        least: usize,
    ) -> Result<Candidate, AllocError>
        requires fails { Fails self.now.program.now self.now.wanted.now candidate.shape
            candidate.items.items }
        requires some { 0 < least }
        ensures { IfOk result (λ d.
            Shrinks self.now.program.now self.now.wanted.now (drawn candidate) (drawn d)) }
    {
        let mut size = candidate.items.len() / 2;
        let mut kept = candidate;
        while size >= least {
            kept = self.drop_segments_of(kept, size)?;
            size /= 2;
        }
        Ok(kept)
    }

    /// Leaves out items one by one, until none can be left out.
    #[tactic(auto, using(crate::proofs::Cutting::itself, crate::proofs::Cutting::left_fails, crate::proofs::Cutting::left_shorter))]
    pub(crate) fn drop_items(&self, candidate: Candidate) -> Result<Candidate, AllocError>
        requires { Fails self.now.program.now self.now.wanted.now candidate.shape
            candidate.items.items }
        ensures shrinks { IfOk result (λ d.
            Shrinks self.now.program.now self.now.wanted.now (drawn candidate) (drawn d)) }
        ensures small { IfOk result (λ d.
            IsSmall self.now.program.now self.now.wanted.now d.shape d.items.items) }
    {
        let shape = candidate.shape;
        let mut items = candidate.items;
        while let Some(k) = self.removable(shape, items.as_slice())? {
            items = without(self.alloc, items.as_slice(), k, 1)?;
        }
        Ok(Candidate { shape, items })
    }

    /// Returns `items`, if there are some that change less often from process to process and whose
    /// run fails, or else `kept`.
    #[tactic(auto, using(crate::proofs::Cutting::itself))]
    fn calmer(&self, kept: Candidate, items: Option<Vec<Item>>) -> Result<Candidate, AllocError>
        requires { Fails self.now.program.now self.now.wanted.now kept.shape kept.items.items }
        ensures { IfOk result (λ d.
            Shrinks self.now.program.now self.now.wanted.now (drawn kept) (drawn d)) }
    {
        let shape = kept.shape;
        match items {
            Some(items) if switches(items.as_slice()) < switches(kept.items.as_slice()) => {
                self.better(kept, Candidate { shape, items })
            }
            _ => Ok(kept),
        }
    }

    /// Brings items of one process together with its next ones, from the first place to the last.
    #[tactic(auto, using(crate::proofs::Cutting::itself, crate::proofs::Cutting::onward))]
    fn join_once(&self, candidate: Candidate) -> Result<Candidate, AllocError>
        requires { Fails self.now.program.now self.now.wanted.now candidate.shape
            candidate.items.items }
        ensures { IfOk result (λ d.
            Shrinks self.now.program.now self.now.wanted.now (drawn candidate) (drawn d)) }
    {
        let count = candidate.items.len();
        let mut kept = candidate;
        for at in 0..count {
            let sooner = with_next_sooner(self.alloc, kept.items.as_slice(), at)?;
            kept = self.calmer(kept, sooner)?;
            let later = with_turn_later(self.alloc, kept.items.as_slice(), at)?;
            kept = self.calmer(kept, later)?;
        }
        Ok(kept)
    }

    /// Brings items of one process together, until that leads no further.
    #[tactic(auto, using(crate::proofs::Cutting::itself, crate::proofs::Cutting::onward))]
    pub(crate) fn join_turns(&self, candidate: Candidate) -> Result<Candidate, AllocError>
        requires { Fails self.now.program.now self.now.wanted.now candidate.shape
            candidate.items.items }
        ensures { IfOk result (λ d.
            Shrinks self.now.program.now self.now.wanted.now (drawn candidate) (drawn d)) }
    {
        let mut before = usize::MAX;
        let mut kept = candidate;
        let mut now = switches(kept.items.as_slice());
        while now < before {
            kept = self.join_once(kept)?;
            before = now;
            now = switches(kept.items.as_slice());
        }
        Ok(kept)
    }

    /// Makes the values of updates plain, if the run still fails.
    pub(crate) fn make_plain(&self, candidate: Candidate) -> Result<Candidate, AllocError>
        requires { Fails self.now.program.now self.now.wanted.now candidate.shape
            candidate.items.items }
        ensures { IfOk result (λ d.
            Shrinks self.now.program.now self.now.wanted.now (drawn candidate) (drawn d)) }
    {
        let shape = candidate.shape;
        let items = with_plain_values(self.alloc, candidate.items.as_slice())?;
        self.better(candidate, Candidate { shape, items })
    }
}
