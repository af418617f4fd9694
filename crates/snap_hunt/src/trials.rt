//! Whether the run still fails once a failing schedule is made smaller: `still_fails` of a
//! candidate, the `better` of two, and an item that is `removable`.
ghost use Rattle.std.specs.Prelude.{◌≡◌, ◌<◌, ℕ, length, true, false, IfOk, IsTrue, MatchOption};
ghost use Rattle.snap_semantics.specs.ScheduleText.{IsSchedule};
ghost use Rattle.snap_hunt.specs.Shrinking.{Fails, FailsWith, IsSmall, Shrinks, TellsWhether};
ghost use Rattle.snap_hunt.specs.Shrinking.{drawn, without};

use crate::candidate::{Candidate, is_schedule, is_within};
use crate::cuts::{schedule_with, without};
use crate::failures::Wanted;
use crate::over::failure_over;
use snap_asm_program::Program;
use snap_semantics::Item;
use snap_words::Shape;
use std::alloc::{AllocError, Global};

/// Makes schedules small whose runs of this program fail as is wanted.
#[derive(Clone, Copy)]
pub(crate) struct Shrinker<'a> {
    pub(crate) alloc: Global,
    pub(crate) program: &'a Program,
    pub(crate) wanted: &'a Wanted,
}

impl Shrinker<'_> {
    /// Returns whether anything fails in the run over `items`.
    #[tactic(auto, using(crate::proofs::Cutting::told))]
    fn fails_with(&self, shape: Shape, items: &[Item]) -> Result<bool, AllocError>
        requires { IsSchedule (record { shape = shape; items = items.now }) }
        ensures { IfOk result (TellsWhether self.now.program.now self.now.wanted.now shape
            items.now) }
    {
        let schedule = schedule_with(self.alloc, shape, items)?;
        Ok(failure_over(self.alloc, self.program, &schedule, self.wanted)?.is_some())
    }

    /// Returns whether a candidate is a schedule whose run fails.
    #[tactic(auto, using(crate::proofs::Cutting::fails_by))]
    pub(crate) fn still_fails(&self, candidate: &Candidate) -> Result<bool, AllocError>
        ensures { IfOk result (λ b. IsTrue b
            → Fails self.now.program.now self.now.wanted.now candidate.now.shape
            candidate.now.items.items) }
    {
        if !is_schedule(candidate.shape, candidate.items.as_slice()) {
            return Ok(false);
        }
        self.fails_with(candidate.shape, candidate.items.as_slice())
    }

    /// Returns `other` if it is no larger than `kept` and its run fails, or else `kept`.
    #[tactic(auto, using(crate::proofs::Cutting::itself))]
    pub(crate) fn better(&self, kept: Candidate, other: Candidate) -> Result<Candidate, AllocError>
        requires { Fails self.now.program.now self.now.wanted.now kept.shape kept.items.items }
        ensures { IfOk result (λ d.
            Shrinks self.now.program.now self.now.wanted.now (drawn kept) (drawn d)) }
    {
        if is_within(&other, &kept) && self.still_fails(&other)? {
            Ok(other)
        } else {
            Ok(kept)
        }
    }

    /// Returns the first item without which the run still fails.
    #[tactic(auto, using(crate::proofs::Cutting::left_schedule, crate::proofs::Cutting::told_so, crate::proofs::Cutting::told_not))]
    pub(crate) fn removable(
        &self,
        shape: Shape,
        items: &[Item],
    ) -> Result<Option<usize>, AllocError>
        requires { IsSchedule (record { shape = shape; items = items.now }) }
        ensures { IfOk result (λ found. MatchOption found
            (IsSmall self.now.program.now self.now.wanted.now shape items.now)
            (λ k. (k < length items.now)
            × FailsWith self.now.program.now self.now.wanted.now shape
            (without k 1 items.now))) }
    {
        for k in 0..items.len() {
            let shorter = without(self.alloc, items, k, 1)?;
            if self.fails_with(shape, shorter.as_slice())? {
                return Ok(Some(k));
            }
        }
        Ok(None)
    }
}
