//! `shrunk`: shrinks a schedule whose run fails, until no item of it can be left out.
ghost use Rattle.std.specs.Prelude.{IfOk};
ghost use Rattle.snap_hunt.specs.Shrinking.{Fails, IsShrunk, drawn};

use crate::candidate::{Candidate, candidate_of};
use crate::cuts::schedule_with;
use crate::failures::Wanted;
use crate::trials::Shrinker;
use snap_asm_program::Program;
use snap_sched::Schedule;
use std::alloc::{AllocError, Global};

/// Segments of at least this many items are left out first, so that a long schedule gets short
/// soon.
const LONG: usize = 256;

impl Shrinker<'_> {
    /// Shrinks a candidate in each way once, single items last.
    #[tactic(auto, using(crate::proofs::Cutting::onward, crate::proofs::Cutting::onward_small))]
    fn made_smaller(&self, candidate: Candidate) -> Result<Candidate, AllocError>
        requires { Fails self.now.program.now self.now.wanted.now candidate.shape
            candidate.items.items }
        ensures { IfOk result (λ d.
            IsShrunk self.now.program.now self.now.wanted.now (drawn candidate) (drawn d)) }
    {
        let short = self.drop_segments(candidate, LONG)?;
        let fewer = self.drop_operations(short)?;
        let shorter = self.drop_segments(fewer, 1)?;
        let least = self.drop_items(shorter)?;
        let joined = self.join_turns(least)?;
        let plain = self.make_plain(joined)?;
        self.drop_items(plain)
    }

    /// Shrinks a candidate in each way, until none leads to fewer items.
    #[tactic(auto, using(crate::proofs::Cutting::onward, crate::proofs::Cutting::onward_small))]
    fn made_small(&self, candidate: Candidate) -> Result<Candidate, AllocError>
        requires { Fails self.now.program.now self.now.wanted.now candidate.shape
            candidate.items.items }
        ensures { IfOk result (λ d.
            IsShrunk self.now.program.now self.now.wanted.now (drawn candidate) (drawn d)) }
    {
        let mut before = candidate.items.len();
        let mut kept = self.made_smaller(candidate)?;
        while kept.items.len() < before {
            before = kept.items.len();
            kept = self.made_smaller(kept)?;
        }
        Ok(kept)
    }
}

/// Returns a schedule whose run fails too, of no more processes, words and items than `schedule`.
/// Without any one of its items the run does not fail. `owns` says whether each process has a word
/// of its own, which is left out with the process.
///
/// # Errors
///
/// `AllocError` where memory runs out.
#[tactic(auto, using(crate::proofs::Cutting::onward, crate::proofs::Cutting::onward_small))]
pub fn shrunk(
    alloc: Global,
    program: &Program,
    wanted: &Wanted,
    schedule: &Schedule,
    owns: bool,
) -> Result<Schedule, AllocError>
    requires { Fails program.now wanted.now schedule.now.shape schedule.now.items }
    ensures { IfOk result (λ s. IsShrunk program.now wanted.now schedule.now s) }
{
    let shrinker = Shrinker {
        alloc,
        program,
        wanted,
    };
    let mut kept = shrinker.made_small(candidate_of(alloc, schedule)?)?;
    while let Some(candidate) = shrinker.narrower(&kept, owns)? {
        kept = shrinker.made_small(candidate)?;
    }
    schedule_with(alloc, kept.shape, kept.items.as_slice())
}
