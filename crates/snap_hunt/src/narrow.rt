//! `narrower`: a failing schedule's candidate with fewer processes or words, whose run still fails.
ghost use Rattle.std.specs.Prelude.{◌<◌, ◌+◌, IfOk, IfSome, IsTrue};
ghost use Rattle.snap_hunt.specs.Shrinking.{IsWithin, Narrows, drawn};

use crate::candidate::{Candidate, is_within};
use crate::follow::followed;
use crate::places::{Gone, all_gone, shape_left};
use crate::trials::Shrinker;
use std::alloc::AllocError;

/// Returns whether a candidate has fewer processes or words than another, and more of nothing.
fn is_narrower(candidate: &Candidate, other: &Candidate) -> bool
    ensures within { IsTrue result → IsWithin (drawn candidate.now) (drawn other.now) }
    ensures fewer { IsTrue result → candidate.now.shape.n + candidate.now.shape.w
        < other.now.shape.n + other.now.shape.w }
{
    is_within(candidate, other)
        && (candidate.shape.n() < other.shape.n() || candidate.shape.w() < other.shape.w())
}

impl Shrinker<'_> {
    /// Returns a candidate without a process or a word, if its run fails.
    fn without_place(&self, kept: &Candidate, gone: Gone) -> Result<Option<Candidate>, AllocError>
        ensures { IfOk result (λ found.
            IfSome found (Narrows self.now.program.now self.now.wanted.now (drawn kept.now))) }
    {
        let Some(shape) = shape_left(kept.shape, gone) else {
            return Ok(None);
        };
        let items = followed(self.alloc, self.program, kept, gone, shape)?;
        let candidate = Candidate { shape, items };
        if is_narrower(&candidate, kept) && self.still_fails(&candidate)? {
            Ok(Some(candidate))
        } else {
            Ok(None)
        }
    }

    /// Returns a candidate of fewer processes or words whose run fails, if one is found.
    pub(crate) fn narrower(
        &self,
        kept: &Candidate,
        owns: bool,
    ) -> Result<Option<Candidate>, AllocError>
        ensures { IfOk result (λ found.
            IfSome found (Narrows self.now.program.now self.now.wanted.now (drawn kept.now))) }
    {
        let all = all_gone(self.alloc, kept.shape, owns)?;
        for gone in all.as_slice() {
            let found = self.without_place(kept, *gone)?;
            if found.is_some() {
                return Ok(found);
            }
        }
        Ok(None)
    }
}
