//! `LastWrites`: at which place of a trace each word was written last, so that a read need not
//! search for the write that it reads.
ghost use Rattle.std.specs.Prelude.{◌≡◌, ◌≤◌, ◌<◌, ◌+◌, List, IfSome, MatchOption, length};
ghost use Rattle.snap_acts.specs.Loans.{step_at};
ghost use Rattle.snap_acts.specs.Searches.{last_before};
ghost use Rattle.snap_acts.specs.declared.act.TraceStep.{TraceStep};
ghost use Rattle.snap_acts.specs.declared.searches.StepPattern.TheVariants as wanted;
ghost use Rattle.snap_picture.specs.LastPlaces.{AreLast, word_written};

use snap_acts::{Act, StepPattern, TraceStep, last_before};

/// How many words a shape has at most.
const WORDS: usize = 64;

/// The place of the last write of each word among the first steps of a trace, from word 1 on.
#[derive(Clone, Copy)]
pub(crate) struct LastWrites {
    places: [Option<usize>; WORDS],
}

/// Returns the word that an item wrote, if it wrote one.
fn word_written(act: &Act) -> Option<u64>
    ensures { result ≡ word_written act.now }
{
    match act {
        Act::Write(word, _, _) => Some(*word),
        _ => None,
    }
}

/// Returns where the last write of a word is kept, if it is.
fn kept_at(word: u64) -> Option<usize>
    ensures { MatchOption result (0 < word → 64 < word) (λ j. (j < 64) × (word ≡ j + 1)) }
{
    if word > 0 && word <= WORDS as u64 {
        Some(word as usize - 1)
    } else {
        None
    }
}

impl LastWrites {
    /// Returns that nothing is written before the first step.
    pub(crate) fn new() -> LastWrites
        ensures { (ss : List TraceStep) → AreLast ss 0 result.places }
    {
        LastWrites {
            places: [None; WORDS],
        }
    }

    /// Notes the step at a place, the first that is not noted yet.
    #[tactic(auto, using(crate::proofs::LastPlaces::other_written, crate::proofs::LastPlaces::far_written, crate::proofs::LastPlaces::one_written))]
    pub(crate) fn note(&mut self, k: usize, step: &TraceStep)
        ensures { (ss : List TraceStep) → step.now ≡ step_at ss k → AreLast ss k self.old.places →
            AreLast ss (k + 1) self.new.places }
    {
        let Some(word) = word_written(&step.act) else {
            return;
        };
        let Some(place) = kept_at(word) else {
            return;
        };
        self.places[place] = Some(k);
    }

    /// Returns the last of the first `count` places at which a word is written.
    #[tactic(auto, using(crate::proofs::LastPlaces::is_kept, crate::proofs::LastPlaces::found_before))]
    pub(crate) fn of(&self, steps: &[TraceStep], count: usize, word: u64) -> Option<usize>
        requires few { count ≤ length steps.now }
        requires noted { AreLast steps.now count self.now.places }
        ensures place { result ≡ last_before (wanted.WriteOf word) steps.now count }
        ensures within { IfSome result (λ k. k < count) }
    {
        match kept_at(word) {
            Some(place) => self.places[place],
            None => last_before(steps, count, StepPattern::WriteOf(word)),
        }
    }
}
