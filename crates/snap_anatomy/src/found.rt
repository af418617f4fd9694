//! The step and the note at a place of a run, and their parts.
ghost use Rattle.std.specs.Prelude.{◌≡◌, MatchOption};
ghost use Rattle.snap_acts.specs.Loans.{step_at};
ghost use Rattle.snap_acts.specs.Searches.{no_step};
ghost use Rattle.snap_anatomy.specs.Notes.{note_at};
ghost use Rattle.snap_anatomy.specs.declared.note.Note.TheVariants as note;

use crate::note::Note;
use snap_acts::TraceStep;

/// Returns the step at a place, if there is one.
#[tactic(auto, using(crate::proofs::Beyond::no_step_there))]
pub(crate) fn step_in(steps: &[TraceStep], k: usize) -> Option<&TraceStep>
    ensures { MatchOption result (step_at steps.now k ≡ no_step)
        (λ s. s.now ≡ step_at steps.now k) }
{
    if k < steps.len() {
        Some(&steps[k])
    } else {
        None
    }
}

/// Returns the note of the step at a place, if there is one.
#[tactic(auto, using(crate::proofs::Beyond::nothing_there))]
pub(crate) fn note_in(notes: &[Note], k: usize) -> Option<&Note>
    ensures { MatchOption result (note_at notes.now k ≡ note.Nothing)
        (λ n. n.now ≡ note_at notes.now k) }
{
    if k < notes.len() {
        Some(&notes[k])
    } else {
        None
    }
}

/// Returns the item of the step at a place.
pub(crate) fn item_at(steps: &[TraceStep], k: usize) -> u64
    ensures { result ≡ (step_at steps.now k).item }
{
    match step_in(steps, k) {
        Some(step) => step.item,
        None => 0,
    }
}

/// Returns the process of the step at a place.
pub(crate) fn process_at(steps: &[TraceStep], k: usize) -> u32
    ensures { result ≡ (step_at steps.now k).process }
{
    match step_in(steps, k) {
        Some(step) => step.process,
        None => 0,
    }
}
