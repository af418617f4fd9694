//! `Borrowed`: which view a scan took, where in the trace it was written, and which scan saw it.
ghost use Rattle.std.specs.Prelude.{◌≡◌, ◌≤◌, ◌<◌, IfSome, length};
ghost use Rattle.snap_acts.specs.Loans.{handed_on, lender_at, scan_around, set_before};
ghost use Rattle.snap_acts.specs.Loans.{set_for, source_at, source_by};
ghost use Rattle.snap_acts.specs.Loans.{taken_in, view_taken, word_read, write_read};
ghost use Rattle.snap_acts.specs.Searches.{takes_view};

use crate::searches::{StepPattern, first_within, last_before};
use crate::{Act, TraceStep};
use snap_semantics::Name;

/// A scan: its process, and the places of the trace at which it began and ended, counted from 0.
#[derive(Clone, Copy)]
pub struct ScanPlaces {
    pub process: u32,
    pub from: usize,
    pub to: usize,
}

/// A view that a scan took: the place at which it did, and, if they are in the trace, the place at
/// which it was written and the scan that saw it.
#[derive(Clone, Copy)]
pub struct Borrowed {
    pub taken: usize,
    pub written: Option<usize>,
    pub lender: Option<ScanPlaces>,
}

/// Returns the view local whose view an item answers, returns or writes.
fn handed_on(act: &Act) -> Option<Name>
    ensures { result ≡ handed_on act.now }
{
    match act {
        Act::Answer(_, view) => *view,
        Act::Leave(view) => Some(*view),
        Act::Write(_, _, view) => *view,
        Act::Publish(_, view) => Some(*view),
        _ => None,
    }
}

/// Returns whether a view is taken that had been written.
fn takes_view(act: &Act) -> bool
    ensures { result ≡ takes_view act.now }
{
    match act {
        Act::Borrow(_, _) => true,
        Act::Look(_, _) => true,
        _ => false,
    }
}

/// Returns the last place before one at which a process set a view local.
fn set_before(steps: &[TraceStep], process: u32, view: Name, k: usize) -> Option<usize>
    requires { k ≤ length steps.now }
    ensures place { result ≡ set_before steps.now process view k }
    ensures within { IfSome result (λ d. d < k) }
{
    last_before(steps, k, StepPattern::Sets(process, view))
}

/// Returns the place at which the view was set that the item at a place hands on.
pub fn set_for(steps: &[TraceStep], k: usize) -> Option<usize>
    requires { k ≤ length steps.now }
    ensures place { result ≡ set_for steps.now k }
    ensures within { IfSome result (λ d. d < k) }
{
    let step = steps.get(k)?;
    set_before(steps, step.process, handed_on(&step.act)?, k)
}

/// Returns the word that an item reads.
fn word_read(act: &Act) -> Option<u64>
    ensures { result ≡ word_read act.now }
{
    match act {
        Act::Read(word, _) => Some(*word),
        _ => None,
    }
}

/// Returns the place at which the word was written that the item at a place reads.
fn write_read(steps: &[TraceStep], place: Option<usize>) -> Option<usize>
    requires { IfSome place (λ k. k < length steps.now) }
    ensures place { result ≡ write_read steps.now place }
    ensures within { IfSome result (λ k. k < length steps.now) }
{
    let k = place?;
    last_before(steps, k, StepPattern::WriteOf(word_read(&steps[k].act)?))
}

/// Returns the place at which the view was written that the item at a place sets.
fn source_by(steps: &[TraceStep], k: usize, process: u32, act: &Act) -> Option<usize>
    requires { k < length steps.now }
    ensures place { result ≡ source_by steps.now k process act.now }
    ensures within { IfSome result (λ w. w < length steps.now) }
{
    match act {
        Act::Look(j, _) => last_before(steps, k, StepPattern::Published(*j)),
        Act::Borrow(spot, _) => {
            let read = last_before(steps, k, StepPattern::ReadInto(process, *spot));
            write_read(steps, read)
        }
        _ => None,
    }
}

/// Returns the place at which the view was written that the item at a place sets.
pub fn source_at(steps: &[TraceStep], place: Option<usize>) -> Option<usize>
    requires { IfSome place (λ k. k < length steps.now) }
    ensures place { result ≡ source_at steps.now place }
    ensures within { IfSome result (λ w. w < length steps.now) }
{
    let k = place?;
    source_by(steps, k, steps[k].process, &steps[k].act)
}

/// Returns the scan of an update of a process within which a place lies, and which ended before
/// another place.
fn scan_around(
    steps: &[TraceStep],
    process: u32,
    before: usize,
    place: Option<usize>,
) -> Option<ScanPlaces>
    requires few { before ≤ length steps.now }
    requires within { IfSome place (λ d. d < before) }
    ensures scan { result ≡ scan_around steps.now process before place }
    ensures within { IfSome result (λ s. s.to < length steps.now) }
{
    let place = place?;
    let from = last_before(steps, place, StepPattern::Enter(process))?;
    let to = first_within(steps, from, before - from, StepPattern::Leave(process))?;
    if place < to {
        Some(ScanPlaces { process, from, to })
    } else {
        None
    }
}

/// Returns the scan that saw the view that was written at a place.
pub fn lender_at(steps: &[TraceStep], place: Option<usize>) -> Option<ScanPlaces>
    requires { IfSome place (λ k. k < length steps.now) }
    ensures scan { result ≡ lender_at steps.now place }
    ensures within { IfSome result (λ s. s.to < length steps.now) }
{
    let k = place?;
    scan_around(steps, steps[k].process, k, set_for(steps, k))
}

/// Returns the place at which a scan took the view that it ends with.
fn taken_in(steps: &[TraceStep], scan: ScanPlaces) -> Option<usize>
    requires { scan.to ≤ length steps.now }
    ensures place { result ≡ taken_in steps.now scan }
    ensures within { IfSome result (λ k. k < length steps.now) }
{
    let place = set_for(steps, scan.to)?;
    if scan.from <= place && takes_view(&steps[place].act) {
        Some(place)
    } else {
        None
    }
}

/// Returns the view that a scan took and ends with.
#[tactic(auto, unfolding(crate::specs::Loans::view_taken))]
pub fn view_taken(steps: &[TraceStep], scan: ScanPlaces) -> Option<Borrowed>
    requires { scan.to ≤ length steps.now }
    ensures view { result ≡ view_taken steps.now scan }
    ensures within { IfSome result (λ b. IfSome b.lender (λ s. s.to ≤ length steps.now)) }
{
    let taken = taken_in(steps, scan)?;
    let written = source_at(steps, Some(taken));
    let lender = lender_at(steps, written);
    Some(Borrowed {
        taken,
        written,
        lender,
    })
}
