//! `Scan`: the scans of a run, called or embedded in an operation.
ghost use Rattle.std.specs.Prelude.{◌≡◌, ◌++◌, ◌≤◌, ◌<◌, IfOk, IfSome, OnOk, length, option_map};
ghost use Rattle.snap_acts.specs.Loans.{step_at};
ghost use Rattle.snap_anatomy.specs.Notes.{note_at};
ghost use Rattle.snap_anatomy.specs.Scans.{around, begins_scan, call_before, end_or, ending};
ghost use Rattle.snap_anatomy.specs.Scans.{is_call, is_call_by, is_scan, scan_at, scan_from};
ghost use Rattle.snap_anatomy.specs.Scans.{scans_of};
ghost use Rattle.snap_anatomy.specs.Scans.{view_at, view_by, view_in};

use crate::found::{note_in, step_in};
use crate::note::Note;
use snap_acts::{Act, StepPattern, TraceStep, first_within};
use snap_semantics::Op;
use std::alloc::{AllocError, Global};

/// A scan: its process, the places of the trace at which it began and ended, if it has ended, and
/// the call of the operation within which it began, if it is embedded in one.
#[derive(Clone, Copy)]
pub struct Scan {
    pub process: u32,
    pub from: usize,
    pub to: Option<usize>,
    pub around: Option<usize>,
}

fn is_scan(op: Op) -> bool
    ensures { result ≡ is_scan op }
{
    match op {
        Op::Scan => true,
        Op::Update { .. } => false,
    }
}

/// Returns whether an item begins a scan.
fn begins_scan(act: &Act) -> bool
    ensures { result ≡ begins_scan act.now }
{
    match act {
        Act::Call(op) => is_scan(*op),
        Act::Enter => true,
        _ => false,
    }
}

/// Returns what ends the scan of a process that began so.
fn ending(act: &Act, process: u32) -> StepPattern
    ensures { result ≡ ending act.now process }
{
    match act {
        Act::Enter => StepPattern::Closing(process),
        _ => StepPattern::End(process),
    }
}

fn is_call(act: &Act) -> bool
    ensures { result ≡ is_call act.now }
{
    match act {
        Act::Call(_) => true,
        _ => false,
    }
}

/// Returns whether a process called an operation at a place.
fn is_call_at(steps: &[TraceStep], process: u32, k: usize) -> bool
    ensures { result ≡ is_call_by process (step_at steps.now k) }
{
    match step_in(steps, k) {
        Some(step) => is_call(&step.act) && step.process == process,
        None => false,
    }
}

/// Returns the last place before one at which a process called an operation.
pub(crate) fn call_before(steps: &[TraceStep], process: u32, count: usize) -> Option<usize>
    ensures { result ≡ call_before steps.now process count }
{
    let mut k = count;
    while k > 0 {
        if is_call_at(steps, process, k - 1) {
            return Some(k - 1);
        }
        k -= 1;
    }
    None
}

/// Returns the call of the operation within which a scan began so.
fn around(steps: &[TraceStep], process: u32, k: usize, act: &Act) -> Option<usize>
    ensures { result ≡ around steps.now process k act.now }
{
    match act {
        Act::Enter => call_before(steps, process, k),
        _ => None,
    }
}

/// Returns the scan that began at a place.
#[tactic(auto, unfolding(crate::specs::Scans::scan_from))]
fn scan_from(steps: &[TraceStep], k: usize) -> Scan
    requires { k < length steps.now }
    ensures { result ≡ scan_from steps.now k }
{
    let step = &steps[k];
    let wanted = ending(&step.act, step.process);
    Scan {
        process: step.process,
        from: k,
        to: first_within(steps, k + 1, steps.len() - (k + 1), wanted),
        around: around(steps, step.process, k, &step.act),
    }
}

/// Appends the scan that the step at a place began, if it did.
#[tactic(auto, unfolding(crate::specs::Scans::scan_at))]
fn push_scan(scans: &mut Vec<Scan>, steps: &[TraceStep], k: usize) -> Result<(), AllocError>
    requires { k < length steps.now }
    ensures { OnOk result (scans.new.items ≡ scans.old.items ++ scan_at steps.now k) }
{
    if begins_scan(&steps[k].act) {
        scans.push(scan_from(steps, k))?;
    }
    Ok(())
}

/// Returns the scans of a run, in the order in which they began.
pub(crate) fn scans_of(alloc: Global, steps: &[TraceStep]) -> Result<Vec<Scan>, AllocError>
    ensures { IfOk result (λ v. v.items ≡ scans_of steps.now) }
{
    let mut scans = Vec::new(alloc);
    for k in 0..steps.len() {
        push_scan(&mut scans, steps, k)?;
    }
    Ok(scans)
}

/// Returns the view of a note.
fn view_in(note: &Note) -> Option<&[u64]>
    ensures { option_map (λ v. v.now) result ≡ view_in note.now }
{
    match note {
        Note::View(view) => Some(view.as_slice()),
        _ => None,
    }
}

/// Returns the view with which a scan ended so at a place.
fn view_by<'a>(act: &'a Act, notes: &'a [Note], k: usize) -> Option<&'a [u64]>
    ensures { option_map (λ v. v.now) result ≡ view_by act.now (note_at notes.now k) }
{
    match act {
        Act::Answer(view, _) => Some(view.as_slice()),
        Act::Leave(_) => view_in(note_in(notes, k)?),
        _ => None,
    }
}

/// Returns the view with which a scan ended at this place.
pub(crate) fn view_at<'a>(
    steps: &'a [TraceStep],
    notes: &'a [Note],
    place: Option<usize>,
) -> Option<&'a [u64]>
    ensures { option_map (λ v. v.now) result ≡ view_at steps.now notes.now place }
{
    let k = place?;
    let step = step_in(steps, k)?;
    view_by(&step.act, notes, k)
}

/// Returns where a scan ends, within `count` places.
pub(crate) fn end_or(count: usize, place: Option<usize>) -> usize
    ensures end { result ≡ end_or count place }
    ensures within { result ≤ count }
{
    match place {
        Some(k) => k.min(count),
        None => count,
    }
}
