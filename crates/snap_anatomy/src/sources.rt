//! Where the view with which a scan ended was read: by that scan, or by the one that lent it.
ghost use Rattle.std.specs.Prelude.{◌≡◌, ◌≤◌, ◌<◌, IfOk, IfSome, Some, length};
ghost use Rattle.snap_acts.specs.Loans.{step_at, view_taken};
ghost use Rattle.snap_anatomy.specs.Sources.{clean_gap, is_own, last_clean_gap, last_gap};
ghost use Rattle.snap_anatomy.specs.Sources.{lender_of, source_of};

use crate::collects::{Sought, gap_of, is_passed_at, places_between, start_of};
use crate::memory::Span;
use snap_acts::{Borrowed, ScanPlaces, TraceStep, view_taken};
use std::alloc::{AllocError, Global};

/// Returns whether no view was taken.
fn is_own(view: Option<Borrowed>) -> bool
    ensures { result ≡ is_own view }
{
    match view {
        Some(_) => false,
        None => true,
    }
}

/// Returns the scan that lent a view.
fn lender_of(view: Option<Borrowed>) -> Option<ScanPlaces>
    ensures { result ≡ lender_of view }
{
    view?.lender
}

/// Returns the scan that read the view with which a scan ended.
pub(crate) fn source_of(steps: &[TraceStep], first: ScanPlaces) -> Option<ScanPlaces>
    requires { first.to ≤ length steps.now }
    ensures scan { result ≡ source_of steps.now (Some first) (length steps.now) }
    ensures within { IfSome result (λ s. s.to ≤ length steps.now) }
{
    let mut next = Some(first);
    let mut left = steps.len();
    while left > 0 {
        let Some(scan) = next else {
            return None;
        };
        let view = view_taken(steps, scan);
        if is_own(view) {
            return Some(scan);
        }
        next = lender_of(view);
        left -= 1;
    }
    None
}

/// Returns the gap of the double collect that a test of a process ends, if that test passed.
fn clean_gap(
    alloc: Global,
    steps: &[TraceStep],
    scan: ScanPlaces,
    tests: &[usize],
    j: usize,
) -> Result<Option<Span>, AllocError>
    requires { j < length tests.now }
    ensures { IfOk result (λ o. o
        ≡ clean_gap steps.now scan.process scan.from tests.now j) }
{
    if !is_passed_at(steps, tests[j]) {
        return Ok(None);
    }
    let start = start_of(scan.from, tests, j);
    let reads = places_between(alloc, Sought::Read, steps, scan.process, start, tests[j])?;
    Ok(gap_of(steps, reads.as_slice()))
}

/// Returns the gap of the double collect that the last of these tests ends, if that test passed.
fn last_clean_gap(
    alloc: Global,
    steps: &[TraceStep],
    scan: ScanPlaces,
    tests: &[usize],
) -> Result<Option<Span>, AllocError>
    ensures { IfOk result (λ o. o
        ≡ last_clean_gap steps.now scan.process scan.from tests.now) }
{
    if tests.len() == 0 {
        return Ok(None);
    }
    clean_gap(alloc, steps, scan, tests, tests.len() - 1)
}

/// Returns the gap of the last double collect of a scan, if its test passed.
#[tactic(auto, unfolding(crate::specs::Sources::last_gap))]
pub(crate) fn last_gap(
    alloc: Global,
    steps: &[TraceStep],
    scan: ScanPlaces,
) -> Result<Option<Span>, AllocError>
    ensures { IfOk result (λ o. o ≡ last_gap steps.now scan) }
{
    let tests = places_between(alloc, Sought::Test, steps, scan.process, scan.from, scan.to)?;
    last_clean_gap(alloc, steps, scan, tests.as_slice())
}
