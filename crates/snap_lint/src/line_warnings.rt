//! `warnings`: the lint, which reports line by line what a listing may run into.
ghost use Rattle.std.specs.Prelude.{◌≡◌, ◌++◌, ◌&&◌, not, IfOk, OnOk};
ghost use Rattle.std.specs.List.{flat_map, list_any};
ghost use Rattle.snap_lint.specs.Flow.{lines_in, out_in};
ghost use Rattle.snap_lint.specs.Marks.{is_in};
ghost use Rattle.snap_lint.specs.Warnings.{
  is_reached_in,
  is_warned_of,
  may_trap,
  modes,
  warning_of,
  warnings,
};

use crate::concern::{Concern, Warning};
use crate::flow::Flow;
use crate::mode::Mode;
use crate::traps::may_trap;
use snap_listing_core::Listing;
use snap_semantics::{Instr, Line};
use std::alloc::{AllocError, Global};

/// The modes of a process.
const MODES: [Mode; 4] = [Mode::Scan, Mode::ScanCall, Mode::Update, Mode::UpdateCall];

/// The concerns of a line, in the order of the warnings.
const CONCERNS: [Concern; 7] = [
    Concern::OffEnd,
    Concern::Nested,
    Concern::BadEnd,
    Concern::Owner,
    Concern::Unreached,
    Concern::Endless,
    Concern::NoWrite,
];

/// Returns whether control comes to a line in a mode, and no way leads on from it to an end.
fn is_endless_in(flow: &Flow, mode: Mode, line: u64) -> bool
    ensures { result ≡ (is_in (lines_in flow.now mode) line
        && not (is_in (out_in flow.now mode) line)) }
{
    flow.reaches(mode, line) && !flow.leads_out(mode, line)
}

/// Returns whether control comes to a line in a mode, and the line may trap for this concern.
fn may_trap_in(listing: &Listing, flow: &Flow, concern: Concern, mode: Mode, line: &Line) -> bool
    ensures { result ≡ (is_in (lines_in flow.now mode) line.now.number
        && may_trap listing.now concern mode line.now) }
{
    flow.reaches(mode, line.number) && may_trap(listing, concern, mode, line)
}

/// Returns whether control never comes to a line.
fn is_unreached(flow: &Flow, line: u64) -> bool
    ensures { result ≡ not (list_any (λ m. is_in (lines_in flow.now m) line) modes) }
{
    !MODES.iter().any(|mode| flow.reaches(*mode, line))
}

/// Returns whether control comes to a line in some mode, and no way leads on from it to an end.
fn is_endless(flow: &Flow, line: u64) -> bool
    ensures { result ≡ list_any
        (λ m. is_in (lines_in flow.now m) line && not (is_in (out_in flow.now m) line)) modes }
{
    MODES.iter().any(|mode| is_endless_in(flow, *mode, line))
}

/// Returns whether a line may trap for this concern in some mode.
fn may_trap_somehow(listing: &Listing, flow: &Flow, concern: Concern, line: &Line) -> bool
    ensures { result ≡ is_reached_in flow.now
        (λ m. may_trap listing.now concern m line.now) line.now }
{
    MODES
        .iter()
        .any(|mode| may_trap_in(listing, flow, concern, *mode, line))
}

/// Returns whether a line has a warning of this concern.
fn is_warned_of(listing: &Listing, flow: &Flow, line: &Line, concern: Concern) -> bool
    ensures { result ≡ is_warned_of listing.now flow.now line.now concern }
{
    match concern {
        Concern::Unreached => is_unreached(flow, line.number),
        Concern::Endless => is_endless(flow, line.number),
        Concern::NoWrite => matches!(line.instr, Instr::Finish) && flow.is_unwritten(line.number),
        _ => may_trap_somehow(listing, flow, concern, line),
    }
}

/// Appends the warning of a line, if it has one of this concern.
fn push_warning(
    warnings: &mut Vec<Warning>,
    listing: &Listing,
    flow: &Flow,
    line: &Line,
    concern: Concern,
) -> Result<(), AllocError>
    ensures { OnOk result (warnings.new.items ≡ warnings.old.items
        ++ warning_of listing.now flow.now line.now concern) }
{
    if is_warned_of(listing, flow, line, concern) {
        let line = line.number;
        warnings.push(Warning { line, concern })?;
    }
    Ok(())
}

/// Appends the warnings of a line, of those of `concerns`.
fn push_line_warnings(
    warnings: &mut Vec<Warning>,
    listing: &Listing,
    flow: &Flow,
    line: &Line,
    concerns: &[Concern],
) -> Result<(), AllocError>
    ensures { OnOk result (warnings.new.items ≡ warnings.old.items ++ flat_map
        (warning_of listing.now flow.now line.now) concerns.now) }
{
    for concern in concerns {
        push_warning(warnings, listing, flow, line, *concern)?;
    }
    Ok(())
}

/// Returns the warnings of a listing, in the order of its lines.
///
/// # Errors
///
/// `AllocError` where memory runs out.
#[tactic(auto, unfolding(crate::specs::Warnings::warnings))]
pub fn warnings(alloc: Global, listing: &Listing) -> Result<Vec<Warning>, AllocError>
    ensures { IfOk result (λ v. v.items ≡ warnings listing.now) }
{
    let flow = Flow::of(alloc, listing)?;
    let mut warnings = Vec::new(alloc);
    let lines = listing.lines();
    for line in lines {
        push_line_warnings(&mut warnings, listing, &flow, line, &CONCERNS)?;
    }
    Ok(warnings)
}
