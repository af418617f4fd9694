//! `Flow`: the lines of a listing to which control may come in each `Mode`, and those from which it
//! may come to an end.
ghost use Rattle.std.specs.Prelude.{◌≡◌, ◌++◌, [], ◌∷◌, IfOk};
ghost use Rattle.snap_lint.specs.declared.mode.Way.TheVariants.{Outside, Within};
ghost use Rattle.snap_lint.specs.Flow.{
  callee,
  callees,
  edges,
  is_end,
  is_return,
  leading_out,
  lines_in,
  may_run_off,
  out_in,
  reach_of,
  reached_unwritten,
  silent_calls,
};
ghost use Rattle.snap_lint.specs.Marks.{is_in, numbers_where, reached};

use crate::edges::{edges, jump, may_go_on, turned, unwritten_edges};
use crate::marks::{is_in, reached};
use crate::mode::{Mode, Way};
use snap_listing_core::Listing;
use snap_semantics::{Instr, Line};
use std::alloc::{AllocError, Global};
use std::marker::Model;

/// The lines to which control may come in each mode, and those from which it may come to an end.
pub struct Flow {
    scan: Vec<u64>,
    scan_call: Vec<u64>,
    update: Vec<u64>,
    update_call: Vec<u64>,
    out: Vec<u64>,
    call_out: Vec<u64>,
    unwritten: Vec<u64>,
}

impl Drop for Flow {
    // A drop that is written out is one call: it is proved once, and not again at each drop.
    fn drop(self) {
        let Flow {
            scan: _,
            scan_call: _,
            update: _,
            update_call: _,
            out: _,
            call_out: _,
            unwritten: _,
        } = self;
    }
}

impl Model for Flow {
    ghost use Rattle.snap_lint.specs.Flow.{Reach};
    ghost use Rattle.snap_lint.specs.Fields.{reach_seen};

    ghost Value = { Reach };

    ghost view = { reach_seen };
}

impl Flow {
    /// Returns the flow of control through `listing`.
    ///
    /// # Errors
    ///
    /// `AllocError` where memory runs out.
    pub fn of(alloc: Global, listing: &Listing) -> Result<Flow, AllocError>
        ensures { IfOk result (λ f. f ≡ reach_of listing.now) }
    {
        let scan = reached_from(alloc, listing, Way::Outside, listing.scan())?;
        let update = reached_from(alloc, listing, Way::Outside, listing.update())?;
        Ok(Flow {
            scan_call: reached_by_calls(alloc, listing, scan.as_slice())?,
            update_call: reached_by_calls(alloc, listing, update.as_slice())?,
            scan,
            update,
            out: leading_out(alloc, listing, Way::Outside)?,
            call_out: leading_out(alloc, listing, Way::Within)?,
            unwritten: reached_unwritten(alloc, listing)?,
        })
    }

    /// Returns whether control may come to `line` in `mode`.
    pub fn reaches(&self, mode: Mode, line: u64) -> bool
        ensures { result ≡ is_in (lines_in self.now mode) line }
    {
        match mode {
            Mode::Scan => is_in(self.scan.as_slice(), line),
            Mode::ScanCall => is_in(self.scan_call.as_slice(), line),
            Mode::Update => is_in(self.update.as_slice(), line),
            Mode::UpdateCall => is_in(self.update_call.as_slice(), line),
        }
    }

    /// Returns whether a way leads from `line` to an end, in `mode`.
    pub fn leads_out(&self, mode: Mode, line: u64) -> bool
        ensures { result ≡ is_in (out_in self.now mode) line }
    {
        match mode {
            Mode::Scan | Mode::Update => is_in(self.out.as_slice(), line),
            Mode::ScanCall | Mode::UpdateCall => is_in(self.call_out.as_slice(), line),
        }
    }

    /// Returns whether an update may come to `line` before it has written a word.
    pub fn is_unwritten(&self, line: u64) -> bool
        ensures { result ≡ is_in self.now.unwritten line }
    {
        is_in(self.unwritten.as_slice(), line)
    }
}

/// Returns the lines that are reached from a line on a way.
fn reached_from(
    alloc: Global,
    listing: &Listing,
    way: Way,
    start: u64,
) -> Result<Vec<u64>, AllocError>
    ensures { IfOk result (λ v. v.items ≡
        reached listing.now.lines (edges listing.now.lines way) (start ∷ [])) }
{
    let edges = edges(alloc, listing, way)?;
    reached(alloc, listing.lines(), edges.as_slice(), &[start])
}

/// Returns the lines to which the marked lines call.
fn callees(alloc: Global, lines: &[Line], marks: &[u64]) -> Result<Vec<u64>, AllocError>
    ensures { IfOk result (λ v. v.items ≡ callees lines.now marks.now) }
{
    let mut callees = Vec::new(alloc);
    for line in lines {
        if is_in(marks, line.number) {
            if let Instr::Call(target) = line.instr {
                callees.push(target)?;
            }
        }
    }
    Ok(callees)
}

/// Returns the lines that are reached within the calls of the marked lines.
fn reached_by_calls(alloc: Global, listing: &Listing, marks: &[u64]) -> Result<Vec<u64>, AllocError>
    ensures { IfOk result (λ v. v.items ≡ reached listing.now.lines
        (edges listing.now.lines Within) (callees listing.now.lines marks.now)) }
{
    let edges = edges(alloc, listing, Way::Within)?;
    let starts = callees(alloc, listing.lines(), marks)?;
    reached(alloc, listing.lines(), edges.as_slice(), starts.as_slice())
}

/// Returns the lines at which a call may return.
fn return_lines(alloc: Global, listing: &Listing) -> Result<Vec<u64>, AllocError>
    ensures { IfOk result (λ v. v.items ≡ numbers_where is_return listing.now.lines) }
{
    let mut returns = Vec::new(alloc);
    let lines = listing.lines();
    for line in lines {
        if matches!(line.instr, Instr::Return(_)) {
            returns.push(line.number)?;
        }
    }
    Ok(returns)
}

/// Returns the lines from which a call comes back without a write of a word.
fn silent_calls(alloc: Global, listing: &Listing) -> Result<Vec<u64>, AllocError>
    ensures { IfOk result (λ v. v.items ≡ silent_calls listing.now.lines) }
{
    let edges = edges(alloc, listing, Way::UnwrittenWithin)?;
    let turned = turned(alloc, edges.as_slice())?;
    let returns = return_lines(alloc, listing)?;
    reached(
        alloc,
        listing.lines(),
        turned.as_slice(),
        returns.as_slice(),
    )
}

/// Returns the lines to which an update may come before it has written a word.
fn reached_unwritten(alloc: Global, listing: &Listing) -> Result<Vec<u64>, AllocError>
    ensures { IfOk result (λ v. v.items
        ≡ reached_unwritten listing.now.lines listing.now.update) }
{
    let silent = silent_calls(alloc, listing)?;
    let edges = unwritten_edges(alloc, listing, silent.as_slice())?;
    reached(
        alloc,
        listing.lines(),
        edges.as_slice(),
        &[listing.update()],
    )
}

/// Returns whether a line may have no line behind it although one is to come next.
pub fn may_run_off(listing: &Listing, way: Way, line: &Line) -> bool
    ensures { result ≡ may_run_off listing.now.lines way line.now }
{
    may_go_on(way, &line.instr) && listing.following(line.number).is_none()
}

/// Returns whether an operation or a call may end at a line, or trap there.
fn is_end(listing: &Listing, way: Way, line: &Line) -> bool
    ensures { result ≡ is_end listing.now.lines way line.now }
{
    may_run_off(listing, way, line) || (!may_go_on(way, &line.instr) && jump(&line.instr).is_none())
}

/// Returns the lines at which an operation or a call may end.
fn ends(alloc: Global, listing: &Listing, way: Way) -> Result<Vec<u64>, AllocError>
    ensures { IfOk result (λ v. v.items ≡ numbers_where
        (is_end listing.now.lines way) listing.now.lines) }
{
    let mut ends = Vec::new(alloc);
    let lines = listing.lines();
    for line in lines {
        if is_end(listing, way, line) {
            ends.push(line.number)?;
        }
    }
    Ok(ends)
}

/// Returns the lines from which a way leads to an end.
fn leading_out(alloc: Global, listing: &Listing, way: Way) -> Result<Vec<u64>, AllocError>
    ensures { IfOk result (λ v. v.items ≡ leading_out listing.now.lines way) }
{
    let edges = edges(alloc, listing, way)?;
    let turned = turned(alloc, edges.as_slice())?;
    let ends = ends(alloc, listing, way)?;
    reached(alloc, listing.lines(), turned.as_slice(), ends.as_slice())
}
