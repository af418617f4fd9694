//! `Edge`: from which line of a listing control may go to which other one, by going on to the next
//! line or by a jump.
ghost use Rattle.std.specs.Prelude.{◌≡◌, ◌++◌, IfOk, OnOk};
ghost use Rattle.snap_lint.specs.Flow.{
  comes_back,
  edge_to,
  edges,
  jump,
  line_after,
  line_edges,
  may_go_on,
  turned,
  unwritten_edges,
};

use crate::marks::is_in;
use crate::mode::Way;
use snap_listing_core::Listing;
use snap_semantics::{Instr, Line};
use std::alloc::{AllocError, Global};

/// One line leads to another.
#[derive(Clone, Copy, PartialEq, Eq)]
pub struct Edge {
    pub from: u64,
    pub to: u64,
}

/// Returns whether the line behind an instruction may come next.
pub fn may_go_on(way: Way, instr: &Instr) -> bool
    ensures { result ≡ may_go_on way instr.now }
{
    match instr {
        Instr::Goto(_) => false,
        Instr::Call(_) => !way.is_within(),
        Instr::Put(_, _) => !way.is_unwritten(),
        Instr::Return(_) => false,
        Instr::Finish => false,
        _ => true,
    }
}

/// Returns the line to which an instruction may jump; `None` for a `call`.
pub fn jump(instr: &Instr) -> Option<u64>
    ensures { result ≡ jump instr.now }
{
    match instr {
        Instr::First(_, _, _, target) => Some(*target),
        Instr::Next(_, _, target) => Some(*target),
        Instr::If(_, target) => Some(*target),
        Instr::IfAll(_, _, target) => Some(*target),
        Instr::Goto(target) => Some(*target),
        _ => None,
    }
}

/// Returns the line behind `line`, if there is one and it may come next.
fn line_after(listing: &Listing, way: Way, line: &Line) -> Option<u64>
    ensures { result ≡ line_after listing.now.lines way line.now }
{
    if may_go_on(way, &line.instr) {
        listing.following(line.number)
    } else {
        None
    }
}

/// Appends the edge to a line, if there is one.
fn push_edge(edges: &mut Vec<Edge>, from: u64, to: Option<u64>) -> Result<(), AllocError>
    ensures { OnOk result (edges.new.items ≡ edges.old.items ++ edge_to from to) }
{
    if let Some(to) = to {
        edges.push(Edge { from, to })?;
    }
    Ok(())
}

/// Returns the edges from each line to those that may come next, on this way.
///
/// # Errors
///
/// `AllocError` where memory runs out.
pub fn edges(alloc: Global, listing: &Listing, way: Way) -> Result<Vec<Edge>, AllocError>
    ensures { IfOk result (λ v. v.items ≡ edges listing.now.lines way) }
{
    let mut edges = Vec::new(alloc);
    let lines = listing.lines();
    for line in lines {
        push_edge(&mut edges, line.number, line_after(listing, way, line))?;
        push_edge(&mut edges, line.number, jump(&line.instr))?;
    }
    Ok(edges)
}

/// Returns whether an instruction is a call to one of the lines `silent`, and so may come back
/// without a write.
fn comes_back(silent: &[u64], instr: &Instr) -> bool
    ensures { result ≡ comes_back silent.now instr.now }
{
    match instr {
        Instr::Call(target) => is_in(silent, *target),
        _ => true,
    }
}

/// Returns the edges of an update that has written no word, where calls to the lines `silent` may
/// come back without a write.
///
/// # Errors
///
/// `AllocError` where memory runs out.
pub fn unwritten_edges(
    alloc: Global,
    listing: &Listing,
    silent: &[u64],
) -> Result<Vec<Edge>, AllocError>
    ensures { IfOk result (λ v. v.items ≡ unwritten_edges listing.now.lines silent.now) }
{
    let mut edges = Vec::new(alloc);
    let lines = listing.lines();
    for line in lines {
        if comes_back(silent, &line.instr) {
            let after = line_after(listing, Way::Unwritten, line);
            push_edge(&mut edges, line.number, after)?;
            push_edge(&mut edges, line.number, jump(&line.instr))?;
        }
    }
    Ok(edges)
}

/// Returns the edges, each the other way round.
///
/// # Errors
///
/// `AllocError` where memory runs out.
pub fn turned(alloc: Global, edges: &[Edge]) -> Result<Vec<Edge>, AllocError>
    ensures { IfOk result (λ v. v.items ≡ turned edges.now) }
{
    let mut turned = Vec::new(alloc);
    for edge in edges {
        turned.push(Edge {
            from: edge.to,
            to: edge.from,
        })?;
    }
    Ok(turned)
}
