//! Marks: breakpoints and watched registers.
ghost use Rattle.std.specs.Prelude.{◌≡◌, Err, IfOk, length, not};
ghost use Rattle.std.specs.List.{filter, list_any};
ghost use Rattle.snap_semantics.specs.Answers.{Answers};
ghost use Rattle.snap_semantics.specs.declared.fault.Fault.TheVariants.{Refused};
ghost use Rattle.snap_semantics.specs.declared.refusal.CommandRefusal.{CommandRefusal};
ghost use Rattle.snap_debug.specs.Marks.{
  mark_count,
  no_marks,
  same_address,
  same_bank,
  same_breakpoint,
};
ghost use Rattle.snap_debug.specs.Session.{
  has_break,
  has_watch,
  with_break,
  with_watch,
  without_break,
  without_watch,
};

use snap_debug_commands::Breakpoint;
use snap_semantics::{CommandRefusal, Fault};
use snap_words::{Address, Bank};
use std::alloc::{AllocError, Global};
use std::marker::Model;

/// The most marks.
pub const MAX_MARKS: usize = 64;

/// Breakpoints and watched registers, each in the order in which they were set.
pub struct Marks {
    breaks: Vec<Breakpoint>,
    watches: Vec<Address>,
}

impl Drop for Marks {
    // A drop that is written out is one call: it is proved once, and not again at each drop.
    fn drop(self) {
        let Marks {
            breaks: _,
            watches: _,
        } = self;
    }
}

impl Model for Marks {
    ghost use Rattle.snap_debug.specs.Marks.{Marks};

    ghost Value = { Marks };

    ghost view = { λ m. record { breaks = m.breaks.items; watches = m.watches.items } };
}

/// Returns whether two breakpoints are the same.
pub fn same_breakpoint(a: Breakpoint, b: Breakpoint) -> bool
    ensures { result ≡ same_breakpoint a b }
{
    a.process == b.process && a.line == b.line
}

/// Returns whether two banks are the same.
fn same_bank(a: Bank, b: Bank) -> bool
    ensures { result ≡ same_bank a b }
{
    match (a, b) {
        (Bank::R, Bank::R) | (Bank::Q, Bank::Q) | (Bank::P, Bank::P) | (Bank::V, Bank::V) => true,
        _ => false,
    }
}

/// Returns whether two registers are the same.
pub fn same_address(a: Address, b: Address) -> bool
    ensures { result ≡ same_address a b }
{
    same_bank(a.bank, b.bank) && a.i == b.i && a.j == b.j
}

/// Returns a copy of `breaks` without `b`.
fn breaks_without(
    alloc: Global,
    breaks: &[Breakpoint],
    b: Breakpoint,
) -> Result<Vec<Breakpoint>, AllocError>
    ensures { IfOk result (λ kept. kept.items
        ≡ filter (λ c. not (same_breakpoint b c)) breaks.now) }
{
    let mut kept = Vec::new(alloc);
    for c in breaks {
        if !same_breakpoint(b, *c) {
            kept.push(*c)?;
        }
    }
    Ok(kept)
}

/// Returns a copy of `watches` without `a`.
fn watches_without(
    alloc: Global,
    watches: &[Address],
    a: Address,
) -> Result<Vec<Address>, AllocError>
    ensures { IfOk result (λ kept. kept.items ≡ filter (λ c. not (same_address a c)) watches.now) }
{
    let mut kept = Vec::new(alloc);
    for c in watches {
        if !same_address(a, *c) {
            kept.push(*c)?;
        }
    }
    Ok(kept)
}

/// Returns whether one of `breaks` is `b`.
fn has_break(breaks: &[Breakpoint], b: Breakpoint) -> bool
    ensures { result ≡ list_any (same_breakpoint b) breaks.now }
{
    breaks.iter().any(|c| same_breakpoint(b, *c))
}

/// Returns whether one of `watches` is `a`.
fn has_watch(watches: &[Address], a: Address) -> bool
    ensures { result ≡ list_any (same_address a) watches.now }
{
    watches.iter().any(|c| same_address(a, *c))
}

impl Marks {
    /// Returns no marks.
    pub fn new(alloc: Global) -> Marks
        ensures { result ≡ no_marks }
    {
        Marks {
            breaks: Vec::new(alloc),
            watches: Vec::new(alloc),
        }
    }

    /// Returns the breakpoints.
    pub fn breaks(&self) -> &[Breakpoint]
        ensures { result.now ≡ self.now.breaks }
    {
        self.breaks.as_slice()
    }

    /// Returns the watched registers.
    pub fn watches(&self) -> &[Address]
        ensures { result.now ≡ self.now.watches }
    {
        self.watches.as_slice()
    }

    /// Returns how many marks there are.
    pub fn count(&self) -> usize
        ensures { result ≡ mark_count self.now }
    {
        self.breaks.len() + self.watches.len()
    }

    /// Returns a copy.
    ///
    /// # Errors
    ///
    /// `AllocError` where memory runs out.
    pub fn copy(&self, alloc: Global) -> Result<Marks, AllocError>
        ensures { IfOk result (λ m. m ≡ self.now) }
    {
        Ok(Marks {
            breaks: Vec::from_slice(alloc, self.breaks.as_slice())?,
            watches: Vec::from_slice(alloc, self.watches.as_slice())?,
        })
    }

    /// Returns a copy with the breakpoint `b`, if it is not set yet.
    ///
    /// # Errors
    ///
    /// `Refused` with `TooManyMarks` where there is no room for it; `Memory` where memory runs out.
    pub fn with_break(&self, alloc: Global, b: Breakpoint) -> Result<Marks, Fault<CommandRefusal>>
        ensures marks { Answers (λ m. m) result (with_break self.now b) }
        ensures full { (r : CommandRefusal) → with_break self.now b ≡ Err r →
            result ≡ Err (Refused r) }
    {
        if has_break(self.breaks(), b) {
            return Ok(self.copy(alloc)?);
        }
        if self.count() >= MAX_MARKS {
            return Err(Fault::Refused(CommandRefusal::TooManyMarks));
        }
        let mut marks = self.copy(alloc)?;
        marks.breaks.push(b)?;
        Ok(marks)
    }

    /// Returns a copy with the watched register `a`, if it is not set yet.
    ///
    /// # Errors
    ///
    /// `Refused` with `TooManyMarks` where there is no room for it; `Memory` where memory runs out.
    pub fn with_watch(&self, alloc: Global, a: Address) -> Result<Marks, Fault<CommandRefusal>>
        ensures marks { Answers (λ m. m) result (with_watch self.now a) }
        ensures full { (r : CommandRefusal) → with_watch self.now a ≡ Err r →
            result ≡ Err (Refused r) }
    {
        if has_watch(self.watches(), a) {
            return Ok(self.copy(alloc)?);
        }
        if self.count() >= MAX_MARKS {
            return Err(Fault::Refused(CommandRefusal::TooManyMarks));
        }
        let mut marks = self.copy(alloc)?;
        marks.watches.push(a)?;
        Ok(marks)
    }

    /// Returns a copy without the breakpoint `b`.
    ///
    /// # Errors
    ///
    /// `AllocError` where memory runs out.
    pub fn without_break(&self, alloc: Global, b: Breakpoint) -> Result<Marks, AllocError>
        ensures { IfOk result (λ m. m ≡ without_break self.now b) }
    {
        Ok(Marks {
            breaks: breaks_without(alloc, self.breaks.as_slice(), b)?,
            watches: Vec::from_slice(alloc, self.watches.as_slice())?,
        })
    }

    /// Returns a copy without the watched register `a`.
    ///
    /// # Errors
    ///
    /// `AllocError` where memory runs out.
    pub fn without_watch(&self, alloc: Global, a: Address) -> Result<Marks, AllocError>
        ensures { IfOk result (λ m. m ≡ without_watch self.now a) }
    {
        Ok(Marks {
            breaks: Vec::from_slice(alloc, self.breaks.as_slice())?,
            watches: watches_without(alloc, self.watches.as_slice(), a)?,
        })
    }
}
