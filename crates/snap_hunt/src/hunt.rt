//! `Hunt` and `first_failing`: the runs that a seed gives, and the first of them that fails; and
//! `Watcher`, which hears how far the hunt has come.
ghost use Rattle.std.specs.Prelude.{◌≡◌, ◌+◌, ◌-◌, ◌<◌, ◌≤◌, ◌^◌, IfOk};
ghost use Rattle.snap_hunt.specs.Hunt.{IsFirst};

use crate::blocks::{find_each, first_of, numbers};
use crate::failures::Wanted;
use crate::found::Found;
use snap_asm_program::Program;
use snap_chance::Plan;
use std::alloc::{AllocError, Global};
use std::thread::Threads;

/// How many runs are made before a test whether one has failed.
const BLOCK: u64 = 1_024;

/// The runs of a program in which a hunt looks for failures: those that a seed gives by a plan.
#[derive(Clone, Copy)]
pub struct Hunt<'a> {
    pub program: &'a Program,
    pub plan: &'a Plan,
    pub wanted: &'a Wanted,
    pub seed: u64,
}

/// Who is told how far a hunt has come.
pub trait Watcher {
    /// Hears that `runs` runs of `all` were made, none of which failed.
    fn tried(&mut self, runs: u64, all: u64);

    /// Hears that the hunt is over.
    fn ended(&mut self);
}

/// Returns the first of `count` runs, from `from` on, that fails.
#[tactic(auto, using(crate::proofs::Sides::first_of_block, crate::proofs::Sides::as_many))]
fn in_block(
    rt: &(impl Threads + Sync),
    alloc: Global,
    hunt: &Hunt<'_>,
    from: u64,
    count: u64,
) -> Result<Option<Found>, AllocError>
    requires { from + count < 2 ^ 64 }
    ensures { IfOk result (IsFirst hunt.now.program.now hunt.now.plan.now
        hunt.now.wanted.now hunt.now.seed from (from + count)) }
{
    let runs = numbers(alloc, from, count)?;
    let found = find_each(rt, alloc, hunt, runs.as_slice())?;
    Ok(first_of(from, found.as_slice()))
}

/// Returns the first run that fails, block by block.
fn first_in_blocks<W: Watcher>(
    rt: &(impl Threads + Sync),
    alloc: Global,
    hunt: &Hunt<'_>,
    runs: u64,
    watcher: &mut W,
) -> Result<Option<Found>, AllocError>
    requires { runs < 2 ^ 63 }
    ensures { IfOk result (IsFirst hunt.now.program.now hunt.now.plan.now
        hunt.now.wanted.now hunt.now.seed 0 runs) }
{
    let mut from = 0;
    while from < runs {
        let count = BLOCK.min(runs - from);
        let found = in_block(rt, alloc, hunt, from, count)?;
        if found.is_some() {
            return Ok(found);
        }
        from += count;
        watcher.tried(from, runs);
    }
    Ok(None)
}

/// Returns the first run that fails, of the first `runs` of `hunt`, and what fails in it; `None`
/// where no failure is found in any of them.
///
/// # Errors
///
/// `AllocError` where memory runs out.
pub fn first_failing<W: Watcher>(
    rt: &(impl Threads + Sync),
    alloc: Global,
    hunt: &Hunt<'_>,
    runs: u64,
    watcher: &mut W,
) -> Result<Option<Found>, AllocError>
    requires { runs < 2 ^ 63 }
    ensures { IfOk result (IsFirst hunt.now.program.now hunt.now.plan.now
        hunt.now.wanted.now hunt.now.seed 0 runs) }
{
    let found = first_in_blocks(rt, alloc, hunt, runs, watcher);
    watcher.ended();
    found
}
