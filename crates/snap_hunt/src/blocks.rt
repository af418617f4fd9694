//! `find_each`: what fails in each run of a block of run numbers, which are made side by side in
//! threads for a hunt.
ghost use Rattle.std.specs.Prelude.{◌≡◌, ◌+◌, ◌-◌, ◌^◌, ◌<◌, ◌≤◌, ℕ, IfOk};
ghost use Rattle.std.specs.Prelude.{IfNone, IfSome, None, Some, length, slice_index_or};
ghost use Rattle.std.specs.List.{AllZip, range_with_len};
ghost use Rattle.snap_hunt.specs.Finding.{Finds};
ghost use Rattle.snap_hunt.specs.Hunt.{IsFirstIn, run_of};

use crate::failures::Failure;
use crate::found::Found;
use crate::hunt::Hunt;
use crate::over::failure_over;
use rayon::prelude::*;
use snap_chance::schedule_of;
use std::alloc::{AllocError, Global};
use std::thread::Threads;

/// How many runs a thread makes at least, once it was started.
const FEW: usize = 64;

/// Returns what fails in the run of this number.
#[tactic(auto, using(crate::proofs::Runs::found_over))]
pub(crate) fn find(alloc: Global, hunt: &Hunt<'_>, run: u64) -> Result<Option<Failure>, AllocError>
    ensures { IfOk result (Finds hunt.now.wanted.now
        (run_of hunt.now.program.now hunt.now.plan.now hunt.now.seed run)) }
{
    let schedule = schedule_of(alloc, hunt.seed, run, hunt.plan)?;
    failure_over(alloc, hunt.program, &schedule, hunt.wanted)
}

/// Returns `count` numbers, the first of which is `from`.
pub(crate) fn numbers(alloc: Global, from: u64, count: u64) -> Result<Vec<u64>, AllocError>
    requires { from + count < 2 ^ 64 }
    ensures { IfOk result (λ v. v.items ≡ range_with_len from count) }
{
    let mut numbers = Vec::new(alloc);
    for k in 0..count {
        numbers.push(from + k)?;
    }
    Ok(numbers)
}

/// Returns what fails in the runs of these numbers, whichever thread made each and when.
pub(crate) fn find_each(
    rt: &(impl Threads + Sync),
    alloc: Global,
    hunt: &Hunt<'_>,
    runs: &[u64],
) -> Result<Vec<Option<Failure>>, AllocError>
    ensures { IfOk result (λ v. AllZip (λ k found.
        Finds hunt.now.wanted.now (run_of hunt.now.program.now hunt.now.plan.now hunt.now.seed k)
        found) runs.now v.items) }
{
    let found: Result<Vec<Option<Failure>>, AllocError> = runs
        .par_iter()
        .with_min_len(FEW)
        .map(
            |run: &u64| -> Result<Option<Failure>, AllocError>
                ensures { IfOk result (Finds hunt.entry.now.wanted.now
                    (run_of hunt.entry.now.program.now hunt.entry.now.plan.now
                    hunt.entry.now.seed run.now)) }
            { find(alloc, hunt, *run) },
        )
        .collect(rt, alloc)?;
    found
}

/// Returns the first failure of `found`, the failures of the runs from `from` on, with the number
/// of its run.
pub(crate) fn first_of(from: u64, found: &[Option<Failure>]) -> Option<Found>
    requires { from + length found.now < 2 ^ 64 }
    ensures { IsFirstIn from found.now result }
{
    for k in 0..found.len() {
        if let Some(failure) = found[k] {
            return Some(Found {
                run: from + k as u64,
                failure,
            });
        }
    }
    None
}
