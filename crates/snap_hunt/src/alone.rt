//! `first_failing_alone`: the first run that fails, of the runs that a seed gives, made one after
//! another in one thread.
ghost use Rattle.std.specs.Prelude.{◌+◌, ◌-◌, ◌<◌, ◌≤◌, ◌^◌, IfOk};
ghost use Rattle.snap_hunt.specs.Hunt.{IsFirst};

use crate::blocks::find;
use crate::found::Found;
use crate::hunt::Hunt;
use std::alloc::{AllocError, Global};

/// Returns run number `run`, if it fails.
#[tactic(auto, using(crate::proofs::Sides::alone))]
fn in_run(alloc: Global, hunt: &Hunt<'_>, run: u64) -> Result<Option<Found>, AllocError>
    requires { run + 1 < 2 ^ 64 }
    ensures { IfOk result (IsFirst hunt.now.program.now hunt.now.plan.now
        hunt.now.wanted.now hunt.now.seed run (run + 1)) }
{
    match find(alloc, hunt, run)? {
        Some(failure) => Ok(Some(Found { run, failure })),
        None => Ok(None),
    }
}

/// Returns the first run that fails, of the first `runs` of `hunt`, and what fails in it;
/// `None` where no failure is found in any of them. The answer is that of `first_failing`, without
/// threads.
///
/// # Errors
///
/// `AllocError` where memory runs out.
pub fn first_failing_alone(
    alloc: Global,
    hunt: &Hunt<'_>,
    runs: u64,
) -> Result<Option<Found>, AllocError>
    requires { runs < 2 ^ 63 }
    ensures { IfOk result (IsFirst hunt.now.program.now hunt.now.plan.now
        hunt.now.wanted.now hunt.now.seed 0 runs) }
{
    let mut run = 0;
    while run < runs {
        let found = in_run(alloc, hunt, run)?;
        if found.is_some() {
            return Ok(found);
        }
        run += 1;
    }
    Ok(None)
}
