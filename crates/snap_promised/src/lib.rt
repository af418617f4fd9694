//! The run of a shipped listing over any schedule: its record, and all that is promised of it.
#![tactic(auto)]

ghost use Rattle.std.specs.Prelude.{◌≡◌, IfOk, true};
ghost use Rattle.snap_words.specs.Kind.{fits};
ghost use Rattle.snap_runs.specs.Run.{IsValidRun, run_over};
ghost use Rattle.snap_shipped.specs.Kept.{KeepsPromises};
ghost use Rattle.snap_shipped.specs.Shipped.{shipped};

use snap_asm::load_listing;
use snap_asm_program::Program;
use snap_record::{Record, record_over};
use snap_sched::Schedule;
use snap_shipped::{shipped_listing, shipped_runs_keep_promises};
use snap_words::{Kind, KindTag};
use std::alloc::{AllocError, Global};

/// The run of a shipped listing over a schedule keeps what is promised of it.
fn keeps_promises<K: Kind>(schedule: &Schedule)
    requires { fits K.TAG schedule.now.shape ≡ true }
    ensures fits { IsValidRun (run_over (shipped K.TAG) schedule.now) }
    ensures promises { KeepsPromises K.TAG (run_over (shipped K.TAG) schedule.now) }
{
    shipped_runs_keep_promises();
    // What `shape` promises: the schedule keeps the rules of schedules.
    let _shape = schedule.shape();
}

/// Returns the program of the listing that is shipped for a kind.
#[tactic(auto, using(crate::proofs::Shipped::kind_shipped))]
fn shipped_program(alloc: Global, kind: KindTag) -> Result<Program, AllocError>
    ensures program { IfOk result (λ p. p ≡ shipped kind) }
    ensures kind { IfOk result (λ p. p.kind ≡ kind) }
{
    load_listing(alloc, shipped_listing(alloc, kind)?)
}

/// Returns the record of the listing that is shipped for a kind over a schedule, whatever its
/// interleaving: a run that keeps all promises.
///
/// # Errors
///
/// `AllocError` where memory runs out.
pub fn run<K: Kind>(alloc: Global, schedule: &Schedule) -> Result<Record<K>, AllocError>
    requires { fits K.TAG schedule.now.shape ≡ true }
    ensures record { IfOk result (λ r. r ≡ run_over (shipped K.TAG) schedule.now) }
    ensures fits { IsValidRun (run_over (shipped K.TAG) schedule.now) }
    ensures promises { KeepsPromises K.TAG (run_over (shipped K.TAG) schedule.now) }
{
    keeps_promises::<K>(schedule);
    let program = shipped_program(alloc, K::TAG)?;
    record_over(alloc, &program, schedule)
}
