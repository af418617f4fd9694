//! `run`: the record of listing M over any schedule, a run that keeps all that is promised of M.
ghost use Rattle.std.specs.Prelude.{◌≡◌, IfOk, true};
ghost use Rattle.snap_words.specs.Kind.{fits};
ghost use Rattle.snap_words.specs.declared.kind.KindTag.TheVariants as kind;
ghost use Rattle.snap_semantics.specs.Comments.{uncommented};
ghost use Rattle.snap_runs.specs.Run.{IsValidRun, run_over};
ghost use Rattle.snap_runs_of_m.specs.ListingM.{listing_m};
ghost use Rattle.snap_shipped.specs.Kept.{KeepsPromises};

use snap_listing_core::CommentedListing;
use snap_record::Record;
use snap_sched::Schedule;
use snap_shipped::listing_m;
use snap_words::Multi;
use std::alloc::{AllocError, Global};

/// Returns listing M, whose lines have no comments.
///
/// # Errors
///
/// `AllocError` where memory runs out.
pub fn listing(alloc: Global) -> Result<CommentedListing, AllocError>
    ensures { IfOk result (λ l. l ≡ uncommented listing_m) }
{
    CommentedListing::uncommented(alloc, listing_m(alloc)?)
}

/// Returns the record of M over a schedule, whatever its interleaving: a run that keeps all
/// promises.
///
/// # Errors
///
/// `AllocError` where memory runs out.
pub fn run(alloc: Global, schedule: &Schedule) -> Result<Record<Multi>, AllocError>
    requires { fits kind.Multi schedule.now.shape ≡ true }
    ensures record { IfOk result (λ r. r ≡ run_over listing_m schedule.now) }
    ensures fits { IsValidRun (run_over listing_m schedule.now) }
    ensures promises { KeepsPromises kind.Multi (run_over listing_m schedule.now) }
{
    snap_promised::run(alloc, schedule)
}
