//! `run`: the record of listing B over any schedule, a run that keeps all that is promised of B.
ghost use Rattle.std.specs.Prelude.{◌≡◌, IfOk, true};
ghost use Rattle.snap_words.specs.Kind.{fits};
ghost use Rattle.snap_words.specs.declared.kind.KindTag.TheVariants as kind;
ghost use Rattle.snap_semantics.specs.Comments.{uncommented};
ghost use Rattle.snap_runs.specs.Run.{IsValidRun, run_over};
ghost use Rattle.snap_runs_of_b.specs.ListingB.{listing_b};
ghost use Rattle.snap_shipped.specs.Kept.{KeepsPromises};

use snap_listing_core::CommentedListing;
use snap_record::Record;
use snap_sched::Schedule;
use snap_shipped::listing_b;
use snap_words::Bits;
use std::alloc::{AllocError, Global};

/// Returns listing B, whose lines have no comments.
///
/// # Errors
///
/// `AllocError` where memory runs out.
pub fn listing(alloc: Global) -> Result<CommentedListing, AllocError>
    ensures { IfOk result (λ l. l ≡ uncommented listing_b) }
{
    CommentedListing::uncommented(alloc, listing_b(alloc)?)
}

/// Returns the record of B over a schedule, whatever its interleaving: a run that keeps all
/// promises.
///
/// # Errors
///
/// `AllocError` where memory runs out.
pub fn run(alloc: Global, schedule: &Schedule) -> Result<Record<Bits>, AllocError>
    requires { fits kind.Bits schedule.now.shape ≡ true }
    ensures record { IfOk result (λ r. r ≡ run_over listing_b schedule.now) }
    ensures fits { IsValidRun (run_over listing_b schedule.now) }
    ensures promises { KeepsPromises kind.Bits (run_over listing_b schedule.now) }
{
    snap_promised::run(alloc, schedule)
}
