//! `run`: the record of listing U over any schedule, a run that keeps all that is promised of U.
ghost use Rattle.std.specs.Prelude.{◌≡◌, IfOk, true};
ghost use Rattle.snap_words.specs.Kind.{fits};
ghost use Rattle.snap_words.specs.declared.kind.KindTag.TheVariants as kind;
ghost use Rattle.snap_semantics.specs.Comments.{uncommented};
ghost use Rattle.snap_runs.specs.Run.{IsValidRun, run_over};
ghost use Rattle.snap_runs_of_u.specs.ListingU.{listing_u};
ghost use Rattle.snap_shipped.specs.Kept.{KeepsPromises};

use snap_listing_core::CommentedListing;
use snap_record::Record;
use snap_sched::Schedule;
use snap_shipped::listing_u;
use snap_words::Seq;
use std::alloc::{AllocError, Global};

/// Returns listing U, whose lines have no comments.
///
/// # Errors
///
/// `AllocError` where memory runs out.
pub fn listing(alloc: Global) -> Result<CommentedListing, AllocError>
    ensures { IfOk result (λ l. l ≡ uncommented listing_u) }
{
    CommentedListing::uncommented(alloc, listing_u(alloc)?)
}

/// Returns the record of U over a schedule, whatever its interleaving: a run that keeps all
/// promises.
///
/// # Errors
///
/// `AllocError` where memory runs out.
pub fn run(alloc: Global, schedule: &Schedule) -> Result<Record<Seq>, AllocError>
    requires { fits kind.Seq schedule.now.shape ≡ true }
    ensures record { IfOk result (λ r. r ≡ run_over listing_u schedule.now) }
    ensures fits { IsValidRun (run_over listing_u schedule.now) }
    ensures promises { KeepsPromises kind.Seq (run_over listing_u schedule.now) }
{
    snap_promised::run(alloc, schedule)
}
