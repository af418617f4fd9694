//! The snapshot listings that come with the program, as their texts: U, B and M; and all that is
//! promised of their runs.
#![tactic(auto)]

ghost use Rattle.std.specs.Prelude.{◌≡◌, IfOk};
ghost use Rattle.snap_words.specs.declared.kind.KindTag.{KindTag};
ghost use Rattle.snap_words.specs.declared.kind.KindTag.TheVariants as kind;
ghost use Rattle.snap_shipped.specs.Kept.{RunsKeepPromises};
ghost use Rattle.snap_shipped.specs.Shipped.{shipped};

mod bounded;
mod multi_writer;
mod unbounded;

pub use bounded::{listing_b, text_b};
pub use multi_writer::{listing_m, text_m};
use snap_listing_core::Listing;
use snap_words::KindTag;
use std::alloc::{AllocError, Global};
pub use unbounded::{listing_u, text_u};

/// Returns the listing that is shipped for a kind.
///
/// # Errors
///
/// `AllocError` where memory runs out.
pub fn shipped_listing(alloc: Global, kind: KindTag) -> Result<Listing, AllocError>
    ensures { IfOk result (λ l. l ≡ shipped kind) }
{
    match kind {
        KindTag::Seq => listing_u(alloc),
        KindTag::Bits => listing_b(alloc),
        KindTag::Multi => listing_m(alloc),
    }
}

/// Every run of U keeps all promises, as long as its sequence numbers suffice.
fn runs_of_u_keep_promises()
    ensures { RunsKeepPromises kind.Seq }
{
    snap_runs_of_u::runs_are_snapshots();
    snap_runs_of_u::operations_have_places();
    snap_runs_of_u::wait_free();
    snap_runs_of_u::passed_tests_are_clean();
    snap_runs_of_u::moves_are_writes();
    snap_runs_of_u::borrowed_views_are_lent();
    snap_runs_of_u::own_updates_are_seen();
}

/// Every run of B keeps all promises.
fn runs_of_b_keep_promises()
    ensures { RunsKeepPromises kind.Bits }
{
    snap_runs_of_b::runs_are_snapshots();
    snap_runs_of_b::operations_have_places();
    snap_runs_of_b::wait_free();
    snap_runs_of_b::passed_tests_are_clean();
    snap_runs_of_b::moves_are_writes();
    snap_runs_of_b::borrowed_views_are_lent();
    snap_runs_of_b::own_updates_are_seen();
}

/// Every run of M keeps all promises.
fn runs_of_m_keep_promises()
    ensures { RunsKeepPromises kind.Multi }
{
    snap_runs_of_m::runs_are_snapshots();
    snap_runs_of_m::operations_have_places();
    snap_runs_of_m::wait_free();
    snap_runs_of_m::passed_tests_are_clean();
    snap_runs_of_m::moves_are_visible_steps();
    snap_runs_of_m::borrowed_views_are_lent();
}

/// Every run of U, B and M keeps all that is promised of its listing: it is a run of a snapshot,
/// its operations have their places, it is wait-free, its passed tests are clean, the moves that
/// scans see have taken place, borrowed views are lent, and in U and B a scan shows its process's
/// last update.
pub fn shipped_runs_keep_promises()
    ensures { (g : KindTag) → RunsKeepPromises g }
{
    runs_of_u_keep_promises();
    runs_of_b_keep_promises();
    runs_of_m_keep_promises();
}
