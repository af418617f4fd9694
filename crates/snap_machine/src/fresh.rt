//! `new_processes`: the processes of a new machine, idle and with locals of zeros and unwritten
//! words.
ghost use Rattle.std.specs.Prelude.{◌≡◌, IfOk, map, replicate, vec_items};
ghost use Rattle.snap_words.specs.Kind.{initial_word};
ghost use Rattle.snap_words.specs.Shape.{places};
ghost use Rattle.snap_semantics.specs.State.{initial_process};
ghost use Rattle.snap_machine.specs.SeenProcesses.{seen_process};

use crate::slot_process::SlotProcess;
use crate::value::places;
use snap_listing_core::Listing;
use snap_semantics::Status;
use snap_words::{Kind, Shape, View};
use std::alloc::{AllocError, Global};

/// Returns a row of zeros.
fn zeros(alloc: Global, count: u64) -> Result<Vec<u64>, AllocError>
    ensures { IfOk result (λ row. row.items ≡ replicate count 0) }
{
    Ok(vec![in alloc; 0; count as usize]?)
}

/// Returns `count` words that nobody has written.
#[tactic(auto, using(crate::proofs::Replicas::one_more))]
fn new_words<K: Kind>(alloc: Global, shape: Shape, count: u64) -> Result<Vec<K::Word>, AllocError>
    ensures { IfOk result (λ v. map K.as_word v.items
        ≡ replicate count (initial_word K.TAG shape)) }
{
    let mut words = Vec::new(alloc);
    for _k in 0..count {
        words.push(K::initial(alloc, shape)?)?;
    }
    Ok(words)
}

/// Returns `count` rows of zeros.
#[tactic(auto, using(crate::proofs::Replicas::one_more))]
fn new_rows(alloc: Global, shape: Shape, count: usize) -> Result<Vec<Vec<u64>>, AllocError>
    ensures { IfOk result (λ v. map vec_items v.items
        ≡ replicate count (replicate (places shape) 0)) }
{
    let mut rows = Vec::new(alloc);
    for _k in 0..count {
        rows.push(zeros(alloc, places(shape))?)?;
    }
    Ok(rows)
}

/// Returns `count` `words` locals in their initial state.
#[tactic(auto, using(crate::proofs::Replicas::one_more))]
fn new_word_rows<K: Kind>(
    alloc: Global,
    shape: Shape,
    count: usize,
) -> Result<Vec<Vec<K::Word>>, AllocError>
    ensures { IfOk result (λ v. map (λ xs. map K.as_word xs.items) v.items
        ≡ replicate count (replicate (places shape) (initial_word K.TAG shape))) }
{
    let mut rows = Vec::new(alloc);
    for _k in 0..count {
        rows.push(new_words::<K>(alloc, shape, places(shape))?)?;
    }
    Ok(rows)
}

/// Returns `count` views of zeros.
#[tactic(auto, using(crate::proofs::Replicas::one_again))]
fn new_views(alloc: Global, shape: Shape, count: usize) -> Result<Vec<View>, AllocError>
    ensures { IfOk result (λ v. v.items ≡ replicate count (replicate shape.w 0)) }
{
    let mut views = Vec::new(alloc);
    for _k in 0..count {
        views.push(View::zeros(alloc, shape.w())?)?;
    }
    Ok(views)
}

/// Returns a process in its initial state.
fn new_process<K: Kind>(
    alloc: Global,
    listing: &Listing,
    shape: Shape,
) -> Result<SlotProcess<K>, AllocError>
    requires { listing.now.kind ≡ K.TAG }
    ensures { IfOk result (λ p. seen_process K.as_word listing.now p
        ≡ initial_process listing.now shape) }
{
    Ok(SlotProcess {
        status: Status::Idle,
        scalars: zeros(alloc, listing.scalars().len() as u64)?,
        rows: new_rows(alloc, shape, listing.rows().len())?,
        words: new_word_rows::<K>(alloc, shape, listing.words().len())?,
        views: new_views(alloc, shape, listing.views().len())?,
    })
}

/// Returns the processes of `shape` in their initial states.
///
/// # Errors
///
/// `AllocError` where memory runs out.
#[tactic(auto, using(crate::proofs::Replicas::one_more))]
pub fn new_processes<K: Kind>(
    alloc: Global,
    listing: &Listing,
    shape: Shape,
) -> Result<Vec<SlotProcess<K>>, AllocError>
    requires { listing.now.kind ≡ K.TAG }
    ensures { IfOk result (λ v. map (seen_process K.as_word listing.now) v.items
        ≡ replicate shape.n (initial_process listing.now shape)) }
{
    let mut processes = Vec::new(alloc);
    for _k in 0..shape.n() {
        processes.push(new_process(alloc, listing, shape)?)?;
    }
    Ok(processes)
}
