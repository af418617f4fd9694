//! `copy_processes`: copies of the processes of a machine.
ghost use Rattle.std.specs.Prelude.{◌≡◌, IfOk, map, vec_items};
ghost use Rattle.snap_semantics.specs.Source.{Source};
ghost use Rattle.snap_machine.specs.SeenProcesses.{seen_process};

use crate::slot_process::SlotProcess;
use snap_words::{Kind, copy_views, copy_words};
use std::alloc::{AllocError, Global};

/// Returns copies of the rows.
fn copy_rows(alloc: Global, rows: &[Vec<u64>]) -> Result<Vec<Vec<u64>>, AllocError>
    ensures { IfOk result (λ v. map vec_items v.items ≡ map vec_items rows.now) }
{
    let mut copies = Vec::new(alloc);
    for row in rows {
        copies.push(Vec::from_slice(alloc, row.as_slice())?)?;
    }
    Ok(copies)
}

/// Returns copies of the `words` locals.
fn copy_word_rows<K: Kind>(
    alloc: Global,
    rows: &[Vec<K::Word>],
) -> Result<Vec<Vec<K::Word>>, AllocError>
    ensures { IfOk result (λ v. map (λ xs. map K.as_word xs.items) v.items
        ≡ map (λ xs. map K.as_word xs.items) rows.now) }
{
    let mut copies = Vec::new(alloc);
    for row in rows {
        copies.push(copy_words::<K>(alloc, row.as_slice())?)?;
    }
    Ok(copies)
}

/// Returns a copy of the process.
fn copy_process<K: Kind>(
    alloc: Global,
    process: &SlotProcess<K>,
) -> Result<SlotProcess<K>, AllocError>
    ensures { IfOk result (λ p. (s : Source) → seen_process K.as_word s p
        ≡ seen_process K.as_word s process.now) }
{
    Ok(SlotProcess {
        status: process.status,
        scalars: Vec::from_slice(alloc, process.scalars.as_slice())?,
        rows: copy_rows(alloc, process.rows.as_slice())?,
        words: copy_word_rows::<K>(alloc, process.words.as_slice())?,
        views: copy_views(alloc, process.views.as_slice())?,
    })
}

/// Returns copies of the processes.
///
/// # Errors
///
/// `AllocError` where memory runs out.
pub fn copy_processes<K: Kind>(
    alloc: Global,
    processes: &[SlotProcess<K>],
) -> Result<Vec<SlotProcess<K>>, AllocError>
    ensures { IfOk result (λ v. (s : Source) →
        map (seen_process K.as_word s) v.items ≡ map (seen_process K.as_word s) processes.now) }
{
    let mut copies = Vec::new(alloc);
    for process in processes {
        copies.push(copy_process(alloc, process)?)?;
    }
    Ok(copies)
}
