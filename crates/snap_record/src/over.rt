//! The record of a program over a schedule.
ghost use Rattle.std.specs.Prelude.{◌≡◌, IfOk};
ghost use Rattle.snap_runs.specs.Run.{run_over};

use crate::record::Record;
use snap_asm_program::Program;
use snap_sched::Schedule;
use snap_words::Kind;
use std::alloc::{AllocError, Global};

/// Returns the record of a program over a whole schedule.
///
/// # Errors
///
/// `AllocError` where memory runs out.
pub fn record_over<K: Kind>(
    alloc: Global,
    program: &Program,
    schedule: &Schedule,
) -> Result<Record<K>, AllocError>
    requires { program.now.kind ≡ K.TAG }
    ensures { IfOk result (λ r. r ≡ run_over program.now schedule.now) }
{
    let mut record = Record::new(alloc, program, schedule.shape())?;
    record.apply_first(schedule.items(), schedule.items().len())?;
    Ok(record)
}
