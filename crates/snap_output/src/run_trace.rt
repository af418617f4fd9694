//! `trace`: the text of a program's run over a schedule, item by item, with what each item changed.
ghost use Rattle.std.specs.Prelude.{◌≡◌, IfOk};
ghost use Rattle.snap_runs.specs.Run.{run_over};
ghost use Rattle.snap_output.specs.Trace.{trace_text};

use crate::item::{Sheet, push_item};
use snap_asm_program::Program;
use snap_listing::LineTexts;
use snap_machine::Machine;
use snap_sched::Schedule;
use snap_words::Kind;
use std::alloc::{AllocError, Global};

/// Returns what each item of the run of `program` over `schedule` did, and what it changed.
///
/// # Errors
///
/// `AllocError` where memory runs out.
pub fn trace<K: Kind>(
    alloc: Global,
    program: &Program,
    schedule: &Schedule,
) -> Result<Vec<u8>, AllocError>
    requires { program.now.kind ≡ K.TAG }
    ensures { IfOk result (λ out. out.items ≡ trace_text (run_over program.now schedule.now)) }
{
    let texts = LineTexts::of(alloc, program.listing())?;
    let shape = schedule.shape();
    let mut machine = Machine::<K>::new(alloc, program, shape)?;
    let mut sheet = Sheet::new(alloc, &machine)?;
    let mut number: u64 = 0;
    let mut left = schedule.items().iter();
    while let Some(item) = left.next() {
        number += 1;
        push_item(&mut sheet, &texts, &mut machine, number, item)?;
    }
    sheet.into_text()
}
