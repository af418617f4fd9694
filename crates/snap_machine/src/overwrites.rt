//! `overwritten`: what an item is about to overwrite, as an `Undo`.
ghost use Rattle.std.specs.Prelude.{◌≡◌, IfOk, length, map};
ghost use Rattle.snap_words.specs.Shape.{IsOneOf};
ghost use Rattle.snap_semantics.specs.Table.{done, who};
ghost use Rattle.snap_machine.specs.Sizes.{AllSized, IsReady};
ghost use Rattle.snap_machine.specs.SeenPlaces.{seen_place};
ghost use Rattle.snap_machine.specs.Undo.{CanPut, FitsPlace, put};
ghost use Rattle.snap_machine.specs.Written.{ItemPutsBack, PutsBack, StepPutsBack};
ghost use Rattle.snap_machine.specs.Current.{current_effect};
ghost use Rattle.snap_machine.specs.SeenProcesses.{seen_context, seen_locals, seen_process, seen_state};

use crate::before::place_before;
use crate::slot_process::SlotProcess;
use crate::step_context::StepContext;
use crate::undo::{SlotPlace, Undo};
use snap_asm_program::Program;
use snap_regs::Registers;
use snap_semantics::{Item, Status, who};
use snap_words::Kind;
use std::alloc::{AllocError, Global};

/// Returns the contents of the place that the line of a process writes.
fn current_place<K: Kind>(
    context: &StepContext<'_>,
    registers: &Registers<K>,
    process: &SlotProcess<K>,
) -> Result<SlotPlace<K>, AllocError>
    requires { IsReady K.TAG context.now.program.now context.now.shape registers.now
        (seen_locals K.as_word context.now.program.now process.now) }
    ensures back { IfOk result
        (λ p. PutsBack context.now.program.now (seen_context K.as_word context.now process.now)
        registers.now.memory (seen_place K.as_word p)
        (current_effect K.as_word context.now process.now registers.now.memory)) }
    ensures fits { IfOk result (λ p. FitsPlace context.now.program.now context.now.shape
        (seen_place K.as_word p)) }
{
    match context.program.line(context.activity.line) {
        None => Ok(SlotPlace::Nowhere),
        Some(line) => place_before(context, registers, process, &line.instr),
    }
}

/// Returns what a step of a process overwrites besides its status.
fn step_place<K: Kind>(
    alloc: Global,
    program: &Program,
    registers: &Registers<K>,
    process: &SlotProcess<K>,
    i: u32,
) -> Result<SlotPlace<K>, AllocError>
    requires { IsReady K.TAG program.now registers.now.shape registers.now
        (seen_locals K.as_word program.now process.now) }
    ensures back { IfOk result (λ p. StepPutsBack program.now registers.now.shape
        (seen_process K.as_word program.now process.now)
        registers.now.memory i (seen_place K.as_word p) process.now.status) }
    ensures fits { IfOk result (λ p. FitsPlace program.now registers.now.shape
        (seen_place K.as_word p)) }
{
    match process.status {
        Status::Busy(activity) => {
            let context = StepContext {
                alloc,
                program,
                shape: registers.shape(),
                me: i,
                activity: &activity,
                place: 0,
            };
            current_place(&context, registers, process)
        }
        Status::Idle => Ok(SlotPlace::Nowhere),
        Status::Trapped(_, _) => Ok(SlotPlace::Nowhere),
        Status::Crashed(_) => Ok(SlotPlace::Nowhere),
    }
}

/// Returns what an item of a process overwrites besides its status.
fn item_place<K: Kind>(
    alloc: Global,
    program: &Program,
    registers: &Registers<K>,
    process: &SlotProcess<K>,
    item: Item,
) -> Result<SlotPlace<K>, AllocError>
    requires { IsReady K.TAG program.now registers.now.shape registers.now
        (seen_locals K.as_word program.now process.now) }
    ensures back { IfOk result (λ p. ItemPutsBack program.now registers.now.shape
        (seen_process K.as_word program.now process.now)
        registers.now.memory item (seen_place K.as_word p)) }
    ensures fits { IfOk result (λ p. FitsPlace program.now registers.now.shape
        (seen_place K.as_word p)) }
{
    match item {
        Item::Step(i) => step_place(alloc, program, registers, process, i),
        Item::Call(_, _) => Ok(SlotPlace::Nowhere),
        Item::Crash(_) => Ok(SlotPlace::Nowhere),
    }
}

/// Returns what `item` overwrites: once that is put back after the item, everything is as it was.
///
/// # Errors
///
/// `AllocError` where memory runs out.
pub fn overwritten<K: Kind>(
    alloc: Global,
    program: &Program,
    registers: &Registers<K>,
    processes: &[SlotProcess<K>],
    item: Item,
) -> Result<Undo<K>, AllocError>
    requires process { IsOneOf (length processes.now) (who item) }
    requires kind { program.now.kind ≡ K.TAG }
    requires count { length processes.now ≡ registers.now.shape.n }
    requires sized { AllSized program.now registers.now.shape
        (map (seen_process K.as_word program.now) processes.now) }
    ensures back { let S = seen_state K.as_word program.now registers.now.memory processes.now in
        IfOk result (λ u. put program.now u (done program.now registers.now.shape S item).0 ≡ S) }
    ensures fits { IfOk result (λ u. CanPut program.now registers.now.shape u) }
    ensures process { IfOk result (λ u. u.process ≡ who item) }
{
    let i = who(item);
    let _shape = registers.shape();
    let process = &processes[(i - 1) as usize];
    let place = item_place(alloc, program, registers, process, item)?;
    Ok(Undo {
        process: i,
        status: process.status,
        place,
    })
}
