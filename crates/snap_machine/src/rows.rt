//! `new_row`: the row that a line `each` sets: the new values of its places, and the old values of
//! the places behind them.
ghost use Rattle.std.specs.Prelude.{◌≡◌, [], ◌∷◌, ◌++◌, drop, IfOk, OnOk};
ghost use Rattle.snap_asm_program.specs.NamedLines.{name_at, named_expr, named_where};
ghost use Rattle.snap_machine.specs.Lines.{IfAnswered};
ghost use Rattle.snap_machine.specs.Rows.{new_row, items_of};
ghost use Rattle.snap_machine.specs.SeenProcesses.{seen_context};

use crate::lines::Halt;
use crate::locals::row;
use crate::quantifiers::row_value;
use crate::slot_process::SlotProcess;
use crate::step_context::StepContext;
use snap_asm_program::{SlotCondition, SlotExpr};
use snap_words::Kind;
use std::alloc::{AllocError, Global};

/// Returns a row with the new values of `count` places, and the old values of the places behind
/// them.
///
/// # Errors
///
/// `Trap` with the cause of the first place that traps; `NoMemory` where memory runs out.
pub fn new_row<K: Kind>(
    context: &StepContext<'_>,
    process: &SlotProcess<K>,
    count: u64,
    slot: usize,
    expr: &SlotExpr,
    condition: &Option<SlotCondition>,
) -> Result<Vec<u64>, Halt>
    ensures { IfAnswered result (λ r.
        items_of r ≡ new_row (seen_context K.as_word context.now process.now)
        count (name_at context.now.program.now.rows slot)
        (named_expr context.now.program.now expr.now)
        (named_where context.now.program.now condition.now)) }
{
    let old = row(context.program.rows(), process.rows.as_slice(), slot);
    let mut values = room(context.alloc, old.len())?;
    let mut there = StepContext {
        place: 1,
        ..*context
    };
    for passed in 0..count {
        there.place = passed + 1;
        let value = row_value(&there, process, slot, expr, condition)?;
        push(&mut values, value)?;
    }
    push_rest(&mut values, old, count)?;
    Ok(values)
}

/// Returns an empty row with room.
fn room(alloc: Global, count: usize) -> Result<Vec<u64>, AllocError>
    ensures { IfOk result (λ row. row.items ≡ []) }
{
    Vec::with_capacity(alloc, count)
}

/// Appends one number.
fn push(row: &mut Vec<u64>, value: u64) -> Result<(), AllocError>
    ensures { OnOk result (row.new.items ≡ row.old.items ++ value ∷ []) }
{
    row.push(value)?;
    Ok(())
}

/// Appends what `other` has behind its first `count` numbers.
fn push_rest(row: &mut Vec<u64>, other: &[u64], count: u64) -> Result<(), AllocError>
    ensures { OnOk result (row.new.items ≡ row.old.items ++ drop count other.now) }
{
    let from = (count as usize).min(other.len());
    row.extend_from_slice(&other[from..])
}
