//! Quantifiers: whether a condition holds, and which values a row gets, at the places from 1 on.
//! The operands of a place are all taken before those of the next.
ghost use Rattle.std.specs.Prelude.{◌≡◌, if◌then◌else◌};
ghost use Rattle.snap_semantics.specs.Rules.{or_else};
ghost use Rattle.snap_semantics.specs.Table.{each_value, range_end};
ghost use Rattle.snap_asm_program.specs.NamedLines.{name_at, named_condition, named_expr};
ghost use Rattle.snap_asm_program.specs.NamedLines.{named_where};
ghost use Rattle.snap_machine.specs.Quantifiers.{first_place, holds_at_all, checked_values};
ghost use Rattle.snap_machine.specs.SeenProcesses.{seen_context};

use crate::locals::row;
use crate::slot_process::SlotProcess;
use crate::step_context::StepContext;
use crate::value::{condition_holds, expr_value, joined, number_at};
use snap_asm_program::{SlotCondition, SlotExpr};
use snap_semantics::{Cause, Join, Range};
use snap_words::{Kind, Shape};

/// Returns how many places a quantifier goes over.
pub fn range_end(shape: Shape, range: Range) -> u64
    ensures { result ≡ range_end shape range }
{
    match range {
        Range::Processes => shape.n(),
        Range::Words => shape.w(),
    }
}

/// Returns the least place, from 1 to `count`, at which a condition holds; `None` where it holds at
/// none.
///
/// # Errors
///
/// The cause of the trap, where an operand of a place has no value.
pub fn first_place<K: Kind>(
    context: &StepContext<'_>,
    process: &SlotProcess<K>,
    count: u64,
    condition: &SlotCondition,
) -> Result<Option<u64>, Cause>
    ensures { result ≡ first_place (seen_context K.as_word context.now process.now)
        count (named_condition context.now.program.now condition.now) }
{
    let mut found = None;
    let mut there = StepContext {
        place: 1,
        ..*context
    };
    for passed in 0..count {
        there.place = passed + 1;
        let holds = condition_holds(&there, process, condition)?;
        found = first_of(found, holds, passed + 1);
    }
    Ok(found)
}

/// Returns the place that was found, or else `place` if the condition holds there.
fn first_of(found: Option<u64>, holds: bool, place: u64) -> Option<u64>
    ensures { result ≡ or_else found (if holds then Some place else None) }
{
    match found {
        Some(first) => Some(first),
        None => if holds { Some(place) } else { None },
    }
}

/// Returns whether a condition holds at every place from 1 to `count`.
///
/// # Errors
///
/// The cause of the trap, where an operand of a place has no value.
pub fn holds_at_all<K: Kind>(
    context: &StepContext<'_>,
    process: &SlotProcess<K>,
    count: u64,
    condition: &SlotCondition,
) -> Result<bool, Cause>
    ensures { result ≡ holds_at_all (seen_context K.as_word context.now process.now)
        count (named_condition context.now.program.now condition.now) }
{
    let mut all = true;
    let mut there = StepContext {
        place: 1,
        ..*context
    };
    for passed in 0..count {
        there.place = passed + 1;
        let holds = condition_holds(&there, process, condition)?;
        all = joined(Join::And, all, holds);
    }
    Ok(all)
}

/// Returns the new value of a place of a row: that of `expr` if the condition holds, and the old
/// one otherwise.
///
/// # Errors
///
/// The cause of the trap, where an operand has no value.
#[inline(always)]
pub fn row_value<K: Kind>(
    context: &StepContext<'_>,
    process: &SlotProcess<K>,
    slot: usize,
    expr: &SlotExpr,
    condition: &Option<SlotCondition>,
) -> Result<u64, Cause>
    ensures { result ≡ each_value (seen_context K.as_word context.now process.now)
        (name_at context.now.program.now.rows slot) (named_expr context.now.program.now expr.now)
        (named_where context.now.program.now condition.now) }
{
    match condition {
        None => expr_value(context, process, expr),
        Some(condition) => {
            let value = expr_value(context, process, expr)?;
            let holds = condition_holds(context, process, condition)?;
            if holds {
                Ok(value)
            } else {
                let row = row(context.program.rows(), process.rows.as_slice(), slot);
                Ok(number_at(row, context.place.saturating_sub(1) as usize))
            }
        }
    }
}

/// Checks that each place from 1 to `count` has a new value.
///
/// # Errors
///
/// The cause of the trap of the first place that has none.
pub fn check_values<K: Kind>(
    context: &StepContext<'_>,
    process: &SlotProcess<K>,
    count: u64,
    slot: usize,
    expr: &SlotExpr,
    condition: &Option<SlotCondition>,
) -> Result<(), Cause>
    ensures { result ≡ checked_values (seen_context K.as_word context.now process.now)
        count (name_at context.now.program.now.rows slot)
        (named_expr context.now.program.now expr.now)
        (named_where context.now.program.now condition.now) }
{
    let mut there = StepContext {
        place: 1,
        ..*context
    };
    for passed in 0..count {
        there.place = passed + 1;
        row_value(&there, process, slot, expr, condition)?;
    }
    Ok(())
}
