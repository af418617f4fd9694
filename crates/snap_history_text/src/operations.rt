//! The lines of operations, in the order in which they took place.
ghost use Rattle.snap_text.specs.Drafted.{Adds};
ghost use Rattle.snap_history_text.specs.JudgementText.{action_text, end_text, operation_line};
ghost use Rattle.snap_history_text.specs.JudgementText.{linearizable_text, operation_lines};

use snap_judge::{Action, Operation};
use snap_text::Draft;

/// Appends what an operation did.
fn push_action(out: &mut Draft, action: &Action<'_>)
    ensures { Adds out.old out.new (action_text action.now) }
{
    match action {
        Action::Sets { word, value } => {
            out.push(b"update ");
            out.push_number(*word);
            out.push(b" ");
            out.push_number(*value);
        }
        Action::Sees(view) => {
            out.push(b"scan");
            out.push_numbers(view);
        }
    }
}

/// Appends when an operation ended, if it has ended.
fn push_end(out: &mut Draft, end: Option<u64>)
    ensures { Adds out.old out.new (end_text end) }
{
    match end {
        Some(item) => {
            out.push(b" end ");
            out.push_number(item);
        }
        None => out.push(b" open"),
    }
}

/// Appends the line of an operation.
fn push_operation(out: &mut Draft, operation: &Operation<'_>)
    ensures { Adds out.old out.new (operation_line operation.now) }
{
    push_action(out, &operation.action);
    out.push(b" process ");
    out.push_number(u64::from(operation.process));
    out.push(b" call ");
    out.push_number(operation.call);
    push_end(out, operation.end);
    out.push(b"\n");
}

/// Appends the lines of operations.
pub fn push_operations(out: &mut Draft, operations: &[Operation<'_>])
    ensures { Adds out.old out.new (operation_lines operations.now) }
{
    for operation in operations {
        push_operation(out, operation);
    }
}

/// Appends an order of the operations that explains their history.
pub fn push_linearizable(out: &mut Draft, order: &[Operation<'_>])
    ensures { Adds out.old out.new (linearizable_text order.now) }
{
    out.push(b"linearizable\n");
    push_operations(out, order);
}
