//! Scans, which take place as soon as they can.
ghost use Rattle.std.specs.Prelude.{◌≡◌, ◌<◌, ◌↔◌, IsTrue, OnOk, length};
ghost use Rattle.snap_runs.specs.Operation.{Sees};
ghost use Rattle.snap_judge.specs.Kept.{ChangesSlotAlone, ChangesSlotsAlone, GoesOn, IsConfig, IsSettled, IsSettledAt, called_at};

use crate::config::{Config, Slot, Step};
use crate::operation::Action;
use std::alloc::AllocError;

/// Returns whether step `call` calls a scan that sees `values`.
fn sees(steps: &[Step<'_>], call: usize, values: &[u64]) -> bool
    requires { call < length steps.now }
    ensures { IsTrue result ↔ ((called_at steps.now call).action ≡ Sees values.now) }
{
    match &steps[call] {
        Step::Calls(operation) => match &operation.action {
            Action::Sees(view) => *view == values,
            Action::Sets { .. } => false,
        },
        _ => values.is_empty(),
    }
}

/// Lets the scan that is open at `place` take place, if it sees the values at that time.
fn take_scan(
    steps: &[Step<'_>],
    config: &mut Config,
    order: &mut Vec<usize>,
    place: usize,
) -> Result<(), AllocError>
    requires config { IsConfig steps.now config.old }
    requires place { place < length config.old.slots.items }
    ensures goes_on { OnOk result
        (GoesOn steps.now order.old.items config.old order.new.items config.new) }
    ensures kept { OnOk result (ChangesSlotAlone place config.old config.new) }
    ensures settled { OnOk result (IsSettledAt steps.now config.new place) }
{
    if let Slot::Open(call) = config.slots[place] {
        if sees(steps, call, config.values.as_slice()) {
            config.slots[place] = Slot::Taken(call);
            order.push(call)?;
        }
    }
    Ok(())
}

/// Lets each open scan take place that sees the current values.
///
/// # Errors
///
/// `AllocError` where memory runs out.
pub fn take_scans(
    steps: &[Step<'_>],
    config: &mut Config,
    order: &mut Vec<usize>,
) -> Result<(), AllocError>
    requires { IsConfig steps.now config.old }
    ensures goes_on { OnOk result
        (GoesOn steps.now order.old.items config.old order.new.items config.new) }
    ensures kept { OnOk result (ChangesSlotsAlone config.old config.new) }
    ensures settled { OnOk result (IsSettled steps.now config.new) }
{
    for place in 0..config.slots.len() {
        take_scan(steps, config, order, place)?;
    }
    Ok(())
}
