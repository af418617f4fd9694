//! How a search passes steps.
ghost use Rattle.std.specs.Prelude.{◌≡◌, ◌+◌, ◌-◌, ◌<◌, true, false, slice_index_or, length, IfOk, OnOk, suc};
ghost use Rattle.snap_judge.specs.Kept.{AreSteps, GoesOn, IsCallOf, IsConfig, IsSettled, IsStuck, KeepsCounts};
ghost use Rattle.snap_judge.specs.declared.config.Step.TheVariants as kept_step;

use crate::config::{Config, Slot, Step};
use crate::scans::take_scans;
use std::alloc::AllocError;

/// Passes the next step, the call of an operation of the process at `place`, and returns whether it
/// may pass.
fn pass_call(
    steps: &[Step<'_>],
    config: &mut Config,
    order: &mut Vec<usize>,
    place: usize,
) -> Result<bool, AllocError>
    requires config { IsConfig steps.now config.old }
    requires next { config.old.position < length steps.now }
    requires place { place < length config.old.slots.items }
    requires is { IsCallOf steps.now config.old.position place }
    requires settled { IsSettled steps.now config.old }
    ensures goes_on { OnOk result
        (GoesOn steps.now order.old.items config.old order.new.items config.new) }
    ensures settled { OnOk result (IsSettled steps.now config.new) }
    ensures kept { OnOk result (KeepsCounts config.old config.new) }
    ensures passed { IfOk result (λ p. p ≡ true → config.new.position ≡ suc config.old.position) }
    ensures stuck { IfOk result (λ p. p ≡ false → (config.new.position ≡ config.old.position)
        × IsStuck steps.now config.new) }
{
    match config.slots[place] {
        Slot::Free => {
            config.slots[place] = Slot::Open(config.position);
            config.position += 1;
            take_scans(steps, config, order)?;
            Ok(true)
        }
        Slot::Open(_) => Ok(false),
        Slot::Taken(_) => Ok(false),
    }
}

/// Passes the next step, the end of what the process at `place` called, and returns whether it may
/// pass.
fn pass_end(steps: &[Step<'_>], config: &mut Config, order: &Vec<usize>, place: usize) -> bool
    requires config { IsConfig steps.now config.old }
    requires next { config.old.position < length steps.now }
    requires place { place < length config.old.slots.items }
    requires is { slice_index_or steps.now config.old.position kept_step.Waits
        ≡ kept_step.Ends (suc place) }
    requires settled { IsSettled steps.now config.old }
    ensures goes_on { GoesOn steps.now order.now.items config.old order.now.items config.new }
    ensures settled { IsSettled steps.now config.new }
    ensures kept { KeepsCounts config.old config.new }
    ensures passed { result ≡ true → config.new.position ≡ suc config.old.position }
    ensures stuck { result ≡ false → (config.new.position ≡ config.old.position)
        × IsStuck steps.now config.new }
{
    match config.slots[place] {
        Slot::Taken(_) => {
            config.slots[place] = Slot::Free;
            config.position += 1;
            true
        }
        Slot::Open(_) => false,
        Slot::Free => false,
    }
}

/// Passes the next step, and returns whether it may pass.
fn pass_step(
    steps: &[Step<'_>],
    config: &mut Config,
    order: &mut Vec<usize>,
) -> Result<bool, AllocError>
    requires config { IsConfig steps.now config.old }
    requires next { config.old.position < length steps.now }
    requires steps { AreSteps (length config.old.slots.items) (length config.old.values.items)
        steps.now }
    requires settled { IsSettled steps.now config.old }
    ensures goes_on { OnOk result
        (GoesOn steps.now order.old.items config.old order.new.items config.new) }
    ensures settled { OnOk result (IsSettled steps.now config.new) }
    ensures kept { OnOk result (KeepsCounts config.old config.new) }
    ensures passed { IfOk result (λ p. p ≡ true → config.new.position ≡ suc config.old.position) }
    ensures stuck { IfOk result (λ p. p ≡ false → IsStuck steps.now config.new) }
{
    match &steps[config.position] {
        Step::Calls(operation) => {
            pass_call(steps, config, order, (operation.process - 1) as usize)
        }
        Step::Ends(process) => Ok(pass_end(steps, config, order, (*process - 1) as usize)),
        Step::Waits => {
            config.position += 1;
            Ok(true)
        }
    }
}

/// Passes steps as long as they may pass, and returns whether all have passed.
///
/// # Errors
///
/// `AllocError` where memory runs out.
pub fn advance(
    steps: &[Step<'_>],
    config: &mut Config,
    order: &mut Vec<usize>,
) -> Result<bool, AllocError>
    requires config { IsConfig steps.now config.old }
    requires steps { AreSteps (length config.old.slots.items) (length config.old.values.items)
        steps.now }
    requires settled { IsSettled steps.now config.old }
    ensures goes_on { OnOk result
        (GoesOn steps.now order.old.items config.old order.new.items config.new) }
    ensures settled { OnOk result (IsSettled steps.now config.new) }
    ensures kept { OnOk result (KeepsCounts config.old config.new) }
    ensures end { IfOk result (λ e. e ≡ true → config.new.position ≡ length steps.now) }
    ensures stuck { IfOk result (λ e. e ≡ false → IsStuck steps.now config.new) }
{
    for _ in config.position..steps.len() {
        if !pass_step(steps, config, order)? {
            return Ok(false);
        }
    }
    Ok(true)
}
