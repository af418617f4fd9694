//! An update takes place, and the scans that then can.
ghost use Rattle.std.specs.Prelude.{◌≡◌, ◌-◌, ◌<◌, length, slice_set, OnOk};
ghost use Rattle.snap_words.specs.Shape.{IsOneOf};
ghost use Rattle.snap_judge.specs.Kept.{IsConfig, IsSettled, KeepsCounts};
ghost use Rattle.snap_judge.specs.Choices.{HasTaken, IsChoice};
ghost use Rattle.snap_judge.specs.declared.config.Slot.TheVariants as kept_slot;

use crate::config::{Config, OpenUpdate, Slot, Step};
use crate::scans::take_scans;
use std::alloc::AllocError;

/// Sets the word, and closes the slot.
fn put(config: &mut Config, update: OpenUpdate)
    requires place { update.place < length config.old.slots.items }
    requires word { IsOneOf (length config.old.values.items) update.word }
    ensures position { config.new.position ≡ config.old.position }
    ensures values { config.new.values.items
        ≡ slice_set config.old.values.items (update.word - 1) update.value }
    ensures slots { config.new.slots.items
        ≡ slice_set config.old.slots.items update.place (kept_slot.Taken update.call) }
{
    config.values[(update.word - 1) as usize] = update.value;
    config.slots[update.place] = Slot::Taken(update.call);
}

/// Lets an open update take place, and then each scan that sees the values.
///
/// # Errors
///
/// `AllocError` where memory runs out.
pub fn take_update(
    steps: &[Step<'_>],
    config: &mut Config,
    order: &mut Vec<usize>,
    update: OpenUpdate,
) -> Result<(), AllocError>
    requires config { IsConfig steps.now config.old }
    requires update { IsChoice steps.now config.old update }
    ensures taken { OnOk result (HasTaken steps.now update.place order.old.items config.old
        order.new.items config.new) }
    ensures settled { OnOk result (IsSettled steps.now config.new) }
    ensures kept { OnOk result (KeepsCounts config.old config.new) }
{
    put(config, update);
    order.push(update.call)?;
    take_scans(steps, config, order)?;
    Ok(())
}
