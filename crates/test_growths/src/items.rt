//! A scene of calls that may want memory: a machine does the items of a schedule, and takes them
//! back.
ghost use Rattle.std.specs.Prelude.{◌≡◌, IfOk, IsTrue};
ghost use Rattle.snap_words.specs.Shape.{IsOneOf};
ghost use Rattle.snap_semantics.specs.Table.{who};

use crate::inputs::QUICK;
use crate::outcomes::tell_outcome;
use crate::scene_trouble::SceneTrouble;
use crate::trials::{tell, tried};
use snap_asm::load_listing;
use snap_machine::Machine;
use snap_report::report;
use snap_sched::{Schedule, read};
use snap_semantics::{Item, Outcome, who};
use snap_text::Draft;
use snap_words::{Bits, KindTag};
use std::alloc::{AllocError, Global};

/// Returns a machine of the bounded single-writer listing, for a schedule.
fn new_machine(alloc: Global, schedule: &Schedule) -> Result<Machine<Bits>, SceneTrouble> {
    let program = load_listing(alloc, snap_bounded::listing(alloc)?.into_listing())?;
    if program.kind() != KindTag::Bits {
        return Err(SceneTrouble::Refused);
    }
    Ok(Machine::new(alloc, &program, schedule.shape())?)
}

/// Returns whether a machine has the process of an item.
fn has_process(machine: &Machine<Bits>, item: Item) -> bool
    ensures { IsTrue result → IsOneOf machine.now.shape.n (who item) }
{
    let process = who(item);
    1 <= process && u64::from(process) <= machine.shape().n()
}

/// Does an item.
fn apply(machine: &mut Machine<Bits>, item: Item) -> Result<Outcome, SceneTrouble> {
    if !has_process(machine, item) {
        return Err(SceneTrouble::Refused);
    }
    Ok(machine.apply(item)?)
}

/// Does an item, and takes it back.
fn apply_and_revert(machine: &mut Machine<Bits>, item: Item) -> Result<Outcome, SceneTrouble> {
    if !has_process(machine, item) {
        return Err(SceneTrouble::Refused);
    }
    let (outcome, undo) = machine.apply_undo(item)?;
    machine.revert(undo);
    Ok(outcome)
}

/// Returns the report of a machine, with no events.
fn report_of(alloc: Global, machine: &Machine<Bits>) -> Result<Vec<u8>, AllocError> {
    let mut text = Draft::new(alloc);
    report(&mut text, machine, &[], 0, 0);
    text.finish()
}

/// Writes the report of a machine.
fn tell_report(rt: &HostRuntime, machine: &Machine<Bits>) -> Result<(), SceneTrouble> {
    let text = tried!(rt, report_of(rt.alloc(), machine));
    tell(rt, text.as_slice())
}

/// Does an item, and writes its outcome.
fn do_item(rt: &HostRuntime, machine: &mut Machine<Bits>, item: Item) -> Result<(), SceneTrouble> {
    let outcome = tried!(rt, apply(machine, item));
    tell_outcome(rt, &outcome)
}

/// Does an item, takes it back, writes its outcome, and does it again.
fn do_item_twice(
    rt: &HostRuntime,
    machine: &mut Machine<Bits>,
    item: Item,
) -> Result<(), SceneTrouble> {
    let outcome = tried!(rt, apply_and_revert(machine, item));
    tell_outcome(rt, &outcome)?;
    let _outcome = tried!(rt, apply(machine, item));
    Ok(())
}

/// Does each item of a schedule.
fn do_items(
    rt: &HostRuntime,
    machine: &mut Machine<Bits>,
    schedule: &Schedule,
) -> Result<(), SceneTrouble> {
    for item in schedule.items().iter() {
        do_item(rt, machine, item)?;
    }
    Ok(())
}

/// Does each item of a schedule, takes it back, and does it again.
fn do_items_twice(
    rt: &HostRuntime,
    machine: &mut Machine<Bits>,
    schedule: &Schedule,
) -> Result<(), SceneTrouble> {
    for item in schedule.items().iter() {
        do_item_twice(rt, machine, item)?;
    }
    Ok(())
}

/// Does each item of a schedule.
pub fn play(rt: &HostRuntime) -> Result<(), SceneTrouble> {
    let schedule = read(rt.alloc(), QUICK)?;
    let mut machine = new_machine(rt.alloc(), &schedule)?;
    do_items(rt, &mut machine, &schedule)?;
    tell_report(rt, &machine)
}

/// Does each item of a schedule, takes it back, and does it again.
pub fn play_back(rt: &HostRuntime) -> Result<(), SceneTrouble> {
    let schedule = read(rt.alloc(), QUICK)?;
    let mut machine = new_machine(rt.alloc(), &schedule)?;
    do_items_twice(rt, &mut machine, &schedule)?;
    tell_report(rt, &machine)
}
