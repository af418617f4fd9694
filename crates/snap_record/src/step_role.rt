//! `StepRole`: what a record has to note of an item, found before the item is done: a write of a
//! word, a test, or the answer of a scan.
ghost use Rattle.std.specs.Prelude.{◌≡◌, IfOk, IsTrue, []};
ghost use Rattle.snap_words.specs.Shape.{IsOneOf};
ghost use Rattle.snap_semantics.specs.Source.{instr_at};
ghost use Rattle.snap_semantics.specs.State.{process_at, value_at};
ghost use Rattle.snap_semantics.specs.Table.{who};
ghost use Rattle.snap_semantics.specs.declared.process.Item.TheVariants.{Step};
ghost use Rattle.snap_runs.specs.StepRoles.{step_role_at, step_role_of};
ghost use Rattle.snap_runs.specs.StepRoles.{line_step_role, returned, Nothing};
ghost use Rattle.snap_semantics.specs.RightUses.{HasRightUses};
ghost use Rattle.snap_record.specs.Names.{Lacks, ViewsAlone};
ghost use Rattle.snap_record.specs.Roles.{AreRoles};
ghost use Rattle.snap_record.specs.SeenRoles.{seen_step_role};

use crate::roles::{LineRole, is_plain, step_role_by};
use snap_machine::{Local, Machine};
use snap_semantics::{Activity, Instr, Item, Name, Op, Status};
use snap_words::{Kind, View};
use std::alloc::{AllocError, Global};

/// A line that writes a word, one that tests for all, one that answers a scan with a view, or
/// another.
#[derive(Drop)]
pub enum StepRole {
    Write,
    Test,
    Answer(View),
    Nothing,
}

/// Returns what a line `return` does with a view.
fn returned(alloc: Global, view: &[u64], activity: &Activity) -> Result<StepRole, AllocError>
    ensures { IfOk result (λ d. seen_step_role d
        ≡ returned view.now activity.now.op activity.now.link) }
{
    match (activity.op, activity.link) {
        (Op::Scan, None) => Ok(StepRole::Answer(View::of(Vec::from_slice(alloc, view)?))),
        (Op::Scan, Some(_)) => Ok(StepRole::Nothing),
        (Op::Update { .. }, _) => Ok(StepRole::Nothing),
    }
}

/// Returns the view of process `i` with this name, which no other local has.
#[tactic(auto, using(crate::proofs::Locals::view_named, crate::proofs::Locals::no_number, crate::proofs::Locals::no_row, crate::proofs::Locals::no_words, crate::proofs::Locals::none_there))]
fn view_named<K: Kind>(machine: &Machine<K>, i: u32, name: Name) -> &[u64]
    requires process { IsOneOf machine.now.shape.n i }
    requires alone { Lacks name (process_at machine.now.state i).locals }
    ensures { result.now ≡ value_at name (process_at machine.now.state i).locals.views [] }
{
    match machine.local(i, name) {
        Some(Local::View(view)) => view.as_slice(),
        Some(Local::Number(_)) => &[],
        Some(Local::Row(_)) => &[],
        Some(Local::Words(_)) => &[],
        None => &[],
    }
}

/// Returns what a line of a process does.
fn line_step_role<K: Kind>(
    alloc: Global,
    machine: &Machine<K>,
    i: u32,
    activity: &Activity,
    instr: &Instr,
) -> Result<StepRole, AllocError>
    requires process { IsOneOf machine.now.shape.n i }
    requires right { HasRightUses machine.now.source instr.now }
    requires alone { ViewsAlone machine.now.source machine.now.state }
    ensures { IfOk result (λ d. seen_step_role d
        ≡ line_step_role activity.now (process_at machine.now.state i).locals instr.now) }
{
    match instr {
        Instr::Put(_, _) => Ok(StepRole::Write),
        Instr::IfAll(_, _, _) => Ok(StepRole::Test),
        Instr::Return(name) => returned(alloc, view_named(machine, i, *name), activity),
        _ => Ok(StepRole::Nothing),
    }
}

/// Returns the role of the line at which a process stands.
fn found_step_role<K: Kind>(
    alloc: Global,
    machine: &Machine<K>,
    i: u32,
    activity: &Activity,
) -> Result<StepRole, AllocError>
    requires process { IsOneOf machine.now.shape.n i }
    requires alone { ViewsAlone machine.now.source machine.now.state }
    ensures { IfOk result (λ d. seen_step_role d
        ≡ step_role_at activity.now (process_at machine.now.state i).locals
        (instr_at machine.now.source.lines activity.now.line)) }
{
    match machine.program().listing().instr(activity.line) {
        Some(instr) => line_step_role(alloc, machine, i, activity, instr),
        None => Ok(StepRole::Nothing),
    }
}

/// Returns the role of the next item, looked up by the role of its line where that is enough.
fn looked_up_step_role<K: Kind>(
    alloc: Global,
    machine: &Machine<K>,
    roles: &[LineRole],
    item: Item,
) -> Result<StepRole, AllocError>
    requires process { IsOneOf machine.now.shape.n (who item) }
    requires alone { ViewsAlone machine.now.source machine.now.state }
    requires roles { AreRoles machine.now.source roles.now }
    ensures { IfOk result (λ d. seen_step_role d ≡ step_role_of machine.now.source machine.now.state
        item) }
{
    let Item::Step(i) = item else {
        return Ok(StepRole::Nothing);
    };
    let Status::Busy(activity) = machine.status(i) else {
        return Ok(StepRole::Nothing);
    };
    match step_role_by(roles, activity.line) {
        Some(step_role) => Ok(step_role),
        None => found_step_role(alloc, machine, i, &activity),
    }
}

/// Returns whether a step of a process is seen at once to write no word, to test nothing for all
/// and to answer nothing, as most steps are.
#[inline(always)]
#[tactic(auto, using(crate::proofs::PlainSteps::plain_at))]
fn is_plain_step<K: Kind>(machine: &Machine<K>, roles: &[LineRole], i: u32) -> bool
    requires process { IsOneOf machine.now.shape.n i }
    requires roles { AreRoles machine.now.source roles.now }
    ensures { IsTrue result → step_role_of machine.now.source machine.now.state (Step i) ≡ Nothing }
{
    match machine.line(i) {
        Some(line) => is_plain(roles, line),
        None => false,
    }
}

/// Returns the role of the next item. Most steps have none, which is seen at once.
///
/// # Errors
///
/// `AllocError` where memory runs out.
#[inline(always)]
pub fn step_role_of<K: Kind>(
    alloc: Global,
    machine: &Machine<K>,
    roles: &[LineRole],
    item: Item,
) -> Result<StepRole, AllocError>
    requires process { IsOneOf machine.now.shape.n (who item) }
    requires alone { ViewsAlone machine.now.source machine.now.state }
    requires roles { AreRoles machine.now.source roles.now }
    ensures { IfOk result (λ d. seen_step_role d ≡ step_role_of machine.now.source machine.now.state
        item) }
{
    if let Item::Step(i) = item {
        if is_plain_step(machine, roles, i) {
            return Ok(StepRole::Nothing);
        }
    }
    looked_up_step_role(alloc, machine, roles, item)
}
