//! Turns by priorities, in schedules made by chance: the operation and the steps of the process
//! that moves.
ghost use Rattle.std.specs.Prelude.{◌≡◌, ◌<◌, ◌+◌, ◌^◌, ◌++◌, length, IfOk, OnOk};
ghost use Rattle.std.specs.List.{AllByRecursion};
ghost use Rattle.snap_words.specs.Shape.{IsOneOf};
ghost use Rattle.snap_semantics.specs.ScheduleText.{FitsItem, IsSchedule};
ghost use Rattle.snap_chance.specs.Priorities.{asked_turn, burst_move, move_at, move_items};
ghost use Rattle.snap_chance.specs.Priorities.{moves_from, prioritized, role_move};

use crate::draws::{Draws, draw};
use crate::plan::{Pace, Plan};
use crate::priorities::{Mover, changes_of, lower_at, order_of, pass};
use crate::turns::{
    Turn, burst_of, interrupted_process, operation_of, push_asked, scanning_turn, update_of,
    updating_turn,
};
use rand_core::Rng;
use snap_sched::Items;
use snap_semantics::Op;
use std::alloc::{AllocError, Global};

/// Returns the turn in which a process calls `op` and takes `steps` steps.
fn asked_turn(process: u32, op: Op, steps: u64) -> Turn
    ensures { result ≡ asked_turn process op steps }
{
    Turn {
        process,
        call: Some(op),
        steps,
    }
}

/// Returns a burst of steps of a process.
fn burst_move(plan: &Plan, run: u64, turn: u64, process: u32, draws: &Draws) -> Turn
    ensures { result ≡ burst_move plan.now run turn process draws.now }
{
    asked_turn(
        process,
        operation_of(plan, run, turn, process, draws),
        burst_of(draws),
    )
}

/// Returns a few steps of the process that scans in this run, or an update of another one.
fn role_move(plan: &Plan, run: u64, turn: u64, process: u32, draws: &Draws) -> Turn
    ensures { result ≡ role_move plan.now run turn process draws.now }
{
    if process == interrupted_process(plan, run) {
        asked_turn(process, Op::Scan, scanning_turn(plan, run, draws).steps)
    } else {
        asked_turn(
            process,
            update_of(plan, run, turn, process, draws),
            updating_turn(plan, run, turn, draws).steps,
        )
    }
}

/// Returns a turn of a process.
fn move_of(plan: &Plan, run: u64, turn: u64, process: u32, draws: &Draws) -> Turn
    ensures { result ≡ move_at plan.now.pace plan.now run turn process draws.now }
{
    match plan.pace() {
        Pace::Coins => asked_turn(process, operation_of(plan, run, turn, process, draws), 1),
        Pace::Bursts => burst_move(plan, run, turn, process, draws),
        Pace::Interruptions | Pace::Rounds | Pace::Witnesses | Pace::Duels => {
            role_move(plan, run, turn, process, draws)
        }
        Pace::Mixed => {
            if run % 2 == 0 {
                burst_move(plan, run, turn, process, draws)
            } else {
                role_move(plan, run, turn, process, draws)
            }
        }
    }
}

/// Appends a turn of the first process in the order.
#[tactic(auto, using(crate::proofs::Moving::move_short))]
fn push_move(
    items: &mut Items,
    plan: &Plan,
    run: u64,
    turn: u64,
    order: &[Mover],
    draws: &Draws,
) -> Result<(), AllocError>
    requires few { length items.old + 129 < 2 ^ 32 }
    requires fits { AllByRecursion FitsItem items.old }
    ensures added { OnOk result (items.new ≡ items.old
        ++ move_items plan.now run turn order.now draws.now) }
    ensures fits { OnOk result (AllByRecursion FitsItem items.new) }
{
    if order.is_empty() {
        return Ok(());
    }
    let process = order[0].process;
    if draws.crash % 1000 < plan.crashes() {
        return items.push_crash(process);
    }
    // What `shape` promises: the plan keeps the rules of plans.
    let _shape = plan.shape();
    push_asked(items, &move_of(plan, run, turn, process, draws))
}

/// Returns the turns of a plan, one after another, by an order and the turns at which it changes.
fn moves_of<R: Rng>(
    alloc: Global,
    rng: &mut R,
    plan: &Plan,
    run: u64,
    changes: &[u64],
    first: Vec<Mover>,
) -> Result<Items, AllocError>
    requires { AllByRecursion (λ m. IsOneOf plan.now.shape.n m.process) first.items }
    ensures items { IfOk result (λ items. items
        ≡ moves_from plan.now run 1 plan.now.turns changes.now first.items (R.stream rng.old)) }
    ensures schedule { IfOk result (λ items. IsSchedule
        (record { shape = plan.now.shape; items = items })) }
{
    let mut order = first;
    let mut items = Items::new(alloc);
    for turn in 0..plan.turns() {
        let draws = draw(rng);
        lower_at(&mut order, changes, turn + 1);
        push_move(&mut items, plan, run, turn + 1, order.as_slice(), &draws)?;
        pass(&mut order);
    }
    Ok(items)
}

/// Returns the turns of a plan, one after another, by priorities.
pub(crate) fn prioritized<R: Rng>(
    alloc: Global,
    rng: &mut R,
    plan: &Plan,
    run: u64,
    depth: u64,
) -> Result<Items, AllocError>
    ensures items { IfOk result (λ items. items
        ≡ prioritized plan.now run depth (R.stream rng.old)) }
    ensures schedule { IfOk result (λ items. IsSchedule
        (record { shape = plan.now.shape; items = items })) }
{
    let order = order_of(alloc, rng, plan)?;
    let changes = changes_of(alloc, rng, plan, depth.saturating_sub(1))?;
    moves_of(alloc, rng, plan, run, changes.as_slice(), order)
}
