//! Turns by priorities, in schedules made by chance: which process moves at a turn, and when its
//! priority is lowered.
ghost use Rattle.std.specs.Prelude.{◌≡◌, IfOk};
ghost use Rattle.std.specs.List.{AllByRecursion};
ghost use Rattle.snap_words.specs.Shape.{IsOneOf};
ghost use Rattle.snap_chance.specs.Priorities.{changes_of, lowered_at, order_of, passed, share};

use crate::plan::Plan;
use rand_core::Rng;
use std::alloc::{AllocError, Global};

/// A process that has turns left, and how many it has.
#[derive(Clone, Copy)]
pub(crate) struct Mover {
    pub(crate) process: u32,
    pub(crate) left: u64,
}

/// Returns how many turns each process has.
fn share(plan: &Plan) -> u64
    ensures { result ≡ share plan.now }
{
    let count = plan.shape().n();
    (plan.turns() + (count - 1)) / count
}

/// Returns the processes in a random order, the one that moves first before the others.
pub(crate) fn order_of<R: Rng>(
    alloc: Global,
    rng: &mut R,
    plan: &Plan,
) -> Result<Vec<Mover>, AllocError>
    ensures order { IfOk result (λ order. (order.items, R.stream rng.new)
        ≡ order_of plan.now plan.now.shape.n (R.stream rng.old)) }
    ensures there { IfOk result (λ order. AllByRecursion
        (λ m. IsOneOf plan.now.shape.n m.process) order.items) }
{
    let left = share(plan);
    let mut order = Vec::new(alloc);
    for i in 0..plan.shape().process_count() {
        let place = rng.next_u64() % (u64::from(i) + 1);
        order.insert(
            place as usize,
            Mover {
                process: i + 1,
                left,
            },
        )?;
    }
    Ok(order)
}

/// Returns `count` random turns, at which the process that moves is lowered.
pub(crate) fn changes_of<R: Rng>(
    alloc: Global,
    rng: &mut R,
    plan: &Plan,
    count: u64,
) -> Result<Vec<u64>, AllocError>
    ensures { IfOk result (λ changes. (changes.items, R.stream rng.new)
        ≡ changes_of plan.now count (R.stream rng.old)) }
{
    let turns = plan.turns().max(1);
    let mut changes = Vec::new(alloc);
    for k in 0..count {
        changes.push(rng.next_u64() % turns + 1)?;
    }
    Ok(changes)
}

/// Lowers the process that moves, if `turn` is one of `changes`.
pub(crate) fn lower_at(order: &mut Vec<Mover>, changes: &[u64], turn: u64)
    ensures { order.new.items ≡ lowered_at turn changes.now order.old.items }
{
    if changes.contains(&turn) && !order.is_empty() {
        order.rotate_left(1);
    }
}

/// Takes one turn from the process that has moved.
pub(crate) fn pass(order: &mut Vec<Mover>)
    ensures { order.new.items ≡ passed order.old.items }
{
    if order.is_empty() {
        return;
    }
    if order[0].left > 1 {
        order[0].left -= 1;
    } else {
        let _done = order.remove(0);
    }
}
