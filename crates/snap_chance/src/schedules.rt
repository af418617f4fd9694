//! `schedule_of`: the schedule that a seed and the number of a run give by a `Plan`.
ghost use Rattle.std.specs.Prelude.{◌≡◌, IfOk};
ghost use Rattle.snap_semantics.specs.ScheduleText.{IsSchedule};
ghost use Rattle.snap_chance.specs.Chance.{items_by, schedule_of, start_of, turns_from};

use crate::draws::draw;
use crate::moves::prioritized;
use crate::plan::Plan;
use crate::turns::push_turn;
use rand_core::{Rng, SeedableRng};
use rand_xoshiro::SplitMix64;
use snap_sched::{Items, Schedule};
use std::alloc::{AllocError, Global};

/// Returns where the generator of a run starts.
fn start_of(seed: u64, run: u64) -> u64
    ensures { result ≡ start_of seed run }
{
    SplitMix64::seed_from_u64(seed).next_u64().wrapping_add(run)
}

/// Returns the turns of a plan, one after another.
fn turns_of<R: Rng>(alloc: Global, rng: &mut R, plan: &Plan, run: u64) -> Result<Items, AllocError>
    ensures items { IfOk result (λ items. items
        ≡ turns_from plan.now run 1 plan.now.turns (R.stream rng.old)) }
    ensures schedule { IfOk result (λ items. IsSchedule
        (record { shape = plan.now.shape; items = items })) }
{
    let mut items = Items::new(alloc);
    for turn in 0..plan.turns() {
        let draws = draw(rng);
        push_turn(&mut items, plan, run, turn + 1, &draws)?;
    }
    Ok(items)
}

/// Returns the items of a run.
fn items_of<R: Rng>(alloc: Global, rng: &mut R, plan: &Plan, run: u64) -> Result<Items, AllocError>
    ensures items { IfOk result (λ items. items
        ≡ items_by plan.now.depth plan.now run (R.stream rng.old)) }
    ensures schedule { IfOk result (λ items. IsSchedule
        (record { shape = plan.now.shape; items = items })) }
{
    match plan.depth() {
        None => turns_of(alloc, rng, plan, run),
        Some(depth) => prioritized(alloc, rng, plan, run, depth),
    }
}

/// Returns the schedule that `seed` and the number of a run give by `plan`. Each run has a random
/// sequence of its own.
///
/// # Errors
///
/// `AllocError` where memory runs out.
#[tactic(auto, unfolding(crate::specs::Chance::schedule_of))]
pub fn schedule_of(alloc: Global, seed: u64, run: u64, plan: &Plan) -> Result<Schedule, AllocError>
    ensures { IfOk result (λ s. s ≡ schedule_of seed run plan.now) }
{
    let mut rng = SplitMix64::seed_from_u64(start_of(seed, run));
    let items = items_of(alloc, &mut rng, plan, run)?;
    Ok(Schedule::new(plan.shape(), items))
}
