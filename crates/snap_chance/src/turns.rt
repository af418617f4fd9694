//! `Turn`: one turn of a schedule made by chance: its process, the operation that it calls, if any,
//! and how many steps it takes.
ghost use Rattle.std.specs.Prelude.{◌≡◌, ◌<◌, ◌≤◌, ◌+◌, ◌^◌, ◌++◌, length, OnOk};
ghost use Rattle.std.specs.List.{AllByRecursion};
ghost use Rattle.snap_words.specs.Shape.{IsOneOf};
ghost use Rattle.snap_semantics.specs.ScheduleText.{FitsItem};
ghost use Rattle.snap_chance.specs.Paces.{mixed_turn, turn_items, turn_of};
ghost use Rattle.snap_chance.specs.Turns.{
  asked_items,
  burst_of,
  burst_turn,
  coin_turn,
  interrupted_turn,
  interrupted_process,
  operation_of,
  process_of,
  repeats,
  round_process,
  round_scan,
  round_turn,
  round_update,
  round_value,
  scanning_turn,
  update_of,
  updating_turn,
  value_of,
  whole_update,
  word_of,
};

use crate::draws::Draws;
use crate::plan::{Pace, Plan};
use crate::stories::{duel_turn, witness_turn};
use snap_sched::Items;
use snap_semantics::Op;
use std::alloc::AllocError;

/// A turn of a process: the operation that it calls, if any, and how many steps it takes then.
#[derive(Clone, Copy)]
pub(crate) struct Turn {
    pub(crate) process: u32,
    pub(crate) call: Option<Op>,
    pub(crate) steps: u64,
}

/// Returns the process that is drawn for a turn.
fn process_of(plan: &Plan, draws: &Draws) -> u32
    ensures { result ≡ process_of plan.now draws.now }
{
    (draws.process % u64::from(plan.shape().process_count())) as u32 + 1
}

/// Returns how many steps a burst is.
pub(crate) fn burst_of(draws: &Draws) -> u64
    ensures { result ≡ burst_of draws.now }
{
    draws.length % (1 << (draws.scale % 8)) + 1
}

/// Returns the word that an update of a process sets.
pub(crate) fn word_of(plan: &Plan, process: u32, draws: &Draws) -> u64
    ensures { result ≡ word_of plan.now process draws.now }
{
    if plan.owns() {
        u64::from(process)
    } else {
        draws.word % plan.shape().w() + 1
    }
}

/// Returns whether the values of a run repeat.
fn repeats(plan: &Plan, run: u64) -> bool
    ensures { result ≡ repeats plan.now run }
{
    plan.repeated() > 0 && run / 2 % 2 == 1
}

/// Returns the value that the update of a turn sets.
fn value_of(plan: &Plan, run: u64, turn: u64, draws: &Draws) -> u64
    ensures { result ≡ value_of plan.now run turn draws.now }
{
    if repeats(plan, run) {
        draws.value % (u64::from(plan.repeated()) + 1)
    } else {
        turn
    }
}

/// Returns the update of a turn.
pub(crate) fn update_of(plan: &Plan, run: u64, turn: u64, process: u32, draws: &Draws) -> Op
    ensures { result ≡ update_of plan.now run turn process draws.now }
{
    Op::Update {
        word: word_of(plan, process, draws),
        value: value_of(plan, run, turn, draws),
    }
}

/// Returns the operation of a turn.
pub(crate) fn operation_of(plan: &Plan, run: u64, turn: u64, process: u32, draws: &Draws) -> Op
    ensures { result ≡ operation_of plan.now run turn process draws.now }
{
    if draws.scan % 2 == 0 {
        Op::Scan
    } else {
        update_of(plan, run, turn, process, draws)
    }
}

/// Returns a turn of one step, before which one turn in eight calls an operation.
fn coin_turn(plan: &Plan, run: u64, turn: u64, draws: &Draws) -> Turn
    ensures { result ≡ coin_turn plan.now run turn draws.now }
{
    let process = process_of(plan, draws);
    let call = if draws.call % 8 == 0 {
        Some(operation_of(plan, run, turn, process, draws))
    } else {
        None
    };
    Turn {
        process,
        call,
        steps: 1,
    }
}

/// Returns a burst of steps, before which one turn in two calls an operation.
fn burst_turn(plan: &Plan, run: u64, turn: u64, draws: &Draws) -> Turn
    ensures { result ≡ burst_turn plan.now run turn draws.now }
{
    let process = process_of(plan, draws);
    let call = if draws.call % 2 == 0 {
        Some(operation_of(plan, run, turn, process, draws))
    } else {
        None
    };
    Turn {
        process,
        call,
        steps: burst_of(draws),
    }
}

/// Returns the process whose scans are interrupted in a run.
pub(crate) fn interrupted_process(plan: &Plan, run: u64) -> u32
    ensures { result ≡ interrupted_process plan.now run }
{
    (run / 2 % u64::from(plan.shape().process_count())) as u32 + 1
}

/// Returns a few steps of the process that scans.
pub(crate) fn scanning_turn(plan: &Plan, run: u64, draws: &Draws) -> Turn
    ensures { result ≡ scanning_turn plan.now run draws.now }
{
    let call = if draws.call % 4 == 0 {
        Some(Op::Scan)
    } else {
        None
    };
    Turn {
        process: interrupted_process(plan, run),
        call,
        steps: draws.length % 8 + 1,
    }
}

/// Returns how many steps make an update whole, where nothing comes between them and the processes
/// are few.
pub(crate) fn whole_update(plan: &Plan) -> u64
    ensures value { result ≡ whole_update plan.now }
    ensures some { 24 ≤ result }
    ensures few { result ≤ 128 }
{
    (24 * u64::from(plan.shape().process_count())).min(128)
}

/// Returns an update, whole or its first part.
pub(crate) fn updating_turn(plan: &Plan, run: u64, turn: u64, draws: &Draws) -> Turn
    ensures { result ≡ updating_turn plan.now run turn draws.now }
{
    let process = process_of(plan, draws);
    let whole = whole_update(plan);
    let steps = if draws.call % 4 == 0 {
        draws.length % whole + 1
    } else {
        whole
    };
    Turn {
        process,
        call: Some(update_of(plan, run, turn, process, draws)),
        steps,
    }
}

/// Returns a turn of the process that scans, or of one that interrupts its scan.
fn interrupted_turn(plan: &Plan, run: u64, turn: u64, draws: &Draws) -> Turn
    ensures { result ≡ interrupted_turn plan.now run turn draws.now }
{
    if draws.scale % 2 == 0 {
        scanning_turn(plan, run, draws)
    } else {
        updating_turn(plan, run, turn, draws)
    }
}

/// Returns a process of the rounds of a run: number 0 scans, and numbers 1 and 2 update.
pub(crate) fn round_process(plan: &Plan, run: u64, number: u64) -> u32
    requires { number ≤ 2 }
    ensures { result ≡ round_process plan.now run number }
{
    ((run / 8 + number) % u64::from(plan.shape().process_count())) as u32 + 1
}

/// Returns the value that an update of a round sets.
fn round_value(plan: &Plan, run: u64, turn: u64) -> u64
    ensures { result ≡ round_value plan.now run turn }
{
    if repeats(plan, run) {
        turn / 3 % (u64::from(plan.repeated()) + 1)
    } else {
        turn
    }
}

/// Returns a turn of the process that scans: a call if no scan is going on, and a few steps.
fn round_scan(plan: &Plan, run: u64, draws: &Draws) -> Turn
    ensures { result ≡ round_scan plan.now run draws.now }
{
    Turn {
        process: round_process(plan, run, 0),
        call: Some(Op::Scan),
        steps: draws.length % 4 + 1,
    }
}

/// Returns a whole update of one of two processes.
fn round_update(plan: &Plan, run: u64, turn: u64, draws: &Draws) -> Turn
    ensures { result ≡ round_update plan.now run turn draws.now }
{
    let process = round_process(plan, run, draws.process % 2 + 1);
    Turn {
        process,
        call: Some(Op::Update {
            word: word_of(plan, process, draws),
            value: round_value(plan, run, turn),
        }),
        steps: whole_update(plan),
    }
}

/// Returns a turn of a round.
fn round_turn(plan: &Plan, run: u64, turn: u64, draws: &Draws) -> Turn
    ensures { result ≡ round_turn plan.now run turn draws.now }
{
    if turn % 3 == 0 {
        round_scan(plan, run, draws)
    } else {
        round_update(plan, run, turn, draws)
    }
}

/// Returns a turn of a run of each kind in turn, by the number of the run.
fn mixed_turn(plan: &Plan, run: u64, turn: u64, draws: &Draws) -> Turn
    ensures { result ≡ mixed_turn plan.now run turn draws.now }
{
    let kind = run % 8;
    if kind == 7 {
        round_turn(plan, run, turn, draws)
    } else if kind == 5 {
        witness_turn(plan, run, turn, draws)
    } else if kind == 4 || kind == 6 {
        duel_turn(plan, run, turn, draws)
    } else if kind == 1 || kind == 3 {
        interrupted_turn(plan, run, turn, draws)
    } else {
        burst_turn(plan, run, turn, draws)
    }
}

/// Returns a turn that is no crash.
fn turn_of(plan: &Plan, run: u64, turn: u64, draws: &Draws) -> Turn
    ensures { result ≡ turn_of plan.now run turn draws.now }
{
    match plan.pace() {
        Pace::Coins => coin_turn(plan, run, turn, draws),
        Pace::Bursts => burst_turn(plan, run, turn, draws),
        Pace::Interruptions => interrupted_turn(plan, run, turn, draws),
        Pace::Rounds => round_turn(plan, run, turn, draws),
        Pace::Witnesses => witness_turn(plan, run, turn, draws),
        Pace::Duels => duel_turn(plan, run, turn, draws),
        Pace::Mixed => mixed_turn(plan, run, turn, draws),
    }
}

/// Appends the call of a turn, if it has one, and its steps.
pub(crate) fn push_asked(items: &mut Items, turn: &Turn) -> Result<(), AllocError>
    requires few { length items.old + 129 < 2 ^ 32 }
    requires short { turn.now.steps ≤ 128 }
    ensures added { OnOk result (items.new ≡ items.old ++ asked_items turn.now) }
    ensures fits { OnOk result (AllByRecursion FitsItem items.new) }
{
    if let Some(op) = turn.call {
        items.push_call(turn.process, op)?;
    }
    items.push_steps(turn.process, turn.steps)
}

/// Appends a turn.
#[tactic(auto, using(crate::proofs::Turning::turn_short))]
pub(crate) fn push_turn(
    items: &mut Items,
    plan: &Plan,
    run: u64,
    turn: u64,
    draws: &Draws,
) -> Result<(), AllocError>
    requires { length items.old + 129 < 2 ^ 32 }
    ensures added { OnOk result (items.new ≡ items.old
        ++ turn_items plan.now run turn draws.now) }
    ensures fits { OnOk result (AllByRecursion FitsItem items.new) }
{
    if draws.crash % 1000 < plan.crashes() {
        return items.push_crash(process_of(plan, draws));
    }
    // What `shape` promises: the plan keeps the rules of plans.
    let _shape = plan.shape();
    push_asked(items, &turn_of(plan, run, turn, draws))
}
