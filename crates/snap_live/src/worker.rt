//! How a worker plays its script at a desk.
ghost use Rattle.std.specs.Prelude.{◌≡◌, ◌+◌, ◌^◌, ◌<◌, ◌≤◌, [], true, length, drop, IfOk, IfErr};
ghost use Rattle.snap_words.specs.Shape.{max_items};
ghost use Rattle.snap_semantics.specs.Table.{who};
ghost use Rattle.snap_live.specs.Shown.{IsTurn, StaysWith, seat_of};
ghost use Rattle.snap_live.specs.Untaken.{NoTurn};
ghost use Rattle.snap_live.specs.Script.{crashes_behind};
ghost use Rattle.snap_live.specs.Play.{Leaves, rest, busy, over, IsPlay, IsBegun};
ghost use Rattle.snap_live.specs.Sequels.{sequel_of};
ghost use Rattle.snap_live.specs.Worker.{Kept, Made, NoFurther, Stopped, after_operation, IsWorked};

use crate::desk::Desk;
use crate::gate::Gate;
use crate::refusal::LiveFault;
use crate::seat::{Seat, Turn};
use crate::table::Table;
use snap_record::MAX_ITEMS;
use snap_sched::Script;
use snap_semantics::{Fault, Item, Outcome};
use snap_words::Kind;
use std::alloc::Global;
use std::marker::Model;
use std::sync::Wait;

/// Why a worker stops before the end of its script.
#[derive(Clone, Copy)]
pub(crate) enum Stop {
    Memory,
    Full,
    TurnLimit,
}

/// What a worker hands back.
#[derive(Drop)]
pub(crate) struct Worked<K: Kind> {
    pub(crate) seat: Seat<K>,
    pub(crate) turns: Vec<Turn>,
    pub(crate) stop: Option<Stop>,
}

impl<K: Kind> Model for Worked<K> {
    ghost use Rattle.snap_live.specs.Worker.{WorkedView};

    ghost Value = { WorkedView };

    ghost view = { λ w. record { seat = w.seat; turns = w.turns.items; stop = w.stop } };
}

/// What an outcome means for the rest of a script.
#[derive(Clone, Copy)]
enum Sequel {
    Goes,
    Ended,
    Trapped,
    Skipped,
}

/// Returns what an outcome means for the rest of a script.
fn sequel_of(outcome: &Outcome) -> Sequel
    ensures { result ≡ sequel_of outcome.now }
{
    match outcome {
        Outcome::Called => Sequel::Goes,
        Outcome::Stepped => Sequel::Goes,
        Outcome::Answered(_) => Sequel::Ended,
        Outcome::Finished => Sequel::Ended,
        Outcome::Trapped(_) => Sequel::Trapped,
        Outcome::Crashed => Sequel::Goes,
        Outcome::Skipped(_) => Sequel::Skipped,
    }
}

/// Returns whether the crash comes at the next turn.
fn crashes_now<K: Kind>(script: &Script, seat: &Seat<K>) -> bool
    requires { seat.now.asked < 2 ^ 32 }
    ensures { result ≡ crashes_behind script.now.crash seat.now.asked }
{
    match script.crash() {
        Some(turn) => turn == seat.asked() + 1,
        None => false,
    }
}

/// Makes the turn of a seat with an item of its process.
fn take_turn<K: Kind, R: Wait>(
    rt: &R,
    desk: &Desk<K>,
    seat: &mut Seat<K>,
    item: Item,
) -> Result<Turn, LiveFault>
    requires mine { who item ≡ seat.old.process }
    requires desk { seat.old.desk ≡ desk.now }
    requires asked { seat.old.asked < 2 ^ 32 }
    ensures seat { StaysWith seat.old seat.new (seat.old.asked + 1) }
    ensures turn { IfOk result (λ t. IsTurn seat.old seat.new item t.number t.outcome) }
    ensures refused { IfErr result (λ e. NoTurn e seat.old seat.new) }
{
    match item {
        Item::Call(_, op) => seat.call(rt, desk, op),
        Item::Step(_) => seat.step(rt, desk),
        Item::Crash(_) => seat.crash(rt, desk),
    }
}

/// Makes a turn, if the gate lets the process on.
fn play_turn<K: Kind, G: Gate, R: Wait>(
    table: &Table<'_, K, G, R>,
    seat: &mut Seat<K>,
    turns: &mut Vec<Turn>,
    item: Item,
) -> Result<Sequel, Stop>
    requires kept { Kept (G.may_answer table.now.gate.now)
        table.now.desk.now seat.old.process table.now.limit seat.old turns.old.items }
    requires mine { who item ≡ seat.old.process }
    requires room { (seat.old.asked ≡ length seat.old.own) × (seat.old.asked < table.now.limit) ×
        (table.now.limit ≤ max_items) }
    ensures kept { Kept (G.may_answer table.now.gate.now)
        table.now.desk.now seat.old.process table.now.limit seat.new turns.new.items }
    ensures made { IfOk result (λ m. Made seat.old seat.new item m) }
    ensures stopped { IfErr result (λ f. (seat.new.own ≡ seat.old.own)
        × NoFurther (G.may_answer table.now.gate.now) table.now.limit seat.new f) }
{
    let process = seat.process();
    let turn = seat.asked() + 1;
    if !table.gate.enter(process, turn) {
        return Err(Stop::TurnLimit);
    }
    if turns.reserve(1).is_err() {
        // A full history comes before a lack of memory.
        if seat.seen_len() == MAX_ITEMS {
            return Err(Stop::Full);
        }
        return Err(Stop::Memory);
    }
    match take_turn(table.rt, table.desk, seat, item) {
        Ok(turn) => {
            let sequel = sequel_of(&turn.outcome);
            turns.push_reserved(turn);
            Ok(sequel)
        }
        Err(Fault::Refused(_)) => Err(Stop::Full),
        Err(Fault::Memory) => Err(Stop::Memory),
    }
}

/// Plays the crash, at its turn.
fn play_crash<K: Kind, G: Gate, R: Wait>(
    table: &Table<'_, K, G, R>,
    seat: &mut Seat<K>,
    turns: &mut Vec<Turn>,
    script: &Script,
) -> Result<(), Stop>
    requires kept { Kept (G.may_answer table.now.gate.now)
        table.now.desk.now seat.old.process table.now.limit seat.old turns.old.items }
    requires plays { IsBegun script.now seat.old.own ×
        (crashes_behind script.now.crash seat.old.asked ≡ true) }
    requires room { (seat.old.asked ≡ length seat.old.own) × (seat.old.asked < table.now.limit) ×
        (table.now.limit ≤ max_items) }
    ensures kept { Kept (G.may_answer table.now.gate.now)
        table.now.desk.now seat.old.process table.now.limit seat.new turns.new.items }
    ensures played { IfOk result (λ _. (seat.new.asked ≡ length seat.new.own) ×
        Leaves script.now seat.new.own over) }
    ensures stopped { IfErr result (λ f.
        Stopped (G.may_answer table.now.gate.now) script.now table.now.limit seat.new f) }
{
    let crash = Item::Crash(seat.process());
    play_turn(table, seat, turns, crash)?;
    Ok(())
}

/// Plays steps up to the end of the last operation that was called, and returns true if nothing
/// follows it.
fn play_steps<K: Kind, G: Gate, R: Wait>(
    table: &Table<'_, K, G, R>,
    seat: &mut Seat<K>,
    turns: &mut Vec<Turn>,
    script: &Script,
    at: usize,
) -> Result<bool, Stop>
    requires kept { Kept (G.may_answer table.now.gate.now)
        table.now.desk.now seat.old.process table.now.limit seat.old turns.old.items }
    requires plays { Leaves script.now seat.old.own (busy (drop (at + 1) script.now.operations)) }
    requires room { (seat.old.asked ≡ length seat.old.own) × (table.now.limit ≤ max_items) }
    ensures kept { Kept (G.may_answer table.now.gate.now)
        table.now.desk.now seat.old.process table.now.limit seat.new turns.new.items }
    ensures played { IfOk result (λ t. (seat.new.asked ≡ length seat.new.own) ×
        Leaves script.now seat.new.own (after_operation t (drop (at + 1) script.now.operations))) }
    ensures stopped { IfErr result (λ f.
        Stopped (G.may_answer table.now.gate.now) script.now table.now.limit seat.new f) }
{
    let step = Item::Step(seat.process());
    for _turn in seat.asked()..table.limit {
        if crashes_now(script, seat) {
            play_crash(table, seat, turns, script)?;
            return Ok(true);
        }
        match play_turn(table, seat, turns, step)? {
            Sequel::Ended => return Ok(false),
            Sequel::Trapped => return Ok(true),
            Sequel::Goes => (),
            Sequel::Skipped => (),
        }
    }
    Err(Stop::TurnLimit)
}

/// Plays the operation at place `at` of the script, and returns true if nothing follows it.
fn play_operation<K: Kind, G: Gate, R: Wait>(
    table: &Table<'_, K, G, R>,
    seat: &mut Seat<K>,
    turns: &mut Vec<Turn>,
    script: &Script,
    at: usize,
) -> Result<bool, Stop>
    requires kept { Kept (G.may_answer table.now.gate.now)
        table.now.desk.now seat.old.process table.now.limit seat.old turns.old.items }
    requires plays { (at < length script.now.operations) ×
        Leaves script.now seat.old.own (rest (drop at script.now.operations)) }
    requires room { (seat.old.asked ≡ length seat.old.own) × (table.now.limit ≤ max_items) }
    ensures kept { Kept (G.may_answer table.now.gate.now)
        table.now.desk.now seat.old.process table.now.limit seat.new turns.new.items }
    ensures played { IfOk result (λ t. (seat.new.asked ≡ length seat.new.own) ×
        Leaves script.now seat.new.own (after_operation t (drop (at + 1) script.now.operations))) }
    ensures stopped { IfErr result (λ f.
        Stopped (G.may_answer table.now.gate.now) script.now table.now.limit seat.new f) }
{
    if seat.asked() >= table.limit {
        return Err(Stop::TurnLimit);
    }
    if crashes_now(script, seat) {
        play_crash(table, seat, turns, script)?;
        return Ok(true);
    }
    let call = Item::Call(seat.process(), script.operations()[at]);
    match play_turn(table, seat, turns, call)? {
        Sequel::Skipped => Ok(false),
        _ => play_steps(table, seat, turns, script, at),
    }
}

/// Plays the whole script.
fn play<K: Kind, G: Gate, R: Wait>(
    table: &Table<'_, K, G, R>,
    seat: &mut Seat<K>,
    turns: &mut Vec<Turn>,
    script: &Script,
) -> Result<(), Stop>
    requires kept { Kept (G.may_answer table.now.gate.now)
        table.now.desk.now seat.old.process table.now.limit seat.old turns.old.items }
    requires fresh { (seat.old.own ≡ []) × (seat.old.asked ≡ 0) × (table.now.limit ≤ max_items) }
    ensures kept { Kept (G.may_answer table.now.gate.now)
        table.now.desk.now seat.old.process table.now.limit seat.new turns.new.items }
    ensures played { IfOk result (λ _. IsPlay script.now seat.new.own) }
    ensures stopped { IfErr result (λ f.
        Stopped (G.may_answer table.now.gate.now) script.now table.now.limit seat.new f) }
{
    for at in 0..script.operations().len() {
        if play_operation(table, seat, turns, script, at)? {
            return Ok(());
        }
    }
    Ok(())
}

/// Plays the script of one seat.
pub(crate) fn work<K: Kind, G: Gate, R: Wait>(
    table: &Table<'_, K, G, R>,
    alloc: Global,
    mut seat: Seat<K>,
    script: &Script,
) -> Worked<K>
    requires { (seat ≡ seat_of table.now.desk.now seat.process) × (table.now.limit ≤ max_items) }
    ensures { IsWorked (G.may_answer table.now.gate.now)
        table.now.desk.now seat.process script.now table.now.limit result }
{
    let mut turns = Vec::new(alloc);
    let stop = play(table, &mut seat, &mut turns, script).err();
    Worked { seat, turns, stop }
}
