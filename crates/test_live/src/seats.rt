//! Tests of two seats, each in a thread of its own, that take turns at one desk.
ghost use Rattle.std.specs.Prelude.{◌≡◌, ◌↔◌, IsTrue, IfOk};
ghost use Rattle.snap_words.specs.Shape.{IsOneOf};

use crate::benches::{Bench, new_bench};
use crate::numbers::has_each_turn_once;
use crate::programs::program;
use snap_live::{Desk, LiveFault, LiveRun, Seat, Turn, Turns, close};
use snap_record::Record;
use snap_report::report;
use snap_semantics::{Event, Happening, Item, Op, Outcome, Reason, who};
use snap_text::Draft;
use snap_words::{Seq, Shape};
use std::alloc::{AllocError, Global};
use std::process::Abort;
use std::snapshot::Snapshot;
use std::sync::Wait;
use std::sync::atomic::{AtomicU64, Ordering};
use std::test::Fail;
use std::thread;
use std::thread::{Promise, PromisedHandle, Scope, Threads};

/// How many desks a test plays at, one after another.
const DESKS: u64 = 36;

/// An update has 18 turns if no other one writes, the last of which ends it.
const ALONE: u64 = 18;

/// The most steps of an operation of two processes.
const MOST_STEPS: u32 = 70;

/// How often a thread looks for the other one before it goes on without it.
const MOST_LOOKS: u32 = 100_000;

/// How two threads play at a desk. The second one begins while the first one is at its update, and
/// where in it is up to the round, so that in some rounds a write meets a double collect.
#[derive(Drop)]
struct Round {
    /// How many turns the first thread makes before the second one begins.
    lead: u64,
    /// Whether each thread makes one step more, once it is idle.
    idle: bool,
    /// How many of the two are there.
    there: AtomicU64,
    /// How many turns were made.
    made: AtomicU64,
}

/// A seat, and the turns that it made.
#[derive(Drop)]
struct Player {
    seat: Seat<Seq>,
    turns: Vec<Turn>,
}

/// The promise of a thread that it hands back a seat of its desk.
#[derive(Drop)]
struct PlayerPromise {
    desk: Snapshot<Desk<Seq>>,
}

impl Promise<Result<Player, LiveFault>> for PlayerPromise {
    ghost kept_by = { λ p r. IfOk r (λ w. w.seat.desk ≡ p.desk.value) };
}

/// Looks until the count is as high as wanted, or has looked often enough.
fn look_for(count: &AtomicU64, wanted: u64) {
    for _ in 0..MOST_LOOKS {
        if count.load(Ordering::SeqCst) >= wanted {
            return;
        }
        thread::yield_now();
    }
}

/// Waits for the time to begin, when both are there, and the first one has its lead.
fn begin(round: &Round, process: u32) {
    round.there.fetch_add(1, Ordering::SeqCst);
    look_for(&round.there, 2);
    if process != 1 {
        look_for(&round.made, round.lead);
    }
}

/// Calls an update of its own word at the process of the seat.
fn call<R: Wait + Abort>(rt: &R, desk: &Desk<Seq>, seat: &mut Seat<Seq>) -> Result<Turn, LiveFault>
    requires { seat.old.desk ≡ desk.now }
    ensures { seat.new.desk ≡ desk.now }
{
    assert!(rt; seat.asked() < 1000);
    let word = u64::from(seat.process());
    seat.call(
        rt,
        desk,
        Op::Update {
            word,
            value: 10 * word,
        },
    )
}

/// Makes a step of the seat.
fn step<R: Wait + Abort>(rt: &R, desk: &Desk<Seq>, seat: &mut Seat<Seq>) -> Result<Turn, LiveFault>
    requires { seat.old.desk ≡ desk.now }
    ensures { seat.new.desk ≡ desk.now }
{
    assert!(rt; seat.asked() < 1000);
    seat.step(rt, desk)
}

/// Steps until the operation is finished.
fn finish<R: Wait + Abort>(
    rt: &R,
    desk: &Desk<Seq>,
    player: &mut Player,
    made: &AtomicU64,
) -> Result<(), LiveFault>
    requires { player.old.seat.desk ≡ desk.now }
    ensures { player.new.seat.desk ≡ desk.now }
{
    for _step in 0..MOST_STEPS {
        made.fetch_add(1, Ordering::SeqCst);
        let turn = step(rt, desk, &mut player.seat)?;
        let finished = matches!(&turn.outcome, Outcome::Finished);
        player.turns.push(turn)?;
        if finished {
            return Ok(());
        }
    }
    panic!(rt; "not finished after {MOST_STEPS} steps")
}

/// Makes a step more, which is skipped, since the process is idle.
fn step_idle<R: Wait + Abort>(
    rt: &R,
    desk: &Desk<Seq>,
    player: &mut Player,
) -> Result<(), LiveFault>
    requires { player.old.seat.desk ≡ desk.now }
    ensures { player.new.seat.desk ≡ desk.now }
{
    let turn = step(rt, desk, &mut player.seat)?;
    assert!(rt; matches!(&turn.outcome, Outcome::Skipped(Reason::Idle)));
    player.turns.push(turn)?;
    Ok(())
}

/// Plays a seat in its thread.
fn play<R: Wait + Abort>(
    rt: &R,
    alloc: Global,
    desk: &Desk<Seq>,
    seat: Seat<Seq>,
    round: &Round,
) -> Result<Player, LiveFault>
    requires { seat.desk ≡ desk.now }
    ensures { IfOk result (λ p. p.seat.desk ≡ desk.now) }
{
    let mut player = Player {
        seat,
        turns: Vec::new(alloc),
    };
    begin(round, player.seat.process());
    let turn = call(rt, desk, &mut player.seat)?;
    player.turns.push(turn)?;
    finish(rt, desk, &mut player, &round.made)?;
    if round.idle {
        step_idle(rt, desk, &mut player)?;
    }
    Ok(player)
}

/// Starts the thread of a seat.
fn start<'s, E, R: Threads + Wait + Sync + Abort>(
    scope: &Scope<'s, E>,
    rt: &'s R,
    alloc: Global,
    desk: &'s Desk<Seq>,
    seat: Seat<Seq>,
    round: &'s Round,
) -> Result<PromisedHandle<Result<Player, LiveFault>, PlayerPromise>, AllocError>
    requires { seat.desk ≡ desk.now }
    ensures { IfOk result (λ h. h.promise.desk.value ≡ desk.now) }
{
    let child = scope.spawn_with(
        PlayerPromise {
            desk: Snapshot::of(desk),
        },
        move || -> Result<Player, LiveFault>
            requires { seat.desk ≡ desk.now }
            ensures { IfOk result (λ p. p.seat.desk ≡ desk.entry.now) }
        { play(rt, alloc, desk, seat, round) },
    )?;
    Ok(child)
}

/// Runs both threads at once, which have ended when the function returns.
fn play_both<R: Threads + Wait + Sync + Abort>(
    rt: &R,
    alloc: Global,
    desk: &Desk<Seq>,
    first: Seat<Seq>,
    second: Seat<Seq>,
    round: &Round,
) -> Result<(Player, Player), LiveFault>
    requires { (first.desk ≡ desk.now) × (second.desk ≡ desk.now) }
    ensures { IfOk result (λ r. (r.0.seat.desk ≡ desk.now) × (r.1.seat.desk ≡ desk.now)) }
{
    thread::scope(
        thread::scope_env(),
        rt,
        move |scope| -> Result<(Player, Player), LiveFault>
            requires { (first.desk ≡ desk.now) × (second.desk ≡ desk.now) }
            ensures { IfOk result (λ r. (r.0.seat.desk ≡ desk.entry.now) ×
                (r.1.seat.desk ≡ desk.entry.now)) }
        {
            let first = start(scope, rt, alloc, desk, first, round)?;
            let second = start(scope, rt, alloc, desk, second, round)?;
            let first = first.join(rt);
            let second = second.join(rt);
            Ok((first?, second?))
        },
    )
}

/// Returns what is kept of both, once their seats are back.
fn closed(
    rt: &impl Abort,
    alloc: Global,
    desk: Desk<Seq>,
    first: Player,
    second: Player,
) -> Result<LiveRun<Seq>, Fail>
    requires { (first.seat.desk ≡ desk) × (second.seat.desk ≡ desk) }
{
    let mut seats = Vec::new(alloc);
    seats.push(first.seat)?;
    seats.push(second.seat)?;
    let mut turns = Vec::new(alloc);
    turns.push(Turns::of(first.turns))?;
    turns.push(Turns::of(second.turns))?;
    let Ok(kept) = close(desk, seats) else {
        panic!(rt; "not closed")
    };
    Ok(LiveRun { kept, turns })
}

/// Plays a round at a new desk.
fn play_round<R: Threads + Wait + Sync + Abort>(
    rt: &R,
    alloc: Global,
    round: &Round,
) -> Result<LiveRun<Seq>, Fail> {
    let Bench { desk, mut seats } = new_bench(rt, alloc, 2)?;
    let (Some(second), Some(first)) = (seats.pop(), seats.pop()) else {
        panic!(rt; "no two seats")
    };
    let (first, second) = play_both(rt, alloc, &desk, first, second, round)?;
    closed(rt, alloc, desk, first, second)
}

/// Returns whether there is a process of this number.
fn has(record: &Record<Seq>, process: u32) -> bool
    ensures { IsTrue result ↔ IsOneOf «record».now.shape.n process }
{
    0 < process && u64::from(process) <= record.machine().shape().n()
}

/// Does an item.
fn apply(rt: &impl Abort, record: &mut Record<Seq>, item: Item) -> Result<(), Fail> {
    assert!(rt; has(record, who(item)));
    let _outcome = record.apply(item)?;
    Ok(())
}

/// Runs the items once more, in the current thread alone.
fn run_again(rt: &impl Abort, alloc: Global, kept: &Record<Seq>) -> Result<Record<Seq>, Fail> {
    let program = program(rt, alloc)?;
    let mut again = Record::new(alloc, &program, Shape::new(2, 2)?)?;
    for number in 1..=kept.items().len() {
        let Some(item) = kept.items().item(number) else {
            panic!(rt; "no item {number}")
        };
        apply(rt, &mut again, item)?;
    }
    Ok(again)
}

/// Returns how often the process was done with an operation.
fn done_count(events: &[Event], process: u32) -> usize {
    events
        .iter()
        .filter(|event| event.process == process && matches!(&event.what, Happening::Done))
        .count()
}

/// Checks what callers saw: a call and an end of each process.
fn check_events(rt: &impl Abort, events: &[Event]) {
    assert_eq!(rt; events.len(), 4);
    assert_eq!(rt; done_count(events, 1), 1);
    assert_eq!(rt; done_count(events, 2), 1);
}

/// Returns the report of all items of a record.
fn report_of(alloc: Global, record: &Record<Seq>) -> Result<Vec<u8>, AllocError> {
    let mut text = Draft::new(alloc);
    let position = record.items().len();
    report(
        &mut text,
        record.machine(),
        record.events(),
        position,
        position,
    );
    text.finish()
}

/// Checks that the words have what was written, and that the report is that of the items.
fn check_report(rt: &impl Abort, alloc: Global, kept: &Record<Seq>) -> Result<(), Fail> {
    let Some(values) = kept.values_after(kept.items().len())? else {
        panic!(rt; "no values")
    };
    assert_eq!(rt; values.as_slice(), [10, 20].as_slice());
    let again = run_again(rt, alloc, kept)?;
    assert!(rt; report_of(alloc, kept)?.as_slice() == report_of(alloc, &again)?.as_slice());
    Ok(())
}

/// Returns how many items there are: 12 more if a write of one failed the first double collect of
/// the other, which only one of two can, and 2 more if each made a step when it was idle.
fn wanted_len(kept: &Record<Seq>, idle: bool) -> u64 {
    match (kept.event_collects().contains(&2), idle) {
        (false, false) => 36,
        (false, true) => 38,
        (true, false) => 48,
        (true, true) => 50,
    }
}

/// Checks what is kept of a round: each turn once, and nothing else.
fn check_kept(rt: &impl Abort, alloc: Global, live: &LiveRun<Seq>, idle: bool) -> Result<(), Fail> {
    assert_eq!(rt; live.kept.items().len(), wanted_len(&live.kept, idle));
    assert!(rt; has_each_turn_once(alloc, live)?);
    check_events(rt, live.kept.events());
    check_report(rt, alloc, &live.kept)
}

/// Plays at many desks, one after another.
fn play_rounds<R: Threads + Wait + Sync + Abort>(
    rt: &R,
    alloc: Global,
    idle: bool,
) -> Result<(), Fail> {
    for k in 0..DESKS {
        let round = Round {
            lead: k % ALONE,
            idle,
            there: AtomicU64::new(0),
            made: AtomicU64::new(0),
        };
        let live = play_round(rt, alloc, &round)?;
        check_kept(rt, alloc, &live, idle)?;
    }
    Ok(())
}

#[test]
fn two_threads_take_turns(rt: HostRuntime) -> Result<(), Fail> {
    play_rounds(&rt, rt.alloc(), false)
}

#[test]
fn a_step_of_an_idle_seat_is_skipped(rt: HostRuntime) -> Result<(), Fail> {
    play_rounds(&rt, rt.alloc(), true)
}
