//! Tests of desks: turns of seats, notes, and scripts that are played by threads.
ghost use Rattle.std.specs.Prelude.{◌≡◌, All, IfOk, MatchBool};
ghost use Rattle.snap_words.specs.declared.kind.KindTag.TheVariants as kind;

use snap_asm::{Program, program};
use snap_live::{
    Desk, Gate, Live, LiveFault, LiveRefusal, NoGate, Note, Seat, Turn, close, open, run_live,
};
use snap_machine::{Outcome, Reason};
use snap_record::Record;
use snap_sched::{Item, Op, print, read_scripts};
use snap_words::{KindTag, Seq, Shape};
use std::alloc::Global;
use std::process::Abort;
use std::sync::Wait;
use std::test::Fail;
use std::thread::Threads;

/// An update and a scan.
const SCRIPTS: &[u8] = b"shape 1 1\n1 update 1 7\n1 scan\n";

/// The turns of the scripts.
const HISTORY: &[u8] = b"shape 1 1\n1 update 1 7\n1*13\n1 scan\n1*9\n";

/// The operations of the scripts, and a crash.
const CRASHING: &[u8] = b"shape 1 1\n1 update 1 7\n1 scan\n1 crash 20\n";

const UPDATE: Op = Op::Update { word: 1, value: 7 };

/// A desk, and seats of it.
#[derive(Drop)]
struct Bench {
    desk: Desk<Seq>,
    seats: Vec<Seat<Seq>>,
    ghost same: { All (λ s. s.desk ≡ desk) seats.items },
}

/// Returns the program of listing U.
fn program_of_u(rt: &impl Abort, alloc: Global) -> Result<Program, Fail>
    ensures { IfOk result (λ p. p.kind ≡ kind.Seq) }
{
    let program = program(alloc, &snap_single::listing(alloc)?)?;
    assert!(rt; program.kind() == KindTag::Seq);
    Ok(program)
}

/// Returns a new desk of two processes.
fn new_bench(rt: &impl Abort, alloc: Global) -> Result<Bench, Fail> {
    let program = program_of_u(rt, alloc)?;
    let (desk, seats) = open::<Seq>(alloc, &program, Shape::new(2, 2)?)?;
    Ok(Bench { desk, seats })
}

/// Makes a call of the seat at this place.
fn call<R: Wait + Abort>(rt: &R, bench: &mut Bench, at: usize) -> Result<Turn, Fail> {
    assert!(rt; at < bench.seats.len());
    let seat = &mut bench.seats[at];
    assert!(rt; seat.asked() < 1000);
    Ok(seat.call(rt, &bench.desk, UPDATE)?)
}

/// Makes a step of the seat at this place.
fn step<R: Wait + Abort>(rt: &R, bench: &mut Bench, at: usize) -> Result<Turn, Fail> {
    assert!(rt; at < bench.seats.len());
    let seat = &mut bench.seats[at];
    assert!(rt; seat.asked() < 1000);
    Ok(seat.step(rt, &bench.desk)?)
}

/// Makes a crash of the seat at this place.
fn crash<R: Wait + Abort>(rt: &R, bench: &mut Bench, at: usize) -> Result<Turn, Fail> {
    assert!(rt; at < bench.seats.len());
    let seat = &mut bench.seats[at];
    assert!(rt; seat.asked() < 1000);
    Ok(seat.crash(rt, &bench.desk)?)
}

/// Lets the second seat meet a note of the first, after which it has seen `seen` turns.
fn meet(rt: &impl Abort, bench: &mut Bench, seen: u64) {
    assert!(rt; bench.seats.len() == 2);
    let note: Note<Seq> = bench.seats[0].note(&bench.desk);
    let seat = &mut bench.seats[1];
    seat.meet(&bench.desk, note);
    assert_eq!(rt; seat.seen_len(), seen);
    assert_eq!(rt; seat.process(), 2);
}

/// Lets process 1 call, and process 2 hear of it, step and crash.
fn take_turns<R: Wait + Abort>(rt: &R, bench: &mut Bench) -> Result<(), Fail> {
    let called = call(rt, bench, 0)?;
    assert!(rt; called.number == 1 && matches!(&called.outcome, Outcome::Called));
    meet(rt, bench, 1);
    let skipped = step(rt, bench, 1)?;
    assert!(rt; skipped.number == 2);
    assert!(rt; matches!(&skipped.outcome, Outcome::Skipped(Reason::Idle)));
    let crashed = crash(rt, bench, 1)?;
    assert!(rt; crashed.number == 3 && matches!(&crashed.outcome, Outcome::Crashed));
    Ok(())
}

/// Checks that without the second seat the desk is not closed, and all is handed back.
fn not_closed(
    rt: &impl Abort,
    desk: Desk<Seq>,
    seats: Vec<Seat<Seq>>,
) -> (Desk<Seq>, Vec<Seat<Seq>>)
    requires { All (λ s. s.desk ≡ desk) seats.items }
    ensures { (result.0 ≡ desk) × (result.1.items ≡ seats.items) }
{
    let Err((fault, desk, seats)) = close(desk, seats) else {
        panic!(rt; "closed without a seat")
    };
    assert!(rt; fault == LiveFault::Refused(LiveRefusal::SeatMissing(2)));
    (desk, seats)
}

/// Returns the record of all turns, once the second seat is there as well.
fn closed(rt: &impl Abort, bench: Bench) -> Result<Record<Seq>, Fail> {
    let Bench { desk, mut seats } = bench;
    let Some(last) = seats.pop() else {
        panic!(rt; "no seat")
    };
    let (desk, mut seats) = not_closed(rt, desk, seats);
    seats.push(last)?;
    let Ok(record) = close(desk, seats) else {
        panic!(rt; "not closed")
    };
    Ok(record)
}

#[test]
fn turns_of_seats_are_one_run(rt: HostRuntime) -> Result<(), Fail> {
    let mut bench = new_bench(&rt, rt.alloc())?;
    take_turns(&rt, &mut bench)?;
    let record = closed(&rt, bench)?;
    assert_eq!(rt; record.items().len(), 3);
    assert!(rt; record.items().item(1) == Some(Item::Call(1, UPDATE)));
    assert!(rt; record.items().item(2) == Some(Item::Step(2)));
    assert!(rt; record.items().item(3) == Some(Item::Crash(2)));
    Ok(())
}

/// Refuses one turn of each process.
#[derive(Drop)]
struct Shut {
    turn: u64,
}

impl Gate for Shut {
    ghost may_answer = { λ gate _ turn answer.
        MatchBool answer (¬ (turn ≡ gate.turn)) (turn ≡ gate.turn) };

    fn enter(&self, _process: u32, turn: u64) -> bool {
        turn != self.turn
    }
}

/// Returns what the threads of scripts did.
fn played<G: Gate, R: Threads + Wait + Sync + Abort>(
    rt: &R,
    alloc: Global,
    text: &[u8],
    gate: &G,
) -> Result<Live<Seq>, Fail> {
    let program = program_of_u(rt, alloc)?;
    let scripts = read_scripts(alloc, text)?;
    Ok(run_live::<Seq, G, R>(rt, alloc, &program, &scripts, 1000, gate)?)
}

/// Returns why the threads of scripts gave up, if they did.
fn refused<R: Threads + Wait + Sync + Abort>(
    rt: &R,
    alloc: Global,
    limit: u64,
    turn: u64,
) -> Result<Option<LiveFault>, Fail> {
    let program = program_of_u(rt, alloc)?;
    let scripts = read_scripts(alloc, SCRIPTS)?;
    assert!(rt; 1 <= limit && limit <= 1000);
    let live = run_live::<Seq, _, _>(rt, alloc, &program, &scripts, limit, &Shut { turn });
    Ok(live.err())
}

#[test]
fn a_script_is_played_by_its_thread(rt: HostRuntime) -> Result<(), Fail> {
    let live = played(&rt, rt.alloc(), SCRIPTS, &NoGate)?;
    let history = live.kept.schedule()?;
    assert_eq!(rt; print(rt.alloc(), &history)?.as_slice(), HISTORY);
    match live.turns.as_slice() {
        [turns] => assert_eq!(rt; turns.as_slice().len(), 24),
        _ => assert!(rt; false),
    }
    Ok(())
}

#[test]
fn a_script_ends_with_a_crash(rt: HostRuntime) -> Result<(), Fail> {
    let live = played(&rt, rt.alloc(), CRASHING, &NoGate)?;
    let history = live.kept.schedule()?;
    assert_eq!(rt;
        print(rt.alloc(), &history)?.as_slice(),
        b"shape 1 1\n1 update 1 7\n1*13\n1 scan\n1*4\n1 crash\n".as_slice()
    );
    Ok(())
}

#[test]
fn a_limit_or_a_gate_ends_a_script(rt: HostRuntime) -> Result<(), Fail> {
    let want = Some(LiveFault::Refused(LiveRefusal::TurnLimit(1)));
    assert!(rt; refused(&rt, rt.alloc(), 5, 1000)? == want);
    assert!(rt; refused(&rt, rt.alloc(), 1000, 24)? == want);
    assert!(rt; refused(&rt, rt.alloc(), 1000, 25)?.is_none());
    Ok(())
}
