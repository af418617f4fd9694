//! Tests of turns that the seats of one desk take one after another, until it is closed or full.
ghost use Rattle.std.specs.Prelude.{◌≡◌, All};

use crate::benches::{Bench, new_bench};
use snap_live::{Desk, LiveFault, LiveRefusal, Seat, close};
use snap_record::Record;
use snap_semantics::{Fault, Item, Op, Outcome, Reason};
use snap_words::Seq;
use std::process::Abort;
use std::sync::Wait;
use std::test::Fail;

const UPDATE: Op = Op::Update { word: 1, value: 7 };

/// Calls the seat at this place, whose turn has this number.
fn call<R: Wait + Abort>(
    rt: &R,
    bench: &mut Bench,
    at: usize,
    op: Op,
    number: u64,
) -> Result<(), Fail> {
    assert!(rt; at < bench.seats.len());
    let seat = &mut bench.seats[at];
    assert!(rt; seat.asked() < 1000);
    let turn = seat.call(rt, &bench.desk, op)?;
    assert_eq!(rt; turn.number, number);
    Ok(())
}

/// Makes a step of the seat at this place, which is the turn of this number.
fn step<R: Wait + Abort>(
    rt: &R,
    bench: &mut Bench,
    at: usize,
    number: u64,
) -> Result<Outcome, Fail> {
    assert!(rt; at < bench.seats.len());
    let seat = &mut bench.seats[at];
    assert!(rt; seat.asked() < 1000);
    let turn = seat.step(rt, &bench.desk)?;
    assert_eq!(rt; turn.number, number);
    Ok(turn.outcome)
}

/// Makes `count` steps, the first of which is the turn of this number.
fn steps<R: Wait + Abort>(
    rt: &R,
    bench: &mut Bench,
    at: usize,
    first: u64,
    count: u64,
) -> Result<(), Fail> {
    for k in 0..count {
        let _outcome = step(rt, bench, at, first.wrapping_add(k))?;
    }
    Ok(())
}

/// Makes a crash of the process of the seat at this place, which is the turn of this number.
fn crash<R: Wait + Abort>(
    rt: &R,
    bench: &mut Bench,
    at: usize,
    number: u64,
) -> Result<Outcome, Fail> {
    assert!(rt; at < bench.seats.len());
    let seat = &mut bench.seats[at];
    assert!(rt; seat.asked() < 1000);
    let turn = seat.crash(rt, &bench.desk)?;
    assert_eq!(rt; turn.number, number);
    Ok(turn.outcome)
}

/// Returns whether a scan was answered with `values`.
fn answers(outcome: &Outcome, values: &[u64]) -> bool {
    match outcome {
        Outcome::Answered(view) => view.as_slice() == values,
        _ => false,
    }
}

/// Lets process 1 update its word, and then scan.
fn update_and_scan<R: Wait + Abort>(rt: &R, bench: &mut Bench) -> Result<(), Fail> {
    call(rt, bench, 0, UPDATE, 1)?;
    steps(rt, bench, 0, 2, 13)?;
    call(rt, bench, 0, Op::Scan, 15)?;
    steps(rt, bench, 0, 16, 8)?;
    let last = step(rt, bench, 0, 24)?;
    assert!(rt; answers(&last, &[7]));
    Ok(())
}

#[test]
fn one_seat_takes_its_turns_in_order(rt: HostRuntime) -> Result<(), Fail> {
    let mut bench = new_bench(&rt, rt.alloc(), 1)?;
    update_and_scan(&rt, &mut bench)
}

/// Lets process 1 update its word, and crash in the middle of a scan, after which a step is
/// skipped.
fn update_and_crash<R: Wait + Abort>(rt: &R, bench: &mut Bench) -> Result<(), Fail> {
    call(rt, bench, 0, UPDATE, 1)?;
    steps(rt, bench, 0, 2, 13)?;
    call(rt, bench, 0, Op::Scan, 15)?;
    steps(rt, bench, 0, 16, 4)?;
    let outcome = crash(rt, bench, 0, 20)?;
    assert!(rt; matches!(&outcome, Outcome::Crashed));
    let outcome = step(rt, bench, 0, 21)?;
    assert!(rt; matches!(&outcome, Outcome::Skipped(Reason::Crashed)));
    Ok(())
}

#[test]
fn a_seat_crashes_in_a_scan(rt: HostRuntime) -> Result<(), Fail> {
    let mut bench = new_bench(&rt, rt.alloc(), 1)?;
    update_and_crash(&rt, &mut bench)
}

/// Lets one seat meet a note of the other, after which it has seen `seen` turns.
fn meet(rt: &impl Abort, bench: &mut Bench, from: usize, to: usize, seen: u64) {
    assert!(rt; from < bench.seats.len());
    let note = bench.seats[from].note(&bench.desk);
    assert!(rt; to < bench.seats.len());
    let seat = &mut bench.seats[to];
    seat.meet(&bench.desk, note);
    assert_eq!(rt; seat.seen_len(), seen);
}

/// Lets process 1 call, and process 2 hear of it and then step, which is skipped.
fn two_turns<R: Wait + Abort>(rt: &R, bench: &mut Bench) -> Result<(), Fail> {
    call(rt, bench, 0, UPDATE, 1)?;
    meet(rt, bench, 0, 1, 1);
    let outcome = step(rt, bench, 1, 2)?;
    assert!(rt; matches!(&outcome, Outcome::Skipped(Reason::Idle)));
    Ok(())
}

/// Checks that without the last seat the desk is not closed, and all is handed back.
fn not_closed(
    rt: &impl Abort,
    desk: Desk<Seq>,
    seats: Vec<Seat<Seq>>,
    missing: u32,
) -> (Desk<Seq>, Vec<Seat<Seq>>)
    requires { All (λ s. s.desk ≡ desk) seats.items }
    ensures { (result.0 ≡ desk) × (result.1.items ≡ seats.items) }
{
    let Err((fault, desk, seats)) = close(desk, seats) else {
        panic!(rt; "closed without a seat")
    };
    assert!(rt; fault == Fault::Refused(LiveRefusal::SeatMissing(missing)));
    (desk, seats)
}

/// Returns the record of all turns, which comes once the last seat is there as well.
fn closed(rt: &impl Abort, bench: Bench, missing: u32) -> Result<Record<Seq>, Fail> {
    let Bench { desk, mut seats } = bench;
    let Some(last) = seats.pop() else {
        panic!(rt; "no seat")
    };
    let (desk, mut seats) = not_closed(rt, desk, seats, missing);
    seats.push(last)?;
    let Ok(record) = close(desk, seats) else {
        panic!(rt; "not closed")
    };
    Ok(record)
}

/// Checks that what is kept are the two turns.
fn check_two_turns(rt: &impl Abort, record: &Record<Seq>) {
    assert_eq!(rt; record.items().len(), 2);
    assert!(rt; record.items().item(1) == Some(Item::Call(1, UPDATE)));
    assert!(rt; record.items().item(2) == Some(Item::Step(2)));
}

#[test]
fn two_seats_meet_and_close(rt: HostRuntime) -> Result<(), Fail> {
    let mut bench = new_bench(&rt, rt.alloc(), 2)?;
    two_turns(&rt, &mut bench)?;
    let record = closed(&rt, bench, 2)?;
    check_two_turns(&rt, &record);
    Ok(())
}

/// Makes `count` steps of the first seat, whose process is idle.
fn idle<R: Wait + Abort>(rt: &R, bench: &mut Bench, count: u64) -> Result<(), LiveFault> {
    for _ in 0..count {
        assert!(rt; !bench.seats.is_empty());
        let seat = &mut bench.seats[0];
        assert!(rt; seat.asked() < 2_000_000);
        let _turn = seat.step(rt, &bench.desk)?;
    }
    Ok(())
}

#[test]
fn a_full_desk_takes_no_turn(rt: HostRuntime) -> Result<(), Fail> {
    let mut bench = new_bench(&rt, rt.alloc(), 1)?;
    idle(&rt, &mut bench, 1_000_000)?;
    let refused = idle(&rt, &mut bench, 1);
    assert!(rt; refused == Err(Fault::Refused(LiveRefusal::Full(1_000_000))));
    Ok(())
}
