//! A scene of calls that may want memory: the one seat of a desk takes its turns, and the desk is
//! closed.
ghost use Rattle.std.specs.Prelude.{◌≡◌, All};
ghost use Rattle.snap_words.specs.declared.kind.KindTag.TheVariants as kind;

use crate::inputs::single;
use crate::outcomes::{record_report, tell_outcome};
use crate::scene_trouble::SceneTrouble;
use crate::trials::{tell, tried};
use snap_asm_program::Program;
use snap_live::{Desk, Seat, Turn, close, open};
use snap_semantics::Op;
use snap_words::{Seq, Shape};
use std::alloc::Global;
use std::sync::Wait;

/// An update, its steps, a scan, and its steps.
const TURNS: u64 = 24;

/// A desk, and its seats.
#[derive(Drop)]
struct Bench {
    desk: Desk<Seq>,
    seats: Vec<Seat<Seq>>,
    ghost same: { All (λ s. s.desk ≡ desk) seats.items },
}

/// Returns a new desk with one process and one word.
fn new_bench(alloc: Global, program: &Program) -> Result<Bench, SceneTrouble>
    requires { program.now.kind ≡ kind.Seq }
{
    let (desk, seats) = open::<Seq>(alloc, program, Shape::new(1, 1)?)?;
    Ok(Bench { desk, seats })
}

/// Returns what the seat is to do at a turn of this number: a call where one is due, and a step
/// otherwise.
fn due(number: u64) -> Option<Op> {
    match number {
        1 => Some(Op::Update { word: 1, value: 7 }),
        15 => Some(Op::Scan),
        _ => None,
    }
}

/// Makes a turn of the seat. Whatever comes of it, the seat has asked for one more.
fn turn<R: Wait>(rt: &R, bench: &mut Bench, number: u64) -> Result<Turn, SceneTrouble> {
    if bench.seats.is_empty() {
        return Err(SceneTrouble::Refused);
    }
    let seat = &mut bench.seats[0];
    let asked = seat.asked();
    if asked >= 2 * TURNS {
        return Err(SceneTrouble::Refused);
    }
    let answer = match due(number) {
        Some(op) => seat.call(rt, &bench.desk, op),
        None => seat.step(rt, &bench.desk),
    };
    if seat.asked() != asked + 1 {
        return Err(SceneTrouble::Changed);
    }
    Ok(answer?)
}

/// Takes a turn, and writes its number and its outcome.
fn take_turn(
    rt: &HostRuntime,
    threads: &impl Wait,
    bench: &mut Bench,
    number: u64,
) -> Result<(), SceneTrouble> {
    let Turn { number, outcome } = tried!(rt, turn(threads, bench, number));
    print!(rt; "{number} ")?;
    tell_outcome(rt, &outcome)
}

/// Closes the desk, and reports the record of all turns.
fn end(rt: &HostRuntime, bench: Bench) -> Result<(), SceneTrouble> {
    let Bench { desk, seats } = bench;
    let Ok(record) = close(desk, seats) else {
        return Err(SceneTrouble::Changed);
    };
    let report = tried!(rt, record_report(rt.alloc(), &record));
    tell(rt, report.as_slice())
}

/// Opens a desk, lets its one seat take its turns, and closes it.
pub fn play(rt: &HostRuntime, threads: &impl Wait) -> Result<(), SceneTrouble> {
    let program = single(rt.alloc())?;
    let mut bench = tried!(rt, new_bench(rt.alloc(), &program));
    for number in 1..=TURNS {
        take_turn(rt, threads, &mut bench, number)?;
    }
    end(rt, bench)
}
