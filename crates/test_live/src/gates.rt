//! Tests of live runs with a gate that refuses a turn: the script stops there.
ghost use Rattle.std.specs.Prelude.{◌≡◌, MatchBool};

use crate::programs::program;
use snap_live::{Gate, LiveRefusal, run_live};
use snap_sched::read_scripts;
use snap_semantics::Fault;
use snap_words::Seq;
use std::alloc::Global;
use std::process::Abort;
use std::sync::Wait;
use std::test::Fail;
use std::thread::Threads;

/// An update and a scan, which have 24 turns.
const ALONE: &[u8] = b"shape 1 1\n1 update 1 7\n1 scan\n";

/// How many turns the scripts have.
const TURNS: u64 = 24;

/// Refuses one turn, counted from 1, of each process.
#[derive(Drop)]
struct Shut {
    turn: u64,
}

impl Gate for Shut {
    ghost may_answer = { λ gate _ turn answer.
        MatchBool answer (¬ (turn ≡ gate.turn)) (turn ≡ gate.turn) };

    fn enter(&self, _process: u32, turn: u64) -> bool {
        turn != self.turn
    }
}

/// Returns whether the scripts of one process are played to their end where turn `turn` is refused;
/// if not, it has to be the turn that stops them.
fn passes<R: Threads + Wait + Sync + Abort>(
    rt: &R,
    alloc: Global,
    turn: u64,
) -> Result<bool, Fail> {
    let program = program(rt, alloc)?;
    let scripts = read_scripts(alloc, ALONE)?;
    match run_live::<Seq, _, _>(rt, alloc, &program, &scripts, 1000, &Shut { turn }) {
        Ok(_live) => Ok(true),
        Err(fault) => {
            assert!(rt; fault == Fault::Refused(LiveRefusal::TurnLimit(1)));
            Ok(false)
        }
    }
}

#[test]
fn a_turn_that_a_gate_refuses_stops_the_script(rt: HostRuntime) -> Result<(), Fail> {
    for turn in 1..=TURNS {
        assert!(&rt; !passes(&rt, rt.alloc(), turn)?);
    }
    // No script has such a turn.
    assert!(&rt; passes(&rt, rt.alloc(), TURNS + 1)?);
    Ok(())
}
