//! Tests of live runs, in which the scripts of processes are played at once: each turn is kept
//! once, and a crash or a limit ends a script.
use crate::meeting::Meeting;
use crate::numbers::has_each_turn_once;
use crate::programs::program;
use snap_live::{Gate, LiveFault, LiveRefusal, LiveRun, NoGate, run_live};
use snap_sched::read_scripts;
use snap_semantics::Fault;
use snap_words::Seq;
use std::alloc::Global;
use std::process::Abort;
use std::sync::Wait;
use std::test::Fail;
use std::thread::Threads;

/// Two processes.
pub(crate) const TWO: &[u8] = b"shape 2 2\n1 update 1 7\n1 scan\n2 update 2 9\n";

/// An update of each.
const UPDATES: &[u8] = b"shape 2 2\n1 update 1 7\n2 update 2 9\n";

/// A crash at the third turn.
const CRASHING: &[u8] = b"shape 1 1\n1 update 1 7\n1 scan\n1 crash 3\n";

const SCAN: &[u8] = b"shape 1 1\n1 scan\n";

/// Returns how many turns the scripts of a text make, each of which is kept once.
fn play<G: Gate, R: Threads + Wait + Sync + Abort>(
    rt: &R,
    alloc: Global,
    text: &[u8],
    gate: &G,
) -> Result<u64, Fail> {
    let program = program(rt, alloc)?;
    let scripts = read_scripts(alloc, text)?;
    let live: LiveRun<Seq> = run_live(rt, alloc, &program, &scripts, 1000, gate)?;
    assert!(rt; has_each_turn_once(alloc, &live)?);
    Ok(live.kept.items().len())
}

#[test]
fn each_turn_is_kept_once(rt: HostRuntime) -> Result<(), Fail> {
    let turns = play(&rt, rt.alloc(), TWO, &NoGate)?;
    assert!(rt; turns > 30);
    Ok(())
}

#[test]
fn a_crash_ends_a_script(rt: HostRuntime) -> Result<(), Fail> {
    assert_eq!(rt; play(&rt, rt.alloc(), CRASHING, &NoGate)?, 3);
    Ok(())
}

/// Returns why the scripts of a text are not played to their end.
fn fault(
    rt: &(impl Threads + Wait + Sync + Abort),
    alloc: Global,
    text: &[u8],
) -> Result<Option<LiveFault>, Fail> {
    let program = program(rt, alloc)?;
    let scripts = read_scripts(alloc, text)?;
    Ok(run_live::<Seq, _, _>(rt, alloc, &program, &scripts, 1, &NoGate).err())
}

#[test]
fn a_script_stops_at_the_limit(rt: HostRuntime) -> Result<(), Fail> {
    let fault = fault(&rt, rt.alloc(), SCAN)?;
    assert!(rt; fault == Some(Fault::Refused(LiveRefusal::TurnLimit(1))));
    Ok(())
}

#[test]
fn workers_run_at_once(rt: HostRuntime) -> Result<(), Fail> {
    let _turns = play(&rt, rt.alloc(), TWO, &Meeting::new(rt))?;
    Ok(())
}

/// An update has 18 turns, and 12 more if the other one wrote during its first double collect,
/// which only one of two can.
#[test]
fn two_updates_have_36_turns_or_48(rt: HostRuntime) -> Result<(), Fail> {
    let turns = play(&rt, rt.alloc(), UPDATES, &NoGate)?;
    assert!(rt; turns == 36 || turns == 48);
    Ok(())
}
