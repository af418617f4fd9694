//! Tests of whole live runs of the program, from scripts to the text of a history.
use crate::live_runs::TWO;
use crate::meeting::Meeting;
use snap_program::{Gate, ProgramFault, Std, Subject, conduct_live};
use snap_words::KindTag;
use std::sync::Wait;
use std::test::Fail;
use std::thread::Threads;

/// Returns what a live run of the shipped listing writes for scripts.
fn written<G: Gate, R: AllocGlobal + Threads + Wait + Sync>(
    rt: &R,
    gate: &G,
    scripts: &[u8],
) -> Result<Vec<u8>, ProgramFault> {
    let subject = Subject::Shipped(KindTag::Seq);
    let mut source = Std::new(scripts);
    let mut sink = Std::new(Vec::new(rt.alloc()));
    conduct_live(rt, rt.alloc(), subject, 1000, gate, &mut source, &mut sink)?;
    Ok(sink.into_inner())
}

#[test]
fn whole_runs_have_workers_at_once(rt: HostRuntime) -> Result<(), Fail> {
    let text = written(&rt, &Meeting::new(rt), TWO)?;
    assert!(rt; text.as_slice().starts_with(b"shape 2 2\n"));
    Ok(())
}
