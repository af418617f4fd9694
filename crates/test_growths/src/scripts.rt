//! A scene of calls that may want memory: the scripts of one process are played live.
use crate::inputs::{SCRIPTS, single};
use crate::outcomes::record_report;
use crate::scene_trouble::SceneTrouble;
use crate::trials::{tell, tried};
use snap_live::{LiveRun, NoGate, run_live};
use snap_sched::read_scripts;
use snap_words::Seq;
use std::sync::Wait;
use std::thread::Threads;

/// Plays the scripts of one process, and reports the record of all turns.
pub fn play(rt: &HostRuntime, threads: &(impl Threads + Wait + Sync)) -> Result<(), SceneTrouble> {
    let alloc = rt.alloc();
    let program = single(alloc)?;
    let scripts = read_scripts(alloc, SCRIPTS)?;
    let live: LiveRun<Seq> = tried!(
        rt,
        run_live(threads, alloc, &program, &scripts, 1000, &NoGate)
    );
    let report = tried!(rt, record_report(alloc, &live.kept));
    tell(rt, report.as_slice())
}
