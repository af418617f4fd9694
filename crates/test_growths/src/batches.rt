//! A scene of calls that may want memory: a batch of many schedules of one program.
use crate::inputs::{SCAN, UPDATE, single};
use crate::scene_trouble::SceneTrouble;
use crate::trials::{tell, tried};
use snap_batch::batch;
use snap_sched::{Schedule, read};
use std::alloc::Global;
use std::thread::Threads;

/// Returns a scan, an update, and a scan again.
fn schedules(alloc: Global) -> Result<Vec<Schedule>, SceneTrouble> {
    let mut schedules = Vec::with_capacity(alloc, 3)?;
    for text in [SCAN, UPDATE, SCAN] {
        schedules.push(read(alloc, text)?)?;
    }
    Ok(schedules)
}

/// Runs three schedules side by side.
pub fn play(rt: &HostRuntime, threads: &(impl Threads + Sync)) -> Result<(), SceneTrouble> {
    let program = single(rt.alloc())?;
    let schedules = schedules(rt.alloc())?;
    let reports = tried!(
        rt,
        batch(threads, rt.alloc(), &program, schedules.as_slice())
    );
    for report in &reports {
        tell(rt, report.as_slice())?;
    }
    Ok(())
}
