//! `read_side_by_side`: the schedules that texts are, read in many threads.
ghost use Rattle.std.specs.Prelude.{◌≡◌, Ok, IfOk, map};
ghost use Rattle.snap_semantics.specs.Answers.{Answers};
ghost use Rattle.snap_input.specs.Schedules.{schedule_for};
ghost use Rattle.snap_input.specs.ManySchedules.{schedules_for};

use crate::in_turn::read_schedule;
use rayon::prelude::*;
use snap_asm_program::Program;
use snap_sched::Schedule;
use snap_semantics::{Fault, Refusal};
use std::alloc::Global;
use std::thread::Threads;

/// Reads schedules whose shapes fit `program`, side by side.
///
/// # Errors
///
/// `Refused` or `Memory`; no clause says which, or why: call `read_schedules` for the reason.
pub fn read_side_by_side(
    rt: &(impl Threads + Sync),
    alloc: Global,
    program: &Program,
    texts: &[&[u8]],
) -> Result<Vec<Schedule>, Fault<Refusal>>
    ensures { IfOk result (λ ss.
        schedules_for program.now (map (λ text. text.now) texts.now) ≡ Ok ss.items) }
{
    let schedules: Result<Vec<Schedule>, Fault<Refusal>> = texts
        .par_iter()
        .with_min_len(1)
        .map(
            |text: &&[u8]| -> Result<Schedule, Fault<Refusal>>
                ensures { Answers (λ s. s) result (schedule_for program.entry.now text.now.now) }
            { read_schedule(alloc, program, text) },
        )
        .collect(rt, alloc)?;
    schedules
}
