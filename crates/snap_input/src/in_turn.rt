//! `read_schedule` and `read_schedules`: the schedules that texts are, whose shapes are to fit the
//! kind of a program's listing.
ghost use Rattle.std.specs.Prelude.{◌≡◌, map};
ghost use Rattle.snap_semantics.specs.Answers.{Answers};
ghost use Rattle.snap_input.specs.Schedules.{schedule_for};
ghost use Rattle.snap_input.specs.ManySchedules.{schedules_for};

use crate::schedule_for;
use snap_asm_program::Program;
use snap_sched::Schedule;
use snap_semantics::{Fault, Refusal};
use snap_words::{Bits, KindTag, Multi, Seq};
use std::alloc::Global;

/// Reads schedules whose shapes fit `program`, one after another.
///
/// # Errors
///
/// `Refused` with the reason why the first text that is refused is; `Memory` where memory runs out.
pub fn read_schedules(
    alloc: Global,
    program: &Program,
    texts: &[&[u8]],
) -> Result<Vec<Schedule>, Fault<Refusal>>
    ensures { Answers (λ ss. ss.items) result
        (schedules_for program.now (map (λ text. text.now) texts.now)) }
{
    let mut schedules = Vec::new(alloc);
    for text in texts {
        schedules.push(read_schedule(alloc, program, text)?)?;
    }
    Ok(schedules)
}

/// Reads a schedule whose shape fits `program`.
///
/// # Errors
///
/// `Refused` with the reason why `text` is refused; `Memory` where memory runs out.
pub fn read_schedule(
    alloc: Global,
    program: &Program,
    text: &[u8],
) -> Result<Schedule, Fault<Refusal>>
    ensures { Answers (λ s. s) result (schedule_for program.now text.now) }
{
    match program.kind() {
        KindTag::Seq => schedule_for::<Seq>(alloc, program, text),
        KindTag::Bits => schedule_for::<Bits>(alloc, program, text),
        KindTag::Multi => schedule_for::<Multi>(alloc, program, text),
    }
}
