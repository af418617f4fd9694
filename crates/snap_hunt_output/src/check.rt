//! `run_in_input`: the run of an input, which is read as the debugger reads it; a hunt looks in it
//! for what it is to print.
ghost use Rattle.std.specs.Prelude.{◌≡◌, ◌<◌, ◌≤◌, length, map};
ghost use Rattle.snap_runs.specs.Run.{run_over};
ghost use Rattle.snap_semantics.specs.Answers.{Answers};
ghost use Rattle.snap_input.specs.Input.{parted};
ghost use Rattle.snap_input.specs.Parts.{max_input, parts_of};
ghost use Rattle.snap_input.specs.Schedules.{schedule_for};
ghost use Rattle.snap_tasks.specs.declared.subject.Subject.TheVariants.{FirstPart};
ghost use Rattle.snap_hunt_output.specs.Check.{run_in_input, run_in_texts, run_under};

use snap_asm_program::Program;
use snap_debug_commands::read_commands;
use snap_input::{Prepared, prepare, read_schedule};
use snap_sched::Schedule;
use snap_semantics::{Fault, Refusal};
use snap_tasks::Subject;
use std::alloc::Global;

/// A listing and a schedule that an input has.
#[derive(Drop)]
pub struct InputRun {
    pub program: Program,
    pub schedule: Schedule,
}

/// Returns the schedule of a text, for a program, where another text has commands.
#[tactic(auto, unfolding(crate::specs::Check::run_under))]
fn schedule_under(
    alloc: Global,
    program: &Program,
    schedule: &[u8],
    commands: &[u8],
) -> Result<Schedule, Fault<Refusal>>
    ensures { Answers (λ s. run_over program.now s) result
        (run_under program.now schedule.now commands.now) }
{
    let schedule = read_schedule(alloc, program, schedule)?;
    let _commands = read_commands(alloc, commands)?;
    Ok(schedule)
}

/// Returns the run of `input`: a listing, a schedule and debugger commands.
///
/// # Errors
///
/// `Refused` with the reason for which the debugger refuses `input`; `Memory` where memory runs
/// out.
#[tactic(auto, unfolding(snap_input::specs::Input::parted, snap_input::specs::Input::prepared, crate::specs::Check::run_in_input))]
pub fn run_in_input(alloc: Global, input: &[u8]) -> Result<InputRun, Fault<Refusal>>
    requires { length input.now ≤ max_input }
    ensures { Answers (λ x. run_over x.program x.schedule) result (run_in_input input.now) }
{
    let Prepared { program, texts } = prepare(alloc, Subject::FirstPart, 2, input)?;
    let schedule = schedule_under(alloc, &program, texts[0], texts[1])?;
    Ok(InputRun { program, schedule })
}
