//! `talk_about`: the dialog of snapdb at a console about a program under the schedule of a file.
ghost use Rattle.std.specs.Prelude.{◌≡◌, Err, IfErr, IfSome, None, OnErr, OnOk, Ok};
ghost use Rattle.snap_streams.specs.TypedLines.{typed_lines};
ghost use Rattle.snap_input.specs.Schedules.{schedule_for};
ghost use Rattle.snap_prompt.specs.Conversation.{ShowsAll, ShowsSome};
ghost use Rattle.snap_prompt.specs.Prompt.{opened_prompt};
ghost use Rattle.snap_runs.specs.Run.{run_over};
ghost use Rattle.snap_semantics.specs.Schedule.{Schedule};
ghost use Rattle.snap_semantics.specs.declared.refusal.Refusal.{Refusal};
ghost use Rattle.snapdb.specs.Start.{EndsFor};
ghost use Rattle.snap_faults.specs.declared.fault.ProgramFault.TheVariants.{Refused};

use snap_asm_program::Program;
use snap_faults::ProgramFault;
use snap_input::read_schedule;
use snap_prompt::{Shows, converse};
use snap_streams::{Console, Folder};
use std::alloc::Global;

/// Talks at `console` about `program` under `schedule`. What is shown is a transcript of what is
/// typed; nothing if the schedule is refused. `folder` has kept the schedules that the lines saved,
/// and nothing else.
///
/// # Errors
///
/// The reason why `schedule` is refused; the fault of a device that failed; `Memory` where memory
/// runs out; or that the input does not end. If the dialog is broken off, a beginning of the
/// transcript was shown.
pub fn talk_about<C: Console, S: Folder + Copy>(
    alloc: Global,
    program: &Program,
    schedule: &[u8],
    shows: Shows,
    console: &mut C,
    folder: &mut S,
) -> Result<(), ProgramFault>
    requires { C.failure console.old ≡ None }
    ensures shown { OnOk result ((s : Schedule) × (schedule_for program.now schedule.now ≡ Ok s)
        × IfSome (C.left console.old) (λ input. ShowsAll
        (opened_prompt (run_over program.now s) shows (S.kept folder.old)) (typed_lines input)
        (C.shown console.old) (C.shown console.new) (S.kept folder.new))) }
    ensures refused { (r : Refusal) → result ≡ Err (Refused r) →
        (schedule_for program.now schedule.now ≡ Err r) × (console.new ≡ console.old)
        × (folder.new ≡ folder.old) }
    ensures well { OnOk result (C.failure console.new ≡ None) }
    ensures fails { IfErr result (λ fault.
        EndsFor fault (C.failure console.new) (C.left console.old)) }
    ensures shown_part { OnErr result ((s : Schedule) →
        schedule_for program.now schedule.now ≡ Ok s → IfSome (C.left console.old) (λ input.
        ShowsSome (opened_prompt (run_over program.now s) shows (S.kept folder.old))
        (typed_lines input) (C.shown console.old) (C.shown console.new))) }
{
    let schedule = read_schedule(alloc, program, schedule)?;
    converse(alloc, program, schedule, shows, console, folder)?;
    Ok(())
}
