//! `converse`: a whole dialog at the debugger's prompt about a program under a schedule, for each
//! kind of registers.
ghost use Rattle.std.specs.Prelude.{◌≡◌, None, IfErr, IfSome, OnErr, OnOk};
ghost use Rattle.snap_streams.specs.Dialog.{IsBrokenOff};
ghost use Rattle.snap_streams.specs.Failures.{MayEndDialog, failure_of};
ghost use Rattle.snap_streams.specs.TypedLines.{typed_lines};
ghost use Rattle.snap_runs.specs.Run.{run_over};
ghost use Rattle.snap_prompt.specs.Conversation.{Passes, ShowsAll, ShowsSome};
ghost use Rattle.snap_prompt.specs.Prompt.{Says, next_line, opened_prompt, prompt_text};

use crate::prompt::Prompt;
use crate::shows::Shows;
use snap_asm_program::Program;
use snap_sched::Schedule;
use snap_streams::{Console, DialogFault, Folder, talk};
use snap_words::{Bits, KindTag, Multi, Seq};
use std::alloc::Global;

/// Talks at `console` about `program` under `schedule`, from the position before its first item, to
/// `quit` or the end of the input: each line is answered before the next prompt, and what is shown
/// is a transcript of the lines. `folder` has kept the text of the schedule for each line that saved
/// it, under the name in that line, and nothing else.
///
/// # Errors
///
/// The fault of a device of `console` that failed; `Memory` where memory runs out; `Endless` where
/// the input does not end. A beginning of the dialog has passed then.
pub fn converse<C: Console, S: Folder + Copy>(
    alloc: Global,
    program: &Program,
    schedule: Schedule,
    shows: Shows,
    console: &mut C,
    folder: &mut S,
) -> Result<(), DialogFault>
    requires { C.failure console.old ≡ None }
    ensures passes { OnOk result (Passes
        (opened_prompt (run_over program.now schedule) shows (S.kept folder.old))
        (C.passed console.old) (C.passed console.new) (S.kept folder.new)) }
    ensures shown { OnOk result (IfSome (C.left console.old) (λ input. ShowsAll
        (opened_prompt (run_over program.now schedule) shows (S.kept folder.old))
        (typed_lines input) (C.shown console.old) (C.shown console.new) (S.kept folder.new))) }
    ensures failure { C.failure console.new ≡ failure_of result }
    ensures fails { IfErr result (λ fault. MayEndDialog fault (C.left console.old)) }
    ensures passes_part { OnErr result (IsBrokenOff prompt_text Says next_line
        (opened_prompt (run_over program.now schedule) shows (S.kept folder.old))
        (C.passed console.old) (C.passed console.new)) }
    ensures shows_part { OnErr result (IfSome (C.left console.old) (λ input. ShowsSome
        (opened_prompt (run_over program.now schedule) shows (S.kept folder.old))
        (typed_lines input) (C.shown console.old) (C.shown console.new))) }
{
    match program.kind() {
        KindTag::Seq => {
            let mut prompt = Prompt::<Seq, S>::over(alloc, program, schedule, shows, *folder)?;
            let done = talk(alloc, console, &mut prompt);
            *folder = prompt.folder();
            done
        }
        KindTag::Bits => {
            let mut prompt = Prompt::<Bits, S>::over(alloc, program, schedule, shows, *folder)?;
            let done = talk(alloc, console, &mut prompt);
            *folder = prompt.folder();
            done
        }
        KindTag::Multi => {
            let mut prompt = Prompt::<Multi, S>::over(alloc, program, schedule, shows, *folder)?;
            let done = talk(alloc, console, &mut prompt);
            *folder = prompt.folder();
            done
        }
    }
}
