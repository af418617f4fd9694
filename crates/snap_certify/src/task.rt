//! `certify_input`: what the task `certify` writes for an input.
ghost use Rattle.std.specs.Prelude.{◌≤◌, ◌<◌, length, map};
ghost use Rattle.snap_input.specs.Input.{checked_parts, parted};
ghost use Rattle.snap_input.specs.Parts.{max_input, part, parts_of};
ghost use Rattle.snap_input.specs.RefusesAtOnce.{RefusesAtOnce};
ghost use Rattle.snap_run_judge.specs.Judged.{AnswersJudged};
ghost use Rattle.snap_certify.specs.Output.{WasJudgedIn, WasJudgedOver, certificates_text};

use crate::program::certify_program;
use snap_asm_program::Program;
use snap_input::prepare;
use snap_semantics::{Fault, Refusal};
use snap_tasks::Subject;
use std::alloc::Global;

/// Returns where the operations of a program under the schedule of a text took place, or what is
/// missing.
fn certify_texts(
    alloc: Global,
    program: &Program,
    texts: &[&[u8]],
) -> Result<Vec<u8>, Fault<Refusal>>
    requires { 0 < length texts.now }
    ensures { AnswersJudged (λ out. out.items)
        (WasJudgedOver program.now (part 0 (map (λ text. text.now) texts.now))) result
        (λ judged. certificates_text judged program.now (map (λ text. text.now) texts.now)) }
{
    certify_program(alloc, program, texts[0])
}

/// Returns the certification of a listing under a schedule.
///
/// # Errors
///
/// `Refused` with the reason why `input` is refused; `Memory` where memory runs out. A wrong number
/// of parts is refused even then.
#[tactic(auto, unfolding(snap_input::specs::Input::parted, snap_input::specs::Input::prepared))]
pub fn certify_input(
    alloc: Global,
    subject: Subject,
    input: &[u8],
) -> Result<Vec<u8>, Fault<Refusal>>
    requires { length input.now ≤ max_input }
    ensures output { AnswersJudged (λ out. out.items) (WasJudgedIn subject (parts_of input.now))
        result (λ judged. parted subject 1 (parts_of input.now) (certificates_text judged)) }
    ensures at_once { RefusesAtOnce (checked_parts subject 1 (parts_of input.now)) result }
{
    let given = prepare(alloc, subject, 1, input)?;
    certify_texts(alloc, &given.program, given.texts.as_slice())
}
