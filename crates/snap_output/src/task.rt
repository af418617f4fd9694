//! `trace_input`: what the task `trace` writes for an input.
ghost use Rattle.std.specs.Prelude.{◌≤◌, ◌<◌, length, map};
ghost use Rattle.snap_semantics.specs.Answers.{Answers};
ghost use Rattle.snap_input.specs.Input.{checked_parts, parted};
ghost use Rattle.snap_input.specs.Parts.{max_input, parts_of};
ghost use Rattle.snap_input.specs.RefusesAtOnce.{RefusesAtOnce};
ghost use Rattle.snap_output.specs.Traces.{traces_text};

use crate::program::trace_program;
use snap_input::prepare;
use snap_semantics::{Fault, Refusal};
use snap_tasks::Subject;
use std::alloc::Global;

/// Returns what each item of a listing's run under a schedule did.
///
/// # Errors
///
/// `Refused` with the reason why `input` is refused; `Memory` where memory runs out. A wrong number
/// of parts is refused even then.
#[tactic(auto, unfolding(snap_input::specs::Input::parted, snap_input::specs::Input::prepared))]
pub fn trace_input(alloc: Global, subject: Subject, input: &[u8]) -> Result<Vec<u8>, Fault<Refusal>>
    requires { length input.now ≤ max_input }
    ensures output { Answers (λ out. out.items) result
        (parted subject 1 (parts_of input.now) traces_text) }
    ensures at_once { RefusesAtOnce (checked_parts subject 1 (parts_of input.now)) result }
{
    let given = prepare(alloc, subject, 1, input)?;
    trace_program(alloc, &given.program, given.texts[0])
}
