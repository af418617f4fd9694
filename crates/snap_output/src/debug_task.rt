//! `debug`: what the task `debug` writes for an input.
ghost use Rattle.std.specs.Prelude.{◌≤◌, ◌<◌, length, map};
ghost use Rattle.snap_semantics.specs.Answers.{Answers};
ghost use Rattle.snap_input.specs.Input.{checked_parts, parted};
ghost use Rattle.snap_input.specs.Parts.{max_input, parts_of};
ghost use Rattle.snap_input.specs.RefusesAtOnce.{RefusesAtOnce};
ghost use Rattle.snap_output.specs.Perform.{debug_text};

use crate::debug_output::perform_program;
use snap_input::prepare;
use snap_semantics::{Fault, Refusal};
use snap_tasks::Subject;
use std::alloc::Global;

/// Returns the replies to commands on a listing under a schedule.
///
/// # Errors
///
/// `Refused` with the reason why `input` is refused; `Memory` where memory runs out. A wrong number
/// of parts is refused even then.
#[tactic(auto, unfolding(snap_input::specs::Input::parted, snap_input::specs::Input::prepared))]
pub fn debug(alloc: Global, subject: Subject, input: &[u8]) -> Result<Vec<u8>, Fault<Refusal>>
    requires { length input.now ≤ max_input }
    ensures output { Answers (λ out. out.items) result
        (parted subject 2 (parts_of input.now) debug_text) }
    ensures at_once { RefusesAtOnce (checked_parts subject 2 (parts_of input.now)) result }
{
    let given = prepare(alloc, subject, 2, input)?;
    perform_program(alloc, &given.program, given.texts[0], given.texts[1])
}
