//! `state_text`: the report of a machine's state, by which the prompt finds what a move of the
//! session changed.
ghost use Rattle.std.specs.Prelude.{◌≡◌, IfOk};
ghost use Rattle.snap_semantics.specs.Report.{processes_lines};
ghost use Rattle.snap_prompt.specs.Changed.{state_text};

use snap_machine::Machine;
use snap_report::{processes_lines, register_lines};
use snap_text::{Draft, push_owned_lines};
use snap_words::Kind;
use std::alloc::{AllocError, Global};

/// Returns the report of a machine's state: its registers, and its processes with their locals.
/// Each line names its owner.
#[tactic(auto, unfolding(crate::specs::Changed::state_text))]
pub(crate) fn state_text<K: Kind>(
    alloc: Global,
    machine: &Machine<K>,
) -> Result<Vec<u8>, AllocError>
    ensures { IfOk result (λ text.
        text.items ≡ state_text machine.now.source.kind machine.now.state) }
{
    let mut lines = Draft::new(alloc);
    register_lines(&mut lines, machine);
    processes_lines(&mut lines, machine);
    let mut text = Draft::new(alloc);
    push_owned_lines(&mut text, lines.text()?);
    text.finish()
}
