//! `live_output`: what a live run writes for an input, the history of the run and its report, or
//! why it writes nothing.
ghost use Rattle.std.specs.Prelude.{◌≡◌, ◌<◌, ◌≤◌, Err, length};
ghost use Rattle.snap_words.specs.Shape.{max_items};
ghost use Rattle.snap_semantics.specs.declared.refusal.Refusal.{Refusal};
ghost use Rattle.snap_semantics.specs.declared.refusal.Refusal.TheVariants as refusal;
ghost use Rattle.snap_input.specs.Input.{checked_parts};
ghost use Rattle.snap_input.specs.Parts.{max_input, parts_of};
ghost use Rattle.snap_live_output.specs.LiveAnswer.{AnswersLive};
ghost use Rattle.snap_faults.specs.declared.fault.ProgramFault.TheVariants as fault;

use crate::played_text::play;
use crate::setup::setup_of;
use snap_faults::ProgramFault;
use snap_live::Gate;
use snap_tasks::Subject;
use std::alloc::Global;
use std::sync::Wait;
use std::thread::Threads;

/// The output of a live run: the history of the run, and the text on the calls that its items
/// skipped, which is empty if there are none.
#[derive(Drop)]
pub struct LiveOutput {
    pub text: Vec<u8>,
    pub uncalled: Vec<u8>,
}

/// Returns the history of one live run of what `input` says to play, each process in a thread of
/// its own and with at most `limit` turns, as the text of a schedule, and its report.
///
/// # Errors
///
/// The reason why `input` is refused or the live run fails, or `Memory` where memory runs out. An
/// input that is too long or has a wrong number of parts is refused even then.
pub fn live_output<G: Gate, R: Threads + Wait + Sync>(
    rt: &R,
    alloc: Global,
    subject: Subject,
    limit: u64,
    gate: &G,
    input: &[u8],
) -> Result<LiveOutput, ProgramFault>
    requires { (1 ≤ limit) × (limit ≤ max_items) }
    ensures answer { AnswersLive (G.may_answer gate.now) subject limit input.now result }
    ensures too_long { max_input < length input.now →
        result ≡ Err (fault.Refused refusal.InputTooLong) }
    ensures at_once { (r : Refusal) → length input.now ≤ max_input →
        checked_parts subject 1 (parts_of input.now) ≡ Err r → result ≡ Err (fault.Refused r) }
{
    let setup = setup_of(alloc, subject, input)?;
    Ok(play(rt, alloc, &setup, limit, gate)?)
}
