//! `trace_program`: what the task `trace` writes for a listing and a schedule, item by item of the
//! run.
ghost use Rattle.std.specs.Prelude.{◌≡◌};
ghost use Rattle.snap_semantics.specs.Answers.{Answers};
ghost use Rattle.snap_output.specs.Traces.{trace_listing};

use crate::trace;
use snap_asm_program::Program;
use snap_input::schedule_for;
use snap_semantics::{Fault, Refusal};
use snap_words::{Bits, Kind, KindTag, Multi, Seq};
use std::alloc::Global;

/// Returns what each item of the run of a program of a kind did under a schedule.
#[tactic(auto, unfolding(crate::specs::Traces::trace_listing))]
fn trace_kind<K: Kind>(
    alloc: Global,
    program: &Program,
    schedule: &[u8],
) -> Result<Vec<u8>, Fault<Refusal>>
    requires { program.now.kind ≡ K.TAG }
    ensures { Answers (λ out. out.items) result (trace_listing program.now schedule.now) }
{
    let schedule = schedule_for::<K>(alloc, program, schedule)?;
    Ok(trace::<K>(alloc, program, &schedule)?)
}

/// Returns what each item of the run of `program` under `schedule` did, and what it changed.
///
/// # Errors
///
/// `Refused` with the reason why `schedule` is refused; `Memory` where memory runs out.
pub fn trace_program(
    alloc: Global,
    program: &Program,
    schedule: &[u8],
) -> Result<Vec<u8>, Fault<Refusal>>
    ensures { Answers (λ out. out.items) result (trace_listing program.now schedule.now) }
{
    match program.kind() {
        KindTag::Seq => trace_kind::<Seq>(alloc, program, schedule),
        KindTag::Bits => trace_kind::<Bits>(alloc, program, schedule),
        KindTag::Multi => trace_kind::<Multi>(alloc, program, schedule),
    }
}
