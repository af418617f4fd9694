//! `audit_program`: what the task `audit` writes, the verdict of each finished scan of a listing's
//! run under a schedule.
ghost use Rattle.std.specs.Prelude.{◌≡◌};
ghost use Rattle.snap_semantics.specs.Answers.{Answers};
ghost use Rattle.snap_output.specs.ScheduleOutput.{audit_listing};

use snap_asm_program::Program;
use snap_audit::audit_text_over;
use snap_input::schedule_for;
use snap_machine::OwnCode;
use snap_semantics::{Fault, Refusal};
use snap_words::{Bits, Kind, KindTag, Multi, Seq};
use std::alloc::Global;

/// Returns what is drawn of each finished scan of a program of a kind.
#[tactic(auto, unfolding(crate::specs::ScheduleOutput::audit_listing))]
fn audit_kind<K: Kind>(
    alloc: Global,
    program: &Program,
    schedule: &[u8],
) -> Result<Vec<u8>, Fault<Refusal>>
    requires { program.now.kind ≡ K.TAG }
    ensures { Answers (λ out. out.items) result (audit_listing program.now schedule.now) }
{
    let schedule = schedule_for::<K>(alloc, program, schedule)?;
    Ok(audit_text_over::<K>(alloc, program, &schedule)?)
}

/// Returns the verdicts on the finished scans of `program` under `schedule`, a line each.
///
/// # Errors
///
/// `Refused` with the reason why `schedule` is refused; `Memory` where memory runs out.
pub fn audit_program(
    alloc: Global,
    program: &Program,
    schedule: &[u8],
) -> Result<Vec<u8>, Fault<Refusal>>
    ensures { Answers (λ out. out.items) result (audit_listing program.now schedule.now) }
{
    // The steps of an audit have code of their own, as the steps of `run` have, under another name
    // of the kind.
    match program.kind() {
        KindTag::Seq => audit_kind::<OwnCode<OwnCode<Seq>>>(alloc, program, schedule),
        KindTag::Bits => audit_kind::<OwnCode<OwnCode<Bits>>>(alloc, program, schedule),
        KindTag::Multi => audit_kind::<OwnCode<OwnCode<Multi>>>(alloc, program, schedule),
    }
}
