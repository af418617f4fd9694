//! `certify_program`: reads a schedule, runs a listing over it, and prints the run's certification.
ghost use Rattle.std.specs.Prelude.{◌≡◌, IfOk};
ghost use Rattle.snap_runs.specs.Run.{run_over};
ghost use Rattle.snap_run_judge.specs.Judged.{AnswersJudged};
ghost use Rattle.snap_certify.specs.CertificationText.{IsCertificateText};
ghost use Rattle.snap_certify.specs.Output.{WasJudgedOver, certify_listing};

use crate::certificate::Certification;
use crate::certification::certification_over;
use crate::text::{text_of, with_verdict};
use snap_asm_program::Program;
use snap_input::schedule_for;
use snap_record::record_over;
use snap_sched::Schedule;
use snap_semantics::{Fault, Refusal};
use snap_words::{Bits, Kind, KindTag, Multi, Seq};
use std::alloc::{AllocError, Global};

/// Returns what the run of a program under a schedule is certified by.
fn certify_run<K: Kind>(
    alloc: Global,
    program: &Program,
    schedule: &Schedule,
) -> Result<Vec<u8>, AllocError>
    requires { program.now.kind ≡ K.TAG }
    ensures { IfOk result
        (λ out. IsCertificateText (run_over program.now schedule.now) out.items) }
{
    let certification = certification_over::<K>(alloc, program, schedule)?;
    let text = text_of(alloc, &certification)?;
    match certification {
        Certification::Certified(_) => Ok(text),
        Certification::Missing(_) => {
            let record = record_over::<K>(alloc, program, schedule)?;
            with_verdict(alloc, &record, text)
        }
    }
}

/// Returns what the run of a program of a kind is certified by.
#[tactic(auto, unfolding(crate::specs::Output::certify_listing))]
fn certify_kind<K: Kind>(
    alloc: Global,
    program: &Program,
    schedule: &[u8],
) -> Result<Vec<u8>, Fault<Refusal>>
    requires { program.now.kind ≡ K.TAG }
    ensures { AnswersJudged (λ out. out.items) (WasJudgedOver program.now schedule.now) result
        (λ judged. certify_listing judged program.now schedule.now) }
{
    let schedule = schedule_for::<K>(alloc, program, schedule)?;
    Ok(certify_run::<K>(alloc, program, &schedule)?)
}

/// Returns what the run of `program` under `schedule` is certified by, or what is missing.
///
/// # Errors
///
/// `Refused` with the reason why `schedule` is refused; `Memory` where memory runs out.
pub fn certify_program(
    alloc: Global,
    program: &Program,
    schedule: &[u8],
) -> Result<Vec<u8>, Fault<Refusal>>
    ensures { AnswersJudged (λ out. out.items) (WasJudgedOver program.now schedule.now) result
        (λ judged. certify_listing judged program.now schedule.now) }
{
    match program.kind() {
        KindTag::Seq => certify_kind::<Seq>(alloc, program, schedule),
        KindTag::Bits => certify_kind::<Bits>(alloc, program, schedule),
        KindTag::Multi => certify_kind::<Multi>(alloc, program, schedule),
    }
}
