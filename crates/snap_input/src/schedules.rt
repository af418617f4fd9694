//! `schedule_for`: reads the schedule in a part of an input, whose shape is to fit the kind of the
//! program; `fits`: whether it does.
ghost use Rattle.std.specs.Prelude.{◌≡◌};
ghost use Rattle.snap_words.specs.Kind.{fits};
ghost use Rattle.snap_semantics.specs.Answers.{Answers, refused_as};
ghost use Rattle.snap_semantics.specs.Schedule.{schedule_of};
ghost use Rattle.snap_semantics.specs.declared.refusal.Refusal.TheVariants as refusal;
ghost use Rattle.snap_input.specs.Schedules.{schedule_for};

use snap_asm_program::Program;
use snap_sched::Schedule;
use snap_semantics::{Fault, Refusal};
use snap_words::{Bits, Kind, KindTag, Multi, Seq, Shape, WordFault};
use std::alloc::Global;

/// Returns whether registers of `kind` can have `shape`.
pub fn fits(kind: KindTag, shape: Shape) -> bool
    ensures { result ≡ fits kind shape }
{
    match kind {
        KindTag::Seq => Seq::fits(shape),
        KindTag::Bits => Bits::fits(shape),
        KindTag::Multi => Multi::fits(shape),
    }
}

/// Reads a schedule.
fn read_schedule(alloc: Global, text: &[u8]) -> Result<Schedule, Fault<Refusal>>
    ensures { Answers (λ s. s) result (refused_as refusal.Schedule (schedule_of text.now)) }
{
    Ok(snap_sched::read(alloc, text)?)
}

/// Reads a schedule whose shape fits the kind of `program`.
///
/// # Errors
///
/// `Refused` with the reason why `text` is refused; `Memory` where memory runs out.
#[tactic(auto, unfolding(crate::specs::Schedules::schedule_for))]
pub fn schedule_for<K: Kind>(
    alloc: Global,
    program: &Program,
    text: &[u8],
) -> Result<Schedule, Fault<Refusal>>
    requires { program.now.kind ≡ K.TAG }
    ensures { Answers (λ s. s) result (schedule_for program.now text.now) }
{
    let schedule = read_schedule(alloc, text)?;
    if !K::fits(schedule.shape()) {
        return Err(Fault::Refused(Refusal::Words(WordFault::BadShape)));
    }
    Ok(schedule)
}
