//! `why_asked`: why an item of a run that a page in a browser asks about came out as it did.
ghost use Rattle.std.specs.Prelude.{◌≡◌, ◌≤◌, IfOk, length};
ghost use Rattle.snap_input.specs.Schedules.{schedule_for};
ghost use Rattle.snap_runs.specs.Run.{run_over};
ghost use Rattle.snap_why.specs.Why.{IsWhy};
ghost use Rattle.snap_page.specs.Answer.{AnswersBy};
ghost use Rattle.snap_page.specs.Why.{IsWhyAsked, IsWhyFor, IsWhyUnder};

use snap_asm_program::Program;
use snap_input::{program_of, schedule_for};
use snap_listing::LineTexts;
use snap_sched::Schedule;
use snap_semantics::{CommandRefusal, Fault, Refusal};
use snap_text::Draft;
use snap_why::push_why;
use snap_words::{Bits, Kind, KindTag, Multi, Seq};
use std::alloc::{AllocError, Global};

/// Returns why an item of a schedule that has it came out so.
fn why_of<K: Kind>(
    alloc: Global,
    program: &Program,
    schedule: &Schedule,
    item: u64,
) -> Result<Vec<u8>, AllocError>
    requires kind { program.now.kind ≡ K.TAG }
    requires within { item ≤ length schedule.now.items }
    ensures { IfOk result (λ text. IsWhy (run_over program.now schedule.now) item text.items) }
{
    let texts = LineTexts::of(alloc, program.listing())?;
    let mut out = Draft::new(alloc);
    push_why::<K>(alloc, &mut out, program, schedule, &texts, item)?;
    out.finish()
}

/// Returns why an item of a schedule came out so, or that there are fewer items.
fn why_under<K: Kind>(
    alloc: Global,
    program: &Program,
    schedule: &Schedule,
    item: u64,
) -> Result<Vec<u8>, Fault<Refusal>>
    requires { program.now.kind ≡ K.TAG }
    ensures { AnswersBy (IsWhyUnder program.now schedule.now item) result }
{
    if schedule.items().len() < item {
        return Err(Fault::Refused(Refusal::Commands(CommandRefusal::NoSuchPosition)));
    }
    Ok(why_of::<K>(alloc, program, schedule, item)?)
}

/// Returns why an item of the run of a program of a kind came out so.
fn why_of_kind<K: Kind>(
    alloc: Global,
    program: &Program,
    schedule: &[u8],
    item: u64,
) -> Result<Vec<u8>, Fault<Refusal>>
    requires { program.now.kind ≡ K.TAG }
    ensures { AnswersBy (IsWhyFor program.now (schedule_for program.now schedule.now) item) result }
{
    let schedule = schedule_for::<K>(alloc, program, schedule)?;
    why_under::<K>(alloc, program, &schedule, item)
}

/// Returns why an item of the run of a program came out so.
fn why_of_program(
    alloc: Global,
    program: &Program,
    schedule: &[u8],
    item: u64,
) -> Result<Vec<u8>, Fault<Refusal>>
    ensures { AnswersBy (IsWhyFor program.now (schedule_for program.now schedule.now) item) result }
{
    match program.kind() {
        KindTag::Seq => why_of_kind::<Seq>(alloc, program, schedule, item),
        KindTag::Bits => why_of_kind::<Bits>(alloc, program, schedule, item),
        KindTag::Multi => why_of_kind::<Multi>(alloc, program, schedule, item),
    }
}

/// Returns why an item of a listing's run came out as it did: the answer of a scan, or a trap; or
/// that it is neither, and which item is.
///
/// # Errors
///
/// `Refused` if the listing or the schedule is none, or there is no such item; `Memory` where
/// memory runs out.
pub fn why_asked(
    alloc: Global,
    listing: &[u8],
    schedule: &[u8],
    item: u64,
) -> Result<Vec<u8>, Fault<Refusal>>
    ensures { AnswersBy (IsWhyAsked listing.now schedule.now item) result }
{
    let program = program_of(alloc, listing)?;
    why_of_program(alloc, &program, schedule, item)
}
