//! `steps_asked`: how many steps lead a process to a line, or to the end of its operation, from a
//! position of a run that a page in a browser asks about.
ghost use Rattle.std.specs.Prelude.{◌≡◌, ◌<◌, ℕ, Result, length};
ghost use Rattle.snap_semantics.specs.Answers.{Answers};
ghost use Rattle.snap_semantics.specs.declared.refusal.Refusal.{Refusal};
ghost use Rattle.snap_prompt.specs.declared.goal.NoSteps.{NoSteps};
ghost use Rattle.snap_page.specs.Page.{IsHanded};
ghost use Rattle.snap_page.specs.Steps.{no_steps_words, session_at, steps_asked, steps_code};
ghost use Rattle.snap_page.specs.Steps.{steps_of, steps_text};

use crate::handed::{Handed, handed_line, handed_refusal, handed_text};
use itoa::Buffer;
use snap_asm_program::Program;
use snap_debug::{Command, Session};
use snap_input::{program_of, schedule_for};
use snap_prompt::{Goal, NoSteps, steps_to};
use snap_semantics::{Fault, Refusal};
use snap_words::{Bits, Kind, KindTag, Multi, Seq};
use std::alloc::Global;

/// Returns the session over a program's run under a schedule's text, at a position.
fn session_at<K: Kind>(
    alloc: Global,
    program: &Program,
    schedule: &[u8],
    at: u64,
) -> Result<Session<K>, Fault<Refusal>>
    requires { program.now.kind ≡ K.TAG }
    ensures { Answers (λ s. s) result (session_at program.now schedule.now at) }
{
    let items = schedule_for::<K>(alloc, program, schedule)?;
    let mut session = Session::<K>::over(alloc, program, items)?;
    match session.command(&Command::Goto(at)) {
        Ok(_) => Ok(session),
        Err(Fault::Memory) => Err(Fault::Memory),
        Err(Fault::Refused(refusal)) => Err(Fault::Refused(Refusal::Commands(refusal))),
    }
}

/// Returns how many steps lead a process of a program of a kind to a goal, or why none do.
fn steps_of_kind<K: Kind>(
    alloc: Global,
    program: &Program,
    schedule: &[u8],
    at: u64,
    process: u64,
    goal: Goal,
) -> Result<Result<u64, NoSteps>, Fault<Refusal>>
    requires { program.now.kind ≡ K.TAG }
    ensures { Answers (λ steps. steps) result
        (steps_of program.now schedule.now at process goal) }
{
    let session = session_at::<K>(alloc, program, schedule, at)?;
    Ok(steps_to(&session, process, goal)?)
}

/// Returns how many steps lead a process of a program to a goal, or why none do.
fn steps_of(
    alloc: Global,
    program: &Program,
    schedule: &[u8],
    at: u64,
    process: u64,
    goal: Goal,
) -> Result<Result<u64, NoSteps>, Fault<Refusal>>
    ensures { Answers (λ steps. steps) result
        (steps_of program.now schedule.now at process goal) }
{
    match program.kind() {
        KindTag::Seq => steps_of_kind::<Seq>(alloc, program, schedule, at, process, goal),
        KindTag::Bits => steps_of_kind::<Bits>(alloc, program, schedule, at, process, goal),
        KindTag::Multi => steps_of_kind::<Multi>(alloc, program, schedule, at, process, goal),
    }
}

/// Returns how many steps lead a process of a listing's run from a position to a goal, or why none
/// do.
///
/// # Errors
///
/// `Refused` if the listing or the schedule is none, or there is no such position; `Memory` where
/// memory runs out.
pub fn steps_asked(
    alloc: Global,
    listing: &[u8],
    schedule: &[u8],
    at: u64,
    process: u64,
    goal: Goal,
) -> Result<Result<u64, NoSteps>, Fault<Refusal>>
    ensures { Answers (λ steps. steps) result
        (steps_asked listing.now schedule.now at process goal) }
{
    let program = program_of(alloc, listing)?;
    steps_of(alloc, &program, schedule, at, process, goal)
}

/// Returns why no steps lead there.
fn no_steps_words(why: NoSteps) -> &'static [u8]
    ensures words { result.now ≡ no_steps_words why }
    ensures short { length result.now < 100 }
{
    match why {
        NoSteps::NoSuchProcess => b"there is no such process",
        NoSteps::NoSuchLine => b"there is no such line",
        NoSteps::Idle => b"the process is idle",
        NoSteps::Trapped => b"the process is trapped",
        NoSteps::Crashed => b"the process has crashed",
        NoSteps::Full => b"the schedule is full",
    }
}

/// Hands over a number of steps, or why there is none.
pub fn handed_steps(
    alloc: Global,
    answer: Result<Result<u64, NoSteps>, Fault<Refusal>>,
    room: &mut [u8],
) -> Handed
    ensures { (d : Result (Result ℕ NoSteps) Refusal) → Answers (λ steps. steps) answer d →
        IsHanded room.old room.new (steps_code d) (steps_text d) result }
{
    match answer {
        Ok(Ok(count)) => {
            let mut digits = Buffer::new();
            handed_text(0, digits.format(count).as_bytes(), room)
        }
        Ok(Err(why)) => handed_line(no_steps_words(why), b"", room),
        Err(Fault::Memory) => Handed { code: 2, len: 0 },
        Err(Fault::Refused(refusal)) => handed_refusal(alloc, &refusal, room),
    }
}
