//! What a page in a browser wants of the program, in one thread: a task on an input, whether a run
//! is linearizable, why an input is refused, the picture of a run and what it draws, the steps to a
//! line or to the end of an operation, why an item came out so, the marks that commands leave, and
//! a run that fails.
#![tactic(auto)]

ghost use Rattle.std.specs.Prelude.{◌≡◌, ◌≢◌, ◌<◌, ◌⊎◌, ◌↔◌};
ghost use Rattle.std.specs.Prelude.{ℕ, List, None, Result, Some, length, take};
ghost use Rattle.snap_page.specs.Answer.{IsAnswerFor, found_at_once};
ghost use Rattle.snap_page.specs.Page.{IsHanded, IsHandedOneOf, answer_code, answer_text};
ghost use Rattle.snap_page.specs.Page.{asked_of};
ghost use Rattle.snap_page.specs.Hunt.{IsHandedHunt, IsHuntAnswer, IsHuntable, hunt_asked};
ghost use Rattle.snap_page.specs.Explained.{explained};
ghost use Rattle.snap_page.specs.Picture.{IsDrawn, drawn_text, told};
ghost use Rattle.snap_page.specs.Marks.{marks_asked};
ghost use Rattle.snap_page.specs.Steps.{steps_asked, steps_code, steps_text};
ghost use Rattle.snap_page.specs.Why.{IsWhyAsked};
ghost use Rattle.snap_prompt.specs.declared.goal.Goal.TheVariants as goal;
ghost use Rattle.snap_semantics.specs.declared.refusal.Refusal.{Refusal};
ghost use Rattle.snap_hunt_output.specs.declared.hunted.Hunted.{Hunted};
ghost use Rattle.snap_faults.specs.declared.fault.ProgramFault.{ProgramFault};
ghost use Rattle.snap_page.specs.declared.page_request.PageRequest.{PageRequest};

mod answering;
mod drawing;
mod explaining;
mod handed;
mod hunting;
mod marking;
mod page_request;
mod reasons;
mod stepping;

use answering::answer_to;
use drawing::{drawn, handed_picture, told};
use explaining::explained;
use handed::{Handed, handed_answer, handed_pushed};
use hunting::{handed_hunt, hunt_asked};
use marking::marks_asked;
use page_request::asked_of;
use reasons::why_asked;
use snap_hunt_output::hunt_alone;
use snap_picture::{LEGEND, Look, STYLE};
use snap_prompt::Goal;
use std::alloc::Global;
use stepping::{handed_steps, steps_asked};

/// Hands a page the output for an input, or the line that says why there is none. The task is that
/// of a subcommand, or `judge`; it runs the listing that is shipped for the kind of the name
/// `shipped`, or, if that is empty, the one in the input.
#[unsafe(no_mangle)]
#[tactic(auto, using(crate::proofs::Short::needs_none))]
pub extern "C" fn page_output(
    alloc: Global,
    subcommand: &[u8],
    shipped: &[u8],
    input: &[u8],
    room: &mut [u8],
) -> Handed
    ensures code { result.code < 5 }
    ensures no_task { result.code ≡ 4 ↔ asked_of subcommand.now shipped.now ≡ None }
    ensures small { result.code ≡ 3 ↔ length room.old < result.len }
    ensures answer { (a : PageRequest) → asked_of subcommand.now shipped.now ≡ Some a →
        IsHandedOneOf (IsAnswerFor a input.now) answer_text room.old room.new result }
    ensures at_once { (a : PageRequest) (r : Refusal) →
        asked_of subcommand.now shipped.now ≡ Some a → found_at_once a input.now ≡ Some r →
        result.code ≡ 1 ⊎ result.code ≡ 3 }
{
    let Some(asked) = asked_of(subcommand, shipped) else {
        return Handed { code: 4, len: 0 };
    };
    let answer = answer_to(alloc, &asked, input);
    handed_answer(alloc, answer, room)
}

/// Hands a page the explanation of a refused input, which stands behind the line of the refusal
/// that `page_output` hands for the same names; no text if the input is not refused.
#[unsafe(no_mangle)]
pub extern "C" fn page_explanation(
    alloc: Global,
    subcommand: &[u8],
    shipped: &[u8],
    input: &[u8],
    room: &mut [u8],
) -> Handed
    ensures code { result.code < 5 × (result.code ≢ 1) }
    ensures no_task { result.code ≡ 4 ↔ asked_of subcommand.now shipped.now ≡ None }
    ensures small { result.code ≡ 3 ↔ length room.old < result.len }
    ensures answer { (a : PageRequest) → asked_of subcommand.now shipped.now ≡ Some a →
        result.code ≡ 0 →
        (answer : Result (List ℕ) Refusal) × IsAnswerFor a input.now answer
        × (take result.len room.new ≡ explained a input.now answer) }
    ensures needed { (a : PageRequest) → asked_of subcommand.now shipped.now ≡ Some a →
        result.code ≡ 3 →
        (answer : Result (List ℕ) Refusal) × IsAnswerFor a input.now answer
        × (result.len ≡ length (explained a input.now answer)) }
{
    let Some(asked) = asked_of(subcommand, shipped) else {
        return Handed { code: 4, len: 0 };
    };
    handed_pushed(0, explained(alloc, &asked, input), room)
}

/// Hands a page how many steps lead a process to a line from a position of a listing's run, where
/// it stops earlier if it is no longer busy: the fewest, in digits; or the line that says why none
/// do.
#[unsafe(no_mangle)]
pub extern "C" fn page_until(
    alloc: Global,
    listing: &[u8],
    schedule: &[u8],
    at: u64,
    process: u64,
    line: u64,
    room: &mut [u8],
) -> Handed
    ensures { let steps = steps_asked listing.now schedule.now at process (goal.Line line) in
        IsHanded room.old room.new (steps_code steps) (steps_text steps) result }
{
    let answer = steps_asked(alloc, listing, schedule, at, process, Goal::Line(line));
    handed_steps(alloc, answer, room)
}

/// Hands a page how many steps lead a process to the end of its operation from a position of a
/// listing's run: the fewest, in digits; or the line that says why none do.
#[unsafe(no_mangle)]
pub extern "C" fn page_end(
    alloc: Global,
    listing: &[u8],
    schedule: &[u8],
    at: u64,
    process: u64,
    room: &mut [u8],
) -> Handed
    ensures { let steps = steps_asked listing.now schedule.now at process goal.End in
        IsHanded room.old room.new (steps_code steps) (steps_text steps) result }
{
    let answer = steps_asked(alloc, listing, schedule, at, process, Goal::End);
    handed_steps(alloc, answer, room)
}

/// Hands a page why an item of a listing's run under a schedule came out as it did: why the scan
/// that it ends answered so, or why its process trapped. If it did neither, the answer names an
/// item that does; if there is no such run or item, the answer is the line of the refusal.
#[unsafe(no_mangle)]
pub extern "C" fn page_why(
    alloc: Global,
    listing: &[u8],
    schedule: &[u8],
    item: u64,
    room: &mut [u8],
) -> Handed
    ensures { IsHandedOneOf (IsWhyAsked listing.now schedule.now item) answer_text room.old room.new
        result }
{
    let answer = why_asked(alloc, listing, schedule, item);
    handed_answer(alloc, answer, room)
}

/// Hands a page the marks that a text of debugger commands leaves, a line each, the command that
/// sets it; or the line that says why the text is none.
#[unsafe(no_mangle)]
pub extern "C" fn page_marks(alloc: Global, commands: &[u8], room: &mut [u8]) -> Handed
    ensures { let marks = marks_asked commands.now in
        IsHanded room.old room.new (answer_code marks) (answer_text marks) result }
{
    let answer = marks_asked(alloc, commands);
    handed_answer(alloc, answer, room)
}

/// Hands a page what the picture of a listing's run under a schedule draws from one item to
/// another, a line a shape, in items and processes; or the line that says why it draws nothing.
#[unsafe(no_mangle)]
pub extern "C" fn page_shapes(
    alloc: Global,
    listing: &[u8],
    schedule: &[u8],
    from: u64,
    to: u64,
    room: &mut [u8],
) -> Handed
    ensures { let told = told listing.now schedule.now from to in
        IsHanded room.old room.new (answer_code told) (drawn_text told) result }
{
    let answer = told(alloc, listing, schedule, from, to);
    handed_picture(alloc, answer, room)
}

/// Hands a page the picture of a listing's run under a schedule, from one item to another, as the
/// program that draws makes it, or the line that says why there is none.
#[unsafe(no_mangle)]
pub extern "C" fn page_picture(
    alloc: Global,
    listing: &[u8],
    schedule: &[u8],
    from: u64,
    to: u64,
    room: &mut [u8],
) -> Handed
    ensures { IsHandedOneOf (IsDrawn listing.now schedule.now from to STYLE.now LEGEND.now)
        drawn_text room.old room.new result }
{
    let look = Look {
        style: STYLE,
        legend: LEGEND,
    };
    let answer = drawn(alloc, listing, schedule, from, to, &look);
    handed_picture(alloc, answer, room)
}

/// Hands a page the input of the first run of a seed in which a listing fails, shrunk, or no text
/// if none of the runs fails; or the line that says why there is no hunt.
#[unsafe(no_mangle)]
#[tactic(auto, using(crate::proofs::Answered::hunted))]
pub extern "C" fn page_hunt(
    alloc: Global,
    listing: &[u8],
    n: u64,
    w: u64,
    seed: u64,
    runs: u64,
    room: &mut [u8],
) -> Handed
    ensures code { result.code < 6 }
    ensures no_hunt { result.code ≡ 4 → ¬ (IsHuntable n w runs) }
    ensures hunt { result.code ≢ 4 → IsHuntable n w runs }
    ensures small { result.code ≡ 3 ↔ length room.old < result.len }
    ensures answer { result.code ≢ 4 → (answer : Result Hunted ProgramFault)
        × IsHuntAnswer listing.now (hunt_asked n w seed runs) answer
        × IsHandedHunt answer result.code result.len room.new }
{
    let Some(asked) = hunt_asked(n, w, seed, runs) else {
        return Handed { code: 4, len: 0 };
    };
    let answer = hunt_alone(alloc, listing, &asked);
    handed_hunt(alloc, answer, room)
}
