//! `steps_to`: counts the steps that a process of a debugger session takes to a `Goal`, on a copy
//! of the machine.
ghost use Rattle.std.specs.Prelude.{◌≡◌, ◌<◌, ◌^◌, IfOk, OnOk};
ghost use Rattle.snap_words.specs.Shape.{IsOneOf};
ghost use Rattle.snap_prompt.specs.Reach.{IsRightOf, checked, checked_goal, checked_status};
ghost use Rattle.snap_prompt.specs.Reach.{has_reached, is_at, steps_from, steps_to};

use crate::goal::{Goal, NoSteps};
use snap_asm_program::Program;
use snap_debug::Session;
use snap_machine::Machine;
use snap_sched::MAX_ITEMS;
use snap_semantics::{Item, Status};
use snap_words::Kind;
use std::alloc::AllocError;

/// Returns whether a process at a line has reached a goal.
fn is_at(goal: Goal, line: u64) -> bool
    ensures { result ≡ is_at goal line }
{
    match goal {
        Goal::Line(number) => line == number,
        Goal::End => false,
    }
}

/// Returns whether a process of this status has reached a goal: it is at its line, or no longer
/// busy.
fn has_reached(goal: Goal, status: Status) -> bool
    ensures { result ≡ has_reached goal status }
{
    match status {
        Status::Busy(activity) => is_at(goal, activity.line),
        Status::Idle | Status::Trapped(_, _) | Status::Crashed(_) => true,
    }
}

/// Lets a process step to a goal, and returns how many steps it took, at most `most`.
fn count_steps<K: Kind>(
    machine: &mut Machine<K>,
    process: u32,
    goal: Goal,
    most: u64,
) -> Result<Option<u64>, AllocError>
    requires { IsOneOf machine.old.shape.n process }
    ensures { let m = machine.old in IfOk result (λ steps. steps
        ≡ steps_from m.source m.shape process goal 0 most m.state) }
{
    for taken in 0..most {
        machine.apply(Item::Step(process))?;
        if has_reached(goal, machine.status(process)) {
            return Ok(Some(taken + 1));
        }
    }
    Ok(None)
}

/// Returns how many steps a process of a machine takes to a goal, at most `most`. The machine stays
/// as it is.
fn steps_of<K: Kind>(
    machine: &Machine<K>,
    process: u32,
    goal: Goal,
    most: u64,
) -> Result<Option<u64>, AllocError>
    requires { IsOneOf machine.now.shape.n process }
    ensures { let m = machine.now in IfOk result (λ steps. steps
        ≡ steps_from m.source m.shape process goal 0 most m.state) }
{
    let mut machine = machine.copy()?;
    count_steps(&mut machine, process, goal, most)
}

/// Checks that a goal is one of the lines, or the end.
fn check_goal(program: &Program, goal: Goal) -> Result<(), NoSteps>
    ensures { result ≡ checked_goal program.now.lines goal }
{
    match goal {
        Goal::Line(line) if !program.has_line(line) => Err(NoSteps::NoSuchLine),
        Goal::Line(_) | Goal::End => Ok(()),
    }
}

/// Checks that a process is busy.
fn check_status(status: Status) -> Result<(), NoSteps>
    ensures { result ≡ checked_status status }
{
    match status {
        Status::Busy(_) => Ok(()),
        Status::Idle => Err(NoSteps::Idle),
        Status::Trapped(_, _) => Err(NoSteps::Trapped),
        Status::Crashed(_) => Err(NoSteps::Crashed),
    }
}

/// Checks that a process exists and is busy, and that its goal exists.
fn check<K: Kind>(session: &Session<K>, process: u64, goal: Goal) -> Result<(), NoSteps>
    ensures checked { result ≡ checked session.now process goal }
    ensures fits { OnOk result (process < 2 ^ 32) }
{
    if process == 0 || session.machine().shape().n() < process {
        return Err(NoSteps::NoSuchProcess);
    }
    check_goal(session.program(), goal)?;
    check_status(session.machine().status(process as u32))
}

/// Returns how many steps process `process` takes to `goal` from where `session` stands, or why it
/// takes none.
///
/// # Errors
///
/// `AllocError` where memory runs out.
#[tactic(auto, using(crate::proofs::Fewest::right), unfolding(crate::specs::Reach::steps_to))]
pub fn steps_to<K: Kind>(
    session: &Session<K>,
    process: u64,
    goal: Goal,
) -> Result<Result<u64, NoSteps>, AllocError>
    ensures steps { IfOk result (λ steps. steps ≡ steps_to session.now process goal) }
    ensures right { IfOk result (λ steps. IsRightOf session.now process goal steps) }
{
    if let Err(why) = check(session, process, goal) {
        return Ok(Err(why));
    }
    let most = MAX_ITEMS.saturating_sub(session.position());
    let steps = steps_of(session.machine(), process as u32, goal, most)?;
    Ok(steps.ok_or(NoSteps::Full))
}
