//! `trace`: what each item of a run did, as a `TraceStep`.
ghost use Rattle.std.specs.Prelude.{◌≡◌, length, IfOk, MatchOption};
ghost use Rattle.snap_words.specs.Shape.{IsOneOf};
ghost use Rattle.snap_semantics.specs.Readers.{line_of};
ghost use Rattle.snap_semantics.specs.State.{process_at};
ghost use Rattle.snap_semantics.specs.Table.{who};
ghost use Rattle.snap_runs.specs.Run.{run_over};
ghost use Rattle.snap_acts.specs.Tells.{Tells};
ghost use Rattle.snap_acts.specs.Trace.{act_of, call_act, line_number, returned};
ghost use Rattle.snap_acts.specs.Trace.{stands_at, stepped, trace_of};

use crate::act::{Act, TraceStep};
use crate::intent::{Intent, intent_of};
use snap_asm_program::Program;
use snap_machine::Machine;
use snap_sched::Schedule;
use snap_semantics::{Item, Name, Outcome, who};
use snap_walk::{Passed, Walk};
use snap_words::Kind;
use std::alloc::{AllocError, Global};

/// Returns whether a process stands at this line.
fn stands_at(line: Option<u64>, target: u64) -> bool
    ensures { result ≡ stands_at line target }
{
    match line {
        Some(line) => line == target,
        None => false,
    }
}

/// Returns what a step did, by what it was about to do.
fn stepped<K: Kind>(machine: &Machine<K>, i: u32, intent: Intent) -> Result<Act, AllocError>
    requires { IsOneOf machine.now.shape.n i }
    ensures { IfOk result (λ a. a ≡ stepped intent machine.now.state i) }
{
    match intent {
        Intent::Write(word, view) => Ok(Act::Write(word, machine.values()?, view)),
        Intent::Publish(k, view) => Ok(Act::Publish(k, view)),
        Intent::Read(word, spot) => Ok(Act::Read(word, spot)),
        Intent::Look(k, view) => Ok(Act::Look(k, view)),
        Intent::Borrow(spot, view) => Ok(Act::Borrow(spot, view)),
        Intent::Collect(view) => Ok(Act::Collect(view)),
        Intent::Test(target) => Ok(Act::Test(stands_at(machine.line(i), target))),
        Intent::Enter => Ok(Act::Enter),
        Intent::Leave(view) => Ok(Act::Leave(view)),
        Intent::Other => Ok(Act::Other),
    }
}

/// Returns that an item called an operation.
fn call_act(item: Item) -> Act
    ensures { result ≡ call_act item }
{
    match item {
        Item::Call(_, op) => Act::Call(op),
        Item::Step(_) => Act::Other,
        Item::Crash(_) => Act::Other,
    }
}

/// Returns the view local that a line was about to return.
fn returned(intent: Intent) -> Option<Name>
    ensures { result ≡ returned intent }
{
    match intent {
        Intent::Leave(view) => Some(view),
        _ => None,
    }
}

/// Returns what an item did, by what it was about to do and its outcome.
fn act_of<K: Kind>(
    machine: &Machine<K>,
    intent: Intent,
    item: Item,
    outcome: Outcome,
) -> Result<Act, AllocError>
    requires { IsOneOf machine.now.shape.n (who item) }
    ensures { IfOk result (λ a. a ≡ act_of intent machine.now.state (who item) item outcome) }
{
    match outcome {
        Outcome::Called => Ok(call_act(item)),
        Outcome::Stepped => stepped(machine, who(item), intent),
        Outcome::Answered(view) => Ok(Act::Answer(view, returned(intent))),
        Outcome::Finished => Ok(Act::Done),
        Outcome::Trapped(_) => Ok(Act::Trap),
        Outcome::Crashed => Ok(Act::Crash),
        Outcome::Skipped(_) => Ok(Act::Skip),
    }
}

/// Returns a line, and 0 if there is none.
fn line_number(line: Option<u64>) -> u64
    ensures { result ≡ line_number line }
{
    match line {
        Some(line) => line,
        None => 0,
    }
}

/// Does the next item of a run, if there is one, and returns what it did.
fn next_step<K: Kind>(walk: &mut Walk<'_, K>) -> Result<Option<TraceStep>, AllocError>
    ensures { IfOk result (λ o. MatchOption o (walk.old.at ≡ length walk.old.run.items)
        (λ step. Tells walk.old step walk.new)) }
{
    let Some(item) = walk.upcoming() else {
        return Ok(None);
    };
    let process = who(item);
    let line = line_number(walk.machine().line(process));
    let intent = intent_of(walk.machine(), item);
    let Some(
        Passed {
            number,
            outcome,
            ..
        },
    ) = walk.next()?
    else {
        return Ok(None);
    };
    let act = act_of(walk.machine(), intent, item, outcome)?;
    Ok(Some(TraceStep {
        process,
        item: number,
        line,
        act,
    }))
}

/// Returns what each item of a program's run over a schedule did.
///
/// # Errors
///
/// `AllocError` where memory runs out.
pub fn trace<K: Kind>(
    alloc: Global,
    program: &Program,
    schedule: &Schedule,
) -> Result<Vec<TraceStep>, AllocError>
    requires { program.now.kind ≡ K.TAG }
    ensures { IfOk result (λ v. v.items ≡ trace_of (run_over program.now schedule.now)) }
{
    let mut walk = Walk::<K>::over(alloc, program, schedule)?;
    let mut steps = Vec::new(alloc);
    while let Some(step) = next_step(&mut walk)? {
        steps.push(step)?;
    }
    Ok(steps)
}
