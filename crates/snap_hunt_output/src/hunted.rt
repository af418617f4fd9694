//! `hunt_listing`: a whole hunt, which ends in `Hunted`: no run of a listing fails, or the first
//! that does, with the input of a small run that fails too.
ghost use Rattle.std.specs.Prelude.{◌≡◌, ◌<◌, ◌^◌, IfErr, IfOk, OnOk, Some};
ghost use Rattle.snap_runs.specs.Run.{run_over};
ghost use Rattle.snap_hunt.specs.Finding.{Finds};
ghost use Rattle.snap_hunt.specs.Kinds.{kind_of};
ghost use Rattle.snap_semantics.specs.Answers.{Answers};
ghost use Rattle.snap_hunt.specs.Hunt.{IsFirst, run_of};
ghost use Rattle.snap_hunt_output.specs.HuntRequest.{owned};
ghost use Rattle.snap_hunt_output.specs.Hunted.{IsDue, IsFaultOf, IsHunted, IsHuntedOf};
ghost use Rattle.snap_hunt_output.specs.Hunted.{IsNoRefusal, IsPrinted, Says, asked_source};

use crate::check::{InputRun, run_in_input};
use crate::hunt_request::{HuntRequest, owned};
use crate::input::input_text;
use snap_asm_program::Program;
use snap_chance::{Plan, schedule_of};
use snap_faults::ProgramFault;
use snap_hunt::{
    Failure, Found, Hunt, Wanted, Watcher, failure_over, first_failing, first_failing_alone, shrunk,
};
use snap_input::{MAX_INPUT, fits, program_of};
use snap_semantics::{Fault, Refusal};
use snap_words::WordFault;
use std::alloc::Global;
use std::thread::Threads;

/// What a hunt comes to.
#[derive(Drop)]
pub enum Hunted {
    /// None of the runs fails.
    NoneFails,
    /// This run is the first that fails. The input has a small run that fails in the same way.
    Fails {
        run: u64,
        failure: Failure,
        input: Vec<u8>,
    },
}

/// A small run that fails, as an input, and what fails in it.
#[derive(Drop)]
struct SmallInput {
    failure: Failure,
    input: Vec<u8>,
}

/// Returns the input of a small run that fails in the same way as the one that was found.
#[tactic(auto, using(crate::proofs::Finding::fails_over, crate::proofs::Finding::printed_by))]
fn small_input(
    alloc: Global,
    listing: &[u8],
    program: &Program,
    plan: &Plan,
    asked: &HuntRequest,
    found: &Found,
) -> Result<SmallInput, ProgramFault>
    requires { Finds asked.now.wanted (run_of program.now plan.now asked.now.seed found.now.run)
        (Some found.now.failure) }
    ensures printed { IfOk result (λ small. IsPrinted program.now plan.now listing.now asked.now
        found.now.run (kind_of found.now.failure) small.failure small.input.items) }
    ensures alike { IfOk result (λ small. kind_of small.failure ≡ kind_of found.now.failure) }
    ensures fault { IfErr result IsNoRefusal }
{
    let schedule = schedule_of(alloc, asked.seed, found.run, plan)?;
    // What `shape` promises: the schedule keeps the rules of schedules.
    let _shape = schedule.shape();
    let kind = found.failure.kind();
    let alike = asked.wanted.with_only(kind);
    let small = shrunk(alloc, program, &alike, &schedule, plan.owns())?;
    match failure_over(alloc, program, &small, &alike)? {
        Some(failure) if failure.is_kind(kind) => Ok(SmallInput {
            failure,
            input: input_text(alloc, listing, asked.seed, found.run, &failure, &small)?,
        }),
        _ => Err(ProgramFault::Unsaid),
    }
}

/// Checks that `failure` is what fails in the run.
fn check_run(
    alloc: Global,
    read: &InputRun,
    wanted: &Wanted,
    failure: &Failure,
) -> Result<(), ProgramFault>
    ensures says { OnOk result (Finds wanted.now (run_over read.now.program read.now.schedule)
        (Some failure.now)) }
    ensures fault { IfErr result IsNoRefusal }
{
    match failure_over(alloc, &read.program, &read.schedule, wanted)? {
        Some(found) if found == *failure => Ok(()),
        _ => Err(ProgramFault::Unsaid),
    }
}

/// Reads an input that is printed once more, and sees that this is what fails in its run.
#[tactic(auto, using(crate::proofs::Finding::said))]
fn check(
    alloc: Global,
    input: &[u8],
    wanted: &Wanted,
    failure: &Failure,
) -> Result<(), ProgramFault>
    ensures says { OnOk result (Says wanted.now input.now failure.now) }
    ensures fault { IfErr result IsNoRefusal }
{
    if input.len() > MAX_INPUT {
        return Err(ProgramFault::Unsaid);
    }
    match run_in_input(alloc, input) {
        Ok(read) => check_run(alloc, &read, wanted, failure),
        Err(Fault::Memory) => Err(ProgramFault::Memory),
        Err(Fault::Refused(_)) => Err(ProgramFault::Unsaid),
    }
}

/// Returns the result of a hunt whose first failing run is this one, or that has none: a small run
/// that fails too, as an input.
#[tactic(auto, using(crate::proofs::Finding::fault_by, crate::proofs::Finding::found_by, crate::proofs::Finding::none_by))]
fn hunted_of(
    alloc: Global,
    listing: &[u8],
    program: &Program,
    plan: &Plan,
    asked: &HuntRequest,
    found: Option<Found>,
) -> Result<Hunted, ProgramFault>
    requires plan { plan.now ≡ owned program.now.kind asked.now.plan }
    requires first { IsFirst program.now plan.now asked.now.wanted asked.now.seed 0 asked.now.runs
        found }
    ensures hunted { IfOk result (IsHuntedOf program.now listing.now asked.now) }
    ensures fault { IfErr result (IsFaultOf program.now asked.now) }
{
    let Some(found) = found else {
        return Ok(Hunted::NoneFails);
    };
    let small = small_input(alloc, listing, program, plan, asked, &found)?;
    let alike = asked.wanted.with_only(found.failure.kind());
    check(alloc, small.input.as_slice(), &alike, &small.failure)?;
    let SmallInput { failure, input } = small;
    Ok(Hunted::Fails {
        run: found.run,
        failure,
        input,
    })
}

/// Returns the program of a listing, if the shape fits its kind.
fn asked_program(
    alloc: Global,
    listing: &[u8],
    asked: &HuntRequest,
) -> Result<Program, Fault<Refusal>>
    ensures { Answers (λ p. p) result (asked_source listing.now asked.now) }
{
    let program = program_of(alloc, listing)?;
    if !fits(program.kind(), asked.plan.shape()) {
        return Err(Fault::Refused(Refusal::Words(WordFault::BadShape)));
    }
    Ok(program)
}

/// Returns the first of the runs of `listing` that fails, as an input of a small run that fails
/// too; or that none of them does.
///
/// # Errors
///
/// The reason why `listing` is refused, as elsewhere or because the shape does not fit its kind;
/// `Memory` where memory runs out.
#[tactic(auto, using(crate::proofs::Finding::hunted_by, crate::proofs::Finding::due_by))]
pub fn hunt_listing<W: Watcher>(
    rt: &(impl Threads + Sync),
    alloc: Global,
    listing: &[u8],
    asked: &HuntRequest,
    watcher: &mut W,
) -> Result<Hunted, ProgramFault>
    requires { asked.now.runs < 2 ^ 63 }
    ensures hunted { IfOk result (IsHunted listing.now asked.now) }
    ensures refused { IfErr result (IsDue listing.now asked.now) }
{
    let program = asked_program(alloc, listing, asked)?;
    let plan = owned(program.kind(), &asked.plan);
    let hunt = Hunt {
        program: &program,
        plan: &plan,
        wanted: &asked.wanted,
        seed: asked.seed,
    };
    let found = first_failing(rt, alloc, &hunt, asked.runs, watcher)?;
    hunted_of(alloc, listing, &program, &plan, asked, found)
}

/// Returns what `hunt_listing` returns, found in one thread.
///
/// # Errors
///
/// The reason why `listing` is refused, as elsewhere or because the shape does not fit its kind;
/// `Memory` where memory runs out.
#[tactic(auto, using(crate::proofs::Finding::hunted_by, crate::proofs::Finding::due_by))]
pub fn hunt_alone(
    alloc: Global,
    listing: &[u8],
    asked: &HuntRequest,
) -> Result<Hunted, ProgramFault>
    requires { asked.now.runs < 2 ^ 63 }
    ensures hunted { IfOk result (IsHunted listing.now asked.now) }
    ensures refused { IfErr result (IsDue listing.now asked.now) }
{
    let program = asked_program(alloc, listing, asked)?;
    let plan = owned(program.kind(), &asked.plan);
    let hunt = Hunt {
        program: &program,
        plan: &plan,
        wanted: &asked.wanted,
        seed: asked.seed,
    };
    let found = first_failing_alone(alloc, &hunt, asked.runs)?;
    hunted_of(alloc, listing, &program, &plan, asked, found)
}
