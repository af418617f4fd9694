//! `handed_hunt`: puts the result of a hunt into the page's memory, the input of a run that fails,
//! or the line that says why there is no hunt.
ghost use Rattle.std.specs.Prelude.{◌≡◌, ◌≢◌, ◌<◌, ◌↔◌, IfSome, None, length};
ghost use Rattle.snap_page.specs.Hunt.{IsHandedHunt, IsHuntable, hunt_asked, hunt_wanted};

use crate::handed::{Handed, handed_refusal, handed_text};
use snap_chance::{Pace, Plan};
use snap_faults::ProgramFault;
use snap_hunt::{StepBound, Wanted};
use snap_hunt_output::{HuntRequest, Hunted};
use snap_words::Shape;
use std::alloc::Global;

/// The most runs that a page may want.
const MOST_RUNS: u64 = 1_000_000;

/// How many turns a schedule has.
const TURNS: u64 = 120;

/// Returns what is to fail in a run.
fn wanted() -> Wanted
    ensures { result ≡ hunt_wanted }
{
    Wanted {
        linearizable: true,
        point: false,
        trap: true,
        steps: Some(StepBound::Shipped),
        collects: None,
    }
}

/// Returns the hunt over `runs` runs of a seed, if there can be one.
pub fn hunt_asked(n: u64, w: u64, seed: u64, runs: u64) -> Option<HuntRequest>
    ensures asked { IfSome result (λ a. (a ≡ hunt_asked n w seed runs) × IsHuntable n w runs) }
    ensures none { result ≡ None → ¬ (IsHuntable n w runs) }
{
    if runs > MOST_RUNS {
        return None;
    }
    match Shape::new(n, w) {
        Ok(shape) => Some(HuntRequest {
            plan: Plan::new(shape, Pace::Mixed, TURNS, 0, 1),
            wanted: wanted(),
            seed,
            runs,
        }),
        Err(_) => None,
    }
}

/// Hands over the result of a hunt, or why there is none.
pub fn handed_hunt(alloc: Global, answer: Result<Hunted, ProgramFault>, room: &mut [u8]) -> Handed
    ensures code { result.code < 6 × (result.code ≢ 4) }
    ensures small { result.code ≡ 3 ↔ length room.old < result.len }
    ensures answer { IsHandedHunt answer result.code result.len room.new }
{
    match answer {
        Ok(Hunted::NoneFails) => Handed { code: 0, len: 0 },
        Ok(Hunted::Fails { input, .. }) => handed_text(0, input.as_slice(), room),
        Err(ProgramFault::Memory) => Handed { code: 2, len: 0 },
        Err(ProgramFault::Refused(refusal)) => handed_refusal(alloc, &refusal, room),
        Err(ProgramFault::Unsaid) => Handed { code: 5, len: 0 },
        Err(_) => Handed { code: 2, len: 0 },
    }
}
