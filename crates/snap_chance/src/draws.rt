//! `Draws`: the random numbers for one turn of a schedule, one for each choice.
ghost use Rattle.std.specs.Prelude.{◌≡◌};
ghost use Rattle.snap_chance.specs.Draws.{draws};

use rand_core::Rng;

/// The random numbers for one turn, one for each of its choices.
#[derive(Clone, Copy)]
pub(crate) struct Draws {
    pub(crate) process: u64,
    pub(crate) crash: u64,
    pub(crate) call: u64,
    pub(crate) scan: u64,
    pub(crate) word: u64,
    pub(crate) value: u64,
    pub(crate) scale: u64,
    pub(crate) length: u64,
}

/// Draws the numbers for a turn.
pub(crate) fn draw<R: Rng>(rng: &mut R) -> Draws
    ensures { (result, R.stream rng.new) ≡ draws (R.stream rng.old) }
{
    let process = rng.next_u64();
    let crash = rng.next_u64();
    let call = rng.next_u64();
    let scan = rng.next_u64();
    let word = rng.next_u64();
    let value = rng.next_u64();
    let scale = rng.next_u64();
    let length = rng.next_u64();
    Draws {
        process,
        crash,
        call,
        scan,
        word,
        value,
        scale,
        length,
    }
}
