//! `Bench`: a desk with its seats, at which the tests take turns.
ghost use Rattle.std.specs.Prelude.{◌≡◌, All};

use crate::programs::program;
use snap_live::{Desk, Seat, open};
use snap_words::{Seq, Shape};
use std::alloc::Global;
use std::process::Abort;
use std::test::Fail;

/// A desk, and seats of it.
#[derive(Drop)]
pub(crate) struct Bench {
    pub(crate) desk: Desk<Seq>,
    pub(crate) seats: Vec<Seat<Seq>>,
    ghost same: { All (λ s. s.desk ≡ desk) seats.items },
}

/// Returns a new desk with `count` processes and words.
pub(crate) fn new_bench(rt: &impl Abort, alloc: Global, count: u64) -> Result<Bench, Fail> {
    let program = program(rt, alloc)?;
    let (desk, seats) = open::<Seq>(alloc, &program, Shape::new(count, count)?)?;
    Ok(Bench { desk, seats })
}
