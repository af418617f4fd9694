//! `Taker`: who takes the operands of a line that traps: a process, its operation, and the place of
//! a quantifier.
ghost use Rattle.std.specs.Prelude.{◌≡◌};
ghost use Rattle.snap_why.specs.Troubles.{taker_at};

use snap_semantics::Op;

/// A process, its operation, and the place of a quantifier.
#[derive(Clone, Copy)]
pub struct Taker {
    pub process: u32,
    pub op: Op,
    pub place: u64,
}

impl Taker {
    /// Returns the same taker at another place of a quantifier.
    pub(crate) fn at(self, place: u64) -> Taker
        ensures { result ≡ taker_at self place }
    {
        Taker {
            process: self.process,
            op: self.op,
            place,
        }
    }
}
