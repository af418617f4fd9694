//! `StartGate`: lets the workers of a live run begin together, before the gate that their caller
//! gave.
ghost use Rattle.std.specs.Prelude.{◌≡◌};

use crate::gate::Gate;
use snap_sched::Script;
use std::sync::atomic::{AtomicU64, Ordering};
use std::thread::yield_now;

/// How often a worker looks for the others before it begins without them.
const MOST_LOOKS: u32 = 10_000;

/// Up to this turn a worker lets others on its processor before each turn. There may be fewer
/// processors than workers, and a short script is done before its worker loses its own.
const FIRST_TURNS: u64 = 8;

/// A gate that lets workers on as another gate does, and to their first turn once all of them are
/// there.
#[derive(Drop)]
pub(crate) struct StartGate<'g, G> {
    pub(crate) gate: &'g G,
    workers: u64,
    there: AtomicU64,
}

impl<'g, G> StartGate<'g, G> {
    /// Returns a gate in front of `gate`, for a worker of each script that has a turn to make.
    pub(crate) fn of(gate: &'g G, scripts: &[Script]) -> StartGate<'g, G>
        ensures { result.gate.now ≡ gate.now }
    {
        StartGate {
            gate,
            workers: busy_count(scripts),
            there: AtomicU64::new(0),
        }
    }

    /// Lets workers go on at once, since not all of them will come.
    pub(crate) fn call_off(&self) {
        self.there.fetch_add(self.workers, Ordering::SeqCst);
    }

    /// Comes, and looks until all workers have come or until it has looked often enough.
    fn meet(&self) {
        self.there.fetch_add(1, Ordering::SeqCst);
        for _look in 0..MOST_LOOKS {
            if self.there.load(Ordering::SeqCst) >= self.workers {
                return;
            }
            yield_now();
        }
    }
}

impl<'g, G: Gate> Gate for StartGate<'g, G> {
    ghost may_answer = { λ start. G.may_answer start.gate.now };

    fn enter(&self, process: u32, turn: u64) -> bool {
        if turn == 1 {
            self.meet();
        } else if turn <= FIRST_TURNS && self.workers > 1 {
            yield_now();
        }
        self.gate.enter(process, turn)
    }
}

/// Returns how many of `scripts` have an operation.
fn busy_count(scripts: &[Script]) -> u64 {
    scripts
        .iter()
        .filter(|script| !script.operations().is_empty())
        .count() as u64
}
