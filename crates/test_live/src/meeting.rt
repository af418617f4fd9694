//! `Meeting`: a gate for the tests of live runs, at which two processes meet before their first
//! turns.
ghost use Rattle.std.specs.Prelude.{◌≡◌, false};

use snap_live::Gate;
use std::sync::atomic::{AtomicU64, Ordering};
use std::thread;
use std::time::{Clock, Duration};

/// Lets two processes on at their first turn once both are there.
#[derive(Drop)]
pub(crate) struct Meeting<R: Clock> {
    clock: R,
    first: AtomicU64,
    second: AtomicU64,
}

impl<R: Clock> Meeting<R> {
    /// Returns a meeting to which nobody has come yet.
    pub(crate) fn new(clock: R) -> Meeting<R> {
        Meeting {
            clock,
            first: AtomicU64::new(0),
            second: AtomicU64::new(0),
        }
    }
}

impl<R: Clock + Sync> Gate for Meeting<R> {
    ghost may_answer = { λ _ _ turn answer. answer ≡ false → turn ≡ 1 };

    fn enter(&self, process: u32, turn: u64) -> bool {
        if turn != 1 {
            return true;
        }
        if process == 1 {
            self.first.store(1, Ordering::SeqCst);
            comes(&self.clock, &self.second)
        } else {
            self.second.store(1, Ordering::SeqCst);
            comes(&self.clock, &self.first)
        }
    }
}

/// Returns whether the flag is seen in about ten seconds.
fn comes<R: Clock>(clock: &R, flag: &AtomicU64) -> bool {
    for _ in 0..10_000u32 {
        if flag.load(Ordering::SeqCst) == 1 {
            return true;
        }
        thread::sleep(clock, Duration::from_millis(1));
    }
    false
}
