//! `Progress`: says on standard error, once a second, how far snaphunt is with its runs.

use snap_hunt::Watcher;
use snap_streams::{Std, say};
use snap_text::Draft;
use std::alloc::{AllocError, Global};
use std::io::IsTerminal;
use std::time::Instant;

/// Returns the line of how many runs were tried, of how many, how many a second, and how many
/// seconds are left.
fn line_of(
    alloc: Global,
    runs: u64,
    all: u64,
    pace: u64,
    left: u64,
) -> Result<Vec<u8>, AllocError> {
    let mut line = Draft::new(alloc);
    line.push(b"\r");
    line.push_number(runs);
    line.push(b" of ");
    line.push_number(all);
    line.push(b" runs tried, ");
    line.push_number(pace);
    line.push(b" a second, ");
    line.push_number(left);
    line.push(b" s left  ");
    line.finish()
}

/// Says how far a hunt is, once a second, if standard error is a terminal. The last line stays
/// there if the hunt is interrupted.
#[derive(Drop)]
pub(crate) struct Progress<'r> {
    rt: &'r HostRuntime,
    /// When the program began, if progress is said.
    begun: Option<Instant>,
    /// How many seconds had passed at the last line.
    told: u64,
}

impl<'r> Progress<'r> {
    /// Returns the progress before the first run.
    pub(crate) fn new(rt: &'r HostRuntime) -> Progress<'r> {
        let begun = if rt.stderr().is_terminal() {
            Instant::now(rt).ok()
        } else {
            None
        };
        Progress { rt, begun, told: 0 }
    }

    /// Says the progress after `seconds` seconds.
    fn tell(&self, runs: u64, all: u64, seconds: u64) {
        let pace = (runs / seconds.max(1)).max(1);
        let left = all.saturating_sub(runs) / pace;
        if let Ok(line) = line_of(self.rt.alloc(), runs, all, pace, left) {
            say(line.as_slice(), &mut Std::new(self.rt.stderr()));
        }
    }
}

impl Watcher for Progress<'_> {
    fn tried(&mut self, runs: u64, all: u64) {
        let Some(begun) = self.begun else {
            return;
        };
        let Ok(passed) = begun.elapsed(self.rt) else {
            return;
        };
        if passed.as_secs() > self.told {
            self.told = passed.as_secs();
            self.tell(runs, all, self.told);
        }
    }

    /// Ends the line of the progress.
    fn ended(&mut self) {
        if self.told > 0 {
            say(b"\n", &mut Std::new(self.rt.stderr()));
        }
    }
}
