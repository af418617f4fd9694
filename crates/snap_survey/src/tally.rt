//! `Tally`: counts, for a survey, of the calls, ends, traps and crashes of a run so far, with the
//! first trap and the first skip.
ghost use Rattle.std.specs.Prelude.{◌≡◌, is_none};
ghost use Rattle.snap_survey.specs.Survey.{trap_of};
ghost use Rattle.snap_survey.specs.Tally.{IsWithin, noted, none_noted};

use crate::findings::{Skip, Trap};
use snap_semantics::{Item, Op, Outcome, Status, who};

/// What the items of a run came to so far.
#[derive(Clone, Copy)]
pub(crate) struct Tally {
    pub(crate) scans_called: u64,
    pub(crate) updates_called: u64,
    pub(crate) updates_done: u64,
    pub(crate) traps: u64,
    pub(crate) first_trap: Option<Trap>,
    pub(crate) crashes: u64,
    pub(crate) first_skip: Option<Skip>,
}

/// Returns the trap of a process by item number `number`, after which it has this status.
fn trap_of(number: u64, process: u32, status: Status) -> Option<Trap>
    ensures { result ≡ trap_of number process status }
{
    match status {
        Status::Trapped(cause, activity) => Some(Trap {
            item: number,
            process,
            line: activity.line,
            cause,
        }),
        Status::Idle | Status::Busy(_) | Status::Crashed(_) => None,
    }
}

impl Tally {
    /// Returns the tally before the first item.
    pub(crate) fn new() -> Tally
        ensures { result ≡ none_noted }
    {
        Tally {
            scans_called: 0,
            updates_called: 0,
            updates_done: 0,
            traps: 0,
            first_trap: None,
            crashes: 0,
            first_skip: None,
        }
    }

    /// Returns whether no skipped item was noted.
    pub(crate) fn seeks_skip(&self) -> bool
        ensures { result ≡ is_none self.now.first_skip }
    {
        match self.first_skip {
            Some(_) => false,
            None => true,
        }
    }

    /// Notes item number `number`, after which its process has this status.
    pub(crate) fn note(&mut self, number: u64, item: Item, outcome: &Outcome, status: Status)
        requires { IsWithin self.old number }
        ensures { self.new ≡ noted self.old number item outcome.now status }
    {
        match outcome {
            Outcome::Called => match item {
                Item::Call(_, Op::Scan) => self.scans_called += 1,
                Item::Call(_, Op::Update { .. }) => self.updates_called += 1,
                Item::Step(_) | Item::Crash(_) => {}
            },
            Outcome::Stepped | Outcome::Answered(_) => {}
            Outcome::Finished => self.updates_done += 1,
            Outcome::Trapped(_) => {
                self.traps += 1;
                if self.first_trap.is_none() {
                    self.first_trap = trap_of(number, who(item), status);
                }
            }
            Outcome::Crashed => self.crashes += 1,
            Outcome::Skipped(reason) => {
                if self.first_skip.is_none() {
                    self.first_skip = Some(Skip {
                        item: number,
                        process: who(item),
                        reason: *reason,
                    });
                }
            }
        }
    }
}
