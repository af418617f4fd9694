//! A search in the events of a record: how many double collects a scan took up to its answer
//! (`collects_until`).
ghost use Rattle.std.specs.Prelude.{◌≡◌, drop, length, map};
ghost use Rattle.snap_runs.specs.Run.{Run};
ghost use Rattle.snap_runs.specs.Scan.{double_collects};
ghost use Rattle.snap_record.specs.History.{collects_at};
ghost use Rattle.snap_record.specs.Searches.{collects_until, is_answer, is_answer_of, scans};

use snap_semantics::{Event, Happening, Op};

/// Returns whether this is an answer.
fn is_answer(what: &Happening) -> bool
    ensures { result ≡ is_answer what.now }
{
    match what {
        Happening::Call(_) => false,
        Happening::Answer(_) => true,
        Happening::Done => false,
        Happening::Crash => false,
    }
}

/// Returns whether this is an answer of a process.
fn is_answer_of(event: &Event, i: u32) -> bool
    ensures { result ≡ is_answer_of i event.now }
{
    event.process == i && is_answer(&event.what)
}

/// Returns the process whose scan is called.
pub fn scans(i: u32, what: &Happening) -> Option<u32>
    ensures { result ≡ scans i what.now }
{
    match what {
        Happening::Call(Op::Scan) => Some(i),
        Happening::Call(Op::Update { .. }) => None,
        Happening::Answer(_) => None,
        Happening::Done => None,
        Happening::Crash => None,
    }
}

/// Returns how many double collects process `i` had made at its first answer among the events from
/// place `from` on; `all` where it has none there.
pub fn collects_until(events: &[Event], at_events: &[u64], from: usize, i: u32, all: u64) -> u64
    requires { length at_events.now ≡ length events.now }
    ensures { (r : Run) → at_events.now ≡ map (collects_at r) events.now →
        all ≡ double_collects r i 0 (length r.items) →
        result ≡ collects_until r i (drop from events.now) }
{
    let mut k = from;
    while k < events.len() {
        if is_answer_of(&events[k], i) {
            return at_events[k];
        }
        k += 1;
    }
    all
}
