//! `Caller`: what an audit keeps of each process: its last call, with the values and the double
//! collects at it.
ghost use Rattle.std.specs.Prelude.{◌≡◌, ◌≤◌, ◌<◌, ◌+◌, ◌-◌, ◌^◌, ℕ, List, IfOk, drop, suc};
ghost use Rattle.std.specs.Prelude.{replicate};
ghost use Rattle.snap_record.specs.History.{values_by};
ghost use Rattle.snap_audit.specs.Sweep.{fresh, least_by};
ghost use Rattle.snap_runs.specs.declared.verdict.Verdict.{Verdict};

use snap_record::{Change, Row, advance};
use snap_runs::Verdict;
use snap_semantics::Event;
use std::alloc::{AllocError, Global};

/// The last call of a process, with the values then, the next change, and how many double collects
/// the process had had.
#[derive(Drop)]
pub(crate) struct Caller {
    pub(crate) values: Row,
    pub(crate) next: usize,
    pub(crate) call: u64,
    pub(crate) collects: u64,
}

/// Returns the next item after `item` by which a value may change, or `end` if that comes first.
fn next_change(changes: &[Change], next: usize, item: u64, end: u64) -> u64
    requires { item < end }
    ensures later { item < result }
    ensures within { result ≤ end }
    ensures quiet { (vs : List ℕ) → values_by vs (drop next changes.now) item ≡ vs → (u : ℕ) →
        item ≤ u → u < result → values_by vs (drop next changes.now) u ≡ vs }
{
    if next < changes.len() {
        changes[next].item.max(item + 1).min(end)
    } else {
        end
    }
}

/// Returns the least of `count` items from `item` on after which the values are `view`. The given
/// values are those before that item, with change `next` to come.
fn find_point(
    values: &mut Row,
    changes: &[Change],
    next: usize,
    view: &[u64],
    item: u64,
    count: u64,
) -> Option<u64>
    requires { item + count < 2 ^ 64 }
    ensures { result ≡ least_by values.old (drop next changes.now) view.now item count }
{
    let end = item + count;
    let mut k = next;
    let mut t = item;
    while t < end {
        k = advance(values, changes, k, t);
        if values.as_slice() == view {
            return Some(t);
        }
        t = next_change(changes, k, t, end);
    }
    None
}

impl Caller {
    /// Returns what is kept of a process before its first call.
    pub(crate) fn new(alloc: Global, words: u64) -> Result<Caller, AllocError>
        ensures { IfOk result (λ c. c ≡ fresh words) }
    {
        Ok(Caller {
            values: Row::zeros(alloc, words)?,
            next: 0,
            call: 0,
            collects: 0,
        })
    }

    /// Goes on to its next call.
    pub(crate) fn go_on(&mut self, changes: &[Change], call: u64, collects: u64)
        ensures values { (u : ℕ) → call ≤ u →
            values_by self.new.values (drop self.new.next changes.now) u
            ≡ values_by self.old.values (drop self.old.next changes.now) u }
        ensures call { self.new.call ≡ call }
        ensures collects { self.new.collects ≡ collects }
    {
        self.next = advance(&mut self.values, changes, self.next, call);
        self.call = call;
        self.collects = collects;
    }

    /// Returns the verdict on the last scan that the process called, once `event` has answered it
    /// with `view`.
    pub(crate) fn verdict(
        &self,
        alloc: Global,
        changes: &[Change],
        event: &Event,
        view: &[u64],
        collects: u64,
    ) -> Result<Verdict, AllocError>
        requires order { self.now.call ≤ event.now.item }
        requires few { event.now.item + 1 < 2 ^ 64 }
        requires collects { self.now.collects ≤ collects }
        ensures { IfOk result (λ v. v ≡ record {
          process = event.now.process;
          call = self.now.call;
          answer = event.now.item;
          point = least_by self.now.values (drop self.now.next changes.now) view.now self.now.call
              (suc (event.now.item - self.now.call));
          collects = collects - self.now.collects;
        }) }
    {
        let mut values = self.values.copy(alloc)?;
        let count = event.item - self.call + 1;
        let point = find_point(&mut values, changes, self.next, view, self.call, count);
        Ok(Verdict {
            process: event.process,
            call: self.call,
            answer: event.item,
            point,
            collects: collects - self.collects,
        })
    }
}
