//! `Window`: which items of a run an SVG picture shows, and where in its width.
ghost use Rattle.std.specs.Prelude.{◌≡◌, ◌≤◌, ◌<◌, ◌+◌, ◌-◌, MatchOption};
ghost use Rattle.snap_words.specs.Shape.{Counts};
ghost use Rattle.snap_picture.specs.Window.{
  IsPart,
  Part,
  height,
  is_here,
  is_near,
  is_thin,
  width_of,
  x_before,
  x_of,
  y_end,
  y_of,
};

use snap_words::{MAX_ITEMS, Shape};
use std::marker::Model;

/// The most items that a picture has.
const MOST_ITEMS: u64 = 20_000;

/// The items that are drawn, in the lanes of the processes.
#[derive(Clone, Copy)]
pub struct Window {
    from: u64,
    to: u64,
    processes: u64,
    reads: bool,
}

impl Model for Window {
    ghost use Rattle.snap_picture.specs.Window.{IsPart, Part};

    ghost Value = { Part };

    ghost view = { λ w. record {
      from = w.from;
      to = w.to;
      processes = w.processes;
      reads = w.reads;
    } };

    ghost invariant = { λ w. IsPart (record {
      from = w.from;
      to = w.to;
      processes = w.processes;
      reads = w.reads;
    }) };

    ghost inverse = { λ p. record {
      from = p.from;
      to = p.to;
      processes = p.processes;
      reads = p.reads;
    } };
}

/// Returns how far it is from one place to another, at least enough to be seen.
pub(crate) fn width_of(left: u64, right: u64) -> u64
    ensures { result ≡ width_of left right }
{
    right.saturating_sub(left).max(2)
}

impl Window {
    /// Returns the window of the items after `from` and up to `to`; `None` where there are none or
    /// too many.
    pub fn new(from: u64, to: u64, shape: Shape, reads: bool) -> Option<Window>
        ensures { let p : Part = record { from = from; to = to; processes = shape.n; reads = reads }
            in MatchOption result (IsPart p → ⊥) (λ w. (w ≡ p) × IsPart p) }
    {
        if from < to && to - from <= MOST_ITEMS && to <= MAX_ITEMS {
            Some(Window {
                from,
                to,
                processes: u64::from(shape.process_count()),
                reads,
            })
        } else {
            None
        }
    }

    /// Returns the number of lanes.
    pub(crate) fn processes(&self) -> u64
        ensures value { result ≡ self.now.processes }
        ensures few { result ≤ 64 }
    {
        self.processes
    }

    /// Returns whether reads lead to what they read.
    pub(crate) fn has_reads(&self) -> bool
        ensures { result ≡ self.now.reads }
    {
        self.reads
    }

    /// Returns the item before the first one.
    pub(crate) fn from(&self) -> u64
        ensures value { result ≡ self.now.from }
        ensures part { IsPart self.now }
    {
        self.from
    }

    /// Returns the first item.
    pub(crate) fn first(&self) -> u64
        ensures { result ≡ self.now.from + 1 }
    {
        self.from + 1
    }

    /// Returns how many items are drawn.
    pub(crate) fn count(&self) -> u64
        ensures { result ≡ self.now.to - self.now.from }
    {
        self.to - self.from
    }

    /// Returns the last item.
    pub(crate) fn to(&self) -> u64
        ensures value { result ≡ self.now.to }
        ensures part { IsPart self.now }
    {
        self.to
    }

    /// Returns where the state after an item stands.
    #[tactic(auto, using(crate::proofs::Places::quotient_le))]
    pub(crate) fn x_of(&self, item: u64) -> u64
        ensures { result ≡ x_of self.now item }
    {
        110 + (item.max(self.from).min(self.to) - self.from) * 1460 / (self.to - self.from)
    }

    /// Returns where the state before an item stands.
    pub(crate) fn x_before(&self, item: u64) -> u64
        ensures { result ≡ x_before self.now item }
    {
        self.x_of(item.saturating_sub(1))
    }

    /// Returns where the lanes end.
    pub(crate) fn y_end(&self) -> u64
        ensures place { result ≡ y_end self.now }
        ensures few { result ≤ 10000 }
    {
        92 + 62 * (self.processes + 1)
    }

    /// Returns the height of the picture.
    pub(crate) fn height(&self) -> u64
        ensures { result ≡ height self.now }
    {
        self.y_end() + 148
    }

    /// Returns whether some of the items from one to another are drawn.
    pub(crate) fn is_near(&self, from: u64, to: u64) -> bool
        ensures { result ≡ is_near self.now from to }
    {
        from <= self.to && self.from < to
    }

    /// Returns whether an item is drawn.
    pub(crate) fn is_here(&self, item: u64) -> bool
        ensures { result ≡ is_here self.now item }
    {
        self.is_near(item, item)
    }

    /// Returns whether there is no room for each item.
    pub fn is_thin(&self) -> bool
        ensures { result ≡ is_thin self.now }
    {
        self.to - self.from > 1000
    }
}

/// Returns the upper edge of the lane of a process.
pub(crate) fn y_of(process: u32) -> u64
    ensures { result ≡ y_of process }
{
    92 + 62 * u64::from(process)
}
