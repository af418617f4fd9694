//! `Segment` and `Segments`: the segments of a schedule's items as they are stored: where each
//! begins, and the calls and crashes apart from the steps.
ghost use Rattle.std.specs.Prelude.{◌≡◌, replicate};
ghost use Rattle.snap_sched.specs.Kept.{single_segment, segments_of};
ghost use Rattle.snap_sched.specs.Segments.{segment_items};

use snap_semantics::{Item, Op};
use std::marker::Model;

/// A segment of a list of items: steps of one process side by side, or one call or crash.
#[derive(Clone, Copy, PartialEq, Eq)]
pub enum Segment {
    Steps { process: u32, count: u64 },
    Call { process: u32, op: Op },
    Crash { process: u32 },
}

impl Segment {
    /// Returns the item of this segment, and how often the segment has it.
    pub fn repeated(self) -> (Item, u64)
        ensures { replicate result.1 result.0 ≡ segment_items self }
    {
        match self {
            Segment::Steps { process, count } => (Item::Step(process), count),
            Segment::Call { process, op } => (Item::Call(process, op), 1),
            Segment::Crash { process } => (Item::Crash(process), 1),
        }
    }
}

/// A segment as it is kept: how many items stand before it, and its process. A segment ends where
/// the next one begins.
#[derive(Clone, Copy, PartialEq, Eq)]
pub struct SegmentStart {
    pub start: u32,
    pub process: u32,
}

/// A segment that is no steps.
#[derive(Clone, Copy, PartialEq, Eq)]
pub enum CallOrCrash {
    Call(Op),
    Crash,
}

/// A call or a crash as it is kept, beside its segment: how many items stand before the segment,
/// and whether it is a call or a crash.
#[derive(Clone, Copy, PartialEq, Eq)]
pub struct Single {
    pub start: u32,
    pub what: CallOrCrash,
}

/// Returns a call or a crash of a process.
fn single_segment(process: u32, what: CallOrCrash) -> Segment
    ensures { result ≡ single_segment process what }
{
    match what {
        CallOrCrash::Call(op) => Segment::Call { process, op },
        CallOrCrash::Crash => Segment::Crash { process },
    }
}

/// An iterator over segments in order, seen as the list of those that are still to come.
#[derive(Drop)]
pub struct Segments<'a> {
    segments: &'a [SegmentStart],
    singles: &'a [Single],
    /// How many items there are in all.
    len: u32,
}

impl<'a> Model for Segments<'a> {
    ghost use Rattle.std.specs.Prelude.{List};
    ghost use Rattle.snap_sched.specs.Kept.{segments_of};
    ghost use Rattle.snap_sched.specs.declared.segments.Segment.{Segment};

    ghost Value = { List Segment };

    ghost view = { λ s. segments_of s.segments.now s.singles.now s.len };
}

impl<'a> Segments<'a> {
    /// Returns an iterator over the segments that are kept so, of `len` items in all.
    pub(crate) fn new(segments: &'a [SegmentStart], singles: &'a [Single], len: u32) -> Segments<'a>
        ensures { result ≡ segments_of segments.now singles.now len }
    {
        Segments {
            segments,
            singles,
            len,
        }
    }
}

impl<'a> Iterator for Segments<'a> {
    type Item = Segment;

    ghost use Rattle.std.specs.Iterator.{YieldsFirst, item_count};

    ghost next_gives = { YieldsFirst (λ s. s) };

    ghost remaining = { item_count (λ s. s) };

    fn next(&mut self) -> Option<Segment> {
        let (segment, rest) = self.segments.split_first()?;
        self.segments = rest;
        if let Some((single, more)) = self.singles.split_first() {
            if single.start == segment.start {
                self.singles = more;
                return Some(single_segment(segment.process, single.what));
            }
        }
        let end = match rest.first() {
            Some(next) => next.start,
            None => self.len,
        };
        Some(Segment::Steps {
            process: segment.process,
            count: u64::from(end.saturating_sub(segment.start)),
        })
    }
}
