//! `Items`: the items of a schedule or of a history, stored as segments: steps of one process side
//! by side take 8 bytes.
ghost use Rattle.std.specs.Prelude.{◌≡◌, ◌+◌, ◌<◌, ◌^◌, ◌↔◌, [], ◌∷◌, ◌++◌};
ghost use Rattle.std.specs.Prelude.{length, map, replicate, IsTrue, IfOk, OnOk, OnErr};
ghost use Rattle.std.specs.List.{AllByRecursion, flat_map};
ghost use Rattle.snap_semantics.specs.declared.process.Item.TheVariants.{Step, Call, Crash};
ghost use Rattle.snap_semantics.specs.ScheduleText.{forms_of, FitsItem, FitsWords};
ghost use Rattle.snap_sched.specs.Segments.{segment_items, segment_form};
ghost use Rattle.snap_sched.specs.Kept.{single_segment};

use crate::segments::{CallOrCrash, SegmentStart, Segments, Single};
use snap_semantics::{Item, Op};
use std::alloc::{AllocError, Global};
use std::marker::Model;

/// A list of fewer than 2^32 items, kept as its greatest segments: steps of one process side by
/// side take 8 bytes, however many they are.
pub struct Items {
    segments: Vec<SegmentStart>,
    /// The segments that are calls and crashes.
    singles: Vec<Single>,
    len: u32,
    /// The process of the last segment, if that is one of steps.
    stepping: Option<u32>,
}

impl Drop for Items {
    // A drop that is written out is one call: it is proved once, and not again at each drop.
    fn drop(self) {
        let Items {
            segments: _,
            singles: _,
            len: _,
            stepping: _,
        } = self;
    }
}

impl Model for Items {
    ghost use Rattle.std.specs.Prelude.{List};
    ghost use Rattle.snap_semantics.specs.declared.process.Item.{Item};
    ghost use Rattle.snap_sched.specs.Segments.{items_of_segments};
    ghost use Rattle.snap_sched.specs.Kept.{segments_of, Keeps};

    ghost Value = { List Item };

    ghost view = { λ x. items_of_segments (segments_of x.segments.items x.singles.items x.len) };

    ghost invariant = { λ x. Keeps x.segments.items x.singles.items x.len x.stepping
        (segments_of x.segments.items x.singles.items x.len) };
}

/// Returns `op`, whose numbers have 64 bits.
fn fitting(op: Op) -> Op
    ensures same { result ≡ op }
    ensures fits { FitsWords op }
{
    match op {
        Op::Scan => Op::Scan,
        Op::Update { word, value } => Op::Update { word, value },
    }
}

impl Items {
    /// Returns an empty list.
    pub fn new(alloc: Global) -> Items
        ensures { result ≡ [] }
    {
        Items {
            segments: Vec::new(alloc),
            singles: Vec::new(alloc),
            len: 0,
            stepping: None,
        }
    }

    /// Returns how many items there are.
    pub fn len(&self) -> u64
        ensures len { result ≡ length self.now }
        ensures few { result < 2 ^ 32 }
    {
        u64::from(self.len)
    }

    pub fn is_empty(&self) -> bool
        ensures { IsTrue result ↔ self.now ≡ [] }
    {
        self.len == 0
    }

    /// Returns the greatest segments of steps, the calls and the crashes, in order.
    pub fn segments(&self) -> Segments<'_>
        ensures items { flat_map segment_items result ≡ self.now }
        ensures greatest { map segment_form result ≡ forms_of self.now }
        ensures fits { AllByRecursion FitsItem self.now }
    {
        Segments::new(self.segments.as_slice(), self.singles.as_slice(), self.len)
    }

    /// Returns a copy.
    ///
    /// # Errors
    ///
    /// `AllocError` where memory runs out.
    pub fn copy(&self, alloc: Global) -> Result<Items, AllocError>
        ensures { IfOk result (λ items. items ≡ self.now) }
    {
        Ok(Items {
            segments: Vec::from_slice(alloc, self.segments.as_slice())?,
            singles: Vec::from_slice(alloc, self.singles.as_slice())?,
            len: self.len,
            stepping: self.stepping,
        })
    }

    /// Appends `count` steps of `process`.
    ///
    /// # Errors
    ///
    /// `AllocError` where memory runs out.
    #[inline(always)]
    pub fn push_steps(&mut self, process: u32, count: u64) -> Result<(), AllocError>
        requires { length self.old + count < 2 ^ 32 }
        ensures added { OnOk result (self.new ≡ self.old ++ replicate count (Step process)) }
        ensures fits { AllByRecursion FitsItem self.new }
        ensures unchanged { OnErr result (self.new ≡ self.old) }
    {
        let len = self.len + count as u32;
        if count == 0 {
            return Ok(());
        }
        if self.stepping == Some(process) {
            self.len = len;
            return Ok(());
        }
        self.segments.push(SegmentStart {
            start: self.len,
            process,
        })?;
        self.stepping = Some(process);
        self.len = len;
        Ok(())
    }

    /// Appends a call or a crash of `process`.
    fn push_single(&mut self, process: u32, what: CallOrCrash) -> Result<(), AllocError>
        requires few { length self.old + 1 < 2 ^ 32 }
        requires fits { AllByRecursion FitsItem (segment_items (single_segment process what)) }
        ensures added { OnOk result (self.new ≡ self.old
            ++ segment_items (single_segment process what)) }
        ensures fits { AllByRecursion FitsItem self.new }
        ensures unchanged { OnErr result (self.new ≡ self.old) }
    {
        self.singles.reserve(1)?;
        self.segments.push(SegmentStart {
            start: self.len,
            process,
        })?;
        self.singles.push_reserved(Single {
            start: self.len,
            what,
        });
        self.len += 1;
        self.stepping = None;
        Ok(())
    }

    /// Appends a call of `op` by `process`.
    ///
    /// # Errors
    ///
    /// `AllocError` where memory runs out.
    pub fn push_call(&mut self, process: u32, op: Op) -> Result<(), AllocError>
        requires { length self.old + 1 < 2 ^ 32 }
        ensures added { OnOk result (self.new ≡ self.old ++ Call process op ∷ []) }
        ensures fits { AllByRecursion FitsItem self.new }
        ensures unchanged { OnErr result (self.new ≡ self.old) }
    {
        self.push_single(process, CallOrCrash::Call(fitting(op)))
    }

    /// Appends a crash of `process`.
    ///
    /// # Errors
    ///
    /// `AllocError` where memory runs out.
    pub fn push_crash(&mut self, process: u32) -> Result<(), AllocError>
        requires { length self.old + 1 < 2 ^ 32 }
        ensures added { OnOk result (self.new ≡ self.old ++ Crash process ∷ []) }
        ensures fits { AllByRecursion FitsItem self.new }
        ensures unchanged { OnErr result (self.new ≡ self.old) }
    {
        self.push_single(process, CallOrCrash::Crash)
    }

    /// Appends an item.
    ///
    /// # Errors
    ///
    /// `AllocError` where memory runs out.
    pub fn push(&mut self, item: Item) -> Result<(), AllocError>
        requires { length self.old + 1 < 2 ^ 32 }
        ensures added { OnOk result (self.new ≡ self.old ++ item ∷ []) }
        ensures fits { AllByRecursion FitsItem self.new }
        ensures unchanged { OnErr result (self.new ≡ self.old) }
    {
        match item {
            Item::Step(process) => self.push_steps(process, 1),
            Item::Call(process, op) => self.push_call(process, op),
            Item::Crash(process) => self.push_crash(process),
        }
    }
}
