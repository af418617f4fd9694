//! `HeldRecord`: a record in a box, which is what lies in a desk's slot.
ghost use Rattle.std.specs.Prelude.{◌≡◌, ◌↔◌, length, Err, IfOk, OnErr};
ghost use Rattle.snap_words.specs.Shape.{IsOneOf, max_items};
ghost use Rattle.snap_semantics.specs.Table.{who};
ghost use Rattle.snap_runs.specs.Run.{outcome};
ghost use Rattle.snap_record.specs.Record.{with_item};
ghost use Rattle.snap_record.specs.declared.fault.RecordFault.TheVariants.{Full};

use snap_record::{Record, RecordFault};
use snap_semantics::{Item, Outcome};
use snap_words::Kind;
use std::alloc::{AllocError, Global};
use std::marker::Model;

/// A record in a box, so that it moves as a pointer.
pub struct HeldRecord<K: Kind> {
    record: Box<Record<K>>,
}

impl<K: Kind> Drop for HeldRecord<K> {
    // A drop that is written out is one call: it is proved once, and not again at each drop.
    fn drop(self) {
        let HeldRecord { record: _ } = self;
    }
}

impl<K: Kind> Model for HeldRecord<K> {
    ghost use Rattle.snap_runs.specs.Run.{Run};

    ghost Value = { Run };

    ghost view = { λ h. h.record.value };
}

impl<K: Kind> HeldRecord<K> {
    /// Puts a record into a box.
    #[inline(always)]
    pub(crate) fn new(alloc: Global, kept: Record<K>) -> Result<HeldRecord<K>, AllocError>
        ensures { IfOk result (λ h. h ≡ kept) }
    {
        Ok(HeldRecord {
            record: Box::new(alloc, kept)?,
        })
    }

    /// Does one item, and returns its outcome, if fewer than 1,000,000 are kept.
    #[inline(always)]
    pub(crate) fn apply(&mut self, item: Item) -> Result<Outcome, RecordFault>
        requires { IsOneOf self.old.shape.n (who item) }
        ensures done { IfOk result (λ o. (self.new ≡ with_item self.old item) ×
            (o ≡ outcome self.new (length self.new.items))) }
        ensures full { (length self.old.items ≡ max_items) ↔ (result ≡ Err Full) }
        ensures unchanged { OnErr result (self.new ≡ self.old) }
    {
        self.record.apply(item)
    }

    /// Returns the record in its box.
    #[inline(always)]
    pub(crate) fn record(&self) -> &Record<K>
        ensures { result.now ≡ self.now }
    {
        &self.record
    }

    /// Returns the record out of its box.
    #[inline(always)]
    pub(crate) fn into_record(self) -> Record<K>
        ensures { result ≡ self }
    {
        let HeldRecord { record } = self;
        Box::into_inner(record)
    }
}
