//! `Registers`: the registers of a shape, of any kind: words, bits and views, read by any process
//! and written by those who may.
ghost use Rattle.std.specs.Prelude.{◌≡◌, ◌-◌, ◌<◌, ◌≤◌, []};
ghost use Rattle.std.specs.Prelude.{true, false, length, Some, None, map, replicate};
ghost use Rattle.std.specs.Prelude.{IfOk, MatchResult, OnOk, slice_index_or};
ghost use Rattle.snap_words.specs.Kind.{initial_word, is_bit, is_sized, may_write};
ghost use Rattle.snap_words.specs.Shape.{is_place, max_count};
ghost use Rattle.snap_words.specs.Word.{no_word};
ghost use Rattle.snap_words.specs.declared.address.Bank.TheVariants as bank;
ghost use Rattle.snap_semantics.specs.WithContents.{with_contents};
ghost use Rattle.snap_semantics.specs.Readers.{contents, WordContents, BitContents, ViewContents};
ghost use Rattle.snap_semantics.specs.State.{initial_memory};
ghost use Rattle.snap_semantics.specs.Table.{bank_of, bit_at, bits_of};
ghost use Rattle.snap_regs.specs.Access.{is_bit_place, is_view_place};
ghost use Rattle.snap_regs.specs.Access.{IsWordRefused, IsBitRefused, IsViewRefused};
ghost use Rattle.snap_regs.specs.Store.{HasColumns, IsOfShape, rows_in};
ghost use Rattle.snap_regs.specs.Store.{with_word, with_bit, with_view};
ghost use Rattle.snap_regs.specs.declared.fault.RegisterFault.TheVariants.{Index, Owner};

use crate::fault::RegisterFault;
use crate::rows::{BitRows, zero_views};
use snap_semantics::BitBank;
use snap_words::{Address, Bank, Kind, Shape, View, copy_views, copy_words, place_in};
use std::alloc::{AllocError, Global};
use std::marker::Model;

/// The registers of a shape, seen as the shape and the memory that they make. Indices count from 1.
pub struct Registers<K: Kind> {
    shape: Shape,
    words: Vec<K::Word>,
    q: BitRows,
    p: BitRows,
    views: Vec<View>,
}

impl<K: Kind> Drop for Registers<K> {
    // A drop that is written out is one call: it is proved once, and not again at each drop.
    fn drop(self) {
        let Registers {
            shape: _,
            words: _,
            q: _,
            p: _,
            views: _,
        } = self;
    }
}

impl<K: Kind> Model for Registers<K> {
    ghost use Rattle.std.specs.Prelude.{map};
    ghost use Rattle.snap_regs.specs.Store.{Store, IsOfShape};

    ghost Value = { Store };

    ghost view = { λ r. record {
      shape = r.shape;
      memory = record {
        words = map K.as_word r.words.items;
        q = r.q;
        p = r.p;
        views = r.views.items;
      };
    } };

    ghost invariant = { λ r. IsOfShape K.TAG r.shape
        (record { words = map K.as_word r.words.items; q = r.q; p = r.p; views = r.views.items }) };
}

/// Returns how many rows of bits, or views, a bank has.
fn rows_in<K: Kind>(shape: Shape, bank: Bank) -> u64
    ensures value { result ≡ rows_in K.TAG shape bank }
    ensures bound { result ≤ max_count }
{
    if K::has_bank(bank) {
        u64::from(shape.process_count())
    } else {
        0
    }
}

/// Returns a word for each place of the shape, none of them written.
fn initial_words<K: Kind>(alloc: Global, shape: Shape) -> Result<Vec<K::Word>, AllocError>
    ensures { IfOk result (λ words. map K.as_word words.items
        ≡ replicate shape.w (initial_word K.TAG shape)) }
{
    let mut words = Vec::new(alloc);
    for i in 0..shape.w() {
        words.push(K::initial(alloc, shape)?)?;
    }
    Ok(words)
}

/// Returns the place of a bit, its row and column counted from 0.
fn bit_place<K: Kind>(
    shape: Shape,
    bits: BitBank,
    i: u64,
    j: u64,
) -> Result<(usize, usize), RegisterFault>
    ensures { MatchResult result
        (λ at. (is_bit_place K.TAG shape bits i j ≡ true) × (at.0 ≡ i - 1) × (at.1 ≡ j - 1) ×
        (at.0 < rows_in K.TAG shape (bank_of bits)) × (at.1 < shape.n))
        (λ e. (e ≡ Index) × (is_bit_place K.TAG shape bits i j ≡ false)) }
{
    if !K::has_bank(bits.bank()) {
        return Err(RegisterFault::Index);
    }
    let row = place_in(shape.n(), i, RegisterFault::Index)?;
    let column = place_in(shape.n(), j, RegisterFault::Index)?;
    Ok((row, column))
}

/// Returns the place of a view, counted from 0.
fn view_place<K: Kind>(shape: Shape, i: u64) -> Result<usize, RegisterFault>
    ensures { MatchResult result
        (λ place. (is_view_place K.TAG shape i ≡ true) × (place ≡ i - 1) ×
        (place < rows_in K.TAG shape bank.V))
        (λ e. (e ≡ Index) × (is_view_place K.TAG shape i ≡ false)) }
{
    if !K::has_bank(Bank::V) {
        return Err(RegisterFault::Index);
    }
    place_in(shape.n(), i, RegisterFault::Index)
}

/// Checks that process `who` may write the registers of `bank` whose first index is `i`.
///
/// # Errors
///
/// `Owner` where it may not.
pub fn check_owner<K: Kind>(who: u32, bank: Bank, i: u64) -> Result<(), RegisterFault>
    ensures { MatchResult result (λ _. may_write K.TAG who bank i ≡ true) (λ e. (e ≡ Owner) ×
        (may_write K.TAG who bank i ≡ false)) }
{
    if K::may_write(who, Address { bank, i, j: 0 }) {
        Ok(())
    } else {
        Err(RegisterFault::Owner)
    }
}

impl<K: Kind> Registers<K> {
    /// Returns the registers of this shape, none of them written.
    ///
    /// # Errors
    ///
    /// `AllocError` where memory runs out.
    pub fn new(alloc: Global, shape: Shape) -> Result<Registers<K>, AllocError>
        ensures { IfOk result (λ r. (r.shape ≡ shape) × (r.memory ≡ initial_memory K.TAG shape)) }
    {
        let columns = u64::from(shape.process_count());
        Ok(Registers {
            shape,
            words: initial_words::<K>(alloc, shape)?,
            q: BitRows::zeros(alloc, rows_in::<K>(shape, Bank::Q), columns)?,
            p: BitRows::zeros(alloc, rows_in::<K>(shape, Bank::P), columns)?,
            views: zero_views(alloc, rows_in::<K>(shape, Bank::V), shape.w())?,
        })
    }

    /// Returns the shape of the registers.
    pub fn shape(&self) -> Shape
        ensures value { result ≡ self.now.shape }
        ensures of_shape { IsOfShape K.TAG self.now.shape self.now.memory }
    {
        self.shape
    }

    /// Returns word `k`.
    ///
    /// # Errors
    ///
    /// `Index` where there is no such word.
    pub fn word(&self, k: u64) -> Result<&K::Word, RegisterFault>
        ensures place { MatchResult result
            (λ word. (is_place self.now.shape.w k ≡ true) ×
            (K.as_word word.now ≡ slice_index_or self.now.memory.words (k - 1) no_word))
            (λ e. (e ≡ Index) × (is_place self.now.shape.w k ≡ false)) }
        ensures content { MatchResult result
            (λ word. contents self.now.memory bank.R k 0 ≡ Some (WordContents (K.as_word word.now)))
            (λ _. contents self.now.memory bank.R k 0 ≡ None) }
        ensures sized { IfOk result (λ word. is_sized K.TAG self.now.shape (K.as_word word.now)
            ≡ true) }
    {
        let place = place_in(self.shape.w(), k, RegisterFault::Index)?;
        Ok(&self.words[place])
    }

    /// Returns bit `j` of row `i`.
    ///
    /// # Errors
    ///
    /// `Index` where there is no such bit.
    pub fn bit(&self, bits: BitBank, i: u64, j: u64) -> Result<u64, RegisterFault>
        ensures place { MatchResult result
            (λ bit. (is_bit_place K.TAG self.now.shape bits i j ≡ true) ×
            (bit ≡ bit_at (bits_of bits self.now.memory) (i - 1) (j - 1)))
            (λ e. (e ≡ Index) × (is_bit_place K.TAG self.now.shape bits i j ≡ false)) }
        ensures content { MatchResult result
            (λ bit. contents self.now.memory (bank_of bits) i j ≡ Some (BitContents bit))
            (λ _. contents self.now.memory (bank_of bits) i j ≡ None) }
        ensures range { IfOk result (λ bit. is_bit bit ≡ true) }
    {
        let (row, column) = bit_place::<K>(self.shape, bits, i, j)?;
        Ok(self.bits(bits).get(row, column))
    }

    /// Returns view `i`.
    ///
    /// # Errors
    ///
    /// `Index` where there is no such view.
    pub fn view(&self, i: u64) -> Result<&View, RegisterFault>
        ensures place { MatchResult result
            (λ view. (is_view_place K.TAG self.now.shape i ≡ true) ×
            (view.now ≡ slice_index_or self.now.memory.views (i - 1) []))
            (λ e. (e ≡ Index) × (is_view_place K.TAG self.now.shape i ≡ false)) }
        ensures content { MatchResult result
            (λ view. contents self.now.memory bank.V i 0 ≡ Some (ViewContents view.now))
            (λ _. contents self.now.memory bank.V i 0 ≡ None) }
        ensures places { IfOk result (λ view. length view.now ≡ self.now.shape.w) }
    {
        let place = view_place::<K>(self.shape, i)?;
        Ok(&self.views[place])
    }

    /// Writes `word` to place `k`, for process `who`.
    ///
    /// # Errors
    ///
    /// `Index` where there is no such word; `Owner` where the process may not write it.
    pub fn put_word(&mut self, who: u32, k: u64, word: K::Word) -> Result<(), RegisterFault>
        requires { is_sized K.TAG self.old.shape (K.as_word word) ≡ true }
        ensures put { MatchResult result
            (λ _. (is_place self.old.shape.w k ≡ true) × (may_write K.TAG who bank.R k ≡ true) ×
            (self.new ≡ with_word k (K.as_word word) self.old))
            (λ e. IsWordRefused K.TAG self.old.shape who k e × (self.new ≡ self.old)) }
        ensures place { OnOk result (self.new.memory ≡ with_contents self.old.memory bank.R k 0
            (WordContents (K.as_word word))) }
        ensures shape { self.new.shape ≡ self.old.shape }
    {
        let place = place_in(self.shape.w(), k, RegisterFault::Index)?;
        check_owner::<K>(who, Bank::R, k)?;
        self.words[place] = word;
        Ok(())
    }

    /// Writes `bit` to bit `j` of row `i`, for process `who`.
    ///
    /// # Errors
    ///
    /// `Index` where there is no such bit; `NotABit` where `bit` is not 0 or 1; `Owner` where the
    /// process may not write it.
    #[inline(always)]
    pub fn put_bit(
        &mut self,
        who: u32,
        bits: BitBank,
        i: u64,
        j: u64,
        bit: u64,
    ) -> Result<(), RegisterFault>
        ensures put { MatchResult result
            (λ _. (is_bit_place K.TAG self.old.shape bits i j ≡ true) × (is_bit bit ≡ true) ×
            (may_write K.TAG who (bank_of bits) i ≡ true)
            × (self.new ≡ with_bit bits i j bit self.old))
            (λ e. IsBitRefused K.TAG self.old.shape who bits i j bit e × (self.new ≡ self.old)) }
        ensures place { OnOk result (self.new.memory ≡ with_contents self.old.memory (bank_of bits)
            i j (BitContents bit)) }
        ensures shape { self.new.shape ≡ self.old.shape }
    {
        let (row, column) = bit_place::<K>(self.shape, bits, i, j)?;
        if bit > 1 {
            return Err(RegisterFault::NotABit);
        }
        check_owner::<K>(who, bits.bank(), i)?;
        match bits {
            BitBank::Q => self.q.set(row, column, bit),
            BitBank::P => self.p.set(row, column, bit),
        }
        Ok(())
    }

    /// Writes `view` to view `i`, for process `who`.
    ///
    /// # Errors
    ///
    /// `Index` where there is no such view; `Owner` where the process may not write it.
    pub fn put_view(&mut self, who: u32, i: u64, view: View) -> Result<(), RegisterFault>
        requires { length view ≡ self.old.shape.w }
        ensures put { MatchResult result
            (λ _. (is_view_place K.TAG self.old.shape i ≡ true) ×
            (may_write K.TAG who bank.V i ≡ true) × (self.new ≡ with_view i view self.old))
            (λ e. IsViewRefused K.TAG self.old.shape who i e × (self.new ≡ self.old)) }
        ensures place { OnOk result (self.new.memory ≡ with_contents self.old.memory bank.V i 0
            (ViewContents view)) }
        ensures shape { self.new.shape ≡ self.old.shape }
    {
        let place = view_place::<K>(self.shape, i)?;
        check_owner::<K>(who, Bank::V, i)?;
        self.views[place] = view;
        Ok(())
    }

    /// Returns the rows of a bank of bits.
    fn bits(&self, bits: BitBank) -> &BitRows
        ensures value { result.now ≡ bits_of bits self.now.memory }
        ensures row_count { length result.now ≡ rows_in K.TAG self.now.shape (bank_of bits) }
        ensures columns { HasColumns self.now.shape.n result.now }
    {
        match bits {
            BitBank::Q => &self.q,
            BitBank::P => &self.p,
        }
    }

    /// Returns a copy.
    ///
    /// # Errors
    ///
    /// `AllocError` where memory runs out.
    pub fn copy(&self, alloc: Global) -> Result<Registers<K>, AllocError>
        ensures { IfOk result (λ r. r ≡ self.now) }
    {
        Ok(Registers {
            shape: self.shape,
            words: copy_words::<K>(alloc, self.words.as_slice())?,
            q: self.q.copy(alloc)?,
            p: self.p.copy(alloc)?,
            views: copy_views(alloc, self.views.as_slice())?,
        })
    }
}
