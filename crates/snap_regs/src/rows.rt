//! `BitRows`: rows of bit registers, stored in one list; and views of zeros.
ghost use Rattle.std.specs.Prelude.{◌≡◌, ◌+◌, ◌*◌, ◌^◌, ◌<◌, ◌≤◌, []};
ghost use Rattle.std.specs.Prelude.{IfOk, length, replicate, slice_index_or};
ghost use Rattle.snap_words.specs.Shape.{max_count};
ghost use Rattle.snap_semantics.specs.Table.{bit_at, with_bit_at};

use snap_words::View;
use std::alloc::{AllocError, Global};
use std::marker::Model;

/// Rows of bits, one behind the other, seen as the list of the rows: each is the list of its bits,
/// as numbers.
#[derive(Drop)]
pub(crate) struct BitRows {
    rows: usize,
    columns: usize,
    bits: Vec<bool>,
}

impl Model for BitRows {
    ghost use Rattle.std.specs.Prelude.{List, ℕ};
    ghost use Rattle.snap_regs.specs.Rows.{HasBits, rows_of};

    ghost Value = { List (List ℕ) };

    ghost view = { λ r. rows_of r.rows r.columns r.bits.items };

    ghost invariant = { λ r. HasBits r.rows r.columns r.bits.items };
}

/// Returns where the bit of a row and a column stands, in rows of `columns` columns.
fn place_of(columns: usize, row: usize, column: usize) -> usize
    requires { row * columns + column < 2 ^ 64 }
    ensures { result ≡ row * columns + column }
{
    row * columns + column
}

impl BitRows {
    /// Returns `rows` rows of `columns` zeros.
    pub(crate) fn zeros(alloc: Global, rows: u64, columns: u64) -> Result<BitRows, AllocError>
        requires rows { rows ≤ max_count }
        requires columns { columns ≤ max_count }
        ensures { IfOk result (λ r. r ≡ replicate rows (replicate columns 0)) }
    {
        Ok(BitRows {
            rows: rows as usize,
            columns: columns as usize,
            bits: vec![in alloc; false; (rows * columns) as usize]?,
        })
    }

    /// Returns the bit of a row and a column, counted from 0.
    pub(crate) fn get(&self, row: usize, column: usize) -> u64
        requires row_in { row < length self.now }
        requires column_in { column < length (slice_index_or self.now row []) }
        ensures bit { result ≡ bit_at self.now row column }
        ensures range { result ≤ 1 }
    {
        u64::from(self.bits[place_of(self.columns, row, column)])
    }

    /// Sets the bit of a row and a column, counted from 0.
    pub(crate) fn set(&mut self, row: usize, column: usize, bit: u64)
        requires row_in { row < length self.old }
        requires column_in { column < length (slice_index_or self.old row []) }
        requires bit { bit ≤ 1 }
        ensures { self.new ≡ with_bit_at self.old row column bit }
    {
        let place = place_of(self.columns, row, column);
        self.bits[place] = bit == 1;
    }

    /// Returns copies of the rows.
    pub(crate) fn copy(&self, alloc: Global) -> Result<BitRows, AllocError>
        ensures { IfOk result (λ r. r ≡ self.now) }
    {
        Ok(BitRows {
            rows: self.rows,
            columns: self.columns,
            bits: Vec::from_slice(alloc, self.bits.as_slice())?,
        })
    }
}

/// Returns `count` views of `places` zeros.
pub(crate) fn zero_views(alloc: Global, count: u64, places: u64) -> Result<Vec<View>, AllocError>
    ensures { IfOk result (λ views. views.items ≡ replicate count (replicate places 0)) }
{
    let mut views = Vec::new(alloc);
    for i in 0..count {
        views.push(View::zeros(alloc, places)?)?;
    }
    Ok(views)
}
