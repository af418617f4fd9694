//! `Row`: the values of the words at one position of a run, which are set in place.
ghost use Rattle.std.specs.Prelude.{◌≡◌, ◌<◌, IfOk, length, replicate, slice_set};

use snap_words::View;
use std::alloc::{AllocError, Global};
use std::marker::Model;

/// The values of the words at one position, a row of numbers that are set in place.
#[derive(Drop)]
pub struct Row {
    values: Vec<u64>,
}

impl Model for Row {
    ghost use Rattle.std.specs.Prelude.{List, ℕ};

    ghost Value = { List ℕ };

    ghost view = { λ r. r.values.items };
}

impl Row {
    /// Returns `count` zeros.
    ///
    /// # Errors
    ///
    /// `AllocError` where memory runs out.
    pub fn zeros(alloc: Global, count: u64) -> Result<Row, AllocError>
        ensures { IfOk result (λ r. r ≡ replicate count 0) }
    {
        Ok(Row {
            values: vec![in alloc; 0; count as usize]?,
        })
    }

    /// Returns the numbers.
    pub fn as_slice(&self) -> &[u64]
        ensures { result.now ≡ self.now }
    {
        self.values.as_slice()
    }

    /// Sets the number at a place, counted from 0.
    pub fn set(&mut self, place: usize, value: u64)
        requires { place < length self.old }
        ensures { self.new ≡ slice_set self.old place value }
    {
        self.values[place] = value;
    }

    /// Returns a copy of the row.
    ///
    /// # Errors
    ///
    /// `AllocError` where memory runs out.
    pub fn copy(&self, alloc: Global) -> Result<Row, AllocError>
        ensures { IfOk result (λ r. r ≡ self.now) }
    {
        Ok(Row {
            values: Vec::from_slice(alloc, self.values.as_slice())?,
        })
    }

    /// Returns the view of these values.
    pub fn into_view(self) -> View
        ensures { result ≡ self }
    {
        View::of(self.values)
    }
}
