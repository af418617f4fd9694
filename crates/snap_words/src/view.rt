//! `View`: a list of numbers, the view of a word or its handshake bits; copies of a view may share
//! their values.
ghost use Rattle.std.specs.Prelude.{◌≡◌, IfOk, replicate};
ghost use Rattle.std.specs.List.{list_all};
ghost use Rattle.snap_words.specs.Kind.{is_bit};
ghost use Rattle.snap_words.specs.ViewValues.{view_items};

use std::alloc::{AllocError, Global};
use std::marker::Model;
use std::sync::Arc;

/// The values of a view: its own, or shared by all its copies.
#[derive(Debug, Drop)]
enum ViewValues {
    Own(Vec<u64>),
    Shared(Arc<Vec<u64>>),
}

/// A list of numbers: a view has a value for each word,
/// and handshake bits are one for each process.
#[derive(Debug)]
pub struct View {
    places: ViewValues,
}

impl Drop for View {
    // A drop that is written out is one call: it is proved once, and not again at each drop.
    fn drop(self) {
        let View { places: _ } = self;
    }
}

impl Model for View {
    ghost use Rattle.std.specs.Prelude.{List, ℕ};
    ghost use Rattle.snap_words.specs.ViewValues.{view_items};

    ghost Value = { List ℕ };

    ghost view = { λ v. view_items v.places };
}

impl View {
    /// Returns a view that owns `places` as its values.
    pub fn of(places: Vec<u64>) -> View
        ensures { result ≡ places.items }
    {
        View {
            places: ViewValues::Own(places),
        }
    }

    /// Returns a view of the values `places`, which its copies share.
    ///
    /// # Errors
    ///
    /// `AllocError` where memory runs out.
    pub fn shared(alloc: Global, places: Vec<u64>) -> Result<View, AllocError>
        ensures { IfOk result (λ v. v ≡ places.items) }
    {
        Ok(View {
            places: ViewValues::Shared(Arc::new(alloc, places)?),
        })
    }

    /// Returns a view of `count` zeros.
    ///
    /// # Errors
    ///
    /// `AllocError` where memory runs out.
    pub fn zeros(alloc: Global, count: u64) -> Result<View, AllocError>
        ensures { IfOk result (λ v. v ≡ replicate count 0) }
    {
        View::shared(alloc, vec![in alloc; 0; count as usize]?)
    }

    /// Returns whether each value is 0 or 1.
    pub fn has_bits(&self) -> bool
        ensures { result ≡ list_all is_bit self.now }
    {
        self.as_slice().iter().all(|&x| x <= 1)
    }

    /// Returns the values.
    pub fn as_slice(&self) -> &[u64]
        ensures { result.now ≡ self.now }
    {
        match &self.places {
            ViewValues::Own(places) => places.as_slice(),
            ViewValues::Shared(places) => places.as_slice(),
        }
    }

    /// Returns a copy, which has its values to itself or shares them as this view does.
    ///
    /// # Errors
    ///
    /// `AllocError` where memory runs out.
    pub fn copy(&self, alloc: Global) -> Result<View, AllocError>
        ensures { IfOk result (λ v. v ≡ self.now) }
    {
        match &self.places {
            ViewValues::Own(places) => View::shared(
                alloc,
                Vec::from_slice(alloc, places.as_slice())?,
            ),
            ViewValues::Shared(places) => Ok(View {
                places: ViewValues::Shared(Arc::try_clone(places)?),
            }),
        }
    }
}
