//! `Shape`: the numbers of processes and of words, 1
//! to 64 each; and why a shape or a word is refused.
ghost use Rattle.std.specs.Prelude.{◌≡◌, MatchResult};
ghost use Rattle.snap_words.specs.Shape.{IsOneOf, IsShape, max_count};
ghost use Rattle.snap_words.specs.declared.shape.WordFault.TheVariants.{BadShape};

use std::marker::Model;
use thiserror::Error;

/// The most processes, and the most words.
pub const MAX_COUNT: u64 = 64;

/// The most items of a schedule, and of a run; no process makes more turns in a run.
pub const MAX_ITEMS: u64 = 1_000_000;

/// Why a shape or a word is refused.
#[derive(Clone, Copy, Debug, PartialEq, Eq, Error)]
pub enum WordFault {
    /// A count of processes or of words outside 1 to `MAX_COUNT`.
    #[error("W1 BadShape")]
    BadShape,
    /// A toggle or a handshake bit that is not 0 or 1.
    #[error("W2 NotABit")]
    NotABit,
}

/// The numbers of processes and of words, each 1 to `MAX_COUNT`.
#[derive(Clone, Copy)]
pub struct Shape {
    n: u64,
    w: u64,
}

impl Model for Shape {
    ghost use Rattle.snap_words.specs.Shape.{Counts, IsShape};

    ghost Value = { Counts };

    ghost view = { λ s. record { n = s.n; w = s.w } };

    ghost invariant = { λ s. IsShape s.n s.w };

    ghost inverse = { λ c. record { n = c.n; w = c.w } };
}

impl Shape {
    /// Returns the shape of `n` processes and `w` words.
    ///
    /// # Errors
    ///
    /// `BadShape` unless `n` and `w` are from 1 to `MAX_COUNT`.
    pub fn new(n: u64, w: u64) -> Result<Shape, WordFault>
        ensures { MatchResult result (λ s. (s ≡ record { n = n; w = w }) × IsShape n w)
            (λ e. (e ≡ BadShape) × (IsShape n w → ⊥)) }
    {
        if 1 <= n && n <= MAX_COUNT && 1 <= w && w <= MAX_COUNT {
            Ok(Shape { n, w })
        } else {
            Err(WordFault::BadShape)
        }
    }

    /// Returns the number of processes.
    pub fn n(&self) -> u64
        ensures { result ≡ self.now.n }
    {
        self.n
    }

    /// Returns the number of processes, which is at most `MAX_COUNT`, as a `u32`.
    pub fn process_count(&self) -> u32
        ensures value { result ≡ self.now.n }
        ensures bound { IsOneOf max_count result }
    {
        self.n as u32
    }

    /// Returns the number of words.
    pub fn w(&self) -> u64
        ensures { result ≡ self.now.w }
    {
        self.w
    }
}
