//! `Refutation`: why no order of the operations of a history is a linearization.
//!
//! An operation is named by its place among the operations of the history in the order of their
//! calls, counted from 0.

/// What is assumed of a linearization.
#[derive(Clone, Copy)]
pub enum Case {
    /// A scan saw this update in a word, counted from 1; `None` stands for the beginning of the word.
    Saw {
        scan: usize,
        word: u64,
        seen: Option<usize>,
    },
    /// The first operation stands before the second one.
    Order {
        first: usize,
        second: usize,
    },
}

/// On which grounds one operation stands before another.
#[derive(Drop)]
pub enum Grounds {
    /// The first one ended before the second one was called.
    Ended,
    /// The second one, a scan, saw the first one, an update.
    Saw,
    /// The first one, a scan, saw the beginning of the word that the second one, an update, sets.
    First,
    /// A case says so.
    Assumed,
    /// The first one belongs to the block of this update: it is the update, or a scan that saw it.
    /// Earlier lines, by their places, lead from something of this block to something of the block
    /// of the second one, an update of the same word.
    Blocks { update: usize, way: Vec<usize> },
}

/// The first operation stands, and before the second one, if that stands too.
#[derive(Drop)]
pub struct Line {
    pub first: usize,
    pub second: usize,
    pub grounds: Grounds,
}

/// An update that stands in each linearization: it has ended, or this scan saw it.
#[derive(Clone, Copy)]
pub struct Standing {
    pub update: usize,
    pub scan: Option<usize>,
}

/// Why no linearization is such that all cases of a part are so.
#[derive(Drop)]
pub enum Why {
    /// Some of these lines, by their places, lead from an operation back to it.
    Circle {
        lines: Vec<Line>,
        circle: Vec<usize>,
    },
    /// Whichever update the scan saw in the word, or the beginning of the word, an earlier part
    /// excludes it.
    Saw {
        scan: usize,
        word: u64,
    },
    /// Whichever of two updates that stand is first, an earlier part excludes it.
    Order {
        one: Standing,
        other: Standing,
    },
}

/// No linearization is such that all of these cases are so, and why.
#[derive(Drop)]
pub struct Part {
    pub cases: Vec<Case>,
    pub why: Why,
}

/// Why there is no linearization: parts, each of which rests on those before it, and one of which
/// has no cases.
#[derive(Drop)]
pub struct Refutation {
    pub parts: Vec<Part>,
}
