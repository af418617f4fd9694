//! `Concern` and `Warning` of the lint: a line, and what may go wrong at it, such as a call within
//! a call or a write of another process's register.

/// What a line may run into.
#[derive(Clone, Copy, PartialEq, Eq)]
pub enum Concern {
    /// No line follows.
    OffEnd,
    /// A `call` within a `call`.
    Nested,
    /// A `return` or `finish` that does not end such an operation.
    BadEnd,
    /// A write to a register of another process.
    Owner,
    /// Control never comes to the line.
    Unreached,
    /// No way leads from the line to an end.
    Endless,
    /// The line may finish an update that has written no word.
    NoWrite,
}

/// A line, and what it may run into.
#[derive(Clone, Copy, PartialEq, Eq)]
pub struct Warning {
    pub line: u64,
    pub concern: Concern,
}
