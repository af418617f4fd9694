//! `Trouble`: the operand at which a line traps: an index out of range, a sum too large, a number
//! that is no bit, or another process's register.
use snap_semantics::Index;
use snap_words::Bank;

/// An operand at which a line traps.
#[derive(Clone, Copy)]
pub enum Trouble {
    /// An index with this value, where places count from 1 to the last number.
    NoPlace(Index, u64, u64),
    /// Two numbers whose sum is above 2^64 - 1.
    LargeSum(u64, u64),
    /// A value to be written that is no bit.
    NoBit(u64),
    /// A register of another process: its bank and indices, the second 0 where there is one alone.
    NotOwn(Bank, u64, u64),
}
