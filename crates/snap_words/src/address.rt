//! `Address`: a register, by its bank (`R`, `Q`, `P` or `V`) and its indices, which count from 1.

/// A bank of registers.
#[derive(Clone, Copy, PartialEq, Eq)]
pub enum Bank {
    /// The words.
    R,
    /// Handshake bits of scanners.
    Q,
    /// Handshake bits of updaters.
    P,
    /// The views of kind multi.
    V,
}

/// A register by its bank and its indices, which count from 1.
#[derive(Clone, Copy, PartialEq, Eq)]
pub struct Address {
    pub bank: Bank,
    /// In bank R the word; in Q, P and V the process that writes the register.
    pub i: u64,
    /// In banks Q and P the other process of the handshake; 0 in R and V.
    pub j: u64,
}
