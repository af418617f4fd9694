//! `RegisterFault`: why a register is not read or written: it does not exist, it is another
//! process's, or the value is no bit.
use thiserror::Error;

/// Why a register is not read or not written.
#[derive(Clone, Copy, Debug, PartialEq, Eq, Error)]
pub enum RegisterFault {
    /// The register does not exist.
    #[error("R1 Index")]
    Index,
    /// The register is not the process's to write.
    #[error("R2 Owner")]
    Owner,
    /// A bit that is not 0 or 1.
    #[error("R3 NotABit")]
    NotABit,
}
