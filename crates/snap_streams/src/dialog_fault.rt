//! `DialogFault`: why a dialog at a console was broken off.
ghost use Rattle.std.specs.Prelude.{◌≡◌};
ghost use Rattle.snap_streams.specs.declared.dialog_fault.DialogFault.TheVariants.{Memory, Write};

use crate::sending::Unsent;
use std::alloc::{AllocError, AllocFailed};
use thiserror::Error;

/// Why a dialog was broken off.
#[derive(Clone, Copy, Debug, PartialEq, Eq, Error)]
pub enum DialogFault {
    #[error("out of memory")]
    Memory,
    #[error("the input could not be read")]
    Read,
    #[error("the output could not be written")]
    Write,
    /// More lines, or a longer line, than can be counted.
    #[error("the input has no end")]
    Endless,
}

impl From<AllocError> for DialogFault {
    ghost from_gives = { λ _ fault. fault ≡ Memory };

    fn from(_error: AllocError) -> DialogFault {
        DialogFault::Memory
    }
}

impl<T: Drop> From<AllocFailed<T>> for DialogFault {
    ghost from_gives = { λ _ fault. fault ≡ Memory };

    fn from(_error: AllocFailed<T>) -> DialogFault {
        DialogFault::Memory
    }
}

impl From<Unsent> for DialogFault {
    ghost from_gives = { λ _ fault. fault ≡ Write };

    fn from(_unsent: Unsent) -> DialogFault {
        DialogFault::Write
    }
}
