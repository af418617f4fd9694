//! `ProgramFault`: why a program did not do what it was called for, or not all of it;
//! `fault_status` is the status that it ends with then.
ghost use Rattle.std.specs.Prelude.{◌≡◌};
ghost use Rattle.snap_faults.specs.Faults.{fault_status, of_dialog_fault, of_file};
ghost use Rattle.snap_faults.specs.Faults.{of_history_fault};
ghost use Rattle.snap_faults.specs.Faults.{of_input_fault, of_live_fault, of_model_fault};
ghost use Rattle.snap_faults.specs.declared.fault.ProgramFault.TheVariants.{Memory, Write};

use crate::files::Which;
use snap_history_text::{HistoryFault, HistoryRefusal};
use snap_semantics::{Fault, LiveRefusal, ModelRefusal, Refusal};
use snap_streams::{DialogFault, FileFault, Unsent};
use std::alloc::{AllocError, AllocFailed};
use std::io::ErrorKind;
use thiserror::Error;

/// Why a program did not do what it was called for, or not all of it.
#[derive(Clone, Copy, Debug, PartialEq, Eq, Error)]
pub enum ProgramFault {
    #[error("out of memory")]
    Memory,
    /// An input, or the text of a file, is refused.
    #[error("{0}")]
    Refused(Refusal),
    /// A live run was given up.
    #[error("{0}")]
    Live(LiveRefusal),
    /// The input is no history.
    #[error("{0}")]
    History(HistoryRefusal),
    /// No model holds what the input says.
    #[error("{0}")]
    Model(ModelRefusal),
    /// A run of this many items lacks those that are to be drawn.
    #[error("a run of {0} items has no such items")]
    NoSuchItems(u64),
    /// More items than a picture has.
    #[error("a picture has no {0} items")]
    TooManyItems(u64),
    /// The input of a hunt that was to be printed does not reproduce the hunt's failure.
    #[error("the run that was found does not fail")]
    Unsaid,
    /// A file has more bytes than an input may have.
    #[error("the file is too long")]
    TooLong(Which),
    /// A file could not be read, for this reason.
    #[error("the file cannot be read")]
    Unread(Which, ErrorKind),
    #[error("the input could not be read")]
    Read,
    /// The output could not be written after this many bytes.
    #[error("the output could not be written after {0} bytes")]
    Write(u64),
    /// A dialog could not be shown.
    #[error("the dialog could not be shown")]
    Show,
}

/// Returns the status of a program that ends with a fault: 1 where something was refused or given
/// up, or memory ran out, and 3 where a file or a device failed.
pub fn fault_status(fault: &ProgramFault) -> u8
    ensures { result ≡ fault_status fault.now }
{
    match fault {
        ProgramFault::Unread(..)
        | ProgramFault::Read
        | ProgramFault::Write(_)
        | ProgramFault::Show => 3,
        _ => 1,
    }
}

/// Returns why a file was not read, as a fault of the program.
pub fn of_file(which: Which, fault: FileFault) -> ProgramFault
    ensures { result ≡ of_file which fault }
{
    match fault {
        FileFault::Memory => ProgramFault::Memory,
        FileFault::TooLong => ProgramFault::TooLong(which),
        FileFault::Unread(kind) => ProgramFault::Unread(which, kind),
    }
}

impl From<AllocError> for ProgramFault {
    ghost from_gives = { λ _ fault. fault ≡ Memory };

    fn from(_error: AllocError) -> ProgramFault {
        ProgramFault::Memory
    }
}

impl<T: Drop> From<AllocFailed<T>> for ProgramFault {
    ghost from_gives = { λ _ fault. fault ≡ Memory };

    fn from(_error: AllocFailed<T>) -> ProgramFault {
        ProgramFault::Memory
    }
}

impl From<Fault<Refusal>> for ProgramFault {
    ghost from_gives = { λ found fault. fault ≡ of_input_fault found };

    fn from(fault: Fault<Refusal>) -> ProgramFault {
        match fault {
            Fault::Memory => ProgramFault::Memory,
            Fault::Refused(refusal) => ProgramFault::Refused(refusal),
        }
    }
}

impl From<Fault<LiveRefusal>> for ProgramFault {
    ghost from_gives = { λ found fault. fault ≡ of_live_fault found };

    fn from(fault: Fault<LiveRefusal>) -> ProgramFault {
        match fault {
            Fault::Memory => ProgramFault::Memory,
            Fault::Refused(refusal) => ProgramFault::Live(refusal),
        }
    }
}

impl From<HistoryFault> for ProgramFault {
    ghost from_gives = { λ found fault. fault ≡ of_history_fault found };

    fn from(fault: HistoryFault) -> ProgramFault {
        match fault {
            Fault::Memory => ProgramFault::Memory,
            Fault::Refused(refusal) => ProgramFault::History(refusal),
        }
    }
}

impl From<Fault<ModelRefusal>> for ProgramFault {
    ghost from_gives = { λ found fault. fault ≡ of_model_fault found };

    fn from(fault: Fault<ModelRefusal>) -> ProgramFault {
        match fault {
            Fault::Memory => ProgramFault::Memory,
            Fault::Refused(refusal) => ProgramFault::Model(refusal),
        }
    }
}

impl From<DialogFault> for ProgramFault {
    ghost from_gives = { λ found fault. fault ≡ of_dialog_fault found };

    fn from(fault: DialogFault) -> ProgramFault {
        match fault {
            DialogFault::Memory => ProgramFault::Memory,
            DialogFault::Read | DialogFault::Endless => ProgramFault::Read,
            DialogFault::Write => ProgramFault::Show,
        }
    }
}

impl From<Unsent> for ProgramFault {
    ghost from_gives = { λ unsent fault. fault ≡ Write unsent.count };

    fn from(unsent: Unsent) -> ProgramFault {
        ProgramFault::Write(unsent.count)
    }
}
