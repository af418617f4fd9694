//! `SceneTrouble`: why a scene of calls that may want memory is not played to its end.
use snap_semantics::Fault;
use snap_words::WordFault;
use std::alloc::{AllocError, AllocFailed};
use std::fmt::Display;
use std::io;

/// Why a scene is not played to its end.
#[derive(Clone, Copy, PartialEq, Eq)]
pub enum SceneTrouble {
    /// Memory ran out for what comes before the calls that are tried.
    Memory,
    /// A call refused its arguments.
    Refused,
    /// A call that wanted memory left something changed.
    Changed,
    /// Standard input or output failed.
    Device,
    /// The scene does not exist.
    Unknown,
}

impl SceneTrouble {
    /// Returns the line that is said of the fault.
    pub fn line(self) -> &'static [u8] {
        match self {
            SceneTrouble::Memory => b"refused: Memory\n",
            SceneTrouble::Refused => b"fault: a call refused what it was handed\n",
            SceneTrouble::Changed => b"fault: a call that wanted memory left something changed\n",
            SceneTrouble::Device => b"fault: a device failed\n",
            SceneTrouble::Unknown => b"fault: there is no such scene\n",
        }
    }

    /// Returns the status that the program ends with.
    pub fn status(self) -> u8 {
        match self {
            SceneTrouble::Memory => 1,
            _ => 3,
        }
    }
}

impl From<AllocError> for SceneTrouble {
    fn from(_error: AllocError) -> SceneTrouble {
        SceneTrouble::Memory
    }
}

impl<T: Drop> From<AllocFailed<T>> for SceneTrouble {
    fn from(_error: AllocFailed<T>) -> SceneTrouble {
        SceneTrouble::Memory
    }
}

impl<R: Display + Drop> From<Fault<R>> for SceneTrouble {
    fn from(fault: Fault<R>) -> SceneTrouble {
        match fault {
            Fault::Memory => SceneTrouble::Memory,
            Fault::Refused(_) => SceneTrouble::Refused,
        }
    }
}

impl From<WordFault> for SceneTrouble {
    fn from(_fault: WordFault) -> SceneTrouble {
        SceneTrouble::Refused
    }
}

impl From<io::Error> for SceneTrouble {
    fn from(error: io::Error) -> SceneTrouble {
        if error.kind() == io::ErrorKind::OutOfMemory {
            SceneTrouble::Memory
        } else {
            SceneTrouble::Device
        }
    }
}
