//! `FileFault`: why a file that a command line names was not read.
ghost use Rattle.std.specs.Prelude.{◌≡◌};
ghost use Rattle.snap_streams.specs.FileTexts.{reason};

use std::io::ErrorKind;
use thiserror::Error;

/// Why a file was not read.
#[derive(Clone, Copy, Debug, Error)]
pub enum FileFault {
    #[error("out of memory")]
    Memory,
    /// The file has too many bytes.
    #[error("the file is too long")]
    TooLong,
    /// The file could not be opened, or not be read to its end.
    #[error("the file cannot be read")]
    Unread(ErrorKind),
}

/// Returns why a file could not be opened or read, for a person.
pub fn reason(kind: ErrorKind) -> &'static str
    ensures { result.now ≡ reason kind }
{
    match kind {
        ErrorKind::NotFound => "no such file",
        ErrorKind::PermissionDenied => "permission denied",
        ErrorKind::IsADirectory => "is a directory",
        ErrorKind::InvalidInput => "no name of a file",
        _ => "cannot be read",
    }
}
