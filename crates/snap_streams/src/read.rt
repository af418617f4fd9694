//! `read_named`: the bytes of a file that a command line names, read whole, if they are not too
//! many.
ghost use Rattle.std.specs.Prelude.{◌≡◌, ◌≤◌, ◌<◌, IfErr, IfOk, IfSome, IsErrAnd};
ghost use Rattle.std.specs.Prelude.{MatchOption, None, length};
ghost use Rattle.std.specs.IoError.{error_kind};
ghost use Rattle.snap_streams.specs.FileTexts.{IsFaultOf, Reads, ReadsOpen};

use crate::file_fault::FileFault;
use std::alloc::Global;
use std::fs::File;
use std::io;
use std::io::{Error, ErrorKind, Read};

/// Reads `reader` to its end, and returns its bytes if they are fewer than `most`; `None`
/// otherwise. At most `most` bytes are read, so `reader` may have no end, as `/dev/zero`.
///
/// # Errors
///
/// The error of `reader`, or `OutOfMemory` where there is no memory for the bytes.
pub fn read_below<R: Read + Drop>(
    alloc: Global,
    reader: R,
    most: u64,
) -> io::Result<Option<Vec<u8>>>
    ensures whole { IfOk result (λ found. IfSome (R.remaining reader) (λ input.
        MatchOption found (most ≤ length input) (λ bytes. bytes.items ≡ input))) }
    ensures short { IfOk result (λ found. IfSome found (λ bytes. length bytes.items < most)) }
{
    let mut bytes = Vec::new(alloc);
    reader.take(most).read_to_end(&mut bytes)?;
    if (bytes.len() as u64) < most {
        Ok(Some(bytes))
    } else {
        Ok(None)
    }
}

/// Returns the fault that stands for `error`.
fn fault_of(error: &Error) -> FileFault
    ensures { IsFaultOf (error_kind error.now) result }
{
    match error.kind() {
        ErrorKind::OutOfMemory => FileFault::Memory,
        kind => FileFault::Unread(kind),
    }
}

/// Reads an open file, and returns its bytes if they are fewer than `most`.
#[tactic(auto, using(crate::proofs::Faults::may_fail))]
fn read_open<R: Read + Drop>(alloc: Global, reader: R, most: u64) -> Result<Vec<u8>, FileFault>
    ensures short { Reads most None result }
    ensures whole { IfSome (R.remaining reader) (λ input. ReadsOpen most input result) }
{
    match read_below(alloc, reader, most) {
        Ok(Some(bytes)) => Ok(bytes),
        Ok(None) => Err(FileFault::TooLong),
        Err(error) => Err(fault_of(&error)),
    }
}

/// Reads what was opened, and returns its bytes if they are fewer than `most`.
///
/// # Errors
///
/// `TooLong` where there are `most` bytes or more; `Unread` where `opened` is an error, or reading
/// fails; `Memory` where memory runs out.
pub fn read_opened<R: Read + Drop>(
    alloc: Global,
    opened: io::Result<R>,
    most: u64,
) -> Result<Vec<u8>, FileFault>
    ensures short { Reads most None result }
    ensures whole { IfOk opened (λ reader. IfSome (R.remaining reader) (λ input.
        ReadsOpen most input result)) }
    ensures closed { IfErr opened (λ error. IsErrAnd result (IsFaultOf (error_kind error))) }
{
    match opened {
        Ok(reader) => read_open(alloc, reader, most),
        Err(error) => Err(fault_of(&error)),
    }
}

/// Reads the file `name`, and returns its bytes if they are fewer than `most`.
///
/// # Errors
///
/// `TooLong` where the file has `most` bytes or more; `Unread` where it cannot be opened or read;
/// `Memory` where memory runs out.
pub fn read_named(rt: &HostRuntime, name: &str, most: u64) -> Result<Vec<u8>, FileFault>
    ensures { Reads most None result }
{
    read_opened(rt.alloc(), File::open(rt, name), most)
}
