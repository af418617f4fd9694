//! `read_all`: an input that is read whole; and `deliver`: an output that is written whole.
ghost use Rattle.std.specs.Prelude.{◌≡◌, false};
ghost use Rattle.snap_program.specs.WholeRun.{Delivers, Reads, done_of};

use snap_faults::{ProgramFault, write_all};
use snap_input::MAX_INPUT;
use snap_streams::{ByteSink, ByteSource};
use std::alloc::Global;

/// The bytes of one read.
const CHUNK: usize = 4096;

/// Reads `source` to its end, or one byte more than is allowed.
///
/// # Errors
///
/// A fault of the device, or `Memory` where memory runs out.
pub fn read_all<R: ByteSource>(alloc: Global, source: &mut R) -> Result<Vec<u8>, ProgramFault>
    requires { (R.state source.old).failed ≡ false }
    ensures { Reads result (R.state source.old) (R.state source.new) }
{
    let mut input = Vec::new(alloc);
    let mut buffer = [0u8; CHUNK];
    while input.len() <= MAX_INPUT {
        let room = CHUNK.min(MAX_INPUT + 1 - input.len());
        match source.read(&mut buffer[..room]) {
            Ok(0) => break,
            Ok(count) => input.extend_from_slice(&buffer[..count])?,
            Err(_) => return Err(ProgramFault::Read),
        }
    }
    Ok(input)
}

/// Writes all of an output, and returns what else was found for it.
///
/// # Errors
///
/// `Write(count)` where the sink has taken its first `count` bytes, and no more.
pub(crate) fn deliver<A: Drop, W: ByteSink>(
    text: Vec<u8>,
    found: A,
    sink: &mut W,
) -> Result<A, ProgramFault>
    requires { (W.state sink.old).failed ≡ false }
    ensures { Delivers result text.items found (W.state sink.old) (W.state sink.new) }
{
    write_all(sink, text.as_slice())?;
    Ok(found)
}

/// Returns how a whole run ended, without what it found.
pub(crate) fn done_of<A: Drop>(answer: Result<A, ProgramFault>) -> Result<(), ProgramFault>
    ensures { result ≡ done_of answer }
{
    answer?;
    Ok(())
}
