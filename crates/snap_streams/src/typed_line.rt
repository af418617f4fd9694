//! `read_line`: reads a line that is typed at a console, byte by byte, and keeps at most one byte
//! more of it than a line may have.
ghost use Rattle.std.specs.Prelude.{◌≡◌, ◌<◌, false, is_err, IfErr, IfOk, IfSome, OnOk, length};
ghost use Rattle.std.specs.Io.BufRead.{take_through, DropsThrough};
ghost use Rattle.snap_streams.specs.Failures.{MayEndLine, is_read_fault};
ghost use Rattle.snap_streams.specs.TypedLines.{GivesNext, kept, with_byte};
ghost use Rattle.snap_streams.specs.declared.dialog_fault.DialogFault.TheVariants.{Read};

use crate::byte_source::ByteSource;
use crate::dialog_fault::DialogFault;
use std::alloc::{AllocError, Global};

/// The most bytes that a line may have.
const MAX_LINE: usize = 1_048_576;

/// Reads the next byte; `None` at the end of the input.
fn next_byte<R: ByteSource>(reader: &mut R) -> Result<Option<u8>, DialogFault>
    requires { (R.state reader.old).failed ≡ false }
    ensures byte { IfOk result (λ next.
        GivesNext next (R.state reader.old).left (R.state reader.new).left) }
    ensures failed { (R.state reader.new).failed ≡ is_err result }
    ensures fault { IfErr result (λ fault. fault ≡ Read) }
{
    let mut byte = [0u8; 1];
    match reader.read(&mut byte) {
        Ok(0) => Ok(None),
        Ok(_) => Ok(Some(byte[0])),
        Err(_) => Err(DialogFault::Read),
    }
}

/// Appends `byte` to `line`, unless `line` is too long already.
fn keep_byte(line: &mut Vec<u8>, byte: u8) -> Result<(), AllocError>
    ensures { OnOk result (line.new.items ≡ with_byte line.old.items byte) }
{
    if line.len() <= MAX_LINE {
        line.push(byte)?;
    }
    Ok(())
}

/// Reads a line up to and with its line feed, or to the end of the input. Of a line that is too
/// long, one byte more is returned than a line may have.
///
/// # Errors
///
/// `Read` where `reader` fails; `Memory` where memory runs out; `Endless` where the line has more
/// bytes than can be counted.
pub fn read_line<R: ByteSource>(alloc: Global, reader: &mut R) -> Result<Vec<u8>, DialogFault>
    requires { (R.state reader.old).failed ≡ false }
    ensures line { IfOk result (λ line.
        IfSome (R.state reader.old).left (λ xs. line.items ≡ kept (take_through 10 xs))) }
    ensures rest { OnOk result
        (DropsThrough (R.state reader.old).left (R.state reader.new).left 10) }
    ensures failed { (R.state reader.new).failed ≡ is_read_fault result }
    ensures fails { IfErr result (λ fault. MayEndLine fault (R.state reader.old).left) }
{
    let mut line = Vec::new(alloc);
    for _count in 0..u64::MAX {
        let Some(byte) = next_byte(reader)? else {
            return Ok(line);
        };
        keep_byte(&mut line, byte)?;
        if byte == b'\n' {
            return Ok(line);
        }
    }
    Err(DialogFault::Endless)
}
