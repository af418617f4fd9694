//! `tell`: says why a program did not do what it was called for, and what explains that.
ghost use Rattle.std.specs.Prelude.{◌≡◌, ◌++◌, ℕ, List, IfOk, false};
ghost use Rattle.snap_faults.specs.FaultText.{fault_line};
ghost use Rattle.snap_faults.specs.Faults.{fault_status};
ghost use Rattle.snap_faults.specs.Names.{view_names};
ghost use Rattle.snap_faults.specs.Told.{Helps, Sends, Tells, TellsMore};
ghost use Rattle.snap_faults.specs.Told.{no_memory_line, no_text_line};
ghost use Rattle.snap_streams.specs.Sent.{Says};

use crate::fault::{ProgramFault, fault_status};
use crate::fault_text::fault_line;
use crate::files::Names;
use snap_streams::{ByteSink, say};
use std::alloc::{AllocError, Global};

/// What is said where there is no memory for the line of a fault.
const NO_MEMORY: &[u8] = b"refused: Memory\n";

/// What is said of arguments that are not valid UTF-8.
const NO_TEXT: &[u8] = b"error: the arguments are not valid UTF-8\n";

/// Writes all of a text.
///
/// # Errors
///
/// `Write(count)` where the sink has taken its first `count` bytes, and no more.
pub fn write_all<W: ByteSink>(sink: &mut W, text: &[u8]) -> Result<(), ProgramFault>
    requires { (W.state sink.old).failed ≡ false }
    ensures { Sends result text.now (W.state sink.old) (W.state sink.new) }
{
    Ok(snap_streams::write_all(sink, text)?)
}

/// Says that there is no memory.
pub fn say_no_memory<E: ByteSink>(errors: &mut E)
    requires { (E.state errors.old).failed ≡ false }
    ensures { Says no_memory_line (E.state errors.old) (E.state errors.new) }
{
    say(NO_MEMORY, errors);
}

/// Says that arguments are not valid UTF-8.
pub fn say_no_text<E: ByteSink>(errors: &mut E)
    requires { (E.state errors.old).failed ≡ false }
    ensures { Says no_text_line (E.state errors.old) (E.state errors.new) }
{
    say(NO_TEXT, errors);
}

/// Says a fault, or that there is no memory for its line.
pub fn complain<E: ByteSink>(alloc: Global, names: &Names<'_>, fault: &ProgramFault, errors: &mut E)
    requires { (E.state errors.old).failed ≡ false }
    ensures { Tells (view_names names.now) fault.now (E.state errors.old) (E.state errors.new) }
{
    match fault_line(alloc, names, fault) {
        Ok(line) => say(line.as_slice(), errors),
        Err(_) => say_no_memory(errors),
    }
}

/// Returns the line of a fault, and more behind it.
fn longer_line(
    alloc: Global,
    names: &Names<'_>,
    fault: &ProgramFault,
    more: &[u8],
) -> Result<Vec<u8>, AllocError>
    ensures { IfOk result (λ line. line.items
        ≡ fault_line (view_names names.now) fault.now ++ more.now) }
{
    let mut line = fault_line(alloc, names, fault)?;
    line.extend_from_slice(more)?;
    Ok(line)
}

/// Says a fault, with more behind its line where there is memory for that.
fn say_more<E: ByteSink>(
    alloc: Global,
    names: &Names<'_>,
    fault: &ProgramFault,
    more: &[u8],
    errors: &mut E,
)
    requires { (E.state errors.old).failed ≡ false }
    ensures { TellsMore (view_names names.now) fault.now more.now (E.state errors.old)
        (E.state errors.new) }
{
    match longer_line(alloc, names, fault, more) {
        Ok(longer) => say(longer.as_slice(), errors),
        Err(_) => complain(alloc, names, fault, errors),
    }
}

/// Says a fault on `errors`, with `more` behind its line if there is memory for both, and returns
/// the status for the fault.
pub fn tell<E: ByteSink>(
    alloc: Global,
    names: &Names<'_>,
    fault: &ProgramFault,
    more: &Result<Vec<u8>, AllocError>,
    errors: &mut E,
) -> u8
    requires { (E.state errors.old).failed ≡ false }
    ensures status { result ≡ fault_status fault.now }
    ensures says { (text : List ℕ) → IfOk more.now (λ m. m.items ≡ text) →
        TellsMore (view_names names.now) fault.now text (E.state errors.old) (E.state errors.new) }
{
    match more {
        Ok(more) => say_more(alloc, names, fault, more.as_slice(), errors),
        Err(_) => complain(alloc, names, fault, errors),
    }
    fault_status(fault)
}

/// Writes help or the version to `sink`, says on `errors` if that fails, and returns the status.
pub fn help<W: ByteSink, E: ByteSink>(
    alloc: Global,
    names: &Names<'_>,
    text: &[u8],
    sink: &mut W,
    errors: &mut E,
) -> u8
    requires sink { (W.state sink.old).failed ≡ false }
    requires errors { (E.state errors.old).failed ≡ false }
    ensures { Helps (view_names names.now) text.now result (W.state sink.old) (W.state sink.new)
        (E.state errors.old) (E.state errors.new) }
{
    match write_all(sink, text) {
        Ok(()) => 0,
        Err(fault) => {
            complain(alloc, names, &fault, errors);
            fault_status(&fault)
        }
    }
}
