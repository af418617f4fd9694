//! The line printed for a refused debugger command: the code, name and number of its
//! `CommandRefusal`.
ghost use Rattle.std.specs.Prelude.{◌≡◌, IfOk};
ghost use Rattle.snap_text.specs.Drafted.{Adds};
ghost use Rattle.snap_debug_commands.specs.FaultText.{refusal_text, refusal_line, fault_text};

use snap_semantics::{CommandRefusal, Fault};
use snap_text::Draft;
use std::alloc::{AllocError, Global};

/// Appends the code of a refusal, its name and its number.
pub fn push_refusal(out: &mut Draft, refusal: &CommandRefusal)
    ensures { Adds out.old out.new (refusal_text refusal.now) }
{
    match refusal {
        CommandRefusal::BadCommand(line) => {
            out.push(b"G1 BadCommand ");
            out.push_number(*line);
        }
        CommandRefusal::NoSuchLine => out.push(b"G2 NoSuchLine"),
        CommandRefusal::NoSuchProcess => out.push(b"G3 NoSuchProcess"),
        CommandRefusal::NoSuchRegister => out.push(b"G4 NoSuchRegister"),
        CommandRefusal::NoSuchPosition => out.push(b"G5 NoSuchPosition"),
        CommandRefusal::TooManyMarks => out.push(b"G6 TooManyMarks"),
        CommandRefusal::TooLong => out.push(b"G7 TooLong"),
    }
}

/// Appends the line that says why a command is refused.
pub fn push_refusal_line(out: &mut Draft, refusal: &CommandRefusal)
    ensures { Adds out.old out.new (refusal_line refusal.now) }
{
    out.push(b"refused: ");
    push_refusal(out, refusal);
    out.push(b"\n");
}

/// Returns the line that says why there is no reply.
///
/// # Errors
///
/// `AllocError` where memory runs out.
pub fn fault_line(alloc: Global, fault: &Fault<CommandRefusal>) -> Result<Vec<u8>, AllocError>
    ensures { IfOk result (λ line. line.items ≡ fault_text fault.now) }
{
    let mut line = Draft::new(alloc);
    match fault {
        Fault::Memory => line.push(b"refused: Memory\n"),
        Fault::Refused(refusal) => push_refusal_line(&mut line, refusal),
    }
    line.finish()
}
