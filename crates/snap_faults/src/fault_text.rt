//! `fault_line`: the line that a program says for a fault.
ghost use Rattle.std.specs.Prelude.{◌≡◌, ◌++◌, IfOk, codes, option_map};
ghost use Rattle.snap_text.specs.Drafted.{Adds};
ghost use Rattle.snap_faults.specs.FaultText.{fault_line, fault_text, history_refusal_text};
ghost use Rattle.snap_faults.specs.FaultText.{live_refusal_text, model_refusal_text, refused_file};
ghost use Rattle.snap_faults.specs.FaultText.{refused_in};
ghost use Rattle.snap_faults.specs.Names.{file_of, front, view_names};
ghost use Rattle.snap_faults.specs.declared.fault.ProgramFault.TheVariants.{Unread};

use crate::fault::ProgramFault;
use crate::files::{Names, Which};
use crate::refusal_text::{push_numbered, push_refused};
use snap_history_text::HistoryRefusal;
use snap_semantics::{LiveRefusal, ModelRefusal, Refusal};
use snap_streams::reason;
use snap_text::Draft;
use std::alloc::{AllocError, Global};
use std::io::ErrorKind;

fn push_live_refusal(out: &mut Draft, refusal: &LiveRefusal)
    ensures { Adds out.old out.new (live_refusal_text refusal.now) }
{
    match refusal {
        LiveRefusal::Full(count) => push_numbered(out, b"V1 Full", *count),
        LiveRefusal::TurnLimit(process) => {
            push_numbered(out, b"V2 TurnLimit", u64::from(*process));
        }
        LiveRefusal::SeatMissing(process) => {
            push_numbered(out, b"V3 SeatMissing", u64::from(*process));
        }
    }
}

fn push_history_refusal(out: &mut Draft, refusal: &HistoryRefusal)
    ensures { Adds out.old out.new (history_refusal_text refusal.now) }
{
    match refusal {
        HistoryRefusal::TooLong => out.push(b"H1 TooLong"),
        HistoryRefusal::BadShape => out.push(b"H2 BadShape"),
        HistoryRefusal::BadEvent(line) => push_numbered(out, b"H3 BadEvent", *line),
        HistoryRefusal::NoSuchProcess(line) => push_numbered(out, b"H4 NoSuchProcess", *line),
        HistoryRefusal::NotRising(line) => push_numbered(out, b"H5 NotRising", *line),
        HistoryRefusal::NoSuchWord(line) => push_numbered(out, b"H6 NoSuchWord", *line),
        HistoryRefusal::Busy(line) => push_numbered(out, b"H7 Busy", *line),
        HistoryRefusal::Crashed(line) => push_numbered(out, b"H8 Crashed", *line),
        HistoryRefusal::NotCalled(line) => push_numbered(out, b"H9 NotCalled", *line),
        HistoryRefusal::BadView(line) => push_numbered(out, b"H10 BadView", *line),
    }
}

fn push_model_refusal(out: &mut Draft, refusal: &ModelRefusal)
    ensures { Adds out.old out.new (model_refusal_text refusal.now) }
{
    match refusal {
        ModelRefusal::TooLarge => out.push(b"M1 TooLarge"),
        ModelRefusal::BadNumber(number) => push_numbered(out, b"M2 BadNumber", *number),
    }
}

/// Returns the name of a file.
fn file_of<'a>(names: &Names<'a>, which: Which) -> Option<&'a str>
    ensures { option_map (λ name. name.now) result ≡ file_of (view_names names.now) which }
{
    match which {
        Which::Listing => names.listing,
        Which::Schedule => names.schedule,
    }
}

/// Appends the front of a line about a file, with its name if it has one.
fn push_front(out: &mut Draft, program: &str, file: Option<&str>)
    ensures { Adds out.old out.new (front program.now (option_map (λ name. name.now) file.entry)) }
{
    match file {
        Some(file) => {
            out.push(program.as_bytes());
            out.push(b": ");
            out.push(file.as_bytes());
            out.push(b": ");
        }
        None => {}
    }
}

/// Returns which of the files the refusal is of.
fn refused_file(refusal: &Refusal) -> Which
    ensures { result ≡ refused_file refusal.now }
{
    match refusal {
        Refusal::Listing(_) => Which::Listing,
        _ => Which::Schedule,
    }
}

/// Appends that a file, or an input that has no name, is refused.
fn push_refused_in(out: &mut Draft, names: &Names<'_>, which: Which, refusal: &Refusal)
    ensures { Adds out.old out.new (refused_in (view_names names.now) which refusal.now) }
{
    push_front(out, names.program, file_of(names, which));
    push_refused(out, refusal);
}

/// Appends why a file was not read.
fn push_unread(out: &mut Draft, names: &Names<'_>, which: Which, kind: ErrorKind)
    ensures { Adds out.old out.new (fault_text (view_names names.now) (Unread which kind)) }
{
    push_front(out, names.program, file_of(names, which));
    out.push(reason(kind).as_bytes());
}

/// Appends that what a hunt found is not that of its input.
fn push_unsaid(out: &mut Draft, program: &str)
    ensures { Adds out.old out.new
        ((program.now ++ codes ": the run that was found is not that of the input")) }
{
    out.push(program.as_bytes());
    out.push(b": the run that was found is not that of the input");
}

/// Appends the text on a fault.
fn push_fault(out: &mut Draft, names: &Names<'_>, fault: &ProgramFault)
    ensures { Adds out.old out.new (fault_text (view_names names.now) fault.now) }
{
    match fault {
        ProgramFault::Memory => out.push(b"refused: Memory"),
        ProgramFault::Refused(refusal) => {
            push_refused_in(out, names, refused_file(refusal), refusal);
        }
        ProgramFault::Live(refusal) => {
            out.push(b"refused: ");
            push_live_refusal(out, refusal);
        }
        ProgramFault::History(refusal) => {
            out.push(b"refused: ");
            push_history_refusal(out, refusal);
        }
        ProgramFault::Model(refusal) => {
            out.push(b"refused: ");
            push_model_refusal(out, refusal);
        }
        ProgramFault::NoSuchItems(total) => {
            push_numbered(out, b"refused: D1 NoSuchItems", *total);
        }
        ProgramFault::TooManyItems(count) => {
            push_numbered(out, b"refused: D2 TooManyItems", *count);
        }
        ProgramFault::Unsaid => push_unsaid(out, names.program),
        ProgramFault::TooLong(which) => {
            push_refused_in(out, names, *which, &Refusal::InputTooLong);
        }
        ProgramFault::Unread(which, kind) => push_unread(out, names, *which, *kind),
        ProgramFault::Read => out.push(b"read fault"),
        ProgramFault::Write(count) => push_numbered(out, b"write fault after", *count),
        ProgramFault::Show => out.push(b"write fault"),
    }
}

/// Returns the line that a program says for `fault`, with the name of the file that it is about, if
/// there is one.
///
/// # Errors
///
/// `AllocError` where memory runs out.
pub fn fault_line(
    alloc: Global,
    names: &Names<'_>,
    fault: &ProgramFault,
) -> Result<Vec<u8>, AllocError>
    ensures { IfOk result (λ line. line.items ≡ fault_line (view_names names.now) fault.now) }
{
    let mut line = Draft::new(alloc);
    push_fault(&mut line, names, fault);
    line.push(b"\n");
    line.finish()
}
