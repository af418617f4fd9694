//! The text of a `Refusal` of an input: its code, name and number. `refusal_line` is the whole
//! line.
ghost use Rattle.std.specs.Prelude.{◌≡◌, IfOk};
ghost use Rattle.snap_text.specs.Drafted.{Adds};
ghost use Rattle.snap_faults.specs.RefusalText.{
  numbered,
  listing_refusal_text,
  image_refusal_text,
  schedule_refusal_text,
  word_fault_text,
  refusal_text,
  refused_text,
  refusal_line,
};

use snap_debug_commands::push_refusal as push_command_refusal;
use snap_semantics::{ImageRefusal, ListingRefusal, Refusal, ScheduleRefusal};
use snap_text::Draft;
use snap_words::WordFault;
use std::alloc::{AllocError, Global};

/// Appends `name`, and `number` behind a space.
pub fn push_numbered(out: &mut Draft, name: &[u8], number: u64)
    ensures { Adds out.old out.new (numbered name.now number) }
{
    out.push(name);
    out.push(b" ");
    out.push_number(number);
}

fn push_listing_refusal(out: &mut Draft, refusal: &ListingRefusal)
    ensures { Adds out.old out.new (listing_refusal_text refusal.now) }
{
    match refusal {
        ListingRefusal::TooLong => out.push(b"L1 TooLong"),
        ListingRefusal::BadHeader(line) => push_numbered(out, b"L2 BadHeader", *line),
        ListingRefusal::BadLine(line) => push_numbered(out, b"L3 BadLine", *line),
        ListingRefusal::NumberNotRising(line) => push_numbered(out, b"L4 NumberNotRising", *line),
        ListingRefusal::UnknownName(line) => push_numbered(out, b"L5 UnknownName", *line),
        ListingRefusal::NameTwice(line) => push_numbered(out, b"L6 NameTwice", *line),
        ListingRefusal::WrongKind(line) => push_numbered(out, b"L7 WrongKind", *line),
        ListingRefusal::NoSuchLine(target) => push_numbered(out, b"L8 NoSuchLine", *target),
        ListingRefusal::TooMany(line) => push_numbered(out, b"L9 TooMany", *line),
        ListingRefusal::BadName(line) => push_numbered(out, b"L10 BadName", *line),
    }
}

fn push_image_refusal(out: &mut Draft, refusal: &ImageRefusal)
    ensures { Adds out.old out.new (image_refusal_text refusal.now) }
{
    match refusal {
        ImageRefusal::NotAnImage => out.push(b"I1 NotAnImage"),
        ImageRefusal::Version => out.push(b"I2 Version"),
        ImageRefusal::Truncated => out.push(b"I3 Truncated"),
        ImageRefusal::BadCode(offset) => push_numbered(out, b"I4 BadCode", *offset),
        ImageRefusal::Invalid(refusal) => {
            out.push(b"I5 Invalid ");
            push_listing_refusal(out, refusal);
        }
        ImageRefusal::Extra => out.push(b"I6 Extra"),
    }
}

fn push_schedule_refusal(out: &mut Draft, refusal: &ScheduleRefusal)
    ensures { Adds out.old out.new (schedule_refusal_text refusal.now) }
{
    match refusal {
        ScheduleRefusal::TooLong => out.push(b"S1 TooLong"),
        ScheduleRefusal::BadShape => out.push(b"S2 BadShape"),
        ScheduleRefusal::BadItem(line) => push_numbered(out, b"S3 BadItem", *line),
        ScheduleRefusal::TooManyItems(line) => push_numbered(out, b"S4 TooManyItems", *line),
        ScheduleRefusal::NoSuchProcess(line) => push_numbered(out, b"S5 NoSuchProcess", *line),
    }
}

fn push_word_fault(out: &mut Draft, fault: &WordFault)
    ensures { Adds out.old out.new (word_fault_text fault.now) }
{
    match fault {
        WordFault::BadShape => out.push(b"W1 BadShape"),
        WordFault::NotABit => out.push(b"W2 NotABit"),
    }
}

fn push_refusal(out: &mut Draft, refusal: &Refusal)
    ensures { Adds out.old out.new (refusal_text refusal.now) }
{
    match refusal {
        Refusal::InputTooLong => out.push(b"P1 InputTooLong"),
        Refusal::WrongParts(found) => push_numbered(out, b"P2 WrongParts", *found),
        Refusal::Listing(refusal) => push_listing_refusal(out, refusal),
        Refusal::Image(refusal) => push_image_refusal(out, refusal),
        Refusal::Schedule(refusal) => push_schedule_refusal(out, refusal),
        Refusal::Words(fault) => push_word_fault(out, fault),
        Refusal::Commands(refusal) => push_command_refusal(out, refusal),
    }
}

/// Appends the words that say why an input is refused.
pub fn push_refused(out: &mut Draft, refusal: &Refusal)
    ensures { Adds out.old out.new (refused_text refusal.now) }
{
    out.push(b"refused: ");
    push_refusal(out, refusal);
}

/// Returns the line that says why an input is refused.
///
/// # Errors
///
/// `AllocError` where memory runs out.
pub fn refusal_line(alloc: Global, refusal: &Refusal) -> Result<Vec<u8>, AllocError>
    ensures { IfOk result (λ line. line.items ≡ refusal_line refusal.now) }
{
    let mut line = Draft::new(alloc);
    push_refused(&mut line, refusal);
    line.push(b"\n");
    line.finish()
}
