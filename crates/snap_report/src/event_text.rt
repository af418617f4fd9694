//! The printed texts of operations and events.
ghost use Rattle.snap_text.specs.Drafted.{Adds};
ghost use Rattle.snap_semantics.specs.Report.{op_text, happening_text, event_line, event_lines};

use snap_semantics::{Event, Happening, Op};
use snap_text::Draft;

/// Appends an operation.
pub fn op_text(out: &mut Draft, op: Op)
    ensures { Adds out.old out.new (op_text op) }
{
    match op {
        Op::Scan => out.push(b"scan"),
        Op::Update { word, value } => {
            out.push(b"update ");
            out.push_number(word);
            out.push(b" ");
            out.push_number(value);
        }
    }
}

/// Appends what a caller sees.
fn happening_text(out: &mut Draft, what: &Happening)
    ensures { Adds out.old out.new (happening_text what.now) }
{
    match what {
        Happening::Call(op) => op_text(out, *op),
        Happening::Answer(view) => {
            out.push(b"answer");
            out.push_numbers(view.as_slice());
        }
        Happening::Done => out.push(b"done"),
        Happening::Crash => out.push(b"crash"),
    }
}

/// Appends `event ITEM PROCESS` and what happened.
pub fn event_line(out: &mut Draft, event: &Event)
    ensures { Adds out.old out.new (event_line event.now) }
{
    out.push(b"event ");
    out.push_number(event.item);
    out.push(b" ");
    out.push_number(u64::from(event.process));
    out.push(b" ");
    happening_text(out, &event.what);
    out.push(b"\n");
}

/// Appends the lines of events.
pub fn event_lines(out: &mut Draft, events: &[Event])
    ensures { Adds out.old out.new (event_lines events.now) }
{
    for event in events {
        event_line(out, event);
    }
}
