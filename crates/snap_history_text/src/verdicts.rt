//! The lines of verdicts that name an event.
ghost use Rattle.snap_text.specs.Drafted.{Adds};
ghost use Rattle.snap_history_text.specs.JudgementText.{not_linearizable_line, undecided_line};
ghost use Rattle.snap_history_text.specs.JudgementText.{verdict_line};

use snap_semantics::Event;
use snap_text::Draft;

/// Appends a verdict on an event.
fn push_verdict(out: &mut Draft, verdict: &[u8], event: &Event)
    ensures { Adds out.old out.new (verdict_line verdict.now event.now) }
{
    out.push(verdict);
    out.push(b": event ");
    out.push_number(event.item);
    out.push(b" process ");
    out.push_number(u64::from(event.process));
    out.push(b"\n");
}

/// Appends the first event with which no order of the operations explains their history.
pub fn push_not_linearizable(out: &mut Draft, event: &Event)
    ensures { Adds out.old out.new (not_linearizable_line event.now) }
{
    push_verdict(out, b"not linearizable", event);
}

/// Appends the event at which the search for an order was given up.
pub fn push_undecided(out: &mut Draft, event: &Event)
    ensures { Adds out.old out.new (undecided_line event.now) }
{
    push_verdict(out, b"undecided", event);
}
