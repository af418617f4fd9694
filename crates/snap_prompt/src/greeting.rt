//! `push_greeting`: what the debugger's prompt says before the first line.
ghost use Rattle.snap_text.specs.Drafted.{Adds};
ghost use Rattle.snap_prompt.specs.Greeting.{greeting_text, shape_text};

use crate::hints::push_lines_range;
use snap_debug::Session;
use snap_text::Draft;
use snap_words::{Kind, Shape};

/// Appends the shape.
fn push_shape(out: &mut Draft, shape: Shape)
    ensures { Adds out.old out.new (shape_text shape) }
{
    out.push(b", shape ");
    out.push_number(shape.n());
    out.push(b" ");
    out.push_number(shape.w());
}

/// Appends what stands before the first line.
#[tactic(auto, unfolding(crate::specs::Greeting::greeting_text))]
pub(crate) fn push_greeting<K: Kind>(out: &mut Draft, session: &Session<K>)
    ensures { Adds out.old out.new (greeting_text session.now) }
{
    out.push(b"snapdb");
    push_lines_range(out, session, b"lines");
    push_shape(out, session.machine().shape());
    out.push(b"; `help` says what can be typed\n");
}
