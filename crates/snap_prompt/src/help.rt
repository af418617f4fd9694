//! `push_help`: what lines at the debugger's prompt can ask for, by subject.
ghost use Rattle.snap_text.specs.Drafted.{Adds};
ghost use Rattle.snap_prompt.specs.Help.{help_text};

use crate::words::{ADDING, KEEPING, LOOKING, MOVING, SHORT, STOPS};
use snap_text::Draft;

/// Appends the list of requests.
#[tactic(auto, unfolding(crate::specs::Help::help_text))]
pub(crate) fn push_help(out: &mut Draft)
    ensures { Adds out.old out.new help_text }
{
    out.push(MOVING);
    out.push(STOPS);
    out.push(LOOKING);
    out.push(ADDING);
    out.push(KEEPING);
    out.push(SHORT);
}
