//! What the prompt answers to `why` of an item: why it came out as it did, or that there is no such
//! item.
ghost use Rattle.std.specs.Prelude.{◌≡◌, OnOk, map};
ghost use Rattle.snap_listing.specs.LineTexts.{written};
ghost use Rattle.snap_prompt.specs.Explained.{explained};
ghost use Rattle.snap_prompt.specs.Prompt.{schedule_of_run};
ghost use Rattle.snap_prompt.specs.Said.{IsAdded};

use crate::hints::push_refused_line;
use snap_debug::Session;
use snap_listing::LineTexts;
use snap_sched::Schedule;
use snap_semantics::CommandRefusal;
use snap_text::Draft;
use snap_why::push_why;
use snap_words::Kind;
use std::alloc::{AllocError, Global};

/// Appends why an item of a session's run came out as it did, or that there are fewer items.
#[tactic(auto, unfolding(crate::specs::Explained::explained))]
pub(crate) fn push_explained<K: Kind>(
    alloc: Global,
    out: &mut Draft,
    session: &Session<K>,
    schedule: &Schedule,
    texts: &LineTexts,
    item: u64,
) -> Result<(), AllocError>
    requires schedule { schedule.now ≡ schedule_of_run session.now.run }
    requires texts { texts.now ≡ map written session.now.run.source.lines }
    ensures { OnOk result
        (IsAdded (explained session.now item) out.old out.new) }
{
    if session.total() < item {
        push_refused_line(out, session, &CommandRefusal::NoSuchPosition);
        return Ok(());
    }
    push_why::<K>(alloc, out, session.program(), schedule, texts, item)
}
