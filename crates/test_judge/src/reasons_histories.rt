//! Small histories of three processes and two words, that are not linearizable.
ghost use Rattle.std.specs.Prelude.{◌≡◌, [], ◌∷◌, IfOk};
ghost use Rattle.snap_judge.specs.History.{IsHistory};
ghost use Rattle.snap_semantics.specs.declared.event.Happening.TheVariants as what;

use crate::histories::{done, scan, update};
use snap_judge::History;
use snap_semantics::{Event, Happening};
use snap_words::{Shape, View};
use std::alloc::{AllocError, Global};
use std::test::Fail;

/// Returns the answer of a process's scan with these values of the two words.
fn answer(
    alloc: Global,
    item: u64,
    process: u32,
    first: u64,
    second: u64,
) -> Result<Event, AllocError>
    ensures { IfOk result (λ e. e ≡ record {
      item = item;
      process = process;
      what = what.Answer (first ∷ second ∷ []);
    }) }
{
    let view = View::of(vec![in alloc; first, second]?);
    Ok(Event {
        item,
        process,
        what: Happening::Answer(view),
    })
}

/// Returns a history in which a scan sees an update of word 1 to 5 that is open, and one that is
/// called later does not.
pub fn new_then_old(alloc: Global) -> Result<History, Fail>
    ensures { IfOk result IsHistory }
{
    let shape = Shape::new(3, 2)?;
    let first_view = answer(alloc, 3, 2, 5, 0)?;
    let last_view = answer(alloc, 5, 3, 0, 0)?;
    let events = vec![in alloc;
        update(1, 1, 1, 5),
        scan(2, 2),
        first_view,
        scan(4, 3),
        last_view,
        done(6, 1),
    ]?;
    Ok(History { shape, events })
}

/// Returns a history in which an update of word 1 to 5 ends and is lost: a scan that is called
/// later does not see it, while an update of word 2 to 7 is open.
pub fn lost_update(alloc: Global) -> Result<History, Fail>
    ensures { IfOk result IsHistory }
{
    let shape = Shape::new(3, 2)?;
    let view = answer(alloc, 5, 3, 0, 0)?;
    let events = vec![in alloc;
        update(1, 1, 1, 5),
        done(2, 1),
        update(3, 2, 2, 7),
        scan(4, 3),
        view,
    ]?;
    Ok(History { shape, events })
}

/// Returns a history in which a scan sees an update that is called after it has ended.
pub fn early_sight(alloc: Global) -> Result<History, Fail>
    ensures { IfOk result IsHistory }
{
    let shape = Shape::new(3, 2)?;
    let view = answer(alloc, 2, 3, 0, 7)?;
    let events = vec![in alloc; scan(1, 3), view, update(3, 2, 2, 7), done(4, 2)]?;
    Ok(History { shape, events })
}
