//! Small histories of three processes and three words.
ghost use Rattle.std.specs.Prelude.{◌≡◌, [], ◌∷◌, IfOk};
ghost use Rattle.snap_judge.specs.History.{IsHistory};
ghost use Rattle.snap_semantics.specs.declared.event.Happening.TheVariants as what;
ghost use Rattle.snap_semantics.specs.declared.process.Op.TheVariants as op;

use snap_judge::History;
use snap_semantics::{Event, Happening, Op};
use snap_words::{Shape, View};
use std::alloc::{AllocError, Global};
use std::test::Fail;

/// Returns a call of a scan by a process.
pub fn scan(item: u64, process: u32) -> Event
    ensures { result ≡ record { item = item; process = process; what = what.Call op.Scan } }
{
    Event {
        item,
        process,
        what: Happening::Call(Op::Scan),
    }
}

/// Returns a call of an update by a process.
pub fn update(item: u64, process: u32, word: u64, value: u64) -> Event
    ensures { result ≡ record {
      item = item;
      process = process;
      what = what.Call (op.Update word value);
    } }
{
    Event {
        item,
        process,
        what: Happening::Call(Op::Update { word, value }),
    }
}

/// Returns the end of an update of a process.
pub fn done(item: u64, process: u32) -> Event
    ensures { result ≡ record { item = item; process = process; what = what.Done } }
{
    Event {
        item,
        process,
        what: Happening::Done,
    }
}

/// Returns the answer of a scan of a process with this value in word 1, and zeros.
fn answer(alloc: Global, item: u64, process: u32, value: u64) -> Result<Event, AllocError>
    ensures { IfOk result (λ e. e ≡ record {
      item = item;
      process = process;
      what = what.Answer (value ∷ 0 ∷ 0 ∷ []);
    }) }
{
    let view = View::of(vec![in alloc; value, 0, 0]?);
    Ok(Event {
        item,
        process,
        what: Happening::Answer(view),
    })
}

/// Returns two updates of word 1 at once, one to 7 and one to 8, both open while a scan sees 8; a
/// scan after them sees `last`.
pub fn two_updates(alloc: Global, last: u64) -> Result<History, Fail>
    ensures { IfOk result IsHistory }
{
    let shape = Shape::new(3, 3)?;
    let first_view = answer(alloc, 4, 3, 8)?;
    let last_view = answer(alloc, 8, 3, last)?;
    let events = vec![in alloc;
        update(1, 1, 1, 7),
        update(2, 2, 1, 8),
        scan(3, 3),
        first_view,
        done(5, 1),
        done(6, 2),
        scan(7, 3),
        last_view,
    ]?;
    Ok(History { shape, events })
}

/// Returns an update of word 1 to 7 that never ends, and two scans after its call, which see
/// `first` and then `last`.
pub fn open_update(alloc: Global, first: u64, last: u64) -> Result<History, Fail>
    ensures { IfOk result IsHistory }
{
    let shape = Shape::new(3, 3)?;
    let first_view = answer(alloc, 3, 2, first)?;
    let last_view = answer(alloc, 5, 2, last)?;
    let events = vec![in alloc;
        update(1, 1, 1, 7),
        scan(2, 2),
        first_view,
        scan(4, 2),
        last_view,
    ]?;
    Ok(History { shape, events })
}
