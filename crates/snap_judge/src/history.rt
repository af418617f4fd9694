//! `History`: what the callers of a snapshot object saw.
ghost use Rattle.std.specs.Prelude.{◌≡◌, IfOk};

use snap_semantics::{Event, Happening};
use snap_words::Shape;
use std::alloc::{AllocError, Global};
use std::marker::Model;

/// How many processes call an object of how many words, and the calls, answers, ends of updates and
/// crashes in order, each with its number.
pub struct History {
    pub shape: Shape,
    pub events: Vec<Event>,
}

impl Model for History {
    ghost use Rattle.snap_judge.specs.History.{History};

    ghost Value = { History };

    ghost view = { λ h. record { shape = h.shape; events = h.events.items } };
}

impl Drop for History {
    fn drop(self) {
        let History {
            shape: _,
            events: _,
        } = self;
    }
}

/// Returns a copy of what has happened.
fn copied_happening(alloc: Global, what: &Happening) -> Result<Happening, AllocError>
    ensures { IfOk result (λ h. h ≡ what.now) }
{
    match what {
        Happening::Call(operation) => Ok(Happening::Call(*operation)),
        Happening::Answer(view) => Ok(Happening::Answer(view.copy(alloc)?)),
        Happening::Done => Ok(Happening::Done),
        Happening::Crash => Ok(Happening::Crash),
    }
}

/// Returns a copy of the event.
fn copied_event(alloc: Global, event: &Event) -> Result<Event, AllocError>
    ensures { IfOk result (λ e. e ≡ event.now) }
{
    Ok(Event {
        item: event.item,
        process: event.process,
        what: copied_happening(alloc, &event.what)?,
    })
}

/// Returns a copy of the events.
///
/// # Errors
///
/// `AllocError` where memory runs out.
pub fn copied_events(alloc: Global, events: &[Event]) -> Result<Vec<Event>, AllocError>
    ensures { IfOk result (λ es. es.items ≡ events.now) }
{
    let mut copies = Vec::new(alloc);
    copies.reserve(events.len())?;
    for event in events {
        copies.push(copied_event(alloc, event)?)?;
    }
    Ok(copies)
}
