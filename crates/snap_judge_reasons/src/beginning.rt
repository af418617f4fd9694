//! `Beginning`: the first events of a history, by reference.
ghost use Rattle.std.specs.Prelude.{◌≡◌, ◌≤◌, length};
ghost use Rattle.snap_judge.specs.Linearizable.{up_to};

use snap_judge::History;
use snap_semantics::Event;
use snap_words::Shape;
use std::marker::Model;

/// The first events of a history, seen as the history of these alone.
#[derive(Drop)]
pub struct Beginning<'a> {
    pub shape: Shape,
    pub events: &'a [Event],
}

impl<'a> Model for Beginning<'a> {
    ghost use Rattle.snap_judge.specs.History.{History};

    ghost Value = { History };

    ghost view = { λ b. record { shape = b.shape; events = b.events.now } };
}

impl<'a> Beginning<'a> {
    /// Returns the first `count` events of a history.
    pub fn of(history: &'a History, count: usize) -> Beginning<'a>
        requires { count ≤ length history.now.events }
        ensures { result ≡ up_to count history.now }
    {
        Beginning {
            shape: history.shape,
            events: &history.events[..count],
        }
    }
}
