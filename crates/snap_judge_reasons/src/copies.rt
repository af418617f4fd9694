//! The first events of a history.
ghost use Rattle.std.specs.Prelude.{◌≡◌, ◌≤◌, length, IfOk};
ghost use Rattle.snap_judge.specs.Linearizable.{up_to};

use snap_judge::{History, copied_events};
use std::alloc::{AllocError, Global};

/// Returns a history of the first `count` events.
///
/// # Errors
///
/// `AllocError` where memory runs out.
pub fn first_events(alloc: Global, history: &History, count: usize) -> Result<History, AllocError>
    requires { count ≤ length history.now.events }
    ensures { IfOk result (λ h. h ≡ up_to count history.now) }
{
    let events = copied_events(alloc, &history.events[..count])?;
    Ok(History {
        shape: history.shape,
        events,
    })
}
