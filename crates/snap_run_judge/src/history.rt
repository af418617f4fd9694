//! The history of a record: a copy of what its callers saw.
ghost use Rattle.std.specs.Prelude.{◌≡◌, IfOk};
ghost use Rattle.snap_run_judge.specs.RunHistory.{history_of};

use snap_judge::{History, copied_events};
use snap_record::Record;
use snap_words::Kind;
use std::alloc::{AllocError, Global};

/// Returns what the callers saw of the run of a record.
///
/// # Errors
///
/// `AllocError` where memory runs out.
pub fn history_of<K: Kind>(alloc: Global, history: &Record<K>) -> Result<History, AllocError>
    ensures { IfOk result (λ h. h ≡ history_of history.now) }
{
    Ok(History {
        shape: history.machine().shape(),
        events: copied_events(alloc, history.events())?,
    })
}
