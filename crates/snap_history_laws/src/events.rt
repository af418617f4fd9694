//! A law of the runs of any listing: their events are the calls and the ends of operations, the
//! calls of scans that have not ended, and crashes.
ghost use Rattle.snap_history_laws.specs.events.EventLaws.{EventsTellOperations};

/// The events of a run of any listing are the calls and the ends of its operations, and nothing
/// that did not happen. What is proved of operations, such as that they are linearizable, holds of
/// the events that are printed.
pub fn events_tell_operations()
    ensures { EventsTellOperations }
{
    snap_runs::ends_are_of_operations();
}
