//! What the events of a run, its history and its threads tell of its operations; and that the runs
//! of U, B and M, live ones too, are linearizable as told, and hunts find nothing in them.
#![tactic(auto)]

mod events;
mod hunts;
mod judgements;
mod reruns;
mod threads;

pub use events::events_tell_operations;
pub use hunts::shipped_listings_have_no_failing_run;
pub use judgements::{
    closed_desks_are_seen_linearizable, judgements_are_of_records, judgements_are_of_runs,
    live_runs_are_seen_linearizable, runs_are_told_by_their_histories, runs_tell_each_once,
    shipped_are_listings, shipped_runs_are_seen_linearizable, threads_are_told_the_history,
};
pub use reruns::{live_runs_are_cut, live_runs_are_read_again, live_runs_are_run_again};
pub use threads::{
    closed_desks_are_linearizable, desks_tell_linearizations, linearizations_are_told,
    live_runs_are_linearizable, notes_order_operations, operations_are_told,
    seats_are_told_the_record, seats_own_what_they_saw,
};
