//! Listing U, from its text; and what every run of it keeps, as `snap_runs_of_u` has it.
#![tactic(auto)]

mod runs;

pub use runs::{listing, run};
pub use snap_runs_of_u::{
    borrowed_views_are_lent, changes_only_at_32, few_collects, few_steps, have_points,
    linearizable, moves_are_writes, never_traps, operations_have_places, own_updates_are_seen,
    passed_tests_are_clean, runs_are_snapshots, sharp_collects, wait_free,
    write_strongly_linearizable, writes_its_update, writes_once,
};
