//! Listing M, from its text; and what every run of it keeps, as `snap_runs_of_m` has it.
#![tactic(auto)]

mod runs;

pub use runs::{listing, run};
pub use snap_runs_of_m::{
    borrowed_views_are_lent, changes_only_at_57, few_collects, few_steps, have_points,
    linearizable, moves_are_visible_steps, never_traps, operations_have_places,
    passed_tests_are_clean, runs_are_snapshots, sharp_collects, wait_free,
    write_strongly_linearizable, writes_its_update, writes_once,
};
