//! What is said of listings, runs and refused lines is so: warnings and certificates of U, B and M,
//! stops, operands at which lines trap, borrowed views, and explanations.
#![tactic(auto)]

mod certificates;
mod laws;
mod loans;
mod stops;
mod traps;
mod warnings;

pub use certificates::shipped_runs_are_certified;
pub use laws::{
    a_line_is_refused_for_the_token_found, lines_with_forms_are_not_lost,
    no_line_goes_on_where_one_is_lost,
};
pub use loans::views_are_followed;
pub use stops::{reverse_run_goes_to_the_last_stop, run_goes_to_the_first_stop};
pub use traps::traps_are_told;
pub use warnings::{b_is_silent, m_is_silent, u_is_silent};
