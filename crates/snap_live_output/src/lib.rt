//! What a live run writes for what it reads: from an input to its whole output, or to the reason
//! why there is none.
#![tactic(auto)]

mod laws;
mod output;
mod played_text;
mod setup;
mod uncalled;
mod written;

pub use laws::live_runs_are_snapshots;
pub use output::{LiveOutput, live_output};
pub use setup::setup_of;
pub use uncalled::{push_front, push_others};
