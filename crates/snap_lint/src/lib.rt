//! What a listing may run into: the lines to which control may come, what is to be warned of there,
//! and what the tasks `check` and `lint` write of it.
#![tactic(auto)]

ghost use Rattle.snap_lint.specs.Marks.{ReachedByWays};
ghost use Rattle.snap_lint.specs.Sound.{SilentNeverTraps, TrapsAreWarnedOf};

mod check;
mod concern;
mod edges;
mod flow;
mod line_warnings;
mod listing;
mod marks;
mod mode;
mod text;
mod traps;

pub use check::check_of;
pub use concern::{Concern, Warning};
pub use edges::Edge;
pub use flow::Flow;
pub use line_warnings::warnings;
pub use mode::{Mode, Way};
pub use text::{lint, lint_of};

/// A process that has trapped at the end of the listing, at a call within a call, at an end that
/// its operation does not have or at a register of another process, stands at a line with a warning
/// of that cause, whatever the schedule.
pub fn traps_are_warned_of()
    ensures { TrapsAreWarnedOf }
{}

/// If no line has a warning of such a cause, no run of any schedule traps for it.
pub fn silent_never_traps()
    ensures { SilentNeverTraps }
{}

/// The lines that are reached are exactly those to which a way leads, line by line, from a start.
#[tactic(auto, using(crate::proofs::Ways::reached_by_ways))]
pub fn reached_by_ways()
    ensures { ReachedByWays }
{}
