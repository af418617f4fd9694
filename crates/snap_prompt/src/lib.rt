//! A prompt over a debugger's session: what lines at it ask for, schedules that are cut and
//! extended, and how many steps a process takes to a line.
#![tactic(auto)]

mod addition;
mod ask;
mod changed;
mod conversation;
mod edits;
mod explained;
mod forms;
mod goal;
mod greeting;
mod help;
mod hints;
mod last_item;
mod listed;
mod meant;
mod prompt;
mod question;
mod save_form;
mod saved;
mod short;
mod shows;
mod steps;
mod typed;
mod words;

pub use ask::Ask;
pub use conversation::converse;
pub use goal::{Goal, NoSteps};
pub use prompt::Prompt;
pub use shows::Shows;
pub use steps::steps_to;
