//! What the program reads: the parts of an input, which are the listing that it runs and the texts
//! after it; and many schedules, read one after another or side by side.
#![tactic(auto)]

mod counts;
mod images;
mod in_threads;
mod in_turn;
mod part_counts;
mod parts;
mod prepared;
mod schedules;
mod subject;

pub use images::{assemble, list, program_of, upgrade};
pub use in_threads::read_side_by_side;
pub use in_turn::{read_schedule, read_schedules};
pub use part_counts::MAX_INPUT;
pub use parts::split_parts;
pub use prepared::{Prepared, prepare, prepare_schedules};
pub use schedules::{fits, schedule_for};
pub use snap_tasks::Subject;
pub use subject::shipped;
