//! Schedules and their items: read from texts, kept as segments, and printed; and scripts of live
//! runs, read.
#![tactic(auto)]

mod canonical_text;
mod fault;
mod forms;
mod item_iter;
mod items;
mod laws;
mod reader;
mod schedule;
mod script_forms;
mod script_reader;
mod scripts;
mod segments;

pub use canonical_text::{print, push_shape};
pub use fault::{ScheduleFault, ScheduleFault as SchedFault};
pub use forms::shape_form;
pub use item_iter::ItemIter;
pub use items::Items;
pub use laws::{prints_again, reads_all_spelled, reads_only_spelled};
pub use reader::read;
pub use schedule::{MAX_BYTES, Schedule};
pub use script_reader::read_scripts;
pub use scripts::{Script, Scripts};
pub use segments::{Segment, Segments};
pub use snap_semantics::{Fault, Item, Op, ScheduleRefusal};
pub use snap_words::{MAX_ITEMS, Shape};
