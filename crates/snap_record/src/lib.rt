//! A machine with its history: the items that a run has done, stored compactly, and what callers
//! saw of one.
#![tactic(auto)]

mod event;
mod fault;
mod history;
mod history_iter;
mod items;
mod over;
mod printed;
mod record;
mod roles;
mod row;
mod scheduled;
mod search;
mod step_role;
mod walk;

pub use event::event_of;
pub use fault::RecordFault;
pub use history::{Change, note_values};
pub use history_iter::HistoryIter;
pub use items::History;
pub use over::record_over;
pub use printed::{
    event_line, head_line, outcome_text, process_lines, register_line, report_at, values_line,
};
pub use record::Record;
pub use roles::{LineRole, new_roles, role_in};
pub use row::Row;
pub use snap_report::Report;
pub use snap_semantics::{Event, Happening, Item, Op, Outcome};
pub use snap_words::MAX_ITEMS;
pub use walk::advance;
