//! Runs a listing, one item at a time: the values of a process, a function for each form of a line,
//! and what an item overwrites.
#![tactic(auto)]

mod before;
mod call;
mod contents;
mod control_lines;
mod copies;
mod fresh;
mod lines;
mod local_lines;
mod locals;
mod machine;
mod overwrites;
mod own_code;
mod puts;
mod quantifiers;
mod register_lines;
mod reversal;
mod rows;
mod slot_process;
mod step;
mod step_context;
mod undo;
mod value;

pub use call::call_skip;
pub use contents::{Contents, Local};
pub use lines::goto;
pub use locals::{row, scalar, view, words};
pub use machine::Machine;
pub use overwrites::overwritten;
pub use own_code::OwnCode;
pub use quantifiers::{check_values, range_end};
pub use reversal::revert;
pub use slot_process::SlotProcess;
pub use snap_regs::RegisterFault;
pub use snap_semantics::{Activity, BitBank, Cause, Item, Name, Op, Outcome, Reason, Sort, Status};
pub use snap_words::{Address, Bank, Shape, View};
pub use undo::{Undo, WritePlace};
pub use value::{index_value, places};
