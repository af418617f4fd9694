//! Types of listings, schedules and runs that all crates share; their definitions are in `specs/`.
#![tactic(auto)]

mod event;
mod fault;
mod instr;
mod items;
mod name;
mod process;
mod refusal;
mod text;

pub use event::{Event, Happening};
pub use fault::Fault;
pub use instr::{
    BitBank, Comparison, Condition, Expr, Index, Instr, Join, Line, Range, Relation, Term, Tuple,
};
pub use items::who;
pub use name::Name;
pub use process::{Activity, Cause, Item, Op, Outcome, Reason, Status};
pub use refusal::{
    CommandRefusal, ImageRefusal, ListingRefusal, LiveRefusal, ModelRefusal, Refusal,
    ScheduleRefusal,
};
pub use text::{Sort, Symbol};
