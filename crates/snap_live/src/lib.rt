//! A desk at which threads take turns on one record, and scripts that are played at it, each
//! process in a thread of its own.
#![tactic(auto)]

mod closed_desk;
mod desk;
mod desk_rule;
mod gate;
mod held_record;
mod live_run;
mod refusal;
mod seat;
mod seat_state;
mod start_gate;
mod steps;
mod table;
mod worker;

pub use closed_desk::close;
pub use desk::{Desk, open};
pub use gate::{Gate, NoGate};
pub use live_run::{LiveRun, LiveRun as Live, Turns, run_live};
pub use refusal::LiveFault;
pub use seat::{Note, Seat, Turn};
pub use snap_sched::{Script, Scripts};
pub use snap_semantics::LiveRefusal;
