//! `Addition`: what can be added to a schedule: steps of a process, a call or a crash.
use snap_semantics::Op;

/// An addition to a schedule, whether or not its process exists.
#[derive(Clone, Copy, PartialEq, Eq)]
pub enum Addition {
    Steps { process: u64, count: u64 },
    Call { process: u64, op: Op },
    Crash { process: u64 },
}
