//! `Command`: a command of the debugger, such as steps on or back, breakpoints, or what a register
//! has.
use snap_words::Address;

/// A line at which a process is to stop. The process and the line are as they were written, and
/// need not exist.
#[derive(Clone, Copy, PartialEq, Eq)]
pub struct Breakpoint {
    pub process: u64,
    pub line: u64,
}

/// A command of the debugger.
#[derive(Clone, Copy, PartialEq, Eq)]
pub enum Command {
    /// A number of items on.
    Step(u64),
    /// A number of items back.
    Back(u64),
    /// To a position.
    Goto(u64),
    /// On to the next stop.
    Run,
    /// Back to the last stop.
    ReverseRun,
    Break(Breakpoint),
    Clear(Breakpoint),
    Watch(Address),
    Unwatch(Address),
    ShowRegister(Address),
    ShowProcess(u64),
    Values,
    Events,
    Where,
}
