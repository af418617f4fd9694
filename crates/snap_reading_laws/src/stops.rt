//! The stops of the debugger: `run` goes to the first one, and `rrun` back to the last one.
ghost use Rattle.snap_reading_laws.specs.stops.IsStop.{ReverseRunGoesToTheLastStop, RunGoesToTheFirstStop};

/// `run` goes to the least stop after the position, and to the end if there is none. A stop is an
/// item that leaves its process at the line of a breakpoint for it, or that changes the contents of
/// a watched register.
#[tactic(auto, using(crate::proofs::stops::FirstStops::run_to_first))]
pub fn run_goes_to_the_first_stop()
    ensures { RunGoesToTheFirstStop }
{}

/// `rrun` goes back to the greatest stop before the position, and to the beginning if there is
/// none.
#[tactic(auto, using(crate::proofs::stops::FirstStops::reverse_run_to_last))]
pub fn reverse_run_goes_to_the_last_stop()
    ensures { ReverseRunGoesToTheLastStop }
{}
