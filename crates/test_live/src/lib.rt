//! Tests of turns at a desk, also of seats in threads, and of scripts that are played there at
//! once; of batches in threads; and of whole runs of the program, on devices in memory. What the
//! program writes for an input is tried by the program itself, in `tests/cases`.
#![tactic(auto)]

#[cfg(test)]
mod batches;
#[cfg(test)]
mod benches;
#[cfg(test)]
mod conducts;
#[cfg(test)]
mod desks;
#[cfg(test)]
mod devices_of_memory;
#[cfg(test)]
mod gates;
#[cfg(test)]
mod live_runs;
#[cfg(test)]
mod meeting;
#[cfg(test)]
mod numbers;
#[cfg(test)]
mod programs;
#[cfg(test)]
mod runs;
#[cfg(test)]
mod seats;
