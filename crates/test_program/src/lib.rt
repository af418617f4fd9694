//! Tests of debugger commands and sessions, and worked samples of what the program writes.
#![tactic(auto)]

#[cfg(test)]
mod commands;
#[cfg(test)]
mod sessions;
