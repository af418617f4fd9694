//! Tests of the public surface: a module for each crate that a user of the libraries lists, which
//! uses each call of it at least once and names nothing of the crates below. `library` is the code
//! of docs/design/library.md.
#![tactic(auto)]

#[cfg(test)]
mod assembly;
#[cfg(test)]
mod audits;
#[cfg(test)]
mod batches;
#[cfg(test)]
mod bounded;
#[cfg(test)]
mod debugger;
#[cfg(test)]
mod desks;
#[cfg(test)]
mod images;
#[cfg(test)]
mod library;
#[cfg(test)]
mod listings;
#[cfg(test)]
mod machines;
#[cfg(test)]
mod multi;
#[cfg(test)]
mod programs;
#[cfg(test)]
mod records;
#[cfg(test)]
mod registers;
#[cfg(test)]
mod schedules;
#[cfg(test)]
mod single;
#[cfg(test)]
mod texts;
#[cfg(test)]
mod words;
