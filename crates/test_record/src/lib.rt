//! Tests of words, registers and machines, of records of runs, of their audits, and of the snapshot
//! listings.
#![tactic(auto)]

#[cfg(test)]
mod any_words;
#[cfg(test)]
mod machines;
#[cfg(test)]
mod records;
#[cfg(test)]
mod registers;
#[cfg(test)]
mod shapes;
#[cfg(test)]
mod snapshots;
#[cfg(test)]
mod words;
