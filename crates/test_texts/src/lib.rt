//! Tests of texts and images: what is read from them, and what is printed.
#![tactic(auto)]

#[cfg(test)]
mod assembly;
#[cfg(test)]
mod cuts;
#[cfg(test)]
mod images;
#[cfg(test)]
mod listings;
#[cfg(test)]
mod samples;
#[cfg(test)]
mod schedules;
#[cfg(test)]
mod scripts;
