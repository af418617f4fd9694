//! Tests of judgements of histories, and of what is told of those that are not linearizable.
#![tactic(auto)]

#[cfg(test)]
mod failures;
#[cfg(test)]
mod histories;
#[cfg(test)]
mod judgements;
#[cfg(test)]
mod reasons_histories;
