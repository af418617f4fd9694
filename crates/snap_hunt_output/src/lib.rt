//! What a hunt writes: an input of a run that fails, or that none does.
#![tactic(auto)]

mod check;
mod hunt_request;
mod hunted;
mod input;

pub use hunt_request::HuntRequest;
pub use hunted::{Hunted, hunt_alone, hunt_listing};
