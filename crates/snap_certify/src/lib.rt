//! What a run is certified by, or what is missing; a run that has a certificate is linearizable,
//! whatever its listing.
#![tactic(auto)]

mod certificate;
mod certificates;
mod certification;
mod finder;
mod found;
mod line;
mod order;
mod pass;
mod program;
mod sight;
mod task;
mod text;

pub use certificate::{Certification, Certified};
pub use certificates::{
    certified_by_points, certified_exactly, certified_has_certificate, certified_has_places,
    certified_is_linearizable, points_certify,
};
pub use certification::certify;
pub use found::{Finding, Progress, SeenItem, UpdateWrite};
pub use task::certify_input;
