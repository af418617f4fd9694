//! `Table`: what all workers of a live run share.
use crate::desk::Desk;
use crate::gate::Gate;
use snap_words::Kind;

/// What all workers share: the leave to wait and, for those that start them, to start threads; the
/// desk; how many turns each process may make; and the gate that is asked before each turn.
#[derive(Drop)]
pub(crate) struct Table<'t, K: Kind, G: Gate, R> {
    pub(crate) rt: &'t R,
    pub(crate) desk: &'t Desk<K>,
    pub(crate) limit: u64,
    pub(crate) gate: &'t G,
}
