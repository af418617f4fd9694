//! `LiveFault`: why a live call gives no answer.
use snap_semantics::{Fault, LiveRefusal};

/// Why a live call gives no answer: memory ran out, or the call is refused.
pub type LiveFault = Fault<LiveRefusal>;
