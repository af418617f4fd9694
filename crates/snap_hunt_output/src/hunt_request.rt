//! `HuntRequest`: the input of a hunt; and its plan, suited to the kind of the listing.
ghost use Rattle.std.specs.Prelude.{◌≡◌};
ghost use Rattle.snap_hunt_output.specs.HuntRequest.{owned, owns_words};

use snap_chance::Plan;
use snap_hunt::Wanted;
use snap_words::KindTag;

/// The plan of a hunt and the failures that it looks for.
#[derive(Clone, Copy)]
pub struct HuntRequest {
    pub plan: Plan,
    pub wanted: Wanted,
    pub seed: u64,
    pub runs: u64,
}

/// Returns whether a kind has a word for each process.
fn owns_words(kind: KindTag) -> bool
    ensures { result ≡ owns_words kind }
{
    match kind {
        KindTag::Seq | KindTag::Bits => true,
        KindTag::Multi => false,
    }
}

/// Returns the plan for the listings of a kind.
pub(crate) fn owned(kind: KindTag, plan: &Plan) -> Plan
    ensures { result ≡ owned kind plan.now }
{
    plan.with_owned(owns_words(kind))
}
