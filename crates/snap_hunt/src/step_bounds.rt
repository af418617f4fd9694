//! `most_steps`: how many steps of its own an operation may take before that is a failure: a given
//! number, or the bound of the shipped listing.
ghost use Rattle.std.specs.Prelude.{◌≡◌, ◌*◌, ◌≤◌};
ghost use Rattle.snap_shipped.specs.Kept.{update_turns};
ghost use Rattle.snap_hunt.specs.Failing.{most_steps};

use crate::failures::StepBound;
use snap_words::{KindTag, Shape};

/// Returns the product of two counts.
#[tactic(auto, using(crate::proofs::Products::few))]
fn product(count: u64, other: u64) -> u64
    requires count { count ≤ 64 }
    requires other { other ≤ 64 }
    ensures value { result ≡ count * other }
    ensures few { result ≤ 4096 }
{
    count * other
}

/// Returns the most steps that an operation takes of the listing that is shipped for a kind.
fn shipped_steps(kind: KindTag, shape: Shape) -> u64
    ensures { result ≡ update_turns kind shape }
{
    let n = shape.n();
    let w = shape.w();
    let square = product(n, n);
    match kind {
        KindTag::Seq => 4 * square + 8 * n + 11,
        KindTag::Bits => 8 * square + 15 * n + 12,
        KindTag::Multi => 14 * square + 16 * product(n, w) + 22 * n + 8 * w + 16,
    }
}

/// Returns how many steps of its own an operation may take.
pub(crate) fn most_steps(kind: KindTag, shape: Shape, bound: StepBound) -> u64
    ensures { result ≡ most_steps kind shape bound }
{
    match bound {
        StepBound::Shipped => shipped_steps(kind, shape),
        StepBound::Given(most) => most,
    }
}
