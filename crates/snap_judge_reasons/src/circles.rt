//! Whether reasons are a circle.
ghost use Rattle.std.specs.Prelude.{◌≡◌, true};
ghost use Rattle.snap_judge.specs.Kept.{operation_of};
ghost use Rattle.snap_judge_reasons.specs.Reasons.{IsCircle, IsChain};

use crate::beginning::Beginning;
use crate::grounds::{is_reason, is_same};
use crate::reason::Reason;
use snap_judge::Operation;

/// Returns whether the reasons are a chain from one operation to another.
fn is_chain<'a, 'b>(
    history: &Beginning<'_>,
    operations: &[Operation<'_>],
    reasons: &'b [Reason<'a>],
    from: &'b Operation<'a>,
    to: &Operation<'_>,
) -> bool
    ensures { result ≡ true → IsChain history.now (operation_of from.now) reasons.now
        (operation_of to.now) }
{
    let mut at = from;
    for reason in reasons {
        if !is_same(&reason.first, at) || !is_reason(history, operations, reason) {
            return false;
        }
        at = &reason.second;
    }
    is_same(at, to)
}

/// Returns whether the reasons are a circle. An update that a scan saw in place of another one is
/// sought among the operations.
pub fn is_circle(
    history: &Beginning<'_>,
    operations: &[Operation<'_>],
    reasons: &[Reason<'_>],
) -> bool
    ensures { result ≡ true → IsCircle history.now reasons.now }
{
    let Some(reason) = reasons.first() else {
        return false;
    };
    is_chain(history, operations, reasons, &reason.first, &reason.first)
}
