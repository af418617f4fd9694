//! Lines that are calls, `I scan` and `I update K X`, with one space between any two: most lines of
//! a schedule that are no steps.
ghost use Rattle.std.specs.Prelude.{◌≡◌, ◌∷◌, ◌++◌, codes, IfSome};
ghost use Rattle.snap_semantics.specs.ScheduleForms.{spelled_call};
ghost use Rattle.snap_text.specs.Calls.{BeginsWithOp};
ghost use Rattle.snap_text.specs.Numbers.{BeginsWithLine};

use crate::numbers::number_front;
use snap_semantics::Op;

/// Returns what stands behind ` scan` at the front of `bytes`.
#[inline(always)]
fn behind_scan(bytes: &[u8]) -> Option<&[u8]>
    ensures { IfSome result (λ rest. bytes.now ≡ codes " scan" ++ rest.now) }
{
    match bytes {
        [b' ', b's', b'c', b'a', b'n', rest @ ..] => Some(rest),
        _ => None,
    }
}

/// Returns what stands behind ` update ` at the front of `bytes`.
#[inline(always)]
fn behind_update(bytes: &[u8]) -> Option<&[u8]>
    ensures { IfSome result (λ rest. bytes.now ≡ codes " update " ++ rest.now) }
{
    match bytes {
        [b' ', b'u', b'p', b'd', b'a', b't', b'e', b' ', rest @ ..] => Some(rest),
        _ => None,
    }
}

/// Returns what stands behind `byte` at the front of `bytes`.
#[inline(always)]
fn behind_byte(byte: u8, bytes: &[u8]) -> Option<&[u8]>
    ensures { IfSome result (λ rest. bytes.now ≡ byte ∷ rest.now) }
{
    match bytes {
        [first, rest @ ..] if *first == byte => Some(rest),
        _ => None,
    }
}

/// Reads the operation of a call, which stands behind its process, and returns what stands behind
/// it too.
fn op_front(bytes: &[u8]) -> Option<(Op, &[u8])>
    ensures { IfSome result (λ x. BeginsWithOp bytes.now x.0 x.1.now) }
{
    if let Some(rest) = behind_scan(bytes) {
        return Some((Op::Scan, rest));
    }
    let words = behind_update(bytes)?;
    let (word, behind) = number_front(words)?;
    let values = behind_byte(b' ', behind)?;
    let (value, rest) = number_front(values)?;
    Some((Op::Update { word, value }, rest))
}

/// Reads the first line, if it is a call with its line feed: its process, its operation, and the
/// lines behind it.
pub(crate) fn call_front(bytes: &[u8]) -> Option<(u64, Op, &[u8])>
    ensures { IfSome result (λ x. BeginsWithLine bytes.now (spelled_call x.0 x.1) x.2.now) }
{
    let (process, behind) = number_front(bytes)?;
    let (op, after) = op_front(behind)?;
    let rest = behind_byte(b'\n', after)?;
    Some((process, op, rest))
}
