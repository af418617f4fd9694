//! Whether cases are among others.
ghost use Rattle.std.specs.Prelude.{◌≡◌, true};
ghost use Rattle.std.specs.List.{Contains};

use crate::refutation::Case;

/// Returns whether two cases are the same.
fn is_same(one: &Case, other: &Case) -> bool
    ensures { result ≡ true → one.now ≡ other.now }
{
    match one {
        Case::Saw { scan, word, seen } => match other {
            Case::Saw {
                scan: other_scan,
                word: other_word,
                seen: other_seen,
            } => scan == other_scan && word == other_word && seen == other_seen,
            Case::Order { .. } => false,
        },
        Case::Order { first, second } => match other {
            Case::Order {
                first: other_first,
                second: other_second,
            } => first == other_first && second == other_second,
            Case::Saw { .. } => false,
        },
    }
}

/// Returns whether the case is one of these.
pub fn is_among(cases: &[Case], case: &Case) -> bool
    ensures { result ≡ true → Contains cases.now case.now }
{
    for other in cases {
        if is_same(other, case) {
            return true;
        }
    }
    false
}
