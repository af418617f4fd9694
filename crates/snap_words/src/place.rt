//! `place_in`: a place counted from 1 as a place counted from 0.
ghost use Rattle.std.specs.Prelude.{◌≡◌, ◌<◌, ◌-◌, true, false, MatchResult};
ghost use Rattle.snap_words.specs.Shape.{is_place, place_in};

/// Returns `k`, a place of `count` that is counted from 1, as one counted from 0.
///
/// # Errors
///
/// `fault` where `k` is not from 1 to `count`.
pub fn place_in<E: Copy>(count: u64, k: u64, fault: E) -> Result<usize, E>
    ensures value { result ≡ place_in count k fault }
    ensures place { MatchResult result
        (λ place. (is_place count k ≡ true) × (place ≡ k - 1) × (place < count))
        (λ e. (e ≡ fault) × (is_place count k ≡ false)) }
{
    if 1 <= k && k <= count {
        Ok((k - 1) as usize)
    } else {
        Err(fault)
    }
}
