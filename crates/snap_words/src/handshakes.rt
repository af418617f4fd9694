//! `Handshakes`: the handshake bits of one word, at most 64, kept as the bits of one number.
ghost use Rattle.std.specs.Prelude.{◌≡◌, ◌≤◌, true, length, replicate};
ghost use Rattle.std.specs.List.{list_all, slice_get};
ghost use Rattle.snap_words.specs.Handshakes.{mask_bits, mask_width};
ghost use Rattle.snap_words.specs.Kind.{is_bit};

use std::marker::Model;

/// The handshake bits of a word, at most 64, seen as the list of them: bit `k` of the mask is
/// handshake bit `k + 1`.
#[derive(Drop)]
pub(crate) struct Handshakes {
    mask: u64,
    count: u32,
}

impl Model for Handshakes {
    ghost use Rattle.std.specs.Prelude.{◌≤◌, List, ℕ};
    ghost use Rattle.snap_words.specs.Handshakes.{mask_bits, mask_width};

    ghost Value = { List ℕ };

    ghost view = { λ h. mask_bits h.count h.mask };

    ghost invariant = { λ h. h.count ≤ mask_width };
}

/// Returns the mask of `bits`, the first of which is the lowest.
fn mask_of(bits: &[u64]) -> u64
    requires width { length bits.now ≤ mask_width }
    requires bits { list_all is_bit bits.now ≡ true }
    ensures { mask_bits (length bits.now) result ≡ bits.now }
{
    let mut mask = 0;
    for done in 0..bits.len() {
        mask = 2 * mask + bits[bits.len() - 1 - done];
    }
    mask
}

impl Handshakes {
    /// Returns `count` handshake bits that are 0.
    pub(crate) fn zeros(count: u32) -> Handshakes
        requires { count ≤ mask_width }
        ensures { result ≡ replicate count 0 }
    {
        Handshakes { mask: 0, count }
    }

    /// Returns the handshake bits `bits`, of which there are `count`.
    pub(crate) fn of(count: u32, bits: &[u64]) -> Handshakes
        requires count { length bits.now ≡ count }
        requires width { count ≤ mask_width }
        requires bits { list_all is_bit bits.now ≡ true }
        ensures { result ≡ bits.now }
    {
        Handshakes {
            mask: mask_of(bits),
            count,
        }
    }

    /// Returns how many handshake bits there are.
    pub(crate) fn count(&self) -> u32
        ensures { result ≡ length self.now }
    {
        self.count
    }

    /// Returns the handshake bit at `place`, counted from 0; `None` where there is none.
    pub(crate) fn get(&self, place: u32) -> Option<u64>
        ensures { result ≡ slice_get self.now place }
    {
        if place < self.count {
            Some((self.mask >> place) & 1)
        } else {
            None
        }
    }

    /// Returns a copy of the handshake bits.
    pub(crate) fn copy(&self) -> Handshakes
        ensures { result ≡ self.now }
    {
        Handshakes {
            mask: self.mask,
            count: self.count,
        }
    }
}
