//! The shipped text of listing B, the bounded single-writer snapshot, and the `Listing` that is
//! read from it.
ghost use Rattle.std.specs.Prelude.{◌≡◌, IfOk, Ok};
ghost use Rattle.snap_semantics.specs.Listing.{listing_of};
ghost use Rattle.snap_runs_of_b.specs.ListingB.{listing_b};

use snap_listing::read_known;
use snap_listing_core::Listing;
use std::alloc::{AllocError, Global};

/// The text of listing B.
const TEXT: &[u8] = b"kind bit\n\
scalar j x t\n\
row moved g f\n\
words a b\n\
view s\n\
scan 10\n\
update 40\n\
10: each n: moved[@] = 0\n\
11: let j = 1\n\
12: get a[j] = r[j]\n\
13: let g[j] = hand(a[j],me)\n\
14: put q[me,j] = g[j]\n\
15: next j n goto 12\n\
16: get a[j] = r[j]\n\
17: next j n goto 16\n\
18: get b[j] = r[j]\n\
19: next j n goto 18\n\
20: if all n: hand(a[@],me) = g[@] and hand(b[@],me) = g[@] and toggle(a[@]) = toggle(b[@]) goto 25\n\
21: each n: moved[@] = moved[@] + 1 where hand(a[@],me) != g[@] or hand(b[@],me) != g[@] or toggle(a[@]) != toggle(b[@])\n\
22: first j n: moved[@] = 2 goto 27\n\
23: goto 12\n\
25: view s = data(b)\n\
26: return s\n\
27: view s = view(b[j])\n\
28: return s\n\
40: let j = 1\n\
41: bit x = q[j,me]\n\
42: let f[j] = not x\n\
43: next j n goto 41\n\
44: call 10\n\
45: let t = not t\n\
46: put r[me] = (arg, f, t, s)\n\
47: finish\n";

/// Returns the text of listing B.
pub fn text_b() -> &'static [u8]
    ensures { listing_of result.now ≡ Ok listing_b }
{
    TEXT
}

/// Reads listing B from its text.
///
/// # Errors
///
/// `AllocError` where memory runs out.
pub fn listing_b(alloc: Global) -> Result<Listing, AllocError>
    ensures { IfOk result (λ l. l ≡ listing_b) }
{
    read_known(alloc, TEXT)
}
