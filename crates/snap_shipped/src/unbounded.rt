//! The shipped text of listing U, the unbounded single-writer snapshot, and the `Listing` that is
//! read from it.
ghost use Rattle.std.specs.Prelude.{◌≡◌, IfOk, Ok};
ghost use Rattle.snap_semantics.specs.Listing.{listing_of};
ghost use Rattle.snap_runs_of_u.specs.ListingU.{listing_u};

use snap_listing::read_known;
use snap_listing_core::Listing;
use std::alloc::{AllocError, Global};

/// The text of listing U.
const TEXT: &[u8] = b"kind seq\n\
scalar j c\n\
row moved\n\
words a b\n\
view s\n\
scan 10\n\
update 30\n\
10: each n: moved[@] = 0\n\
11: let j = 1\n\
12: get a[j] = r[j]\n\
13: next j n goto 12\n\
14: get b[j] = r[j]\n\
15: next j n goto 14\n\
16: if all n: seq(a[@]) = seq(b[@]) goto 21\n\
17: each n: moved[@] = moved[@] + 1 where seq(a[@]) != seq(b[@])\n\
18: first j n: moved[@] = 2 goto 23\n\
19: goto 12\n\
21: view s = data(b)\n\
22: return s\n\
23: view s = view(b[j])\n\
24: return s\n\
30: call 10\n\
31: let c = c + 1\n\
32: put r[me] = (arg, c, s)\n\
33: finish\n";

/// Returns the text of listing U.
pub fn text_u() -> &'static [u8]
    ensures { listing_of result.now ≡ Ok listing_u }
{
    TEXT
}

/// Reads listing U from its text.
///
/// # Errors
///
/// `AllocError` where memory runs out.
pub fn listing_u(alloc: Global) -> Result<Listing, AllocError>
    ensures { IfOk result (λ l. l ≡ listing_u) }
{
    read_known(alloc, TEXT)
}
