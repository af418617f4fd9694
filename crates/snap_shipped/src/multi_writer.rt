//! The shipped text of listing M, the bounded multi-writer snapshot, and the `Listing` that is read
//! from it.
ghost use Rattle.std.specs.Prelude.{◌≡◌, IfOk, Ok};
ghost use Rattle.snap_semantics.specs.Listing.{listing_of};
ghost use Rattle.snap_runs_of_m.specs.ListingM.{listing_m};

use snap_listing::read_known;
use snap_listing_core::Listing;
use std::alloc::{AllocError, Global};

/// The text of listing M.
const TEXT: &[u8] = b"kind multi\n\
scalar j k x\n\
row moved g h d tog\n\
words a b\n\
view s\n\
scan 10\n\
update 50\n\
10: each n: moved[@] = 0\n\
11: let j = 1\n\
12: let k = 1\n\
13: bit x = p[j,me]\n\
14: let g[j] = x\n\
15: put q[me,j] = x\n\
16: next j n goto 13\n\
17: get a[k] = r[k]\n\
18: next k w goto 17\n\
19: get b[k] = r[k]\n\
20: next k w goto 19\n\
21: bit x = p[j,me]\n\
22: let h[j] = x\n\
23: next j n goto 21\n\
24: each n: d[@] = 0\n\
25: each n: d[@] = 1 where h[@] != g[@]\n\
26: if id(a[k]) = id(b[k]) and toggle(a[k]) = toggle(b[k]) goto 29\n\
27: let x = id(b[k])\n\
28: let d[x] = 1\n\
29: next k w goto 26\n\
30: if all n: d[@] = 0 goto 34\n\
31: each n: moved[@] = moved[@] + 1 where d[@] = 1\n\
32: first j n: moved[@] = 3 goto 36\n\
33: goto 13\n\
34: view s = data(b)\n\
35: return s\n\
36: look s = v[j]\n\
37: return s\n\
50: let j = 1\n\
51: bit x = q[j,me]\n\
52: put p[me,j] = not x\n\
53: next j n goto 51\n\
54: call 10\n\
55: put v[me] = s\n\
56: let tog[word] = not tog[word]\n\
57: put r[word] = (arg, me, tog[word])\n\
58: finish\n";

/// Returns the text of listing M.
pub fn text_m() -> &'static [u8]
    ensures { listing_of result.now ≡ Ok listing_m }
{
    TEXT
}

/// Reads listing M from its text.
///
/// # Errors
///
/// `AllocError` where memory runs out.
pub fn listing_m(alloc: Global) -> Result<Listing, AllocError>
    ensures { IfOk result (λ l. l ≡ listing_m) }
{
    read_known(alloc, TEXT)
}
