//! Texts that several modules test by.

/// A listing whose update collects the words once, and whose scan does the same.
pub(crate) const COLLECTING: &[u8] = b"kind seq\nscalar j c\nrow\nwords a\nview s\nscan 10\n\
update 10\n10: let j = 1\n11: get a[j] = r[j]\n12: next j n goto 11\n13: let c = c + 1\n\
14: put r[me] = (arg, c, s)\n15: finish\n";

/// An update of the small listing.
pub(crate) const COLLECTED: &[u8] = b"shape 2 2\n1 update 1 7\n1*8\n";

/// A scan of U that borrows its view, between two updates.
pub(crate) const BORROWING: &[u8] = b"shape 2 2\n1 scan\n1*6\n2 update 2 5\n2*17\n1*8\n1*4\n\
2 update 2 6\n2*17\n1*9\n";

/// A small listing.
pub(crate) const SMALL: &[u8] =
    b"kind seq\nscalar\nrow\nwords\nview s\nscan 1\nupdate 2\n1: return s\n2: finish\n";

/// The image of the small listing in the first version.
pub(crate) const FIRST_IMAGE: [u8; 25] = [
    0x53, 0x4e, 0x41, 0x50, 0x01, 0x00, 0x00, 0x00, 0x00, 0x01, 0x01, 0x73, 0x00, 0x01, 0x00, 0x02,
    0x00, 0x02, 0x00, 0x01, 0x16, 0x00, 0x00, 0x02, 0x17,
];

/// The image of the small listing in the second version.
pub(crate) const SECOND_IMAGE: [u8; 27] = [
    0x53, 0x4e, 0x41, 0x50, 0x02, 0x00, 0x00, 0x00, 0x00, 0x01, 0x01, 0x73, 0x00, 0x01, 0x00, 0x02,
    0x00, 0x02, 0x00, 0x01, 0x16, 0x00, 0x00, 0x00, 0x02, 0x17, 0x00,
];
