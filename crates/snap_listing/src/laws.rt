//! The laws of reading and printing listings, proved: a text is read exactly if it spells a
//! listing, and what is printed of a listing is read as that listing.
ghost use Rattle.snap_listing.specs.Laws.{PrintsSpelling, ReadsAllSpelled};
ghost use Rattle.snap_listing.specs.Laws.{ReadsOnlyCommented};
ghost use Rattle.snap_listing.specs.Laws.{ReadsOnlySpelled, ReadsPrinted};

/// What is read is a listing, and the text spells it.
pub fn what_is_read_is_spelled()
    ensures { ReadsOnlySpelled }
{}

/// Every listing is read from every text that spells it.
pub fn what_is_spelled_is_read()
    ensures { ReadsAllSpelled }
{}

/// What is read with its comments is a listing with comments.
pub fn what_is_read_with_comments_is_a_listing()
    ensures { ReadsOnlyCommented }
{}

/// What is printed of a listing spells it.
pub fn what_is_printed_is_spelled()
    ensures { PrintsSpelling }
{}

/// What is printed of a listing is read as that listing with its comments.
pub fn what_is_printed_is_read()
    ensures { ReadsPrinted }
{}
