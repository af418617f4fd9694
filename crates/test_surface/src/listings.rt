//! Tests of listings: read, seen line by line, printed and refused.
use crate::texts::COLLECTING;
use snap_listing::{Cond, Instr, Line, Listing, ListingFault, ListingRefusal, Term, print, read};
use std::alloc::{AllocError, Global};
use std::process::Abort;
use std::test::Fail;

/// The plain listing with comments, blank lines and spaces.
const LOOSE: &[u8] = b"# an update\nkind\tseq\nscalar j  c\nrow\n\nwords a\nview s\nscan 10\n\
update 10\n10 : let j=1\n11 : get a[j ]=r[j ]\n# on\n12: next j n goto 11\n13: let c=c+1\n\
14: put r[me] = ( arg,c,s )\n15: finish\n";

/// A listing with a condition.
const TESTING: &[u8] = b"kind seq\nscalar x\nrow\nwords\nview s\nscan 1\nupdate 3\n\
1: if x = arg goto 2\n2: return s\n3: finish#done\n";

/// Returns whether a text is refused with `want`.
fn is_refused(alloc: Global, text: &[u8], want: ListingRefusal) -> bool {
    match read(alloc, text) {
        Ok(_) => false,
        Err(fault) => fault == ListingFault::Refused(want),
    }
}

/// Returns the operand on the right of a condition of one comparison.
fn right_of(test: &Cond) -> Option<&Term> {
    match test {
        Cond::One(comparison) => Some(&comparison.right),
        _ => None,
    }
}

/// Returns whether a line goes to line 2 where something is equal to the argument.
fn tests_argument(line: &Line) -> bool {
    match &line.instr {
        Instr::If(test, 2) => matches!(right_of(test), Some(Term::Arg)),
        _ => false,
    }
}

/// Returns a text without one of its lines, counted from 1.
fn without(alloc: Global, text: &[u8], left_out: usize) -> Result<Vec<u8>, AllocError> {
    let mut kept = Vec::new(alloc);
    let mut number = 1usize;
    for &byte in text {
        if number != left_out {
            kept.push(byte)?;
        }
        if byte == b'\n' {
            number = number.saturating_add(1);
        }
    }
    Ok(kept)
}

/// Checks that a listing has one comment, on its last line.
fn has_last_comment(rt: &impl Abort, listing: &Listing, want: &[u8]) {
    match listing.comments().last() {
        Some(Some(comment)) => assert_eq!(rt; comment.as_slice(), want),
        _ => assert!(rt; false),
    }
}

#[test]
fn a_listing_reads_and_prints(rt: HostRuntime) -> Result<(), Fail> {
    let listing: Listing = read(rt.alloc(), LOOSE)?;
    assert_eq!(rt; print(rt.alloc(), &listing)?.as_slice(), COLLECTING);
    let copy = listing.copy(rt.alloc())?;
    assert_eq!(rt; print(rt.alloc(), &copy)?.as_slice(), COLLECTING);
    Ok(())
}

#[test]
fn lines_are_seen_with_their_comments(rt: HostRuntime) -> Result<(), Fail> {
    let listing = read(rt.alloc(), TESTING)?;
    match listing.listing().lines().first() {
        Some(line) => assert!(rt; line.number == 1 && tests_argument(line)),
        None => assert!(rt; false),
    }
    has_last_comment(&rt, &listing, b"done");
    Ok(())
}

#[test]
fn texts_that_are_no_listings_are_refused(rt: HostRuntime) -> Result<(), Fail> {
    let alloc = rt.alloc();
    assert!(rt; is_refused(alloc, b"", ListingRefusal::BadHeader(1)));
    let text = without(alloc, COLLECTING, 9)?;
    assert!(rt; is_refused(alloc, text.as_slice(), ListingRefusal::NoSuchLine(11)));
    let text = without(alloc, COLLECTING, 2)?;
    assert!(rt; is_refused(alloc, text.as_slice(), ListingRefusal::BadHeader(2)));
    Ok(())
}

#[test]
fn line_numbers_have_at_most_four_digits(rt: HostRuntime) -> Result<(), Fail> {
    let head = b"kind seq\nscalar\nrow\nwords\nview\nscan 9999\nupdate 9999\n9999: finish\n";
    let _listing = read(rt.alloc(), head.as_slice())?;
    let more = b"kind seq\nscalar\nrow\nwords\nview\nscan 1\nupdate 1\n10000: finish\n";
    assert!(rt; is_refused(rt.alloc(), more.as_slice(), ListingRefusal::BadLine(8)));
    Ok(())
}
