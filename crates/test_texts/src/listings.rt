//! Tests of listings: which texts are read, why the others are refused, and what is printed.
use snap_listing::{ListingFault, print, read, read_source};
use snap_listing_core::Listing;
use snap_semantics::ListingRefusal::{
    self, BadHeader, BadLine, BadName, NameTwice, NoSuchLine, NumberNotRising, TooLong, TooMany,
    UnknownName, WrongKind,
};
use snap_semantics::{BitBank, Expr, Index, Instr, Name, Term, Tuple};
use snap_shipped::{text_b, text_m, text_u};
use snap_text::{push_number, push_text};
use snap_words::{Field, KindTag};
use std::alloc::Global;
use std::test::Fail;

/// A text or lines, and why they are refused: `None` where they are read.
type Case = (&'static [u8], Option<ListingRefusal>);

/// The header behind the kind: with it seven lines, so that numbered lines begin at text line 8.
const HEADER: &[u8] = b"\nscalar j c\nrow x\nwords a\nview s\nscan 10\nupdate 10\n";

/// A small listing.
const SMALL: &[u8] = b"kind seq
scalar j c
row
words a
view s
scan 10
update 10
10: let j = 1
11: get a[j] = r[j]
12: next j n goto 11
13: let c = c + 1
14: put r[me] = (arg, c, s)
15: finish
";

/// A listing with spaces, comments and empty lines of its own.
const LOOSE: &[u8] = b"# bits

kind\tbit\r
scalar  t
row h
words a
view\ts
scan 9
update 9

9:each w:h [ @ ]=not toggle( a[@] )where h[@]<t or arg!=1
10 : first t w : hand(a [@] ,me) = 1 goto 12 # found
11:if all n:h[@]=0 and h[@]=0 and h[@]=0 and h[@]=0 goto 12
12:put r[me]=(hand(a[me],t)+n,h,not t,s)
13:put q[me,w]=data(a[word])";

/// The listing in the one layout that is printed, with the comment of its numbered line.
const LAID_OUT: &[u8] = b"kind bit
scalar t
row h
words a
view s
scan 9
update 9
9: each w: h[@] = not toggle(a[@]) where h[@] < t or arg != 1
10: first t w: hand(a[@],me) = 1 goto 12 # found
11: if all n: h[@] = 0 and h[@] = 0 and h[@] = 0 and h[@] = 0 goto 12
12: put r[me] = (hand(a[me],t) + n, h, not t, s)
13: put q[me,w] = data(a[word])
";

/// The first numbered line has no form.
const NO_FORM: Option<ListingRefusal> = Some(BadLine(8));

/// The first numbered line has a name that is not declared.
const UNKNOWN: Option<ListingRefusal> = Some(UnknownName(8));

/// The first numbered line has a name of another sort, or what the kind does not have.
const WRONG: Option<ListingRefusal> = Some(WrongKind(8));

/// Headers that are refused.
const HEADERS: [Case; 16] = [
    (b"", Some(BadHeader(1))),
    (b"\n", Some(BadHeader(2))),
    (b"kind seq\n\n", Some(BadHeader(3))),
    (b"kind foo\n", Some(BadHeader(1))),
    (b"kind\n", Some(BadHeader(1))),
    (b"kind bits\n", Some(BadHeader(1))),
    (b"kind bit multi\n", Some(BadHeader(1))),
    (b"kind bit\n", Some(BadHeader(2))),
    (b"kind multi\n", Some(BadHeader(2))),
    (b"kind seq\nscalar goto 5", Some(BadHeader(2))),
    (b"kind seq\n\nscalar abcdefghi x x", Some(BadName(3))),
    (b"kind seq\nscalar x goto", Some(BadName(2))),
    (b"kind seq\nscalar x\nrow x\n", Some(NameTwice(3))),
    (
        b"kind seq\n\
scalar aa ab ac ad ae af ag ah ai aj ak al am an ao ap aq ar as at au av aw ax ay az\n\
row ba bb bc bd be bf\nwords bg",
        Some(TooMany(4)),
    ),
    (
        b"kind seq\nscalar\nrow\nwords\nview\n10scan",
        Some(BadHeader(6)),
    ),
    (
        b"kind seq\nscalar\nrow\nwords\nview\nscan 10000",
        Some(BadHeader(6)),
    ),
];

/// Lines that are refused in a listing of kind seq.
const LINES: [Case; 14] = [
    (b"11: finish\n10: finish", Some(NumberNotRising(9))),
    (b"10000: finish", NO_FORM),
    (b"007: finish", NO_FORM),
    (b"10: goto9", NO_FORM),
    (b"10: 9goto", NO_FORM),
    (b"10: let j = @", NO_FORM),
    (b"10: if j = 1 and j = 2 or j = 3 goto 10", NO_FORM),
    (
        b"10: if j = 1 and j = 2 and j = 3 and j = 4 and j = 5 goto 10",
        NO_FORM,
    ),
    (b"10: let zz = 1", UNKNOWN),
    (b"10: let abcdefghi = 1", UNKNOWN),
    (b"10: let s = 1", WRONG),
    (b"10: goto 11", Some(NoSuchLine(11))),
    (b"11: finish", Some(NoSuchLine(10))),
    (
        b"10: goto 18446744073709551615",
        Some(NoSuchLine(18_446_744_073_709_551_615)),
    ),
];

/// What kind seq lacks.
const NOT_IN_SEQ: [Case; 11] = [
    (b"10: bit c = q[1,1]", WRONG),
    (b"10: bit c = p[1,1]", WRONG),
    (b"10: look s = v[1]", WRONG),
    (b"10: put q[1,1] = 0", WRONG),
    (b"10: put p[1,1] = 0", WRONG),
    (b"10: put v[1] = s", WRONG),
    (b"10: let c = hand(a[1],1)", WRONG),
    (b"10: let c = toggle(a[1])", WRONG),
    (b"10: let c = id(a[1])", WRONG),
    (b"10: put r[1] = (arg, x, c, s)", WRONG),
    (b"10: put r[1] = (arg, me, 1)", WRONG),
];

/// What kind bit lacks.
const NOT_IN_BIT: [Case; 8] = [
    (b"10: let c = seq(a[1])", WRONG),
    (b"10: let c = id(a[1])", WRONG),
    (b"10: bit c = p[1,1]", WRONG),
    (b"10: put p[1,1] = 0", WRONG),
    (b"10: look s = v[1]", WRONG),
    (b"10: put v[1] = s", WRONG),
    (b"10: put r[1] = (arg, c, s)", WRONG),
    (b"10: put r[1] = (arg, me, 1)", WRONG),
];

/// What kind multi lacks.
const NOT_IN_MULTI: [Case; 5] = [
    (b"10: view s = view(a[1])", WRONG),
    (b"10: let c = hand(a[1],1)", WRONG),
    (b"10: let c = seq(a[1])", WRONG),
    (b"10: put r[1] = (arg, me, s)", WRONG),
    (b"10: put r[1] = (arg, x, c, s)", WRONG),
];

/// Lines of kind seq with two faults: what is wrong first, from left to right, decides.
const TWO_FAULTS: [Case; 9] = [
    (b"10: put r[1] = (zz, c, c)", UNKNOWN),
    (b"10: put r[1] = (c, c, c)", WRONG),
    (b"10: put r[1] = (zz, c, 1)", WRONG),
    (b"10: put r[zz] = (arg, c, 1)", UNKNOWN),
    (b"10: bit zz = q[1,1]", UNKNOWN),
    (b"10: put q[zz,1] = 0", WRONG),
    (b"10: put v[1] = zz", WRONG),
    (b"10: let c = hand(zz[1],1)", WRONG),
    (b"10: let zz = hand(a[1],1)", UNKNOWN),
];

/// Tuples of kind bit.
const TUPLES_OF_BITS: [Case; 4] = [
    (b"10: put r[1] = (arg, zz, c, s)", UNKNOWN),
    (b"10: put r[1] = (arg, c, c, s)", WRONG),
    (b"10: put r[1] = (arg, x, c, c)", WRONG),
    (b"10: put r[1] = (arg, x, c, s)\n11: finish", None),
];

/// Lines that have no form in a listing of any kind.
const MALFORMED: [Case; 10] = [
    (b"10: put r[1] = (1, 2, 3, s)", NO_FORM),
    (b"10: put r[1] = (1, 2)", NO_FORM),
    (b"10: put r[1,1] = (1, 2, 3)", NO_FORM),
    (b"10: bit c = q[1]", NO_FORM),
    (b"10: bit c = r[1,1]", NO_FORM),
    (b"10: put q[1,1] = s 1", NO_FORM),
    (b"10: put v[1] = 1", NO_FORM),
    (b"10: look s = v[1,1]", NO_FORM),
    (b"10: let c = hand(a[1])", NO_FORM),
    (b"10: let c = toggle a[1]", NO_FORM),
];

/// Returns why a text is refused; `None` if it is read.
fn refusal(alloc: Global, text: &[u8]) -> Result<Option<ListingRefusal>, Fail> {
    match read_source(alloc, text) {
        Ok(_) => Ok(None),
        Err(ListingFault::Refused(refusal)) => Ok(Some(refusal)),
        Err(ListingFault::Memory) => Err(Fail::from(ListingFault::Memory)),
    }
}

/// Returns why these lines behind the header of a listing of this kind are refused.
fn line_refusal(alloc: Global, kind: &[u8], lines: &[u8]) -> Result<Option<ListingRefusal>, Fail> {
    let mut text = Vec::new(alloc);
    push_text(&mut text, b"kind ")?;
    push_text(&mut text, kind)?;
    push_text(&mut text, HEADER)?;
    push_text(&mut text, lines)?;
    refusal(alloc, text.as_slice())
}

/// Returns the place of the first text that is not refused as the case says.
fn wrong_text(alloc: Global, cases: &[Case]) -> Result<Option<usize>, Fail> {
    for place in 0..cases.len() {
        let (text, want) = &cases[place];
        if refusal(alloc, text)? != *want {
            return Ok(Some(place));
        }
    }
    Ok(None)
}

/// Returns the place of the first lines that are not refused as the case says, in a listing of this
/// kind.
fn wrong_lines(alloc: Global, kind: &[u8], cases: &[Case]) -> Result<Option<usize>, Fail> {
    for place in 0..cases.len() {
        let (lines, want) = &cases[place];
        if line_refusal(alloc, kind, lines)? != *want {
            return Ok(Some(place));
        }
    }
    Ok(None)
}

/// Returns why `count` spaces are refused.
fn spaces_refusal(alloc: Global, count: usize) -> Result<Option<ListingRefusal>, Fail> {
    let text = vec![in alloc; b' '; count]?;
    refusal(alloc, text.as_slice())
}

/// Returns the lines of the numbers from 1 on, up to before `last`.
fn finish_lines(alloc: Global, last: u64) -> Result<Vec<u8>, Fail> {
    let mut lines = Vec::new(alloc);
    for number in 1..last {
        push_number(&mut lines, number)?;
        push_text(&mut lines, b": finish\n")?;
    }
    Ok(lines)
}

/// Returns why the lines of the numbers from 1 on, up to before `last`, are refused.
fn finish_lines_refusal(alloc: Global, last: u64) -> Result<Option<ListingRefusal>, Fail> {
    let lines = finish_lines(alloc, last)?;
    line_refusal(alloc, b"seq", lines.as_slice())
}

/// Returns whether the names are `want`.
fn names_are(names: &[Name], want: &[&[u8]]) -> bool {
    if names.len() != want.len() {
        return false;
    }
    for place in 0..names.len() {
        if names[place].letters() != want[place] {
            return false;
        }
    }
    true
}

/// Returns whether a listing has the names and lines of the small one.
fn is_small(listing: &Listing) -> bool {
    listing.lines().len() == 6
        && names_are(listing.scalars(), &[b"j", b"c"])
        && names_are(listing.rows(), &[])
        && names_are(listing.words(), &[b"a"])
        && names_are(listing.views(), &[b"s"])
        && listing.following(14) == Some(15)
        && listing.update() == 10
}

/// Returns whether a listing is of this kind, and has `lines` lines.
fn is_of(listing: &Listing, kind: KindTag, lines: usize) -> bool {
    listing.kind() == kind && listing.lines().len() == lines
}

/// Returns whether a tuple is of kind seq, and begins with the argument.
fn begins_with_argument(tuple: &Tuple) -> bool {
    match tuple {
        Tuple::Seq(Expr::Term(datum), _, _) => matches!(datum, Term::Arg),
        _ => false,
    }
}

/// Returns whether a listing has such a tuple of kind seq.
fn has_seq_lines(listing: &Listing) -> bool {
    match listing.instr(32) {
        Some(Instr::Put(Index::Me, tuple)) => begins_with_argument(tuple),
        _ => false,
    }
}

/// Returns whether a listing has the handshake bits and the tuple of kind bit.
fn has_bit_lines(listing: &Listing) -> bool {
    matches!(
        listing.instr(13),
        Some(Instr::LetPlace(
            _,
            _,
            Expr::Term(Term::Handshake(_, Index::Scalar(_), Index::Me))
        ))
    ) && matches!(
        listing.instr(14),
        Some(Instr::PutBit(BitBank::Q, Index::Me, Index::Scalar(_), _))
    ) && matches!(
        listing.instr(46),
        Some(Instr::Put(Index::Me, Tuple::Bits(_, _, _, _)))
    )
}

/// Returns whether a listing has the fields of kind multi.
fn has_multi_fields(listing: &Listing) -> bool {
    matches!(
        listing.instr(13),
        Some(Instr::Bit(_, BitBank::P, Index::Scalar(_), Index::Me))
    ) && matches!(
        listing.instr(27),
        Some(Instr::Let(_, Expr::Term(Term::Field(Field::Id, _, _))))
    )
}

/// Returns whether a listing has the views and the tuple of kind multi.
fn has_multi_views(listing: &Listing) -> bool {
    matches!(listing.instr(36), Some(Instr::Look(_, Index::Scalar(_))))
        && matches!(listing.instr(55), Some(Instr::PutView(Index::Me, _)))
        && matches!(
            listing.instr(57),
            Some(Instr::Put(Index::Word, Tuple::Multi(_, _, _)))
        )
}

/// Returns whether a listing has the lines that are of kind multi alone.
fn has_multi_lines(listing: &Listing) -> bool {
    has_multi_fields(listing) && has_multi_views(listing)
}

/// Returns whether what is printed of the listing that a text is, is this.
fn prints(alloc: Global, text: &[u8], want: &[u8]) -> Result<bool, Fail> {
    let listing = read(alloc, text)?;
    let printed = print(alloc, &listing)?;
    Ok(printed.as_slice() == want)
}

#[test]
fn refuses_headers(rt: HostRuntime) -> Result<(), Fail> {
    assert_eq!(rt; wrong_text(rt.alloc(), &HEADERS)?, None);
    Ok(())
}

#[test]
fn refuses_lines(rt: HostRuntime) -> Result<(), Fail> {
    assert_eq!(rt; wrong_lines(rt.alloc(), b"seq", &LINES)?, None);
    assert_eq!(rt; wrong_lines(rt.alloc(), b"seq", &TWO_FAULTS)?, None);
    assert_eq!(rt; wrong_lines(rt.alloc(), b"bit", &TUPLES_OF_BITS)?, None);
    Ok(())
}

#[test]
fn refuses_what_a_kind_lacks(rt: HostRuntime) -> Result<(), Fail> {
    assert_eq!(rt; wrong_lines(rt.alloc(), b"seq", &NOT_IN_SEQ)?, None);
    assert_eq!(rt; wrong_lines(rt.alloc(), b"bit", &NOT_IN_BIT)?, None);
    assert_eq!(rt; wrong_lines(rt.alloc(), b"multi", &NOT_IN_MULTI)?, None);
    Ok(())
}

#[test]
fn refuses_malformed_accesses(rt: HostRuntime) -> Result<(), Fail> {
    for kind in [b"seq".as_slice(), b"bit".as_slice(), b"multi".as_slice()] {
        assert_eq!(rt; wrong_lines(rt.alloc(), kind, &MALFORMED)?, None);
    }
    Ok(())
}

#[test]
fn refuses_long_texts(rt: HostRuntime) -> Result<(), Fail> {
    let want = Some(BadHeader(2));
    assert_eq!(rt; spaces_refusal(rt.alloc(), 65_536)?, want);
    let want = Some(TooLong);
    assert_eq!(rt; spaces_refusal(rt.alloc(), 65_537)?, want);
    Ok(())
}

#[test]
fn refuses_the_line_after_200(rt: HostRuntime) -> Result<(), Fail> {
    assert_eq!(rt; finish_lines_refusal(rt.alloc(), 201)?, None);
    let want = Some(TooMany(208));
    assert_eq!(rt; finish_lines_refusal(rt.alloc(), 202)?, want);
    Ok(())
}

#[test]
fn reads(rt: HostRuntime) -> Result<(), Fail> {
    let listing = read_source(rt.alloc(), SMALL)?;
    assert!(rt; is_small(&listing));
    Ok(())
}

#[test]
fn copies(rt: HostRuntime) -> Result<(), Fail> {
    let listing = read_source(rt.alloc(), SMALL)?;
    let copy = listing.copy(rt.alloc())?;
    assert!(rt; is_small(&copy));
    Ok(())
}

#[test]
fn reads_a_listing_of_kind_seq(rt: HostRuntime) -> Result<(), Fail> {
    let listing = read_source(rt.alloc(), text_u())?;
    assert!(rt; is_of(&listing, KindTag::Seq, 18) && has_seq_lines(&listing));
    Ok(())
}

#[test]
fn reads_a_listing_of_kind_bit(rt: HostRuntime) -> Result<(), Fail> {
    let listing = read_source(rt.alloc(), text_b())?;
    assert!(rt; is_of(&listing, KindTag::Bits, 26) && has_bit_lines(&listing));
    Ok(())
}

#[test]
fn reads_a_listing_of_kind_multi(rt: HostRuntime) -> Result<(), Fail> {
    let listing = read_source(rt.alloc(), text_m())?;
    assert!(rt; is_of(&listing, KindTag::Multi, 37) && has_multi_lines(&listing));
    Ok(())
}

#[test]
fn prints_what_it_read(rt: HostRuntime) -> Result<(), Fail> {
    for text in [text_u(), text_b(), text_m()] {
        assert!(rt; prints(rt.alloc(), text, text)?);
    }
    Ok(())
}

#[test]
fn reads_line_9999(rt: HostRuntime) -> Result<(), Fail> {
    let text = b"kind seq\nscalar\nrow\nwords\nview\nscan 9999\nupdate 9999\n9999: finish\n";
    assert!(rt; prints(rt.alloc(), text, text)?);
    Ok(())
}

/// A listing whose comments are empty, end in spaces and a carriage return, have `#` and bytes of
/// no text; in canonical text.
const COMMENTED: &[u8] = b"kind seq
scalar
row
words
view
scan 1
update 1
1: goto 2 #
2: goto 3 # to the end \t \r
3: goto 4 ## \x00\xff %
4: finish
";

#[test]
fn keeps_comments_to_the_byte(rt: HostRuntime) -> Result<(), Fail> {
    assert!(rt; prints(rt.alloc(), COMMENTED, COMMENTED)?);
    Ok(())
}

#[test]
fn prints_one_layout(rt: HostRuntime) -> Result<(), Fail> {
    assert!(rt; prints(rt.alloc(), LOOSE, LAID_OUT)?);
    Ok(())
}
