//! Tests of texts of listings that are assembled as images, listed back, upgraded, and loaded as
//! programs.
use crate::samples::{FIRST_IMAGE, SMALL, SMALL_IMAGE};
use snap_asm::{Program, assemble, list, load, upgrade};
use snap_image::ImageFault;
use snap_listing::ListingFault;
use snap_semantics::{ImageRefusal, ListingRefusal, Name, Sort};
use snap_words::KindTag;
use std::alloc::Global;
use std::process::Abort;
use std::test::Fail;

/// The small listing with a comment.
const DONE: &[u8] =
    b"kind seq\nscalar\nrow\nwords\nview s\nscan 1\nupdate 2\n1: return s\n2: finish # done\n";

/// A listing in its canonical text.
const PLAIN: &[u8] = b"\
    kind seq\n\
    scalar j c\n\
    row\n\
    words a\n\
    view s\n\
    scan 10\n\
    update 10\n\
    10: let j = 1\n\
    11: get a[j] = r[j]\n\
    12: next j n goto 11\n\
    13: let c = c + 1\n\
    14: put r[me] = (arg, c, s)\n\
    15: finish\n\
";

/// The plain listing with blank lines, spaces and tabs between the tokens, and comments on other
/// lines than the numbered ones.
const LOOSE: &[u8] = b"\
    # an update\n\
    \n\
    kind\tseq\n\
    scalar j  c # counters\n\
    row\n\
    words a\n\
    view s\n\
    scan 10\n\
    \t \n\
    update 10\n\
    10 : let j=1\n\
    11\t:get a[ j\t] = r[j ]\n\
    12: next j n goto 11\n\
    # each word\n\
    13: let c=c+1\n\
    \n\
    14: put r [ me ] = ( arg,c , s )\n\
    15: finish\n\
    # the end\n\
";

/// Returns whether a text is assembled as this image.
fn assembles_as(alloc: Global, text: &[u8], want: &[u8]) -> Result<bool, Fail> {
    let image = assemble(alloc, text)?;
    Ok(image.as_slice() == want)
}

/// Returns whether an image is listed as this text.
fn lists_as(alloc: Global, image: &[u8], want: &[u8]) -> Result<bool, Fail> {
    let text = list(alloc, image)?;
    Ok(text.as_slice() == want)
}

/// Returns whether an image is refused with `want` by all that decode it.
fn is_refused(alloc: Global, image: &[u8], want: ImageRefusal) -> bool {
    list(alloc, image).err() == Some(ImageFault::Refused(want)) && is_not_loaded(alloc, image, want)
}

/// Returns whether an image is refused with `want` as a program.
fn is_not_loaded(alloc: Global, image: &[u8], want: ImageRefusal) -> bool {
    match load(alloc, image) {
        Ok(_) => false,
        Err(fault) => fault == ImageFault::Refused(want),
    }
}

/// Checks the program of the plain text.
fn check_program(rt: &impl Abort, program: &Program) {
    assert!(rt; program.kind() == KindTag::Seq);
    assert!(rt; program.has_line(10));
    assert!(rt; program.has_line(15));
    assert!(rt; !program.has_line(16));
    assert!(rt; program.listing().update() == 10);
    assert!(rt; program.names().len() == 4);
    assert!(rt; program.place(Name::of(b"moved".as_slice())).is_none());
}

/// Returns whether a name has this number among all names, and this sort and place among the names
/// of that sort.
fn is_name(program: &Program, index: usize, name: Name, sort: Sort, place: usize) -> bool {
    match program.names().get(index) {
        Some((found, found_sort)) => {
            *found == name && *found_sort == sort && program.place(name) == Some((sort, place))
        }
        None => false,
    }
}

/// Checks the names of the plain text.
fn check_names(rt: &impl Abort, program: &Program) {
    assert!(rt; is_name(program, 0, Name::of(b"j".as_slice()), Sort::Scalar, 0));
    assert!(rt; is_name(program, 1, Name::of(b"c".as_slice()), Sort::Scalar, 1));
    assert!(rt; is_name(program, 2, Name::of(b"a".as_slice()), Sort::Words, 0));
    assert!(rt; is_name(program, 3, Name::of(b"s".as_slice()), Sort::View, 0));
}

#[test]
fn assembles_and_lists_a_small_listing(rt: HostRuntime) -> Result<(), Fail> {
    assert!(rt; assembles_as(rt.alloc(), SMALL, SMALL_IMAGE.as_slice())?);
    assert!(rt; lists_as(rt.alloc(), SMALL_IMAGE.as_slice(), SMALL)?);
    assert!(rt; lists_as(rt.alloc(), FIRST_IMAGE.as_slice(), SMALL)?);
    Ok(())
}

/// Returns whether an image is upgraded to `want`.
fn upgrades_to(alloc: Global, image: &[u8], want: &[u8]) -> Result<bool, Fail> {
    let newer = upgrade(alloc, image)?;
    Ok(newer.as_slice() == want)
}

#[test]
fn upgrades_to_the_second_version(rt: HostRuntime) -> Result<(), Fail> {
    assert!(rt; upgrades_to(rt.alloc(), FIRST_IMAGE.as_slice(), SMALL_IMAGE.as_slice())?);
    assert!(rt; upgrades_to(rt.alloc(), SMALL_IMAGE.as_slice(), SMALL_IMAGE.as_slice())?);
    Ok(())
}

#[test]
fn keeps_a_comment_in_the_image(rt: HostRuntime) -> Result<(), Fail> {
    let mut image = [0; 34];
    image[..26].copy_from_slice(&SMALL_IMAGE[..26]);
    image[26..].copy_from_slice(b"\x01\x00\x05 done".as_slice());
    assert!(rt; assembles_as(rt.alloc(), DONE, image.as_slice())?);
    assert!(rt; lists_as(rt.alloc(), image.as_slice(), DONE)?);
    assert!(rt; upgrades_to(rt.alloc(), image.as_slice(), image.as_slice())?);
    Ok(())
}

#[test]
fn spaces_and_other_comments_leave_no_trace(rt: HostRuntime) -> Result<(), Fail> {
    let image = assemble(rt.alloc(), PLAIN)?;
    assert!(rt; assembles_as(rt.alloc(), LOOSE, image.as_slice())?);
    assert!(rt; lists_as(rt.alloc(), image.as_slice(), PLAIN)?);
    Ok(())
}

#[test]
fn loads_a_program(rt: HostRuntime) -> Result<(), Fail> {
    let image = assemble(rt.alloc(), PLAIN)?;
    let program = load(rt.alloc(), image.as_slice())?;
    check_program(&rt, &program);
    check_names(&rt, &program);
    Ok(())
}

#[test]
fn copies_a_program(rt: HostRuntime) -> Result<(), Fail> {
    let image = assemble(rt.alloc(), PLAIN)?;
    let program = load(rt.alloc(), image.as_slice())?;
    let copy = program.copy(rt.alloc())?;
    check_program(&rt, &copy);
    check_names(&rt, &copy);
    Ok(())
}

#[test]
fn passes_refusals_on(rt: HostRuntime) {
    let text = assemble(rt.alloc(), b"kind none\n".as_slice()).err();
    assert!(rt; text == Some(ListingFault::Refused(ListingRefusal::BadHeader(1))));
    assert!(rt; is_refused(rt.alloc(), &FIRST_IMAGE[..24], ImageRefusal::Truncated));
    assert!(rt; is_refused(rt.alloc(), b"SNAP".as_slice(), ImageRefusal::Truncated));
    assert!(rt; is_refused(rt.alloc(), b"text".as_slice(), ImageRefusal::NotAnImage));
}
