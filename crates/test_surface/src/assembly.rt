//! Tests of the way from a text to an image, back, and to a program.
use crate::texts::{COLLECTING, FIRST_IMAGE, SECOND_IMAGE, SMALL};
use snap_asm::{
    ImageFault, Listing, ListingFault, Name, Program, Sort, assemble, list, load, program, upgrade,
};
use snap_image::ImageRefusal;
use snap_listing::{ListingRefusal, read};
use snap_words::KindTag;
use std::process::Abort;
use std::test::Fail;

/// Returns whether the name of a local is this, and its sort.
fn is_local(local: Option<&(Name, Sort)>, name: &[u8], sort: Sort) -> bool {
    match local {
        Some((found, of)) => found.letters() == name && *of == sort,
        None => false,
    }
}

/// Checks that the listing has its kind, its lines, and its four locals in order.
fn check_program(rt: &impl Abort, program: &Program) {
    assert!(rt; program.kind() == KindTag::Seq);
    assert!(rt; program.has_line(14) && !program.has_line(16));
    let names = program.names();
    assert_eq!(rt; names.len(), 4);
    assert!(rt; is_local(names.first(), b"j", Sort::Scalar));
    assert!(rt; is_local(names.last(), b"s", Sort::View));
}

#[test]
fn a_text_is_assembled_and_listed(rt: HostRuntime) -> Result<(), Fail> {
    let image = assemble(rt.alloc(), SMALL)?;
    assert_eq!(rt; image.as_slice(), SECOND_IMAGE.as_slice());
    assert_eq!(rt; list(rt.alloc(), image.as_slice())?.as_slice(), SMALL);
    assert_eq!(rt; list(rt.alloc(), FIRST_IMAGE.as_slice())?.as_slice(), SMALL);
    Ok(())
}

#[test]
fn an_image_is_upgraded_once(rt: HostRuntime) -> Result<(), Fail> {
    let image = upgrade(rt.alloc(), FIRST_IMAGE.as_slice())?;
    assert_eq!(rt; image.as_slice(), SECOND_IMAGE.as_slice());
    let again = upgrade(rt.alloc(), image.as_slice())?;
    assert_eq!(rt; again.as_slice(), SECOND_IMAGE.as_slice());
    Ok(())
}

#[test]
fn an_image_loads_as_a_program(rt: HostRuntime) -> Result<(), Fail> {
    let image = assemble(rt.alloc(), COLLECTING)?;
    let loaded = load(rt.alloc(), image.as_slice())?;
    check_program(&rt, &loaded);
    let copy = loaded.copy(rt.alloc())?;
    check_program(&rt, &copy);
    Ok(())
}

#[test]
fn a_listing_is_a_program_without_an_image(rt: HostRuntime) -> Result<(), Fail> {
    let listing: Listing = read(rt.alloc(), COLLECTING)?;
    let direct = program(rt.alloc(), &listing)?;
    check_program(&rt, &direct);
    Ok(())
}

#[test]
fn what_is_no_listing_and_what_is_no_image_is_refused(rt: HostRuntime) {
    let refused = assemble(rt.alloc(), b"").err();
    assert!(rt; refused == Some(ListingFault::Refused(ListingRefusal::BadHeader(1))));
    let refused = list(rt.alloc(), b"SNA").err();
    assert!(rt; refused == Some(ImageFault::Refused(ImageRefusal::NotAnImage)));
    let refused = load(rt.alloc(), b"SNAP").err();
    assert!(rt; refused == Some(ImageFault::Refused(ImageRefusal::Truncated)));
}
