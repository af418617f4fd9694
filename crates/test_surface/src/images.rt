//! Tests of images: encoded, decoded and refused, and images of the first version that are changed.
use crate::texts::{FIRST_IMAGE, SECOND_IMAGE, SMALL};
use snap_image::{ImageFault, ImageRefusal, Listing, decode, encode};
use snap_listing::{ListingRefusal, print, read};
use std::alloc::Global;
use std::process::Abort;
use std::test::Fail;

/// The small listing with a comment behind its last line.
const DONE: &[u8] =
    b"kind seq\nscalar\nrow\nwords\nview s\nscan 1\nupdate 2\n1: return s\n2: finish# done\n";

/// The canonical text of the commented listing.
const DONE_TEXT: &[u8] =
    b"kind seq\nscalar\nrow\nwords\nview s\nscan 1\nupdate 2\n1: return s\n2: finish # done\n";

/// The image of the commented listing.
const DONE_IMAGE: [u8; 34] = [
    0x53, 0x4e, 0x41, 0x50, 0x02, 0x00, 0x00, 0x00, 0x00, 0x01, 0x01, 0x73, 0x00, 0x01, 0x00, 0x02,
    0x00, 0x02, 0x00, 0x01, 0x16, 0x00, 0x00, 0x00, 0x02, 0x17, 0x01, 0x00, 0x05, 0x20, 0x64, 0x6f,
    0x6e, 0x65,
];

/// Returns why an image is refused; `None` if it is decoded.
fn refusal(alloc: Global, image: &[u8]) -> Result<Option<ImageRefusal>, Fail> {
    match decode(alloc, image) {
        Ok(_) => Ok(None),
        Err(ImageFault::Refused(refusal)) => Ok(Some(refusal)),
        Err(fault) => Err(Fail::from(fault)),
    }
}

/// Returns why the first image of the small listing is refused with another byte in this place.
fn refusal_with(alloc: Global, place: usize, byte: u8) -> Result<Option<ImageRefusal>, Fail> {
    let mut image = FIRST_IMAGE;
    image[place.min(24)] = byte;
    refusal(alloc, image.as_slice())
}

/// Returns whether the second of two images is the first one in the second version. Both are of a
/// listing of two lines without comments, the first of two bytes, the second of one.
fn is_first_of(first: &[u8], second: &[u8]) -> bool {
    if first.len() != 25 || second.len() != 27 {
        return false;
    }
    first[..4] == second[..4]
        && first[4] == 1
        && second[4] == 2
        && first[5..22] == second[5..22]
        && second[22] == 0
        && first[22..] == second[23..26]
        && second[26] == 0
}

/// Returns whether bytes are no image, or the image in the first version of what they decode to.
fn is_refused_or_first(alloc: Global, image: &[u8]) -> Result<bool, Fail> {
    match decode(alloc, image) {
        Ok(listing) => {
            let second = encode(alloc, &listing)?;
            Ok(is_first_of(image, second.as_slice()))
        }
        Err(ImageFault::Refused(_)) => Ok(true),
        Err(fault) => Err(Fail::from(fault)),
    }
}

/// Checks that the first image of the small listing with any byte in this place is refused, or is
/// the first image of what it decodes to.
fn check_place(rt: &impl Abort, alloc: Global, place: usize) -> Result<(), Fail> {
    for byte in 0..=255 {
        let mut image = FIRST_IMAGE;
        image[place.min(24)] = byte;
        assert!(rt;
            is_refused_or_first(alloc, image.as_slice())?,
            "{byte} at {place}"
        );
    }
    Ok(())
}

#[test]
fn a_listing_has_an_image_that_decodes_as_it(rt: HostRuntime) -> Result<(), Fail> {
    let listing: Listing = read(rt.alloc(), SMALL)?;
    assert_eq!(rt;
        encode(rt.alloc(), &listing)?.as_slice(),
        SECOND_IMAGE.as_slice()
    );
    let decoded = decode(rt.alloc(), FIRST_IMAGE.as_slice())?;
    assert_eq!(rt; print(rt.alloc(), &decoded)?.as_slice(), SMALL);
    Ok(())
}

#[test]
fn comments_are_in_images(rt: HostRuntime) -> Result<(), Fail> {
    let listing = read(rt.alloc(), DONE)?;
    assert_eq!(rt;
        encode(rt.alloc(), &listing)?.as_slice(),
        DONE_IMAGE.as_slice()
    );
    let decoded = decode(rt.alloc(), DONE_IMAGE.as_slice())?;
    assert_eq!(rt; print(rt.alloc(), &decoded)?.as_slice(), DONE_TEXT);
    Ok(())
}

#[test]
fn changed_bytes_are_refused_by_name(rt: HostRuntime) -> Result<(), Fail> {
    let alloc = rt.alloc();
    assert!(rt; refusal_with(alloc, 4, 9)? == Some(ImageRefusal::Version));
    assert!(rt; refusal_with(alloc, 5, 3)? == Some(ImageRefusal::BadCode(5)));
    let want = ImageRefusal::Invalid(ListingRefusal::NoSuchLine(7));
    assert!(rt; refusal_with(alloc, 13, 7)? == Some(want));
    Ok(())
}

#[test]
fn what_decodes_in_the_first_version_is_the_first_image_of_it(rt: HostRuntime) -> Result<(), Fail> {
    for place in 0..FIRST_IMAGE.len() {
        check_place(&rt, rt.alloc(), place)?;
    }
    Ok(())
}
