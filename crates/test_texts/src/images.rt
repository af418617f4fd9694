//! Tests of images that are encoded and decoded, and of images that are cut or changed.
use crate::samples::{FIRST_IMAGE, SMALL, SMALL_IMAGE};
use snap_image::{ImageFault, decode, encode};
use snap_listing::read;
use snap_semantics::{ImageRefusal, ListingRefusal};
use snap_shipped::{text_b, text_m, text_u};
use std::alloc::Global;
use std::process::Abort;
use std::test::Fail;

/// A listing of one line, with one comparison.
const ONE_COMPARISON: &[u8] =
    b"kind seq\nscalar\nrow\nwords\nview\nscan 1\nupdate 1\n1: if 1 = 1 goto 1\n";

/// Returns the image of a text.
fn image_of(alloc: Global, text: &[u8]) -> Result<Vec<u8>, Fail> {
    let listing = read(alloc, text)?;
    let image = encode(alloc, &listing)?;
    Ok(image)
}

/// Returns why an image is refused; `None` if it is decoded.
fn refusal(alloc: Global, image: &[u8]) -> Result<Option<ImageRefusal>, Fail> {
    match decode(alloc, image) {
        Ok(_) => Ok(None),
        Err(ImageFault::Refused(refusal)) => Ok(Some(refusal)),
        Err(ImageFault::Memory) => Err(Fail::from(ImageFault::Memory)),
    }
}

/// Returns whether an image is decoded, and encoded again as itself.
fn is_kept(alloc: Global, image: &[u8]) -> Result<bool, Fail> {
    let listing = decode(alloc, image)?;
    let again = encode(alloc, &listing)?;
    Ok(again.as_slice() == image)
}

/// Returns whether bytes are no image, or the image of what they decode to.
fn is_refused_or_kept(alloc: Global, image: &[u8]) -> Result<bool, Fail> {
    match refusal(alloc, image)? {
        Some(_) => Ok(true),
        None => is_kept(alloc, image),
    }
}

/// Returns whether bytes are no image, or the image in the first version of another listing than
/// the small one.
fn is_refused_or_another(alloc: Global, image: &[u8]) -> Result<bool, Fail> {
    match decode(alloc, image) {
        Ok(listing) => {
            let newer = encode(alloc, &listing)?;
            Ok(newer.as_slice() != SMALL_IMAGE.as_slice() && is_kept(alloc, newer.as_slice())?)
        }
        Err(ImageFault::Refused(_)) => Ok(true),
        Err(ImageFault::Memory) => Err(Fail::from(ImageFault::Memory)),
    }
}

/// Checks that the small listing's image in the first version with another byte in this place is
/// refused, or the image of another listing.
fn check_first_changes(rt: &impl Abort, alloc: Global, place: usize) -> Result<(), Fail> {
    for byte in 0..=255 {
        let mut image = FIRST_IMAGE;
        let was = image[place.min(24)];
        image[place.min(24)] = byte;
        assert!(rt;
            byte == was || is_refused_or_another(alloc, image.as_slice())?,
            "{byte} at {place}"
        );
    }
    Ok(())
}

/// Checks that the image of the small listing with another byte in this place is refused, or the
/// image of another listing.
fn check_changes(rt: &impl Abort, alloc: Global, place: usize) -> Result<(), Fail> {
    for byte in 0..=255 {
        let mut image = SMALL_IMAGE;
        if place < image.len() {
            image[place] = byte;
        }
        assert!(rt;
            is_refused_or_kept(alloc, image.as_slice())?,
            "{byte} at {place}"
        );
    }
    Ok(())
}

/// Checks that each cut of an image is refused.
fn check_cuts(rt: &impl Abort, alloc: Global, image: &[u8]) -> Result<(), Fail> {
    for len in 0..image.len() {
        let want = if len < 4 {
            ImageRefusal::NotAnImage
        } else {
            ImageRefusal::Truncated
        };
        assert!(rt; refusal(alloc, &image[..len])? == Some(want), "{len}");
    }
    Ok(())
}

/// Checks that the image of a text is encoded again as itself, and that each cut of it is refused.
fn check_image(rt: &impl Abort, alloc: Global, text: &[u8]) -> Result<(), Fail> {
    let image = image_of(alloc, text)?;
    assert!(rt; is_kept(alloc, image.as_slice())?);
    check_cuts(rt, alloc, image.as_slice())
}

/// Replaces the byte in this place, and returns whether it was `old`.
fn replace(image: &mut [u8], place: usize, old: u8, new: u8) -> bool {
    match image.get_mut(place) {
        Some(byte) => {
            let found = *byte == old;
            *byte = new;
            found
        }
        None => false,
    }
}

#[test]
fn encodes_and_decodes_a_small_listing(rt: HostRuntime) -> Result<(), Fail> {
    let image = image_of(rt.alloc(), SMALL)?;
    assert_eq!(rt; image.as_slice(), SMALL_IMAGE.as_slice());
    assert!(rt; is_kept(rt.alloc(), SMALL_IMAGE.as_slice())?);
    let listing = decode(rt.alloc(), FIRST_IMAGE.as_slice())?;
    let newer = encode(rt.alloc(), &listing)?;
    assert_eq!(rt; newer.as_slice(), SMALL_IMAGE.as_slice());
    Ok(())
}

#[test]
fn refuses_cuts_and_extra_bytes(rt: HostRuntime) -> Result<(), Fail> {
    check_cuts(&rt, rt.alloc(), FIRST_IMAGE.as_slice())?;
    check_cuts(&rt, rt.alloc(), SMALL_IMAGE.as_slice())?;
    let mut image = [0; 26];
    image[..25].copy_from_slice(FIRST_IMAGE.as_slice());
    assert!(rt; refusal(rt.alloc(), image.as_slice())? == Some(ImageRefusal::Extra));
    let mut image = [0; 28];
    image[..27].copy_from_slice(SMALL_IMAGE.as_slice());
    assert!(rt; refusal(rt.alloc(), image.as_slice())? == Some(ImageRefusal::Extra));
    Ok(())
}

#[test]
fn refuses_changed_bytes_or_encodes_them_again(rt: HostRuntime) -> Result<(), Fail> {
    for place in 0..SMALL_IMAGE.len() {
        check_changes(&rt, rt.alloc(), place)?;
    }
    Ok(())
}

#[test]
fn refuses_changed_bytes_of_the_first_version_or_tells_another_listing(
    rt: HostRuntime,
) -> Result<(), Fail> {
    for place in 0..FIRST_IMAGE.len() {
        check_first_changes(&rt, rt.alloc(), place)?;
    }
    Ok(())
}

#[test]
fn tells_the_versions_apart(rt: HostRuntime) -> Result<(), Fail> {
    let mut image = FIRST_IMAGE;
    image[4] = 2;
    assert!(rt; refusal(rt.alloc(), image.as_slice())? == Some(ImageRefusal::Truncated));
    let mut image = SMALL_IMAGE;
    image[4] = 1;
    let want = ImageRefusal::Invalid(ListingRefusal::BadLine(2));
    assert!(rt; refusal(rt.alloc(), image.as_slice())? == Some(want));
    let mut image = SMALL_IMAGE;
    image[26] = 2;
    assert!(rt; refusal(rt.alloc(), image.as_slice())? == Some(ImageRefusal::BadCode(26)));
    Ok(())
}

#[test]
fn encodes_snapshots_again(rt: HostRuntime) -> Result<(), Fail> {
    for text in [text_u(), text_b(), text_m()] {
        check_image(&rt, rt.alloc(), text)?;
    }
    Ok(())
}

#[test]
fn refuses_another_join_of_one_comparison(rt: HostRuntime) -> Result<(), Fail> {
    let mut image = image_of(rt.alloc(), ONE_COMPARISON)?;
    assert!(rt; replace(image.as_mut_slice(), 20, 0, 1));
    assert!(rt; refusal(rt.alloc(), image.as_slice())? == Some(ImageRefusal::BadCode(20)));
    Ok(())
}
