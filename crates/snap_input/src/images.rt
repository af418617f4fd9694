//! Images for the program's tasks: `assemble`, `list` and `upgrade`; and `program_of`, the program
//! of a listing's text.
ghost use Rattle.std.specs.Prelude.{◌≡◌, ◌≢◌, ◌<◌, Err, length, take};
ghost use Rattle.snap_semantics.specs.Answers.{Answers, refused_as};
ghost use Rattle.snap_image.specs.Assembly.{assembled, listed, upgraded};
ghost use Rattle.snap_image.specs.Image.{HasUnknownVersion, signature};
ghost use Rattle.snap_semantics.specs.Listing.{listing_of, max_text};
ghost use Rattle.snap_semantics.specs.declared.fault.Fault.TheVariants.{Refused};
ghost use Rattle.snap_semantics.specs.declared.refusal.ImageRefusal.TheVariants.{NotAnImage};
ghost use Rattle.snap_semantics.specs.declared.refusal.ImageRefusal.TheVariants.{Version};
ghost use Rattle.snap_semantics.specs.declared.refusal.ListingRefusal.TheVariants.{TooLong};
ghost use Rattle.snap_semantics.specs.declared.refusal.Refusal.TheVariants as refusal;

use snap_asm::{Program, load};
use snap_image::what_is_encoded_is_decoded;
use snap_listing::what_is_read_with_comments_is_a_listing;
use snap_semantics::{Fault, Refusal};
use std::alloc::Global;

/// Returns the image of the listing that `text` spells.
///
/// # Errors
///
/// `Refused` with the first reason why `text` is no listing; `Memory` where memory runs out. A text
/// that is too long is refused even where memory runs out.
pub fn assemble(alloc: Global, text: &[u8]) -> Result<Vec<u8>, Fault<Refusal>>
    ensures image { Answers (λ image. image.items) result
        (refused_as refusal.Listing (assembled text.now)) }
    ensures too_long { max_text < length text.now →
        result ≡ Err (Refused (refusal.Listing TooLong)) }
{
    Ok(snap_asm::assemble(alloc, text)?)
}

/// Returns the text of the listing whose image is `image`.
///
/// # Errors
///
/// `Refused` with the first reason why `image` is no image; `Memory` where memory runs out. A wrong
/// signature or version is refused even then.
pub fn list(alloc: Global, image: &[u8]) -> Result<Vec<u8>, Fault<Refusal>>
    ensures text { Answers (λ text. text.items) result
        (refused_as refusal.Image (listed image.now)) }
    ensures not_an_image { take 4 image.now ≢ signature →
        result ≡ Err (Refused (refusal.Image NotAnImage)) }
    ensures version { HasUnknownVersion image.now →
        result ≡ Err (Refused (refusal.Image Version)) }
{
    Ok(snap_asm::list(alloc, image)?)
}

/// Returns the image, in the version that is written, of the listing whose image is `image`.
///
/// # Errors
///
/// `Refused` with the first reason why `image` is no image; `Memory` where memory runs out. A wrong
/// signature or version is refused even then.
pub fn upgrade(alloc: Global, image: &[u8]) -> Result<Vec<u8>, Fault<Refusal>>
    ensures image { Answers (λ out. out.items) result
        (refused_as refusal.Image (upgraded image.now)) }
    ensures not_an_image { take 4 image.now ≢ signature →
        result ≡ Err (Refused (refusal.Image NotAnImage)) }
    ensures version { HasUnknownVersion image.now →
        result ≡ Err (Refused (refusal.Image Version)) }
{
    Ok(snap_asm::upgrade(alloc, image)?)
}

/// Returns the program of the listing that `text` spells, loaded from its image, which is never
/// refused: what is read is a listing, and the image of every listing is decoded as that listing.
///
/// # Errors
///
/// `Refused` with the first reason why `text` is no listing; `Memory` where memory runs out.
pub fn program_of(alloc: Global, text: &[u8]) -> Result<Program, Fault<Refusal>>
    ensures { Answers (λ p. p) result (refused_as refusal.Listing (listing_of text.now)) }
{
    let image = assemble(alloc, text)?;
    what_is_read_with_comments_is_a_listing();
    what_is_encoded_is_decoded();
    match load(alloc, image.as_slice()) {
        Ok(program) => Ok(program),
        Err(Fault::Memory) => Err(Fault::Memory),
        Err(Fault::Refused(_)) => unreachable!(),
    }
}
