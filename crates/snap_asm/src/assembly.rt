//! `assemble`, `list`, `upgrade`, `load` and `program`: a text to its image, an image to its text,
//! to the image of the second version (the one that is written) or to a program, and a listing to a
//! program.
ghost use Rattle.std.specs.Prelude.{◌≡◌, ◌≢◌, ◌<◌, IfOk, Ok, Err, length, take};
ghost use Rattle.snap_semantics.specs.Answers.{Answers};
ghost use Rattle.snap_image.specs.Assembly.{assembled, listed, upgraded};
ghost use Rattle.snap_semantics.specs.CanonicalText.{canonical_text};
ghost use Rattle.snap_semantics.specs.Comments.{Commented, IsCommented};
ghost use Rattle.snap_image.specs.Image.{HasUnknownVersion, IsImageOf, image_of, signature};
ghost use Rattle.snap_image.specs.ImageListing.{listing_of_image};
ghost use Rattle.snap_semantics.specs.declared.fault.Fault.TheVariants.{Refused};
ghost use Rattle.snap_semantics.specs.declared.refusal.ImageRefusal.TheVariants.{NotAnImage};
ghost use Rattle.snap_semantics.specs.declared.refusal.ImageRefusal.TheVariants.{Version};
ghost use Rattle.snap_semantics.specs.declared.refusal.ListingRefusal.TheVariants.{TooLong};
ghost use Rattle.snap_semantics.specs.Listing.{max_text};
ghost use Rattle.snap_asm.specs.Listed.{HasListing, HaveOneListing};

use snap_asm_program::Program;
use snap_image::{ImageFault, decode, encode};
use snap_listing::{ListingFault, print, read};
use snap_listing_core::CommentedListing;
use std::alloc::{AllocError, Global};

/// Returns the image of the listing that `text` spells, with its comments.
///
/// # Errors
///
/// `Refused` with the first reason why `text` is no listing; `Memory` where memory runs out. A text
/// that is too long is refused even where memory runs out.
#[tactic(auto, unfolding(snap_image::specs::Assembly::assembled))]
pub fn assemble(alloc: Global, text: &[u8]) -> Result<Vec<u8>, ListingFault>
    ensures answer { Answers (λ image. image.items) result (assembled text.now) }
    ensures too_long { max_text < length text.now → result ≡ Err (Refused TooLong) }
{
    let listing = read(alloc, text)?;
    let image = encode(alloc, &listing)?;
    Ok(image)
}

/// Returns the canonical text of the listing whose image `image` is, in either version.
///
/// # Errors
///
/// `Refused` only if no listing has this image, with the first reason; `Memory` where memory runs
/// out. A wrong signature or version is refused even then.
#[tactic(auto, unfolding(snap_image::specs::Assembly::listed))]
pub fn list(alloc: Global, image: &[u8]) -> Result<Vec<u8>, ImageFault>
    ensures answer { Answers (λ text. text.items) result (listed image.now) }
    ensures image { IfOk result (λ text. HaveOneListing image.now text.items) }
    ensures every { (c : Commented) → IsCommented c → IsImageOf image.now c →
        Answers (λ text. text.items) result (Ok (canonical_text c)) }
    ensures not_an_image { take 4 image.now ≢ signature → result ≡ Err (Refused NotAnImage) }
    ensures version { HasUnknownVersion image.now → result ≡ Err (Refused Version) }
{
    let listing = decode(alloc, image)?;
    let text = print(alloc, &listing)?;
    Ok(text)
}

/// Returns the image, in the second version, of the listing whose image `image` is in either
/// version.
///
/// # Errors
///
/// `Refused` only if no listing has this image, with the first reason; `Memory` where memory runs
/// out. A wrong signature or version is refused even then.
#[tactic(auto, unfolding(snap_image::specs::Assembly::upgraded))]
pub fn upgrade(alloc: Global, image: &[u8]) -> Result<Vec<u8>, ImageFault>
    ensures answer { Answers (λ out. out.items) result (upgraded image.now) }
    ensures every { (c : Commented) → IsCommented c → IsImageOf image.now c →
        Answers (λ out. out.items) result (Ok (image_of c)) }
    ensures not_an_image { take 4 image.now ≢ signature → result ≡ Err (Refused NotAnImage) }
    ensures version { HasUnknownVersion image.now → result ≡ Err (Refused Version) }
{
    let listing = decode(alloc, image)?;
    let upgraded = encode(alloc, &listing)?;
    Ok(upgraded)
}

/// Returns the program whose image `image` is, in either version.
///
/// # Errors
///
/// `Refused` only if no listing has this image, with the first reason; `Memory` where memory runs
/// out. A wrong signature or version is refused even then.
#[tactic(auto, unfolding(snap_image::specs::ImageListing::listing_of_image))]
pub fn load(alloc: Global, image: &[u8]) -> Result<Program, ImageFault>
    ensures answer { Answers (λ p. p) result (listing_of_image image.now) }
    ensures image { IfOk result (λ p. HasListing image.now p) }
    ensures every { (c : Commented) → IsCommented c → IsImageOf image.now c →
        Answers (λ p. p) result (Ok c.source) }
    ensures not_an_image { take 4 image.now ≢ signature → result ≡ Err (Refused NotAnImage) }
    ensures version { HasUnknownVersion image.now → result ≡ Err (Refused Version) }
{
    let listing = decode(alloc, image)?;
    let program = crate::listing_program::load_listing(alloc, listing.into_listing())?;
    Ok(program)
}

/// Returns the program of `listing`. Comments are left out, since no line does anything by them.
///
/// # Errors
///
/// `AllocError` where memory runs out.
pub fn program(alloc: Global, listing: &CommentedListing) -> Result<Program, AllocError>
    ensures { IfOk result (λ p. p ≡ listing.now.source) }
{
    crate::listing_program::load_listing(alloc, listing.listing().copy(alloc)?)
}
