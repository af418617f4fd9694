//! `decode`: the listing whose image some bytes are, with its comments, or the first reason why
//! they are no image.
ghost use Rattle.std.specs.Prelude.{◌≡◌, ◌≢◌, ◌∷◌, IfOk, Ok, Err, take};
ghost use Rattle.snap_semantics.specs.Answers.{Answers};
ghost use Rattle.snap_semantics.specs.Comments.{Commented, IsCommented};
ghost use Rattle.snap_image.specs.Image.{HasUnknownVersion, IsImageOf, signature};
ghost use Rattle.snap_image.specs.ImageListing.{commented_in};
ghost use Rattle.snap_semantics.specs.Listing.{checked_targets, line_targets};
ghost use Rattle.snap_semantics.specs.declared.fault.Fault.TheVariants.{Refused};
ghost use Rattle.snap_semantics.specs.declared.refusal.ImageRefusal.{ImageRefusal};
ghost use Rattle.snap_semantics.specs.declared.refusal.ImageRefusal.TheVariants.{NotAnImage};
ghost use Rattle.snap_semantics.specs.declared.refusal.ImageRefusal.TheVariants.{Version};
ghost use Rattle.snap_image.specs.Head.{opened};

use crate::fault::ImageFault;
use crate::head::head;
use crate::lines::lines;
use snap_listing::{checked_target, checked_targets};
use snap_listing_core::{CommentedListing, Header, Listing};
use snap_semantics::{ImageRefusal, Line, ListingRefusal};
use std::alloc::Global;

/// Checks that each target is a line.
fn targets(header: &Header, lines: &[Line]) -> Result<(), ListingRefusal>
    ensures { result ≡ checked_targets lines.now (header.now.scan ∷ header.now.update
        ∷ line_targets lines.now) }
{
    checked_target(lines, header.scan)?;
    checked_target(lines, header.update)?;
    checked_targets(lines)
}

/// Decodes `image`, or returns the first reason why it is no image of a listing.
#[tactic(auto, unfolding(crate::specs::ImageListing::commented_in))]
fn decoded(alloc: Global, image: &[u8]) -> Result<CommentedListing, ImageFault>
    ensures answer { Answers (λ l. l) result (commented_in image.now) }
    ensures opened { (e : ImageRefusal) → opened image.now ≡ Err e → result ≡ Err (Refused e) }
{
    let (version, header, count, mut cursor) = head(alloc, image)?;
    let read = lines(alloc, &header, version, count, &mut cursor)?;
    cursor.ended()?;
    match targets(&header, read.lines.as_slice()) {
        Ok(()) => {
            let listing = Listing::of(header, read.lines);
            Ok(CommentedListing::of(listing, read.comments))
        }
        Err(refusal) => Err(ImageFault::Refused(ImageRefusal::Invalid(refusal))),
    }
}

/// Decodes `image`, and returns the listing whose image it is, with its comments. Memory is
/// allocated for the listing and its comments alone.
///
/// # Errors
///
/// `Refused` only if no listing has this image in either version, with the first reason; `Memory`
/// where memory runs out. A wrong signature or version is refused even then.
pub fn decode(alloc: Global, image: &[u8]) -> Result<CommentedListing, ImageFault>
    ensures answer { Answers (λ l. l) result (commented_in image.now) }
    ensures image { IfOk result (λ l. IsImageOf image.now l) }
    ensures every { (c : Commented) → IsCommented c → IsImageOf image.now c →
        Answers (λ l. l) result (Ok c) }
    ensures not_an_image { take 4 image.now ≢ signature → result ≡ Err (Refused NotAnImage) }
    ensures version { HasUnknownVersion image.now → result ≡ Err (Refused Version) }
{
    decoded(alloc, image)
}
