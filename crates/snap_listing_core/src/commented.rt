//! `CommentedListing`: a listing, and for each of its lines its comment, if it has one.
ghost use Rattle.std.specs.Prelude.{◌≡◌, IfOk, map};
ghost use Rattle.snap_semantics.specs.Comments.{IsCommented, no_comment, uncommented};
ghost use Rattle.snap_listing_core.specs.Fields.{commented, seen_comment};

use crate::listing::Listing;
use snap_semantics::Line;
use std::alloc::{AllocError, Global};
use std::marker::Model;

/// A listing, and for each of its lines its comment, if it has one: the bytes behind its `#`.
pub struct CommentedListing {
    listing: Listing,
    comments: Vec<Option<Vec<u8>>>,
}

impl Drop for CommentedListing {
    // A drop that is written out is one call: it is proved once, and not again at each drop.
    fn drop(self) {
        let CommentedListing {
            listing: _,
            comments: _,
        } = self;
    }
}

impl Model for CommentedListing {
    ghost use Rattle.snap_semantics.specs.Comments.{Commented, IsCommented};
    ghost use Rattle.snap_listing_core.specs.Fields.{commented};

    ghost Value = { Commented };

    ghost view = { λ l. commented l.listing l.comments.items };

    ghost invariant = { λ l. IsCommented (commented l.listing l.comments.items) };
}

impl CommentedListing {
    /// Returns `listing` with these comments.
    pub fn of(listing: Listing, comments: Vec<Option<Vec<u8>>>) -> CommentedListing
        requires { IsCommented (commented listing comments.items) }
        ensures { result ≡ commented listing comments.items }
    {
        CommentedListing { listing, comments }
    }

    /// Returns `listing` with no comment on any of its lines.
    ///
    /// # Errors
    ///
    /// `AllocError` where memory runs out.
    #[tactic(auto, using(crate::proofs::Uncommented::commented_is))]
    pub fn uncommented(alloc: Global, listing: Listing) -> Result<CommentedListing, AllocError>
        ensures { IfOk result (λ l. l ≡ uncommented listing) }
    {
        let comments = no_comments(alloc, listing.lines())?;
        Ok(CommentedListing::of(listing, comments))
    }

    /// Returns a copy, with its comments.
    ///
    /// # Errors
    ///
    /// `AllocError` where memory runs out.
    pub fn copy(&self, alloc: Global) -> Result<CommentedListing, AllocError>
        ensures { IfOk result (λ l. l ≡ self.now) }
    {
        let comments = copy_comments(alloc, self.comments())?;
        Ok(CommentedListing::of(self.listing.copy(alloc)?, comments))
    }

    /// Returns the listing without its comments.
    pub fn listing(&self) -> &Listing
        ensures { result.now ≡ self.now.source }
    {
        &self.listing
    }

    /// Returns the listing without its comments.
    pub fn into_listing(self) -> Listing
        ensures { result ≡ self.source }
    {
        let CommentedListing {
            listing,
            comments: _,
        } = self;
        listing
    }

    /// Returns the comments of the lines, in their order. Together with the listing they keep the
    /// rules of comments.
    pub fn comments(&self) -> &[Option<Vec<u8>>]
        ensures comments { map seen_comment result.now ≡ self.now.comments }
        ensures rules { IsCommented self.now }
    {
        self.comments.as_slice()
    }
}

/// Returns as many comments as `lines`, all of them `None`.
fn no_comments(alloc: Global, lines: &[Line]) -> Result<Vec<Option<Vec<u8>>>, AllocError>
    ensures { IfOk result (λ comments. map seen_comment comments.items ≡ map no_comment lines.now) }
{
    let mut comments = Vec::new(alloc);
    for _line in lines {
        comments.push(None)?;
    }
    Ok(comments)
}

/// Returns copies of `comments`.
fn copy_comments(
    alloc: Global,
    comments: &[Option<Vec<u8>>],
) -> Result<Vec<Option<Vec<u8>>>, AllocError>
    ensures { IfOk result (λ copies. map seen_comment copies.items
        ≡ map seen_comment comments.now) }
{
    let mut copies = Vec::new(alloc);
    for comment in comments {
        copies.push(copy_comment(alloc, comment)?)?;
    }
    Ok(copies)
}

/// Returns a copy of `comment`.
fn copy_comment(alloc: Global, comment: &Option<Vec<u8>>) -> Result<Option<Vec<u8>>, AllocError>
    ensures { IfOk result (λ copy. seen_comment copy ≡ seen_comment comment.now) }
{
    match comment {
        None => Ok(None),
        Some(bytes) => Ok(Some(Vec::from_slice(alloc, bytes.as_slice())?)),
    }
}
