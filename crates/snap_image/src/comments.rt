//! `behind_line`: reads the comment of a line from an image, if the image's version has comments.
ghost use Rattle.std.specs.Prelude.{Some};
ghost use Rattle.snap_semantics.specs.Answers.{Answers};
ghost use Rattle.snap_image.specs.ImageListing.{comment_byte_in, comment_bytes_in};
ghost use Rattle.snap_image.specs.ImageListing.{some_comment_in, comment_in, behind_line_in};
ghost use Rattle.snap_listing_core.specs.Fields.{seen_comment};
ghost use Rattle.snap_image.specs.Reads.{Reads};

use crate::cursor::Cursor;
use crate::fault::ImageFault;
use crate::image::ImageVersion;
use snap_semantics::ImageRefusal;
use std::alloc::Global;

/// Reads a byte of a comment: any byte but the line feed.
#[tactic(auto, unfolding(crate::specs::ImageListing::comment_byte_in))]
fn comment_byte(cursor: &mut Cursor<'_>) -> Result<u8, ImageRefusal>
    ensures { Reads result cursor.new (comment_byte_in cursor.old) }
{
    let at = cursor.passed();
    let byte = cursor.byte()?;
    if byte == b'\n' {
        Err(ImageRefusal::BadCode(at))
    } else {
        Ok(byte)
    }
}

/// Reads `count` bytes of a comment.
fn comment_bytes(alloc: Global, count: u64, cursor: &mut Cursor<'_>) -> Result<Vec<u8>, ImageFault>
    ensures { Answers (λ bytes. (bytes.items, cursor.new)) result
        (comment_bytes_in count cursor.old) }
{
    let mut bytes = Vec::new(alloc);
    for place in 0..count {
        let byte = comment_byte(cursor)?;
        bytes.push(byte)?;
    }
    Ok(bytes)
}

/// Reads a comment, which stands behind the number of its bytes.
#[tactic(auto, unfolding(crate::specs::ImageListing::some_comment_in))]
fn some_comment(alloc: Global, cursor: &mut Cursor<'_>) -> Result<Vec<u8>, ImageFault>
    ensures { Answers (λ bytes. (Some bytes.items, cursor.new)) result
        (some_comment_in cursor.old) }
{
    let count = cursor.short()?;
    comment_bytes(alloc, count, cursor)
}

/// Reads a comment, or that there is none.
#[tactic(auto, unfolding(crate::specs::ImageListing::comment_in))]
fn comment(alloc: Global, cursor: &mut Cursor<'_>) -> Result<Option<Vec<u8>>, ImageFault>
    ensures { Answers (λ c. (seen_comment c, cursor.new)) result (comment_in cursor.old) }
{
    if cursor.flag()? {
        Ok(Some(some_comment(alloc, cursor)?))
    } else {
        Ok(None)
    }
}

/// Reads what stands behind a line: nothing in the first version, a comment or none in the second.
///
/// # Errors
///
/// `Refused` where the bytes at the cursor are no comment; `Memory` where memory runs out.
pub fn behind_line(
    alloc: Global,
    version: ImageVersion,
    cursor: &mut Cursor<'_>,
) -> Result<Option<Vec<u8>>, ImageFault>
    ensures { Answers (λ c. (seen_comment c, cursor.new)) result
        (behind_line_in version cursor.old) }
{
    match version {
        ImageVersion::First => Ok(None),
        ImageVersion::Second => comment(alloc, cursor),
    }
}
