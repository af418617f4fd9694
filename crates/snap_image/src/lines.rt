//! `lines`: reads the lines of an image, each with its comment (`CommentedLines`).
ghost use Rattle.std.specs.Prelude.{◌≡◌};
ghost use Rattle.snap_semantics.specs.Answers.{Answers};
ghost use Rattle.snap_image.specs.Image.{is_number_in};
ghost use Rattle.snap_image.specs.ImageListing.{new_number, line_in, lines_in};
ghost use Rattle.snap_listing_core.specs.Fields.{header_source};
ghost use Rattle.snap_image.specs.Reads.{Reads};
ghost use Rattle.snap_image.specs.DecoderSteps.{added_line, listed};

use crate::comments::behind_line;
use crate::cursor::Cursor;
use crate::fault::ImageFault;
use crate::image::ImageVersion;
use crate::instrs::instr;
use snap_listing::{is_line_number, push_line_copy};
use snap_listing_core::Header;
use snap_semantics::{ImageRefusal, Line, ListingRefusal};
use std::alloc::Global;

/// The largest line number of the first version.
const MAX_FIRST_NUMBER: u64 = 999;

/// Lines, and for each of them its comment, if it has one.
#[derive(Drop)]
pub struct CommentedLines {
    pub lines: Vec<Line>,
    pub comments: Vec<Option<Vec<u8>>>,
}

/// Returns whether a version has this line number.
fn is_number_in(version: ImageVersion, number: u64) -> bool
    ensures { result ≡ is_number_in version number }
{
    match version {
        ImageVersion::First => 1 <= number && number <= MAX_FIRST_NUMBER,
        ImageVersion::Second => is_line_number(number),
    }
}

/// Checks a line number of a version, which is to be above `last`.
fn checked_number(
    version: ImageVersion,
    line: u64,
    last: u64,
    number: u64,
) -> Result<(), ImageRefusal>
    ensures { result ≡ new_number version line last number }
{
    if !is_number_in(version, number) {
        Err(ImageRefusal::Invalid(ListingRefusal::BadLine(line)))
    } else if number <= last {
        Err(ImageRefusal::Invalid(ListingRefusal::NumberNotRising(line)))
    } else {
        Ok(())
    }
}

/// Reads line `line`, counted from 1, behind line number `last`.
#[tactic(auto, unfolding(crate::specs::ImageListing::line_in))]
fn line_at(
    header: &Header,
    version: ImageVersion,
    line: u64,
    last: u64,
    cursor: &mut Cursor<'_>,
) -> Result<Line, ImageRefusal>
    ensures { Reads result cursor.new (line_in (header_source header.now) version line last
        cursor.old) }
{
    let number = cursor.short()?;
    checked_number(version, line, last, number)?;
    let instr = instr(header, line, cursor)?;
    Ok(Line { number, instr })
}

/// Which line comes next.
#[derive(Clone, Copy)]
struct NextLine {
    /// Its place among the lines, counted from 1.
    line: u64,
    /// The line number before it; 0 where it is the first.
    last: u64,
}

/// Reads the next line with its comment, appends both, and returns the line's number.
fn add_line(
    alloc: Global,
    header: &Header,
    version: ImageVersion,
    next: NextLine,
    read: &mut CommentedLines,
    cursor: &mut Cursor<'_>,
) -> Result<u64, ImageFault>
    ensures { Answers (λ number. (number, listed read.new, cursor.new)) result
        (added_line (header_source header.now) version next.line next.last (listed read.old)
        cursor.old) }
{
    match line_at(header, version, next.line, next.last, cursor) {
        Ok(found) => {
            push_line_copy(&mut read.lines, &found)?;
            read.comments.push(behind_line(alloc, version, cursor)?)?;
            Ok(found.number)
        }
        Err(refusal) => Err(ImageFault::Refused(refusal)),
    }
}

/// Reads `count` lines, with their comments.
///
/// # Errors
///
/// `Refused` with the first reason why the bytes at the cursor are no such lines; `Memory` where
/// memory runs out.
pub fn lines(
    alloc: Global,
    header: &Header,
    version: ImageVersion,
    count: u64,
    cursor: &mut Cursor<'_>,
) -> Result<CommentedLines, ImageFault>
    ensures { Answers (λ read. (listed read, cursor.new)) result
        (lines_in (header_source header.now) version count 1 0 cursor.old) }
{
    let mut read = CommentedLines {
        lines: Vec::new(alloc),
        comments: Vec::new(alloc),
    };
    let mut last = 0;
    for place in 0..count {
        let next = NextLine {
            line: place + 1,
            last,
        };
        last = add_line(alloc, header, version, next, &mut read, cursor)?;
    }
    Ok(read)
}
