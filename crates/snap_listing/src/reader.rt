//! `read` and `read_source`: the listing that a text spells, with or
//! without its comments, or the first reason why the text is refused.
ghost use Rattle.std.specs.Prelude.{◌≡◌, ◌<◌, Err, IfOk, drop, length};
ghost use Rattle.snap_semantics.specs.Answers.{Answers};
ghost use Rattle.snap_semantics.specs.Comments.{header_lines, commented_of};
ghost use Rattle.snap_semantics.specs.Listing.{max_text, numbered_lines, with_lines};
ghost use Rattle.snap_semantics.specs.Listing.{listing_of_lines, listing_of};
ghost use Rattle.snap_listing_core.specs.Fields.{header_source};
ghost use Rattle.snap_listing.specs.ReaderSteps.{numbered_line, added_line};
ghost use Rattle.snap_semantics.specs.declared.fault.Fault.TheVariants.{Refused};
ghost use Rattle.snap_semantics.specs.declared.refusal.ListingRefusal.TheVariants.{TooLong};
ghost use Rattle.snap_text.specs.Lines.{view_line};

use crate::fault::ListingFault;
use crate::forms::line_form;
use crate::header::header_of;
use crate::instructions::checked_uses;
use crate::targets::{checked_target, checked_targets, push_line_copy};
use snap_listing_core::{CommentedListing, Header, Listing};
use snap_semantics::{Line, ListingRefusal};
use snap_text::{TextLines, TokenLine, line_comments, line_count};
use std::alloc::{AllocError, Global};

/// The most bytes of a listing's text.
const MOST_BYTES: usize = 65_536;

/// The most numbered lines.
const MOST_LINES: usize = 200;

/// The lines of the header.
const HEADER_LINES: usize = 7;

/// Reads the numbered line that `text` is, behind line number `last`, with `count` lines before it.
fn numbered_line(
    header: &Header,
    last: u64,
    count: usize,
    text: &TokenLine<'_>,
) -> Result<Line, ListingRefusal>
    ensures { result ≡ numbered_line (header_source header.now) last count (view_line text.now) }
{
    let Some(tokens) = &text.tokens else {
        return Err(ListingRefusal::BadLine(text.number));
    };
    let Some(line) = line_form(header.kind, tokens.as_slice()) else {
        return Err(ListingRefusal::BadLine(text.number));
    };
    if line.number <= last {
        return Err(ListingRefusal::NumberNotRising(text.number));
    }
    if count >= MOST_LINES {
        return Err(ListingRefusal::TooMany(text.number));
    }
    checked_uses(header, text.number, &line.instr)?;
    Ok(line)
}

/// Appends the numbered line that `text` is, and returns its number.
fn add_line(
    header: &Header,
    last: u64,
    lines: &mut Vec<Line>,
    text: &TokenLine<'_>,
) -> Result<u64, ListingFault>
    ensures { Answers (λ number. (number, lines.new.items)) result
        (added_line (header_source header.now) last lines.old.items (view_line text.now)) }
{
    match numbered_line(header, last, lines.len(), text) {
        Ok(line) => {
            push_line_copy(lines, &line)?;
            Ok(line.number)
        }
        Err(refusal) => Err(ListingFault::Refused(refusal)),
    }
}

/// Reads the numbered lines behind the header.
fn numbered_lines(
    alloc: Global,
    header: &Header,
    texts: &mut TextLines<'_>,
) -> Result<Vec<Line>, ListingFault>
    ensures { Answers (λ lines. lines.items) result (numbered_lines (header_source header.now) 0 0
        texts.old) }
{
    let mut lines = Vec::new(alloc);
    let mut last = 0;
    while let Some(text) = texts.next_line(alloc)? {
        last = add_line(header, last, &mut lines, &text)?;
    }
    Ok(lines)
}

/// Reads the header and the numbered lines of a text. Where a header line is missing, `after` is
/// the number of the line that is refused.
#[tactic(auto, unfolding(snap_semantics::specs::Listing::listing_of_lines))]
fn header_and_lines(
    alloc: Global,
    after: u64,
    texts: &mut TextLines<'_>,
) -> Result<(Header, Vec<Line>), ListingFault>
    ensures { Answers (λ parts. with_lines parts.1.items (header_source parts.0)) result
        (listing_of_lines after texts.old) }
{
    let header = header_of(alloc, after, texts)?;
    let lines = numbered_lines(alloc, &header, texts)?;
    checked_target(lines.as_slice(), header.scan)?;
    checked_target(lines.as_slice(), header.update)?;
    checked_targets(lines.as_slice())?;
    Ok((header, lines))
}

/// Reads the listing that `text` spells, without its comments.
///
/// # Errors
///
/// `Refused` with the first reason why `text` is no listing; `Memory` where memory runs out.
#[tactic(auto, using(crate::proofs::TextLength::few_lines), unfolding(snap_semantics::specs::Listing::listing_of))]
pub fn read_source(alloc: Global, text: &[u8]) -> Result<Listing, ListingFault>
    ensures listing { Answers (λ l. l) result (listing_of text.now) }
    ensures too_long { max_text < length text.now → result ≡ Err (Refused TooLong) }
{
    if text.len() > MOST_BYTES {
        return Err(ListingFault::Refused(ListingRefusal::TooLong));
    }
    let after = line_count(text) + 1;
    let mut texts = TextLines::new(text);
    let (header, lines) = header_and_lines(alloc, after, &mut texts)?;
    Ok(Listing::of(header, lines))
}

/// Returns the comments of the lines behind those of the header.
fn behind_header(
    alloc: Global,
    mut comments: Vec<Option<Vec<u8>>>,
) -> Result<Vec<Option<Vec<u8>>>, AllocError>
    ensures { IfOk result (λ behind. behind.items ≡ drop header_lines comments.items) }
{
    if comments.len() < HEADER_LINES {
        return Ok(Vec::new(alloc));
    }
    comments.split_off(HEADER_LINES)
}

/// Reads the listing that `text` spells, with the comments of its numbered lines.
///
/// # Errors
///
/// `Refused` with the first reason why `text` is no listing; `Memory` where memory runs out.
#[tactic(auto, using(crate::proofs::ReadComments::with_comments), unfolding(snap_semantics::specs::Comments::commented_of))]
pub fn read(alloc: Global, text: &[u8]) -> Result<CommentedListing, ListingFault>
    ensures listing { Answers (λ l. l) result (commented_of text.now) }
    ensures too_long { max_text < length text.now → result ≡ Err (Refused TooLong) }
{
    let listing = read_source(alloc, text)?;
    let found = line_comments(alloc, text)?;
    let comments = behind_header(alloc, found)?;
    Ok(CommentedListing::of(listing, comments))
}
