//! The lines of a listing as text, by their numbers.
ghost use Rattle.std.specs.Prelude.{◌≡◌, [], IfOk, OnOk, drop, map, option_map};
ghost use Rattle.snap_semantics.specs.CanonicalText.{canonical_text};
ghost use Rattle.snap_semantics.specs.Comments.{uncommented};
ghost use Rattle.snap_semantics.specs.Layout.{line_to};
ghost use Rattle.snap_semantics.specs.Token.{text_lines};
ghost use Rattle.snap_listing.specs.LineTexts.{behind, first_tokens, seen_line};
ghost use Rattle.snap_listing.specs.LineTexts.{text_with, texts_from, written};

use crate::print;
use snap_listing_core::{CommentedListing, Listing};
use snap_semantics::Line;
use snap_text::{TextLines, push_tokens};
use std::alloc::{AllocError, Global};
use std::marker::Model;

/// The number of lines before the numbered ones.
const HEADER_LINES: u64 = 7;

/// A line as it stands in the canonical text of its listing, without its comment.
#[derive(Drop)]
struct LineText {
    number: u64,
    text: Vec<u8>,
}

/// The lines of a listing as text, in their order.
#[derive(Drop)]
pub struct LineTexts {
    lines: Vec<LineText>,
}

impl Model for LineTexts {
    ghost use Rattle.std.specs.Prelude.{List, map};
    ghost use Rattle.snap_listing.specs.LineTexts.{NumberedText, seen_line};

    ghost Value = { List NumberedText };

    ghost view = { λ t. map seen_line t.lines.items };
}

/// Returns the canonical text of a listing without comments.
fn canonical_text(alloc: Global, listing: &Listing) -> Result<Vec<u8>, AllocError>
    ensures { IfOk result (λ text. text.items ≡ canonical_text (uncommented listing.now)) }
{
    let listing = CommentedListing::uncommented(alloc, listing.copy(alloc)?)?;
    print(alloc, &listing)
}

/// Returns the next line of a text, laid out anew; an empty text behind the last line.
fn next_text(alloc: Global, lines: &mut TextLines<'_>) -> Result<Vec<u8>, AllocError>
    ensures text { IfOk result (λ text. text.items ≡ line_to [] (first_tokens lines.old)) }
    ensures rest { OnOk result (lines.new ≡ behind lines.old) }
{
    let mut text = Vec::new(alloc);
    let Some(line) = lines.next_line(alloc)? else {
        return Ok(text);
    };
    if let Some(tokens) = line.tokens {
        push_tokens(&mut text, tokens.as_slice())?;
    }
    Ok(text)
}

/// Passes over the lines before the numbered ones.
#[tactic(auto, using(crate::proofs::Written::passed))]
fn pass_header(alloc: Global, lines: &mut TextLines<'_>) -> Result<(), AllocError>
    ensures { OnOk result (lines.new ≡ drop 7 lines.old) }
{
    for _line in 0..HEADER_LINES {
        next_text(alloc, lines)?;
    }
    Ok(())
}

/// Returns the numbers of `lines`, each with its line of the text.
fn numbered_texts(
    alloc: Global,
    lines: &[Line],
    rest: &mut TextLines<'_>,
) -> Result<Vec<LineText>, AllocError>
    ensures { IfOk result (λ texts. map seen_line texts.items ≡ texts_from lines.now rest.old) }
{
    let mut texts = Vec::new(alloc);
    for line in lines {
        let text = next_text(alloc, rest)?;
        texts.push(LineText {
            number: line.number,
            text,
        })?;
    }
    Ok(texts)
}

impl LineTexts {
    /// Returns the lines of `listing` as text.
    ///
    /// # Errors
    ///
    /// `AllocError` where memory runs out.
    #[tactic(auto, using(crate::proofs::Written::lines_written))]
    pub fn of(alloc: Global, listing: &Listing) -> Result<LineTexts, AllocError>
        ensures { IfOk result (λ texts. texts ≡ map written listing.now.lines) }
    {
        let text = canonical_text(alloc, listing)?;
        let mut rest = TextLines::new(text.as_slice());
        pass_header(alloc, &mut rest)?;
        let lines = numbered_texts(alloc, listing.lines(), &mut rest)?;
        Ok(LineTexts { lines })
    }

    /// Returns the text of line `number`; `None` where there is no such line.
    pub fn with_number(&self, number: u64) -> Option<&[u8]>
        ensures { option_map (λ text. text.now) result ≡ text_with self.now number }
    {
        find_text(self.lines.as_slice(), number)
    }
}

/// Returns the text of the line with this number.
fn find_text(lines: &[LineText], number: u64) -> Option<&[u8]>
    ensures { option_map (λ text. text.now) result ≡ text_with (map seen_line lines.now) number }
{
    let mut k = 0;
    while k < lines.len() {
        if lines[k].number == number {
            return Some(lines[k].text.as_slice());
        }
        k += 1;
    }
    None
}
