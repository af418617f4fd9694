//! `print`: the canonical text of a listing, with the comments of its lines.
ghost use Rattle.std.specs.Prelude.{◌≡◌, [], ◌∷◌, ◌++◌, length, map, codes, OnOk, IfOk};
ghost use Rattle.snap_semantics.specs.CanonicalText.{comment_end, commented_text, canonical_text};
ghost use Rattle.snap_semantics.specs.Layout.{line_to, line_text};
ghost use Rattle.snap_semantics.specs.Spelling.{spelled_line, spelled_names};
ghost use Rattle.snap_semantics.specs.Spelling.{spelled_entry, kind_keyword};
ghost use Rattle.snap_listing_core.specs.Fields.{seen_comment};

use crate::spelling::Spelling;
use snap_listing_core::CommentedListing;
use snap_semantics::{Line, Name};
use snap_text::{push_laid_out, push_text, push_tokens};
use snap_words::KindTag;
use std::alloc::{AllocError, Global};

/// Appends the line of the kind.
fn push_kind_line(out: &mut Vec<u8>, alloc: Global, kind: KindTag) -> Result<(), AllocError>
    ensures { OnOk result (out.new.items ≡ out.old.items
        ++ line_text (spelled_names (codes "kind") (kind_keyword kind ∷ []))) }
{
    let mut line = Spelling::new(alloc);
    line.push_kind(kind);
    push_laid_out(out, line.tokens()?)
}

/// Appends a line of a keyword and names.
fn push_names_line(
    out: &mut Vec<u8>,
    alloc: Global,
    keyword: &[u8],
    names: &[Name],
) -> Result<(), AllocError>
    ensures { OnOk result (out.new.items ≡ out.old.items
        ++ line_text (spelled_names keyword.now names.now)) }
{
    let mut line = Spelling::new(alloc);
    line.push_names(keyword, names);
    push_laid_out(out, line.tokens()?)
}

/// Appends a line of a keyword and the number of a line.
fn push_entry_line(
    out: &mut Vec<u8>,
    alloc: Global,
    keyword: &[u8],
    number: u64,
) -> Result<(), AllocError>
    ensures { OnOk result (out.new.items ≡ out.old.items
        ++ line_text (spelled_entry keyword.now number)) }
{
    let mut line = Spelling::new(alloc);
    line.push_entry(keyword, number);
    push_laid_out(out, line.tokens()?)
}

/// Appends the end of a line: its comment, if it has one, and a line feed.
fn push_comment_end(out: &mut Vec<u8>, comment: &Option<Vec<u8>>) -> Result<(), AllocError>
    ensures { OnOk result (out.new.items ≡ out.old.items
        ++ comment_end (seen_comment comment.now)) }
{
    if let Some(bytes) = comment {
        push_text(out, b" #")?;
        push_text(out, bytes.as_slice())?;
    }
    push_text(out, b"\n")
}

/// Appends a numbered line with its comment.
fn push_numbered_line(
    out: &mut Vec<u8>,
    alloc: Global,
    numbered: &Line,
    comment: &Option<Vec<u8>>,
) -> Result<(), AllocError>
    ensures { OnOk result (out.new.items ≡ out.old.items
        ++ line_to (comment_end (seen_comment comment.now)) (spelled_line numbered.now)) }
{
    let mut line = Spelling::new(alloc);
    line.push_line(numbered);
    let tokens = line.tokens()?;
    push_tokens(out, tokens)?;
    push_comment_end(out, comment)
}

/// Appends the numbered lines, each with its comment.
fn push_lines(
    out: &mut Vec<u8>,
    alloc: Global,
    lines: &[Line],
    comments: &[Option<Vec<u8>>],
) -> Result<(), AllocError>
    requires { length comments.now ≡ length lines.now }
    ensures { OnOk result (out.new.items ≡ out.old.items
        ++ commented_text (map seen_comment comments.now) (map spelled_line lines.now)) }
{
    for (line, comment) in lines.iter().zip(comments) {
        push_numbered_line(out, alloc, line, comment)?;
    }
    Ok(())
}

/// Returns the canonical text of `listing`, with its comments.
///
/// # Errors
///
/// `AllocError` where memory runs out.
pub fn print(alloc: Global, listing: &CommentedListing) -> Result<Vec<u8>, AllocError>
    ensures { IfOk result (λ text. text.items ≡ canonical_text listing.now) }
{
    let source = listing.listing();
    let mut out = Vec::new(alloc);
    push_kind_line(&mut out, alloc, source.kind())?;
    push_names_line(&mut out, alloc, b"scalar", source.scalars())?;
    push_names_line(&mut out, alloc, b"row", source.rows())?;
    push_names_line(&mut out, alloc, b"words", source.words())?;
    push_names_line(&mut out, alloc, b"view", source.views())?;
    push_entry_line(&mut out, alloc, b"scan", source.scan())?;
    push_entry_line(&mut out, alloc, b"update", source.update())?;
    push_lines(&mut out, alloc, source.lines(), listing.comments())?;
    Ok(out)
}
