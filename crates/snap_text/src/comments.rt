//! `line_comments`: for each line of a text that has
//! tokens, the bytes after its first `#`, if it has one.
ghost use Rattle.std.specs.Prelude.{◌≡◌, IfOk, map, option_map, vec_items};
ghost use Rattle.snap_semantics.specs.Comments.{comment_of, line_comments};
ghost use Rattle.snap_semantics.specs.Token.{lines_of, tokens_of};
ghost use Rattle.snap_text.specs.Tokens.{has_tokens};

use crate::lexer::is_space;
use crate::lines::split_line;
use std::alloc::{AllocError, Global};

/// Returns whether a line is more than space and a comment, which its first byte behind the space
/// tells.
fn is_more_than_space(line: &[u8]) -> bool
    ensures { result ≡ has_tokens (tokens_of line.now) }
{
    for b in line {
        if !is_space(*b) {
            return *b != b'#';
        }
    }
    false
}

/// Returns what stands behind the first `#` of a line.
fn comment_of(line: &[u8]) -> Option<&[u8]>
    ensures { option_map (λ b. b.now) result ≡ comment_of line.now }
{
    let mut rest = line;
    while let [first, after @ ..] = rest {
        if *first == b'#' {
            return Some(after);
        }
        rest = after;
    }
    None
}

/// Returns a copy of `comment`.
fn kept_comment(alloc: Global, comment: Option<&[u8]>) -> Result<Option<Vec<u8>>, AllocError>
    ensures { IfOk result (λ kept. option_map vec_items kept
        ≡ option_map (λ b. b.now) comment.entry) }
{
    match comment {
        Some(bytes) => Ok(Some(Vec::from_slice(alloc, bytes)?)),
        None => Ok(None),
    }
}

/// Returns the comments of the lines of `text` that have tokens: for each such line the bytes
/// behind its first `#`, if it has one.
///
/// # Errors
///
/// `AllocError` where memory runs out.
pub fn line_comments(alloc: Global, text: &[u8]) -> Result<Vec<Option<Vec<u8>>>, AllocError>
    ensures { IfOk result (λ comments. map (option_map vec_items) comments.items
        ≡ line_comments (lines_of text.now)) }
{
    let mut comments = Vec::new(alloc);
    let mut rest = text;
    while !rest.is_empty() {
        let (line, after) = split_line(rest);
        if is_more_than_space(line) {
            comments.push(kept_comment(alloc, comment_of(line))?)?;
        }
        rest = after;
    }
    Ok(comments)
}
