//! `placed_tokens`: the tokens of a line with their columns, up to the first byte that begins no
//! token.
ghost use Rattle.std.specs.Prelude.{◌≡◌, ◌≤◌, ◌<◌, ◌++◌, IfOk, OnOk, length, map};
ghost use Rattle.snap_semantics.specs.Token.{begins_with, is_lexeme_byte};
ghost use Rattle.snap_text.specs.Tokens.{lexeme_len, view_tokens};
ghost use Rattle.snap_explanation.specs.Pieces.{first_placed, piece_len, placed_of};
ghost use Rattle.snap_explanation.specs.Steps.{view_placed, view_placed_token};

use snap_text::{Token, lexeme_len, tokens};
use std::alloc::{AllocError, Global};

/// A token, and the column of its first byte.
#[derive(Clone, Copy)]
pub struct PlacedToken<'a> {
    pub column: usize,
    pub token: Token<'a>,
}

/// The tokens of a line before the first byte that begins no token, and the column of that byte, if
/// there is one. Columns count bytes, from 1.
#[derive(Drop)]
pub struct PlacedTokens<'a> {
    pub tokens: Vec<PlacedToken<'a>>,
    pub stray: Option<usize>,
}

/// Returns whether a byte is of an identifier or of a number.
pub fn is_lexeme_byte(byte: u8) -> bool
    ensures { result ≡ is_lexeme_byte byte }
{
    (b'a' <= byte && byte <= b'z') || (b'0' <= byte && byte <= b'9')
}

/// Returns whether the first of `bytes` is `byte`.
pub fn begins_with(byte: u8, bytes: &[u8]) -> bool
    ensures { result ≡ begins_with byte bytes.now }
{
    match bytes {
        [] => false,
        [first, ..] => byte == *first,
    }
}

/// Returns the length of the first piece: letters and digits side by side, `!=`, or one byte.
pub fn piece_len(bytes: &[u8]) -> usize
    ensures value { result ≡ piece_len bytes.now }
    ensures within { result ≤ length bytes.now }
    ensures some { 0 < length bytes.now → 0 < result }
{
    match bytes {
        [] => 0,
        [first, rest @ ..] => {
            if is_lexeme_byte(*first) {
                lexeme_len(rest) + 1
            } else if *first == b'!' && begins_with(b'=', rest) {
                2
            } else {
                1
            }
        }
    }
}

/// Appends the first token of a piece, which has no more, in its column.
fn push_first<'a>(
    out: &mut Vec<PlacedToken<'a>>,
    column: usize,
    found: &[Token<'a>],
) -> Result<(), AllocError>
    ensures { OnOk result (map view_placed_token out.new.items
        ≡ map view_placed_token out.old.items ++ first_placed column (view_tokens found.now)) }
{
    match found {
        [] => Ok(()),
        [token, ..] => Ok(out.push(PlacedToken {
            column,
            token: *token,
        })?),
    }
}

/// Returns the tokens of `line` with their columns.
///
/// # Errors
///
/// `AllocError` where memory runs out.
pub fn placed_tokens(alloc: Global, line: &[u8]) -> Result<PlacedTokens<'_>, AllocError>
    ensures { IfOk result (λ placed. view_placed placed ≡ placed_of line.now) }
{
    let mut out = Vec::new(alloc);
    let mut column = 1;
    let mut rest = line;
    while !rest.is_empty() && rest[0] != b'#' {
        let (piece, after) = rest.split_at(piece_len(rest));
        match tokens(alloc, piece)? {
            None => {
                return Ok(PlacedTokens {
                    tokens: out,
                    stray: Some(column),
                });
            }
            Some(found) => push_first(&mut out, column, found.as_slice())?,
        }
        column += piece.len();
        rest = after;
    }
    Ok(PlacedTokens {
        tokens: out,
        stray: None,
    })
}
