//! `Token`: an identifier, a number or a symbol; and
//! `tokens`, which reads the tokens of a line from its bytes.
ghost use Rattle.std.specs.Prelude.{◌≡◌, ◌≤◌, ◌<◌, length, IfOk, option_map};
ghost use Rattle.std.specs.List.{list_all};
ghost use Rattle.snap_semantics.specs.Token.{is_letter, is_digit, is_lexeme_byte};
ghost use Rattle.snap_semantics.specs.Token.{is_space, symbol_of, number_of};
ghost use Rattle.snap_semantics.specs.Token.{has_leading_zero, lexeme_token, tokens_of};
ghost use Rattle.snap_text.specs.Tokens.{Finds, view_token, view_tokens, lexeme_len, front_symbol};

use snap_semantics::Symbol;
use std::alloc::{AllocError, Global};

/// An identifier, a number or a symbol.
#[derive(Clone, Copy)]
pub enum Token<'a> {
    Identifier(&'a [u8]),
    Number(u64),
    Sign(Symbol),
}

fn is_letter(b: u8) -> bool
    ensures { result ≡ is_letter b }
{
    b'a' <= b && b <= b'z'
}

pub(crate) fn is_digit(b: u8) -> bool
    ensures { result ≡ is_digit b }
{
    b'0' <= b && b <= b'9'
}

/// Returns whether a byte is of an identifier or of a number.
fn is_lexeme_byte(b: u8) -> bool
    ensures { result ≡ is_lexeme_byte b }
{
    is_letter(b) || is_digit(b)
}

pub(crate) fn is_space(b: u8) -> bool
    ensures { result ≡ is_space b }
{
    b == b' ' || b == b'\t' || b == b'\r'
}

/// Returns how many letters and digits stand at the front.
pub fn lexeme_len(bytes: &[u8]) -> usize
    ensures value { result ≡ lexeme_len bytes.now }
    ensures within { result ≤ length bytes.now }
{
    let mut len = 0;
    while len < bytes.len() && is_lexeme_byte(bytes[len]) {
        len += 1;
    }
    len
}

fn all_letters(lexeme: &[u8]) -> bool
    ensures { result ≡ list_all is_letter lexeme.now }
{
    lexeme.iter().all(|b| is_letter(*b))
}

fn has_leading_zero(lexeme: &[u8]) -> bool
    ensures { result ≡ has_leading_zero lexeme.now }
{
    match lexeme {
        [first, _, ..] => *first == b'0',
        _ => false,
    }
}

/// Returns the number that `digits` spell; `None` above 2^64 - 1.
fn number_of(digits: &[u8]) -> Option<u64>
    ensures { result ≡ number_of 0 digits.now }
{
    let mut value = 0u64;
    let mut k = 0;
    while k < digits.len() {
        let b = digits[k];
        if !is_digit(b) {
            return None;
        }
        let digit = u64::from(b - b'0');
        if value > (u64::MAX - digit) / 10 {
            return None;
        }
        value = value * 10 + digit;
        k += 1;
    }
    Some(value)
}

/// Returns the token that a lexeme of letters and digits is.
fn lexeme_token(lexeme: &[u8]) -> Option<Token<'_>>
    ensures { Finds view_token result (lexeme_token lexeme.now) }
{
    if all_letters(lexeme) {
        return Some(Token::Identifier(lexeme));
    }
    if has_leading_zero(lexeme) {
        return None;
    }
    match number_of(lexeme) {
        Some(value) => Some(Token::Number(value)),
        None => None,
    }
}

/// Returns the symbol that a byte alone is.
fn symbol_of(b: u8) -> Option<Symbol>
    ensures { result ≡ symbol_of b }
{
    match b {
        b':' => Some(Symbol::Colon),
        b'=' => Some(Symbol::Equal),
        b'<' => Some(Symbol::Less),
        b'+' => Some(Symbol::Plus),
        b',' => Some(Symbol::Comma),
        b'(' => Some(Symbol::OpenParenthesis),
        b')' => Some(Symbol::CloseParenthesis),
        b'[' => Some(Symbol::OpenBracket),
        b']' => Some(Symbol::CloseBracket),
        b'@' => Some(Symbol::At),
        b'*' => Some(Symbol::Star),
        _ => None,
    }
}

/// Returns the symbol at the front, and what stands behind it.
fn front_symbol(bytes: &[u8]) -> Option<(Symbol, &[u8])>
    ensures { Finds (λ x. (x.0, x.1.now)) result (front_symbol bytes.now) }
{
    match bytes {
        [] => None,
        [b'!', b'=', rest @ ..] => Some((Symbol::Different, rest)),
        [b, rest @ ..] => match symbol_of(*b) {
            Some(symbol) => Some((symbol, rest)),
            None => None,
        },
    }
}

/// Reads the tokens of `line`; `None` where a byte begins no token.
///
/// # Errors
///
/// `AllocError` where memory runs out.
pub fn tokens(alloc: Global, line: &[u8]) -> Result<Option<Vec<Token<'_>>>, AllocError>
    ensures { IfOk result (λ found. option_map (λ ts. view_tokens ts.items) found
        ≡ tokens_of line.now) }
{
    let mut out = Vec::new(alloc);
    let mut rest = line;
    while !rest.is_empty() {
        let b = rest[0];
        if is_lexeme_byte(b) {
            let (lexeme, after) = rest.split_at(lexeme_len(rest));
            match lexeme_token(lexeme) {
                Some(token) => out.push(token)?,
                None => return Ok(None),
            }
            rest = after;
        } else if is_space(b) {
            rest = &rest[1..];
        } else if b == b'#' {
            return Ok(Some(out));
        } else {
            match front_symbol(rest) {
                Some((symbol, after)) => {
                    out.push(Token::Sign(symbol))?;
                    rest = after;
                }
                None => return Ok(None),
            }
        }
    }
    Ok(Some(out))
}
