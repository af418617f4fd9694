//! Tests of a token: `is_word`, `is_symbol`, `is_identifier`, `is_name`, `is_line`.
ghost use Rattle.std.specs.Prelude.{◌≡◌};
ghost use Rattle.snap_text.specs.Tokens.{view_token};
ghost use Rattle.snap_explanation.specs.Tests.{is_word, is_symbol, is_identifier, is_name, is_line};

use snap_listing::{is_line_number, is_reserved};
use snap_semantics::Symbol;
use snap_text::Token;

/// Returns whether a token is this word.
pub fn is_word(word: &[u8], token: &Token<'_>) -> bool
    ensures { result ≡ is_word word.now (view_token token.now) }
{
    match token {
        Token::Identifier(found) => *found == word,
        _ => false,
    }
}

/// Returns whether a token is this symbol.
pub fn is_symbol(symbol: Symbol, token: &Token<'_>) -> bool
    ensures { result ≡ is_symbol symbol (view_token token.now) }
{
    match token {
        Token::Sign(found) => *found == symbol,
        _ => false,
    }
}

pub fn is_identifier(token: &Token<'_>) -> bool
    ensures { result ≡ is_identifier (view_token token.now) }
{
    match token {
        Token::Identifier(_) => true,
        _ => false,
    }
}

/// Returns whether a token is an identifier that is not reserved.
pub fn is_name(token: &Token<'_>) -> bool
    ensures { result ≡ is_name (view_token token.now) }
{
    match token {
        Token::Identifier(word) => !is_reserved(word),
        _ => false,
    }
}

/// Returns whether a token is the number of a line.
pub fn is_line(token: &Token<'_>) -> bool
    ensures { result ≡ is_line (view_token token.now) }
{
    match token {
        Token::Number(number) => is_line_number(*number),
        _ => false,
    }
}
