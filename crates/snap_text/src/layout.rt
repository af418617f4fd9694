//! Lines of tokens laid out: where a space stands between two of them.
ghost use Rattle.std.specs.Prelude.{◌≡◌, ◌<◌, ◌≤◌, [], ◌++◌, ◌+◌, ◌^◌, OnOk};
ghost use Rattle.snap_semantics.specs.Layout.{symbol_text, token_text, depth_behind};
ghost use Rattle.snap_semantics.specs.Layout.{parts_behind, parts_before, gap, layout};
ghost use Rattle.snap_semantics.specs.Layout.{line_to, line_text, opened, closed};
ghost use Rattle.snap_text.specs.Tokens.{view_token, view_tokens};

use crate::lexer::Token;
use crate::push::{push_number, push_text};
use snap_semantics::Symbol;
use std::alloc::AllocError;

/// Returns how a symbol is spelled.
pub fn symbol_text(symbol: Symbol) -> &'static [u8]
    ensures { result.now ≡ symbol_text symbol }
{
    match symbol {
        Symbol::Colon => b":",
        Symbol::Equal => b"=",
        Symbol::Different => b"!=",
        Symbol::Less => b"<",
        Symbol::Plus => b"+",
        Symbol::Comma => b",",
        Symbol::OpenParenthesis => b"(",
        Symbol::CloseParenthesis => b")",
        Symbol::OpenBracket => b"[",
        Symbol::CloseBracket => b"]",
        Symbol::At => b"@",
        Symbol::Star => b"*",
    }
}

/// Appends a token.
fn push_token(out: &mut Vec<u8>, token: Token<'_>) -> Result<(), AllocError>
    ensures { OnOk result (out.new.items ≡ out.old.items ++ token_text (view_token token.entry)) }
{
    match token {
        Token::Identifier(word) => push_text(out, word),
        Token::Number(number) => push_number(out, number),
        Token::Sign(symbol) => push_text(out, symbol_text(symbol)),
    }
}

/// Returns how deep in the brackets of a tuple the place behind a `(` is.
fn opened(depth: u64, before: Token<'_>) -> u64
    requires { depth + 1 < 2 ^ 64 }
    ensures value { result ≡ opened depth (view_token before.entry) }
    ensures within { result ≤ depth + 1 }
{
    match before {
        Token::Sign(Symbol::Equal) if depth == 0 => 1,
        _ if depth == 0 => 0,
        _ => depth + 1,
    }
}

/// Returns how deep in the brackets of a tuple the place behind a `)` is.
fn closed(depth: u64) -> u64
    ensures value { result ≡ closed depth }
    ensures within { result ≤ depth }
{
    depth.saturating_sub(1)
}

/// Returns how deep in the brackets of a tuple the place behind `token` is.
fn depth_behind(depth: u64, before: Token<'_>, token: Token<'_>) -> u64
    requires { depth + 1 < 2 ^ 64 }
    ensures value { result ≡ depth_behind depth (view_token before.entry) (view_token token.entry) }
    ensures within { result ≤ depth + 1 }
{
    match token {
        Token::Sign(Symbol::OpenParenthesis) => opened(depth, before),
        Token::Sign(Symbol::CloseParenthesis) => closed(depth),
        _ => depth,
    }
}

/// Returns whether a space may stand behind a token at this depth.
fn parts_behind(depth: u64, token: Token<'_>) -> bool
    ensures { result ≡ parts_behind depth (view_token token.entry) }
{
    match token {
        Token::Sign(Symbol::OpenParenthesis | Symbol::OpenBracket | Symbol::Star) => false,
        Token::Sign(Symbol::Comma) => depth == 1,
        _ => true,
    }
}

/// Returns whether a space may stand before a token, behind the one before it.
fn parts_before(before: Token<'_>, token: Token<'_>) -> bool
    ensures { result ≡ parts_before (view_token before.entry) (view_token token.entry) }
{
    match (before, token) {
        (Token::Identifier(_), Token::Sign(Symbol::OpenParenthesis | Symbol::OpenBracket)) => false,
        (
            _,
            Token::Sign(
                Symbol::CloseParenthesis
                | Symbol::CloseBracket
                | Symbol::Comma
                | Symbol::Colon
                | Symbol::Star,
            ),
        ) => false,
        _ => true,
    }
}

/// Appends a space where one stands between two tokens.
fn push_gap(
    out: &mut Vec<u8>,
    depth: u64,
    before: Token<'_>,
    token: Token<'_>,
) -> Result<(), AllocError>
    ensures { OnOk result (out.new.items ≡ out.old.items ++ gap depth (view_token before.entry)
        (view_token token.entry)) }
{
    if parts_behind(depth, before) && parts_before(before, token) {
        push_text(out, b" ")?;
    }
    Ok(())
}

/// Appends `tokens`, which stand behind `first`.
fn push_behind(out: &mut Vec<u8>, first: Token<'_>, tokens: &[Token<'_>]) -> Result<(), AllocError>
    ensures { OnOk result (out.new.items ≡ out.old.items ++ layout [] 0 (view_token first.entry)
        (view_tokens tokens.now)) }
{
    let mut depth = 0;
    let mut before = first;
    for token in tokens {
        push_gap(out, depth, before, *token)?;
        push_token(out, *token)?;
        depth = depth_behind(depth, before, *token);
        before = *token;
    }
    Ok(())
}

/// Appends the tokens of a line, laid out, without a line feed.
///
/// # Errors
///
/// `AllocError` where memory runs out.
pub fn push_tokens(out: &mut Vec<u8>, tokens: &[Token<'_>]) -> Result<(), AllocError>
    ensures { OnOk result (out.new.items ≡ out.old.items ++ line_to [] (view_tokens tokens.now)) }
{
    match tokens {
        [] => Ok(()),
        [first, rest @ ..] => {
            push_token(out, *first)?;
            push_behind(out, *first, rest)
        }
    }
}

/// Appends a line of tokens, laid out, with its line feed.
///
/// # Errors
///
/// `AllocError` where memory runs out.
pub fn push_laid_out(out: &mut Vec<u8>, tokens: &[Token<'_>]) -> Result<(), AllocError>
    ensures { OnOk result (out.new.items ≡ out.old.items ++ line_text (view_tokens tokens.now)) }
{
    push_tokens(out, tokens)?;
    push_text(out, b"\n")
}
