//! The rules that find a number, an identifier, a keyword or a symbol at the front of the tokens of
//! a line, or `None` if they do not fit.
ghost use Rattle.std.specs.Prelude.{◌≡◌};
ghost use Rattle.snap_semantics.specs.Rules.{number_at, identifier_at};
ghost use Rattle.snap_semantics.specs.Rules.{keyword_at, symbol_at, end_at};
ghost use Rattle.snap_text.specs.Tokens.{Finds, view_tokens};

use crate::lexer::Token;
use snap_semantics::Symbol;

/// Returns the number at the front of `tokens`, and the rest.
pub fn number_at<'a, 'b>(tokens: &'a [Token<'b>]) -> Option<(u64, &'a [Token<'b>])>
    ensures { Finds (λ x. (x.0, view_tokens x.1.now)) result (number_at (view_tokens tokens.now)) }
{
    match tokens {
        [Token::Number(number), rest @ ..] => Some((*number, rest)),
        _ => None,
    }
}

/// Returns the identifier at the front of `tokens`, and the rest.
pub fn identifier_at<'a, 'b>(tokens: &'a [Token<'b>]) -> Option<(&'b [u8], &'a [Token<'b>])>
    ensures { Finds (λ x. (x.0.now, view_tokens x.1.now)) result
        (identifier_at (view_tokens tokens.now)) }
{
    match tokens {
        [Token::Identifier(word), rest @ ..] => Some((*word, rest)),
        _ => None,
    }
}

/// Returns the rest behind the keyword `word` at the front of `tokens`.
pub fn keyword_at<'a, 'b>(word: &[u8], tokens: &'a [Token<'b>]) -> Option<&'a [Token<'b>]>
    ensures { Finds (λ x. view_tokens x.now) result (keyword_at word.now (view_tokens tokens.now)) }
{
    match tokens {
        [Token::Identifier(found), rest @ ..] if *found == word => Some(rest),
        _ => None,
    }
}

/// Returns the rest behind `symbol` at the front of `tokens`.
pub fn symbol_at<'a, 'b>(symbol: Symbol, tokens: &'a [Token<'b>]) -> Option<&'a [Token<'b>]>
    ensures { Finds (λ x. view_tokens x.now) result (symbol_at symbol (view_tokens tokens.now)) }
{
    match tokens {
        [Token::Sign(found), rest @ ..] if *found == symbol => Some(rest),
        _ => None,
    }
}

/// Returns `Some` if no tokens are left.
pub fn end_at(tokens: &[Token<'_>]) -> Option<()>
    ensures { Finds (λ x. x) result (end_at (view_tokens tokens.now)) }
{
    match tokens {
        [] => Some(()),
        _ => None,
    }
}
