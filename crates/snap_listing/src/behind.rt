//! Reads the parts of a listing's line that begin with a symbol:
//! a symbol and an expression, a name or an index; and `[@]`.
ghost use Rattle.snap_listing.specs.Rules.{expr_behind, name_behind};
ghost use Rattle.snap_listing.specs.Rules.{index_behind, every_place};
ghost use Rattle.snap_text.specs.Tokens.{Finds, view_tokens};

use crate::conditions::expr_at;
use crate::terms::{index_at, name_at};
use snap_semantics::{Expr, Index, Name, Symbol};
use snap_text::{Token, symbol_at};

/// Reads a symbol and an expression.
pub fn expr_behind<'a, 'b>(
    symbol: Symbol,
    in_quantifier: bool,
    tokens: &'a [Token<'b>],
) -> Option<(Expr, &'a [Token<'b>])>
    ensures { Finds (λ x. (x.0, view_tokens x.1.now)) result (expr_behind symbol in_quantifier
        (view_tokens tokens.now)) }
{
    let rest = symbol_at(symbol, tokens)?;
    expr_at(in_quantifier, rest)
}

/// Reads a symbol and a name.
pub fn name_behind<'a, 'b>(
    symbol: Symbol,
    tokens: &'a [Token<'b>],
) -> Option<(Name, &'a [Token<'b>])>
    ensures { Finds (λ x. (x.0, view_tokens x.1.now)) result
        (name_behind symbol (view_tokens tokens.now)) }
{
    let rest = symbol_at(symbol, tokens)?;
    name_at(rest)
}

/// Reads a symbol and an index.
pub fn index_behind<'a, 'b>(
    symbol: Symbol,
    tokens: &'a [Token<'b>],
) -> Option<(Index, &'a [Token<'b>])>
    ensures { Finds (λ x. (x.0, view_tokens x.1.now)) result
        (index_behind symbol (view_tokens tokens.now)) }
{
    let rest = symbol_at(symbol, tokens)?;
    index_at(false, rest)
}

/// Reads `[@]`.
pub fn every_place<'a, 'b>(tokens: &'a [Token<'b>]) -> Option<&'a [Token<'b>]>
    ensures { Finds (λ x. view_tokens x.now) result (every_place (view_tokens tokens.now)) }
{
    let rest = symbol_at(Symbol::OpenBracket, tokens)?;
    let rest = symbol_at(Symbol::At, rest)?;
    symbol_at(Symbol::CloseBracket, rest)
}
