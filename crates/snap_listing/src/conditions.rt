//! Reads an expression or a condition, and `where`, a range or `goto N` beside it, at the front of
//! the tokens of a listing's line; and `join_keyword`.
ghost use Rattle.std.specs.Prelude.{◌≡◌, Some};
ghost use Rattle.snap_semantics.specs.ListingForms.{not_expr, term_expr, expr_at, relation_at};
ghost use Rattle.snap_semantics.specs.ListingForms.{comparison_at, join_keyword, joined_at};
ghost use Rattle.snap_semantics.specs.ListingForms.{third_on, second_on, first_on};
ghost use Rattle.snap_semantics.specs.ListingForms.{condition_at, where_at, range_at, target_at};
ghost use Rattle.snap_listing.specs.Sums.{plus_term, sum_on};
ghost use Rattle.snap_text.specs.Tokens.{Finds, view_tokens};

use crate::terms::term_at;
use snap_semantics::{Comparison, Condition, Expr, Join, Range, Relation, Symbol, Term};
use snap_text::{Token, keyword_at, number_at, symbol_at};

/// Returns the keyword that joins comparisons.
pub fn join_keyword(join: Join) -> &'static [u8]
    ensures { result.now ≡ join_keyword join }
{
    match join {
        Join::And => b"and",
        Join::Or => b"or",
    }
}

/// Reads `not` and a term.
#[tactic(auto, unfolding(snap_semantics::specs::ListingForms::not_expr))]
fn not_expr<'a, 'b>(in_quantifier: bool, tokens: &'a [Token<'b>]) -> Option<(Expr, &'a [Token<'b>])>
    ensures { Finds (λ x. (x.0, view_tokens x.1.now)) result
        (not_expr in_quantifier (view_tokens tokens.now)) }
{
    let rest = keyword_at(b"not", tokens)?;
    let Some((term, rest)) = term_at(in_quantifier, rest) else {
        return None;
    };
    Some((Expr::Not(term), rest))
}

/// Reads `+` and a term.
fn plus_term<'a, 'b>(
    in_quantifier: bool,
    tokens: &'a [Token<'b>],
) -> Option<(Term, &'a [Token<'b>])>
    ensures { Finds (λ x. (x.0, view_tokens x.1.now)) result
        (plus_term in_quantifier (view_tokens tokens.now)) }
{
    let rest = symbol_at(Symbol::Plus, tokens)?;
    term_at(in_quantifier, rest)
}

/// Reads the sum that begins with this term, or the term alone.
#[tactic(auto, unfolding(snap_semantics::specs::ListingForms::plus_expr))]
fn sum_on<'a, 'b>(
    in_quantifier: bool,
    first: Term,
    tokens: &'a [Token<'b>],
) -> (Expr, &'a [Token<'b>])
    ensures { sum_on in_quantifier first (view_tokens tokens.now)
        ≡ Some (result.0, view_tokens result.1.now) }
{
    if let Some((second, rest)) = plus_term(in_quantifier, tokens) {
        return (Expr::Sum(first, second), rest);
    }
    (Expr::Term(first), tokens)
}

/// Reads a term, or a sum of two.
#[tactic(auto, unfolding(snap_semantics::specs::ListingForms::term_expr))]
fn term_expr<'a, 'b>(
    in_quantifier: bool,
    tokens: &'a [Token<'b>],
) -> Option<(Expr, &'a [Token<'b>])>
    ensures { Finds (λ x. (x.0, view_tokens x.1.now)) result
        (term_expr in_quantifier (view_tokens tokens.now)) }
{
    let Some((term, rest)) = term_at(in_quantifier, tokens) else {
        return None;
    };
    Some(sum_on(in_quantifier, term, rest))
}

/// Reads an expression.
#[tactic(auto, unfolding(snap_semantics::specs::ListingForms::expr_at))]
pub fn expr_at<'a, 'b>(
    in_quantifier: bool,
    tokens: &'a [Token<'b>],
) -> Option<(Expr, &'a [Token<'b>])>
    ensures { Finds (λ x. (x.0, view_tokens x.1.now)) result
        (expr_at in_quantifier (view_tokens tokens.now)) }
{
    if let Some(found) = not_expr(in_quantifier, tokens) {
        return Some(found);
    }
    term_expr(in_quantifier, tokens)
}

/// Reads `=`, `!=` or `<`.
#[tactic(auto, unfolding(snap_semantics::specs::ListingForms::relation_at))]
fn relation_at<'a, 'b>(tokens: &'a [Token<'b>]) -> Option<(Relation, &'a [Token<'b>])>
    ensures { Finds (λ x. (x.0, view_tokens x.1.now)) result
        (relation_at (view_tokens tokens.now)) }
{
    if let Some(rest) = symbol_at(Symbol::Equal, tokens) {
        return Some((Relation::Equal, rest));
    }
    if let Some(rest) = symbol_at(Symbol::Different, tokens) {
        return Some((Relation::Different, rest));
    }
    let rest = symbol_at(Symbol::Less, tokens)?;
    Some((Relation::Less, rest))
}

/// Reads two terms compared.
#[tactic(auto, unfolding(snap_semantics::specs::ListingForms::comparison_at))]
fn comparison_at<'a, 'b>(
    in_quantifier: bool,
    tokens: &'a [Token<'b>],
) -> Option<(Comparison, &'a [Token<'b>])>
    ensures { Finds (λ x. (x.0, view_tokens x.1.now)) result
        (comparison_at in_quantifier (view_tokens tokens.now)) }
{
    let Some((left, rest)) = term_at(in_quantifier, tokens) else {
        return None;
    };
    let (relation, rest) = relation_at(rest)?;
    let Some((right, rest)) = term_at(in_quantifier, rest) else {
        return None;
    };
    Some((
        Comparison {
            left,
            relation,
            right,
        },
        rest,
    ))
}

/// Reads a comparison behind `and` or `or`.
#[tactic(auto, unfolding(snap_semantics::specs::ListingForms::joined_at))]
fn joined_at<'a, 'b>(
    in_quantifier: bool,
    join: Join,
    tokens: &'a [Token<'b>],
) -> Option<(Comparison, &'a [Token<'b>])>
    ensures { Finds (λ x. (x.0, view_tokens x.1.now)) result
        (joined_at in_quantifier join (view_tokens tokens.now)) }
{
    let rest = keyword_at(join_keyword(join), tokens)?;
    comparison_at(in_quantifier, rest)
}

/// Reads the condition that begins with these three comparisons.
#[tactic(auto, unfolding(snap_semantics::specs::ListingForms::third_on))]
fn third_on<'a, 'b>(
    in_quantifier: bool,
    join: Join,
    first: Comparison,
    second: Comparison,
    third: Comparison,
    tokens: &'a [Token<'b>],
) -> (Condition, &'a [Token<'b>])
    ensures { third_on in_quantifier join first second third (view_tokens tokens.now)
        ≡ Some (result.0, view_tokens result.1.now) }
{
    if let Some((fourth, rest)) = joined_at(in_quantifier, join, tokens) {
        return (Condition::Four(join, first, second, third, fourth), rest);
    }
    (Condition::Three(join, first, second, third), tokens)
}

/// Reads the condition that begins with these two comparisons.
#[tactic(auto, unfolding(snap_semantics::specs::ListingForms::second_on))]
fn second_on<'a, 'b>(
    in_quantifier: bool,
    join: Join,
    first: Comparison,
    second: Comparison,
    tokens: &'a [Token<'b>],
) -> (Condition, &'a [Token<'b>])
    ensures { second_on in_quantifier join first second (view_tokens tokens.now)
        ≡ Some (result.0, view_tokens result.1.now) }
{
    if let Some((third, rest)) = joined_at(in_quantifier, join, tokens) {
        return third_on(in_quantifier, join, first, second, third, rest);
    }
    (Condition::Two(join, first, second), tokens)
}

/// Reads the condition that begins with this comparison.
#[tactic(auto, unfolding(snap_semantics::specs::ListingForms::first_on))]
fn first_on<'a, 'b>(
    in_quantifier: bool,
    first: Comparison,
    tokens: &'a [Token<'b>],
) -> (Condition, &'a [Token<'b>])
    ensures { first_on in_quantifier first (view_tokens tokens.now)
        ≡ Some (result.0, view_tokens result.1.now) }
{
    if let Some((second, rest)) = joined_at(in_quantifier, Join::And, tokens) {
        return second_on(in_quantifier, Join::And, first, second, rest);
    }
    if let Some((second, rest)) = joined_at(in_quantifier, Join::Or, tokens) {
        return second_on(in_quantifier, Join::Or, first, second, rest);
    }
    (Condition::One(first), tokens)
}

/// Reads a condition.
#[tactic(auto, unfolding(snap_semantics::specs::ListingForms::condition_at))]
pub fn condition_at<'a, 'b>(
    in_quantifier: bool,
    tokens: &'a [Token<'b>],
) -> Option<(Condition, &'a [Token<'b>])>
    ensures { Finds (λ x. (x.0, view_tokens x.1.now)) result
        (condition_at in_quantifier (view_tokens tokens.now)) }
{
    let Some((first, rest)) = comparison_at(in_quantifier, tokens) else {
        return None;
    };
    Some(first_on(in_quantifier, first, rest))
}

/// Reads `where C` if it stands at the front of `tokens`, and nothing otherwise.
#[tactic(auto, unfolding(snap_semantics::specs::ListingForms::where_at))]
pub fn where_at<'a, 'b>(tokens: &'a [Token<'b>]) -> (Option<Condition>, &'a [Token<'b>])
    ensures { where_at (view_tokens tokens.now) ≡ Some (result.0, view_tokens result.1.now) }
{
    if let Some(rest) = keyword_at(b"where", tokens)
        && let Some((condition, rest)) = condition_at(true, rest)
    {
        return (Some(condition), rest);
    }
    (None, tokens)
}

/// Reads `n` or `w`.
#[tactic(auto, unfolding(snap_semantics::specs::ListingForms::range_at))]
pub fn range_at<'a, 'b>(tokens: &'a [Token<'b>]) -> Option<(Range, &'a [Token<'b>])>
    ensures { Finds (λ x. (x.0, view_tokens x.1.now)) result (range_at (view_tokens tokens.now)) }
{
    if let Some(rest) = keyword_at(b"n", tokens) {
        return Some((Range::Processes, rest));
    }
    let rest = keyword_at(b"w", tokens)?;
    Some((Range::Words, rest))
}

/// Reads `goto N`.
#[tactic(auto, unfolding(snap_semantics::specs::ListingForms::target_at))]
pub fn target_at<'a, 'b>(tokens: &'a [Token<'b>]) -> Option<(u64, &'a [Token<'b>])>
    ensures { Finds (λ x. (x.0, view_tokens x.1.now)) result (target_at (view_tokens tokens.now)) }
{
    let rest = keyword_at(b"goto", tokens)?;
    number_at(rest)
}
