//! Reads the tuple that a `put` line of a listing writes to
//! a word, for each kind, at the front of a line's tokens.
ghost use Rattle.snap_semantics.specs.ListingForms.{seq_tuple_at, bits_tuple_at};
ghost use Rattle.snap_semantics.specs.ListingForms.{multi_tuple_at, triple_at, tuple_at};
ghost use Rattle.snap_text.specs.Tokens.{Finds, view_tokens};

use crate::behind::{expr_behind, name_behind};
use snap_semantics::{Symbol, Tuple};
use snap_text::{Token, symbol_at};
use snap_words::KindTag;

/// Reads `(E, E, S)`.
#[tactic(auto, unfolding(snap_semantics::specs::ListingForms::seq_tuple_at))]
fn seq_tuple_at<'a, 'b>(tokens: &'a [Token<'b>]) -> Option<(Tuple, &'a [Token<'b>])>
    ensures { Finds (λ x. (x.0, view_tokens x.1.now)) result
        (seq_tuple_at (view_tokens tokens.now)) }
{
    let Some((datum, rest)) = expr_behind(Symbol::OpenParenthesis, false, tokens) else {
        return None;
    };
    let Some((seq, rest)) = expr_behind(Symbol::Comma, false, rest) else {
        return None;
    };
    let Some((view, rest)) = name_behind(Symbol::Comma, rest) else {
        return None;
    };
    let rest = symbol_at(Symbol::CloseParenthesis, rest)?;
    Some((Tuple::Seq(datum, seq, view), rest))
}

/// Reads `(E, R, E, S)`.
#[tactic(auto, unfolding(snap_semantics::specs::ListingForms::bits_tuple_at))]
fn bits_tuple_at<'a, 'b>(tokens: &'a [Token<'b>]) -> Option<(Tuple, &'a [Token<'b>])>
    ensures { Finds (λ x. (x.0, view_tokens x.1.now)) result
        (bits_tuple_at (view_tokens tokens.now)) }
{
    let Some((datum, rest)) = expr_behind(Symbol::OpenParenthesis, false, tokens) else {
        return None;
    };
    let Some((handshakes, rest)) = name_behind(Symbol::Comma, rest) else {
        return None;
    };
    let Some((toggle, rest)) = expr_behind(Symbol::Comma, false, rest) else {
        return None;
    };
    let Some((view, rest)) = name_behind(Symbol::Comma, rest) else {
        return None;
    };
    let rest = symbol_at(Symbol::CloseParenthesis, rest)?;
    Some((Tuple::Bits(datum, handshakes, toggle, view), rest))
}

/// Reads `(E, E, E)`.
#[tactic(auto, unfolding(snap_semantics::specs::ListingForms::multi_tuple_at))]
fn multi_tuple_at<'a, 'b>(tokens: &'a [Token<'b>]) -> Option<(Tuple, &'a [Token<'b>])>
    ensures { Finds (λ x. (x.0, view_tokens x.1.now)) result
        (multi_tuple_at (view_tokens tokens.now)) }
{
    let Some((datum, rest)) = expr_behind(Symbol::OpenParenthesis, false, tokens) else {
        return None;
    };
    let Some((id, rest)) = expr_behind(Symbol::Comma, false, rest) else {
        return None;
    };
    let Some((toggle, rest)) = expr_behind(Symbol::Comma, false, rest) else {
        return None;
    };
    let rest = symbol_at(Symbol::CloseParenthesis, rest)?;
    Some((Tuple::Multi(datum, id, toggle), rest))
}

/// Reads a tuple of three parts. A tuple that ends with a name alone is of kind seq in a listing of
/// kind seq.
#[tactic(auto, unfolding(snap_semantics::specs::ListingForms::triple_at))]
fn triple_at<'a, 'b>(kind: KindTag, tokens: &'a [Token<'b>]) -> Option<(Tuple, &'a [Token<'b>])>
    ensures { Finds (λ x. (x.0, view_tokens x.1.now)) result
        (triple_at kind (view_tokens tokens.now)) }
{
    match kind {
        KindTag::Seq => {
            if let Some(found) = seq_tuple_at(tokens) {
                return Some(found);
            }
            multi_tuple_at(tokens)
        }
        KindTag::Bits => multi_tuple_at(tokens),
        KindTag::Multi => multi_tuple_at(tokens),
    }
}

/// Reads a tuple of any kind, in a listing of the kind `kind`.
#[tactic(auto, unfolding(snap_semantics::specs::ListingForms::tuple_at))]
pub fn tuple_at<'a, 'b>(kind: KindTag, tokens: &'a [Token<'b>]) -> Option<(Tuple, &'a [Token<'b>])>
    ensures { Finds (λ x. (x.0, view_tokens x.1.now)) result
        (tuple_at kind (view_tokens tokens.now)) }
{
    if let Some(found) = bits_tuple_at(tokens) {
        return Some(found);
    }
    triple_at(kind, tokens)
}
