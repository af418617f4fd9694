//! Reads names, indices and terms at the front of the tokens of a listing's line.
ghost use Rattle.std.specs.Prelude.{◌≡◌, bytes_eq};
ghost use Rattle.snap_semantics.specs.ListingForms.{name_of_identifier, name_at};
ghost use Rattle.snap_semantics.specs.ListingForms.{index_of_identifier, number_index};
ghost use Rattle.snap_semantics.specs.ListingForms.{place_index, identifier_index, index_at};
ghost use Rattle.snap_semantics.specs.ListingForms.{place_at, named_place_at, arg_term};
ghost use Rattle.snap_semantics.specs.ListingForms.{row_term, field_of_keyword, field_term};
ghost use Rattle.snap_semantics.specs.ListingForms.{handshake_term, index_term, term_at};
ghost use Rattle.snap_text.specs.Tokens.{Finds, view_tokens};

use crate::forms::is_reserved;
use snap_semantics::{Index, Name, Symbol, Term};
use snap_text::{Token, identifier_at, keyword_at, number_at, symbol_at};
use snap_words::Field;

/// Returns whether two words are the same.
pub fn same_word(one: &[u8], other: &[u8]) -> bool
    ensures { result ≡ bytes_eq one.now other.now }
{
    one == other
}

/// Returns the name that an identifier is; of a long one the first nine letters.
pub fn name_of_identifier(word: &[u8]) -> Option<Name>
    ensures { result ≡ name_of_identifier word.now }
{
    if is_reserved(word) {
        None
    } else if word.len() <= 9 {
        Some(Name::of(word))
    } else {
        Some(Name::of(&word[..9]))
    }
}

/// Reads a name.
#[tactic(auto, unfolding(snap_semantics::specs::ListingForms::name_at))]
pub fn name_at<'a, 'b>(tokens: &'a [Token<'b>]) -> Option<(Name, &'a [Token<'b>])>
    ensures { Finds (λ x. (x.0, view_tokens x.1.now)) result (name_at (view_tokens tokens.now)) }
{
    let (word, rest) = identifier_at(tokens)?;
    let name = name_of_identifier(word)?;
    Some((name, rest))
}

/// Returns the index that an identifier is.
pub fn index_of_identifier(word: &[u8]) -> Option<Index>
    ensures { result ≡ index_of_identifier word.now }
{
    if same_word(word, b"n") {
        Some(Index::Processes)
    } else if same_word(word, b"w") {
        Some(Index::Words)
    } else if same_word(word, b"me") {
        Some(Index::Me)
    } else if same_word(word, b"word") {
        Some(Index::Word)
    } else {
        let name = name_of_identifier(word)?;
        Some(Index::Scalar(name))
    }
}

/// Reads a number as an index.
#[tactic(auto, unfolding(snap_semantics::specs::ListingForms::number_index))]
pub fn number_index<'a, 'b>(tokens: &'a [Token<'b>]) -> Option<(Index, &'a [Token<'b>])>
    ensures { Finds (λ x. (x.0, view_tokens x.1.now)) result
        (number_index (view_tokens tokens.now)) }
{
    let (number, rest) = number_at(tokens)?;
    Some((Index::Number(number), rest))
}

/// Reads `@`, which stands for a place in a quantifier alone.
#[tactic(auto, unfolding(snap_semantics::specs::ListingForms::place_index))]
pub fn place_index<'a, 'b>(
    in_quantifier: bool,
    tokens: &'a [Token<'b>],
) -> Option<(Index, &'a [Token<'b>])>
    ensures { Finds (λ x. (x.0, view_tokens x.1.now)) result
        (place_index in_quantifier (view_tokens tokens.now)) }
{
    let rest = symbol_at(Symbol::At, tokens)?;
    if in_quantifier {
        Some((Index::Place, rest))
    } else {
        None
    }
}

/// Reads an identifier as an index.
#[tactic(auto, unfolding(snap_semantics::specs::ListingForms::identifier_index))]
pub fn identifier_index<'a, 'b>(tokens: &'a [Token<'b>]) -> Option<(Index, &'a [Token<'b>])>
    ensures { Finds (λ x. (x.0, view_tokens x.1.now)) result
        (identifier_index (view_tokens tokens.now)) }
{
    let (word, rest) = identifier_at(tokens)?;
    let index = index_of_identifier(word)?;
    Some((index, rest))
}

/// Reads an index.
#[tactic(auto, unfolding(snap_semantics::specs::ListingForms::index_at))]
pub fn index_at<'a, 'b>(
    in_quantifier: bool,
    tokens: &'a [Token<'b>],
) -> Option<(Index, &'a [Token<'b>])>
    ensures { Finds (λ x. (x.0, view_tokens x.1.now)) result
        (index_at in_quantifier (view_tokens tokens.now)) }
{
    if let Some(found) = number_index(tokens) {
        return Some(found);
    }
    if let Some(found) = place_index(in_quantifier, tokens) {
        return Some(found);
    }
    identifier_index(tokens)
}

/// Reads `[I]`.
#[tactic(auto, unfolding(snap_semantics::specs::ListingForms::place_at))]
pub fn place_at<'a, 'b>(
    in_quantifier: bool,
    tokens: &'a [Token<'b>],
) -> Option<(Index, &'a [Token<'b>])>
    ensures { Finds (λ x. (x.0, view_tokens x.1.now)) result
        (place_at in_quantifier (view_tokens tokens.now)) }
{
    let rest = symbol_at(Symbol::OpenBracket, tokens)?;
    let Some((index, rest)) = index_at(in_quantifier, rest) else {
        return None;
    };
    let rest = symbol_at(Symbol::CloseBracket, rest)?;
    Some((index, rest))
}

/// Reads a local's name and `[I]`.
#[tactic(auto, unfolding(snap_semantics::specs::ListingForms::named_place_at))]
pub fn named_place_at<'a, 'b>(
    in_quantifier: bool,
    tokens: &'a [Token<'b>],
) -> Option<((Name, Index), &'a [Token<'b>])>
    ensures { Finds (λ x. (x.0, view_tokens x.1.now)) result
        (named_place_at in_quantifier (view_tokens tokens.now)) }
{
    let Some((name, rest)) = name_at(tokens) else {
        return None;
    };
    let Some((index, rest)) = place_at(in_quantifier, rest) else {
        return None;
    };
    Some(((name, index), rest))
}

/// Reads `arg`.
#[tactic(auto, unfolding(snap_semantics::specs::ListingForms::arg_term))]
pub fn arg_term<'a, 'b>(tokens: &'a [Token<'b>]) -> Option<(Term, &'a [Token<'b>])>
    ensures { Finds (λ x. (x.0, view_tokens x.1.now)) result (arg_term (view_tokens tokens.now)) }
{
    let rest = keyword_at(b"arg", tokens)?;
    Some((Term::Arg, rest))
}

/// Reads `R[I]`.
#[tactic(auto, unfolding(snap_semantics::specs::ListingForms::row_term))]
pub fn row_term<'a, 'b>(
    in_quantifier: bool,
    tokens: &'a [Token<'b>],
) -> Option<(Term, &'a [Token<'b>])>
    ensures { Finds (λ x. (x.0, view_tokens x.1.now)) result
        (row_term in_quantifier (view_tokens tokens.now)) }
{
    let Some(((name, index), rest)) = named_place_at(in_quantifier, tokens) else {
        return None;
    };
    Some((Term::Row(name, index), rest))
}

/// Returns the field of one number that an identifier names.
pub fn field_of_keyword(word: &[u8]) -> Option<Field>
    ensures { result ≡ field_of_keyword word.now }
{
    if same_word(word, b"seq") {
        Some(Field::Seq)
    } else if same_word(word, b"data") {
        Some(Field::Datum)
    } else if same_word(word, b"toggle") {
        Some(Field::Toggle)
    } else if same_word(word, b"id") {
        Some(Field::Id)
    } else {
        None
    }
}

/// Reads `seq(W[I])`, or the same with `data`, `toggle` or `id`.
#[tactic(auto, unfolding(snap_semantics::specs::ListingForms::field_term))]
pub fn field_term<'a, 'b>(
    in_quantifier: bool,
    tokens: &'a [Token<'b>],
) -> Option<(Term, &'a [Token<'b>])>
    ensures { Finds (λ x. (x.0, view_tokens x.1.now)) result
        (field_term in_quantifier (view_tokens tokens.now)) }
{
    let (word, rest) = identifier_at(tokens)?;
    let field = field_of_keyword(word)?;
    let rest = symbol_at(Symbol::OpenParenthesis, rest)?;
    let Some(((name, index), rest)) = named_place_at(in_quantifier, rest) else {
        return None;
    };
    let rest = symbol_at(Symbol::CloseParenthesis, rest)?;
    Some((Term::Field(field, name, index), rest))
}

/// Reads `handshake(W[I],J)`.
#[tactic(auto, unfolding(snap_semantics::specs::ListingForms::handshake_term))]
pub fn handshake_term<'a, 'b>(
    in_quantifier: bool,
    tokens: &'a [Token<'b>],
) -> Option<(Term, &'a [Token<'b>])>
    ensures { Finds (λ x. (x.0, view_tokens x.1.now)) result
        (handshake_term in_quantifier (view_tokens tokens.now)) }
{
    let rest = keyword_at(b"hand", tokens)?;
    let rest = symbol_at(Symbol::OpenParenthesis, rest)?;
    let Some(((name, index), rest)) = named_place_at(in_quantifier, rest) else {
        return None;
    };
    let rest = symbol_at(Symbol::Comma, rest)?;
    let Some((handshake, rest)) = index_at(in_quantifier, rest) else {
        return None;
    };
    let rest = symbol_at(Symbol::CloseParenthesis, rest)?;
    Some((Term::Handshake(name, index, handshake), rest))
}

/// Reads an index as a term.
#[tactic(auto, unfolding(snap_semantics::specs::ListingForms::index_term))]
pub fn index_term<'a, 'b>(
    in_quantifier: bool,
    tokens: &'a [Token<'b>],
) -> Option<(Term, &'a [Token<'b>])>
    ensures { Finds (λ x. (x.0, view_tokens x.1.now)) result
        (index_term in_quantifier (view_tokens tokens.now)) }
{
    let Some((index, rest)) = index_at(in_quantifier, tokens) else {
        return None;
    };
    Some((Term::Index(index), rest))
}

/// Reads a term.
#[tactic(auto, unfolding(snap_semantics::specs::ListingForms::term_at))]
pub fn term_at<'a, 'b>(
    in_quantifier: bool,
    tokens: &'a [Token<'b>],
) -> Option<(Term, &'a [Token<'b>])>
    ensures { Finds (λ x. (x.0, view_tokens x.1.now)) result
        (term_at in_quantifier (view_tokens tokens.now)) }
{
    if let Some(found) = arg_term(tokens) {
        return Some(found);
    }
    if let Some(found) = row_term(in_quantifier, tokens) {
        return Some(found);
    }
    if let Some(found) = field_term(in_quantifier, tokens) {
        return Some(found);
    }
    if let Some(found) = handshake_term(in_quantifier, tokens) {
        return Some(found);
    }
    index_term(in_quantifier, tokens)
}
