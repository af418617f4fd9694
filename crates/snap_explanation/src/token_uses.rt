//! What each token of a numbered line stands for, as the tokens beside it decide.
ghost use Rattle.std.specs.Prelude.{◌≡◌, option_map};
ghost use Rattle.snap_semantics.specs.ListingForms.{field_of_keyword};
ghost use Rattle.snap_text.specs.Tokens.{view_token};
ghost use Rattle.snap_explanation.specs.Steps.{placed_tokens};
ghost use Rattle.snap_explanation.specs.TokenUses.{opens_with, ends_with_view, has_row, lone_sort};
ghost use Rattle.snap_explanation.specs.TokenUses.{sort_at, field_use, word_use, tuple_kind};
ghost use Rattle.snap_explanation.specs.TokenUses.{tuple_use, use_at, is_view_word, is_words_word};
ghost use Rattle.snap_explanation.specs.TokenUses.{slot_of_word, slot_inside, slot_after};
ghost use Rattle.snap_explanation.specs.Views.{view_use};

use crate::pieces::PlacedToken;
use crate::spot::front;
use crate::tests::is_symbol;
use snap_listing::{field_of_keyword, is_reserved, same_word};
use snap_semantics::{Instr, Sort, Symbol, Tuple};
use snap_text::Token;
use snap_words::{Bank, Field, KindTag};

/// The most letters of a name, and one more.
const NAME_LETTERS: usize = 9;

/// What the next name of a line is.
#[derive(Clone, Copy, PartialEq, Eq)]
pub enum Slot {
    /// A row before `[`, else a scalar, or the view at the end.
    Value,
    /// A name behind a comma, where a tuple may have its row.
    Part,
    /// A `words` local.
    Words,
    /// A view.
    View,
}

/// What a token speaks of that has to be of the listing.
#[derive(Clone, Copy)]
pub enum Use<'a> {
    /// A name in the place of a local of this sort.
    Named(Sort, &'a [u8]),
    Bank(Bank),
    Field(Field),
    Handshake,
    /// The view of a word.
    View,
    Tuple(KindTag),
}

/// Returns whether the first token is this symbol.
fn opens_with(symbol: Symbol, tokens: &[PlacedToken<'_>]) -> bool
    ensures { result ≡ opens_with symbol (placed_tokens tokens.now) }
{
    match tokens {
        [] => false,
        [first, ..] => is_symbol(symbol, &first.token),
    }
}

/// Returns whether `behind` tokens stand behind the view that ends an instruction.
fn ends_with_view(instr: &Instr, behind: usize) -> bool
    ensures { result ≡ ends_with_view instr.now behind }
{
    match instr {
        Instr::Put(_, Tuple::Seq(..) | Tuple::Bits(..)) => behind == 1,
        Instr::PutView(..) => behind == 0,
        _ => false,
    }
}

/// Returns whether `behind` tokens may stand behind the row of a tuple: more than a comma, the view
/// and the bracket.
fn has_row(instr: &Instr, behind: usize) -> bool
    ensures { result ≡ has_row instr.now behind }
{
    match instr {
        Instr::Put(_, Tuple::Bits(..)) => 3 < behind,
        _ => false,
    }
}

/// Returns the sort of a name alone.
fn lone_sort(instr: &Instr, behind: usize) -> Sort
    ensures { result ≡ lone_sort instr.now behind }
{
    if ends_with_view(instr, behind) {
        Sort::View
    } else {
        Sort::Scalar
    }
}

/// Returns the sort that a name has to have, with the tokens `behind`.
#[tactic(auto, using(crate::proofs::Counts::placed_length))]
fn sort_at(instr: &Instr, slot: Slot, behind: &[PlacedToken<'_>]) -> Sort
    ensures { result ≡ sort_at instr.now slot (placed_tokens behind.now) }
{
    match slot {
        Slot::Words => Sort::Words,
        Slot::View => Sort::View,
        Slot::Value => {
            if opens_with(Symbol::OpenBracket, behind) {
                Sort::Row
            } else {
                lone_sort(instr, behind.len())
            }
        }
        Slot::Part => {
            let count = behind.len();
            if opens_with(Symbol::OpenBracket, behind)
                || (opens_with(Symbol::Comma, behind) && has_row(instr, count))
            {
                Sort::Row
            } else {
                lone_sort(instr, count)
            }
        }
    }
}

/// Returns a field, but for the `data` of a view.
fn field_use(field: Option<Field>, instr: &Instr) -> Option<Use<'static>>
    ensures { option_map view_use result ≡ field_use field instr.now }
{
    match (field, instr) {
        (None, _) | (_, Instr::ViewData(..)) => None,
        (Some(field), _) => Some(Use::Field(field)),
    }
}

/// Returns what a reserved word stands for.
fn word_use(instr: &Instr, word: &[u8], behind: &[PlacedToken<'_>]) -> Option<Use<'static>>
    ensures { option_map view_use result
        ≡ word_use instr.now word.now (placed_tokens behind.now) }
{
    if same_word(word, b"q") {
        Some(Use::Bank(Bank::Q))
    } else if same_word(word, b"p") {
        Some(Use::Bank(Bank::P))
    } else if same_word(word, b"v") {
        Some(Use::Bank(Bank::V))
    } else if same_word(word, b"hand") {
        Some(Use::Handshake)
    } else if same_word(word, b"view") {
        if opens_with(Symbol::OpenParenthesis, behind) {
            Some(Use::View)
        } else {
            None
        }
    } else {
        field_use(field_of_keyword(word), instr)
    }
}

/// Returns the kind that has this tuple.
fn tuple_kind(tuple: &Tuple) -> KindTag
    ensures { result ≡ tuple_kind tuple.now }
{
    match tuple {
        Tuple::Seq(..) => KindTag::Seq,
        Tuple::Bits(..) => KindTag::Bits,
        Tuple::Multi(..) => KindTag::Multi,
    }
}

/// Returns what a round bracket stands for that opens a tuple.
fn tuple_use(slot: Slot, instr: &Instr) -> Option<Use<'static>>
    ensures { option_map view_use result ≡ tuple_use slot instr.now }
{
    match (slot, instr) {
        (Slot::Value, Instr::Put(_, tuple)) => Some(Use::Tuple(tuple_kind(tuple))),
        _ => None,
    }
}

/// Returns what a token stands for, with the tokens `behind`.
pub fn use_at<'a>(
    instr: &Instr,
    slot: Slot,
    token: &Token<'a>,
    behind: &[PlacedToken<'_>],
) -> Option<Use<'a>>
    ensures { option_map view_use result
        ≡ use_at instr.now slot (view_token token.now) (placed_tokens behind.now) }
{
    match *token {
        Token::Identifier(word) => {
            if is_reserved(word) {
                word_use(instr, word, behind)
            } else {
                Some(Use::Named(sort_at(instr, slot, behind), front(word, NAME_LETTERS)))
            }
        }
        Token::Sign(Symbol::OpenParenthesis) => tuple_use(slot, instr),
        _ => None,
    }
}

/// Returns whether a view stands behind a word.
fn is_view_word(word: &[u8]) -> bool
    ensures { result ≡ is_view_word word.now }
{
    same_word(word, b"look") || same_word(word, b"return") || same_word(word, b"view")
}

/// Returns whether a `words` local stands behind a word.
fn is_words_word(word: &[u8]) -> bool
    ensures { result ≡ is_words_word word.now }
{
    same_word(word, b"get")
        || same_word(word, b"data")
        || same_word(word, b"seq")
        || same_word(word, b"toggle")
        || same_word(word, b"id")
        || same_word(word, b"hand")
}

/// Returns what stands behind a reserved word.
fn slot_of_word(word: &[u8]) -> Slot
    ensures { result ≡ slot_of_word word.now }
{
    if is_view_word(word) {
        Slot::View
    } else if is_words_word(word) {
        Slot::Words
    } else {
        Slot::Value
    }
}

/// Returns what stands behind a round bracket.
fn slot_inside(slot: Slot) -> Slot
    ensures { result ≡ slot_inside slot }
{
    match slot {
        Slot::Value | Slot::Part => Slot::Value,
        Slot::Words | Slot::View => Slot::Words,
    }
}

/// Returns what the next name is, behind a token.
pub fn slot_after(slot: Slot, token: &Token<'_>) -> Slot
    ensures { result ≡ slot_after slot (view_token token.now) }
{
    match *token {
        Token::Identifier(word) => {
            if is_reserved(word) {
                slot_of_word(word)
            } else {
                Slot::Value
            }
        }
        Token::Sign(Symbol::OpenParenthesis) => slot_inside(slot),
        Token::Sign(Symbol::Comma) => Slot::Part,
        _ => Slot::Value,
    }
}
