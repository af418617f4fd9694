//! The rules for numbered lines: the reserved words, the numbers that lines may have, and for each
//! form of line a function that reads it from after its first keyword to the end of the line.
ghost use Rattle.std.specs.List.{list_any};
ghost use Rattle.std.specs.Prelude.{◌≡◌, bytes_eq};
ghost use Rattle.snap_semantics.specs.Rules.{or_else};
ghost use Rattle.snap_semantics.specs.ListingForms.{is_line_number, is_reserved};
ghost use Rattle.snap_semantics.specs.ListingForms.{let_form, let_place_form, get_form};
ghost use Rattle.snap_semantics.specs.ListingForms.{pair_at, bit_bank_at, bit_form, look_form};
ghost use Rattle.snap_semantics.specs.ListingForms.{put_form, put_bit_form, put_view_form};
ghost use Rattle.snap_semantics.specs.ListingForms.{view_data_form, view_of_form, each_form};
ghost use Rattle.snap_semantics.specs.ListingForms.{first_form, next_form, if_form, if_all_form};
ghost use Rattle.snap_semantics.specs.ListingForms.{goto_form, call_form, return_form};
ghost use Rattle.snap_semantics.specs.ListingForms.{finish_form, form_of_keyword, line_form};
ghost use Rattle.snap_text.specs.Tokens.{Finds, view_tokens};

use crate::behind::{every_place, expr_behind, index_behind, name_behind};
use crate::conditions::{condition_at, range_at, target_at, where_at};
use crate::terms::{name_at, named_place_at, place_at, same_word};
use crate::tuples::tuple_at;
use snap_semantics::{BitBank, Index, Instr, Line, Symbol};
use snap_text::{Token, end_at, identifier_at, keyword_at, number_at, symbol_at};
use snap_words::KindTag;

/// The reserved words, which are no names.
const RESERVED_WORDS: [&[u8]; 40] = [
    b"kind", b"seq", b"bit", b"multi", b"scalar", b"row", b"words", b"view", b"scan", b"update",
    b"let", b"get", b"look", b"put", b"each", b"first", b"next", b"if", b"all", b"goto", b"call",
    b"return", b"finish", b"where", b"and", b"or", b"not", b"n", b"w", b"me", b"word", b"arg",
    b"r", b"q", b"p", b"v", b"data", b"hand", b"toggle", b"id",
];

/// Returns whether `word` is one of `words`.
fn is_one_of(word: &[u8], words: &[&[u8]]) -> bool
    ensures { result ≡ list_any (λ w. bytes_eq word.now w.now) words.now }
{
    words.iter().any(|w| word == *w)
}

/// Returns whether `word` is reserved, so that it is no name.
pub fn is_reserved(word: &[u8]) -> bool
    ensures { result ≡ is_reserved word.now }
{
    is_one_of(word, &RESERVED_WORDS)
}

/// The largest number of a line.
const MAX_LINE_NUMBER: u64 = 9_999;

/// Returns whether a line may have this number.
pub fn is_line_number(number: u64) -> bool
    ensures { result ≡ is_line_number number }
{
    1 <= number && number <= MAX_LINE_NUMBER
}

/// Reads `let X = E`.
#[tactic(auto, unfolding(snap_semantics::specs::ListingForms::let_form))]
fn let_form(tokens: &[Token<'_>]) -> Option<Instr>
    ensures { Finds (λ x. x) result (let_form (view_tokens tokens.now)) }
{
    let Some((scalar, rest)) = name_at(tokens) else {
        return None;
    };
    let Some((value, rest)) = expr_behind(Symbol::Equal, false, rest) else {
        return None;
    };
    let Some(()) = end_at(rest) else {
        return None;
    };
    Some(Instr::Let(scalar, value))
}

/// Reads `let R[I] = E`.
#[tactic(auto, unfolding(snap_semantics::specs::ListingForms::let_place_form))]
fn let_place_form(tokens: &[Token<'_>]) -> Option<Instr>
    ensures { Finds (λ x. x) result (let_place_form (view_tokens tokens.now)) }
{
    let Some(((row, place), rest)) = named_place_at(false, tokens) else {
        return None;
    };
    let Some((value, rest)) = expr_behind(Symbol::Equal, false, rest) else {
        return None;
    };
    let Some(()) = end_at(rest) else {
        return None;
    };
    Some(Instr::LetPlace(row, place, value))
}

/// Reads `get W[I] = r[J]`.
#[tactic(auto, unfolding(snap_semantics::specs::ListingForms::get_form))]
fn get_form(tokens: &[Token<'_>]) -> Option<Instr>
    ensures { Finds (λ x. x) result (get_form (view_tokens tokens.now)) }
{
    let Some(((words, place), rest)) = named_place_at(false, tokens) else {
        return None;
    };
    let Some(rest) = symbol_at(Symbol::Equal, rest) else {
        return None;
    };
    let Some(rest) = keyword_at(b"r", rest) else {
        return None;
    };
    let Some((register, rest)) = place_at(false, rest) else {
        return None;
    };
    let Some(()) = end_at(rest) else {
        return None;
    };
    Some(Instr::Get(words, place, register))
}

/// Reads `[I,J]`.
#[tactic(auto, unfolding(snap_semantics::specs::ListingForms::pair_at))]
fn pair_at<'a, 'b>(tokens: &'a [Token<'b>]) -> Option<((Index, Index), &'a [Token<'b>])>
    ensures { Finds (λ x. (x.0, view_tokens x.1.now)) result (pair_at (view_tokens tokens.now)) }
{
    let Some((first, rest)) = index_behind(Symbol::OpenBracket, tokens) else {
        return None;
    };
    let Some((second, rest)) = index_behind(Symbol::Comma, rest) else {
        return None;
    };
    let rest = symbol_at(Symbol::CloseBracket, rest)?;
    Some(((first, second), rest))
}

/// Reads `q` or `p`.
#[tactic(auto, unfolding(snap_semantics::specs::ListingForms::bit_bank_at))]
fn bit_bank_at<'a, 'b>(tokens: &'a [Token<'b>]) -> Option<(BitBank, &'a [Token<'b>])>
    ensures { Finds (λ x. (x.0, view_tokens x.1.now)) result
        (bit_bank_at (view_tokens tokens.now)) }
{
    if let Some(rest) = keyword_at(b"q", tokens) {
        return Some((BitBank::Q, rest));
    }
    let rest = keyword_at(b"p", tokens)?;
    Some((BitBank::P, rest))
}

/// Reads `bit X = q[I,J]` or `bit X = p[I,J]`.
#[tactic(auto, unfolding(snap_semantics::specs::ListingForms::bit_form))]
fn bit_form(tokens: &[Token<'_>]) -> Option<Instr>
    ensures { Finds (λ x. x) result (bit_form (view_tokens tokens.now)) }
{
    let Some((scalar, rest)) = name_at(tokens) else {
        return None;
    };
    let Some(rest) = symbol_at(Symbol::Equal, rest) else {
        return None;
    };
    let Some((bank, rest)) = bit_bank_at(rest) else {
        return None;
    };
    let Some(((first, second), rest)) = pair_at(rest) else {
        return None;
    };
    let Some(()) = end_at(rest) else {
        return None;
    };
    Some(Instr::Bit(scalar, bank, first, second))
}

/// Reads `look S = v[I]`.
#[tactic(auto, unfolding(snap_semantics::specs::ListingForms::look_form))]
fn look_form(tokens: &[Token<'_>]) -> Option<Instr>
    ensures { Finds (λ x. x) result (look_form (view_tokens tokens.now)) }
{
    let Some((view, rest)) = name_at(tokens) else {
        return None;
    };
    let Some(rest) = symbol_at(Symbol::Equal, rest) else {
        return None;
    };
    let Some(rest) = keyword_at(b"v", rest) else {
        return None;
    };
    let Some((register, rest)) = place_at(false, rest) else {
        return None;
    };
    let Some(()) = end_at(rest) else {
        return None;
    };
    Some(Instr::Look(view, register))
}

/// Reads `put r[I] = ` and a tuple.
#[tactic(auto, unfolding(snap_semantics::specs::ListingForms::put_form))]
fn put_form(kind: KindTag, tokens: &[Token<'_>]) -> Option<Instr>
    ensures { Finds (λ x. x) result (put_form kind (view_tokens tokens.now)) }
{
    let Some(rest) = keyword_at(b"r", tokens) else {
        return None;
    };
    let Some((register, rest)) = place_at(false, rest) else {
        return None;
    };
    let Some(rest) = symbol_at(Symbol::Equal, rest) else {
        return None;
    };
    let Some((tuple, rest)) = tuple_at(kind, rest) else {
        return None;
    };
    let Some(()) = end_at(rest) else {
        return None;
    };
    Some(Instr::Put(register, tuple))
}

/// Reads `put q[I,J] = E` or `put p[I,J] = E`.
#[tactic(auto, unfolding(snap_semantics::specs::ListingForms::put_bit_form))]
fn put_bit_form(tokens: &[Token<'_>]) -> Option<Instr>
    ensures { Finds (λ x. x) result (put_bit_form (view_tokens tokens.now)) }
{
    let Some((bank, rest)) = bit_bank_at(tokens) else {
        return None;
    };
    let Some(((first, second), rest)) = pair_at(rest) else {
        return None;
    };
    let Some((value, rest)) = expr_behind(Symbol::Equal, false, rest) else {
        return None;
    };
    let Some(()) = end_at(rest) else {
        return None;
    };
    Some(Instr::PutBit(bank, first, second, value))
}

/// Reads `put v[I] = S`.
#[tactic(auto, unfolding(snap_semantics::specs::ListingForms::put_view_form))]
fn put_view_form(tokens: &[Token<'_>]) -> Option<Instr>
    ensures { Finds (λ x. x) result (put_view_form (view_tokens tokens.now)) }
{
    let Some(rest) = keyword_at(b"v", tokens) else {
        return None;
    };
    let Some((register, rest)) = place_at(false, rest) else {
        return None;
    };
    let Some((view, rest)) = name_behind(Symbol::Equal, rest) else {
        return None;
    };
    let Some(()) = end_at(rest) else {
        return None;
    };
    Some(Instr::PutView(register, view))
}

/// Reads `view S = data(W)`.
#[tactic(auto, unfolding(snap_semantics::specs::ListingForms::view_data_form))]
fn view_data_form(tokens: &[Token<'_>]) -> Option<Instr>
    ensures { Finds (λ x. x) result (view_data_form (view_tokens tokens.now)) }
{
    let Some((view, rest)) = name_at(tokens) else {
        return None;
    };
    let Some(rest) = symbol_at(Symbol::Equal, rest) else {
        return None;
    };
    let Some(rest) = keyword_at(b"data", rest) else {
        return None;
    };
    let Some((words, rest)) = name_behind(Symbol::OpenParenthesis, rest) else {
        return None;
    };
    let Some(rest) = symbol_at(Symbol::CloseParenthesis, rest) else {
        return None;
    };
    let Some(()) = end_at(rest) else {
        return None;
    };
    Some(Instr::ViewData(view, words))
}

/// Reads `view S = view(W[I])`.
#[tactic(auto, unfolding(snap_semantics::specs::ListingForms::view_of_form))]
fn view_of_form(tokens: &[Token<'_>]) -> Option<Instr>
    ensures { Finds (λ x. x) result (view_of_form (view_tokens tokens.now)) }
{
    let Some((view, rest)) = name_at(tokens) else {
        return None;
    };
    let Some(rest) = symbol_at(Symbol::Equal, rest) else {
        return None;
    };
    let Some(rest) = keyword_at(b"view", rest) else {
        return None;
    };
    let Some(rest) = symbol_at(Symbol::OpenParenthesis, rest) else {
        return None;
    };
    let Some(((words, place), rest)) = named_place_at(false, rest) else {
        return None;
    };
    let Some(rest) = symbol_at(Symbol::CloseParenthesis, rest) else {
        return None;
    };
    let Some(()) = end_at(rest) else {
        return None;
    };
    Some(Instr::ViewOf(view, words, place))
}

/// Reads `each G: R[@] = E where C`.
#[tactic(auto, unfolding(snap_semantics::specs::ListingForms::each_form))]
fn each_form(tokens: &[Token<'_>]) -> Option<Instr>
    ensures { Finds (λ x. x) result (each_form (view_tokens tokens.now)) }
{
    let Some((range, rest)) = range_at(tokens) else {
        return None;
    };
    let Some((row, rest)) = name_behind(Symbol::Colon, rest) else {
        return None;
    };
    let Some(rest) = every_place(rest) else {
        return None;
    };
    let Some((value, rest)) = expr_behind(Symbol::Equal, true, rest) else {
        return None;
    };
    let (condition, rest) = where_at(rest);
    let Some(()) = end_at(rest) else {
        return None;
    };
    Some(Instr::Each(range, row, value, condition))
}

/// Reads `first X G: C goto N`.
#[tactic(auto, unfolding(snap_semantics::specs::ListingForms::first_form))]
fn first_form(tokens: &[Token<'_>]) -> Option<Instr>
    ensures { Finds (λ x. x) result (first_form (view_tokens tokens.now)) }
{
    let Some((scalar, rest)) = name_at(tokens) else {
        return None;
    };
    let Some((range, rest)) = range_at(rest) else {
        return None;
    };
    let Some(rest) = symbol_at(Symbol::Colon, rest) else {
        return None;
    };
    let Some((condition, rest)) = condition_at(true, rest) else {
        return None;
    };
    let Some((target, rest)) = target_at(rest) else {
        return None;
    };
    let Some(()) = end_at(rest) else {
        return None;
    };
    Some(Instr::First(scalar, range, condition, target))
}

/// Reads `next X G goto N`.
#[tactic(auto, unfolding(snap_semantics::specs::ListingForms::next_form))]
fn next_form(tokens: &[Token<'_>]) -> Option<Instr>
    ensures { Finds (λ x. x) result (next_form (view_tokens tokens.now)) }
{
    let Some((scalar, rest)) = name_at(tokens) else {
        return None;
    };
    let Some((range, rest)) = range_at(rest) else {
        return None;
    };
    let Some((target, rest)) = target_at(rest) else {
        return None;
    };
    let Some(()) = end_at(rest) else {
        return None;
    };
    Some(Instr::Next(scalar, range, target))
}

/// Reads `if C goto N`.
#[tactic(auto, unfolding(snap_semantics::specs::ListingForms::if_form))]
fn if_form(tokens: &[Token<'_>]) -> Option<Instr>
    ensures { Finds (λ x. x) result (if_form (view_tokens tokens.now)) }
{
    let Some((condition, rest)) = condition_at(false, tokens) else {
        return None;
    };
    let Some((target, rest)) = target_at(rest) else {
        return None;
    };
    let Some(()) = end_at(rest) else {
        return None;
    };
    Some(Instr::If(condition, target))
}

/// Reads `if all G: C goto N`.
#[tactic(auto, unfolding(snap_semantics::specs::ListingForms::if_all_form))]
fn if_all_form(tokens: &[Token<'_>]) -> Option<Instr>
    ensures { Finds (λ x. x) result (if_all_form (view_tokens tokens.now)) }
{
    let Some(rest) = keyword_at(b"all", tokens) else {
        return None;
    };
    let Some((range, rest)) = range_at(rest) else {
        return None;
    };
    let Some(rest) = symbol_at(Symbol::Colon, rest) else {
        return None;
    };
    let Some((condition, rest)) = condition_at(true, rest) else {
        return None;
    };
    let Some((target, rest)) = target_at(rest) else {
        return None;
    };
    let Some(()) = end_at(rest) else {
        return None;
    };
    Some(Instr::IfAll(range, condition, target))
}

/// Reads `goto N`.
#[tactic(auto, unfolding(snap_semantics::specs::ListingForms::goto_form))]
fn goto_form(tokens: &[Token<'_>]) -> Option<Instr>
    ensures { Finds (λ x. x) result (goto_form (view_tokens tokens.now)) }
{
    let Some((target, rest)) = number_at(tokens) else {
        return None;
    };
    let Some(()) = end_at(rest) else {
        return None;
    };
    Some(Instr::Goto(target))
}

/// Reads `call N`.
#[tactic(auto, unfolding(snap_semantics::specs::ListingForms::call_form))]
fn call_form(tokens: &[Token<'_>]) -> Option<Instr>
    ensures { Finds (λ x. x) result (call_form (view_tokens tokens.now)) }
{
    let Some((target, rest)) = number_at(tokens) else {
        return None;
    };
    let Some(()) = end_at(rest) else {
        return None;
    };
    Some(Instr::Call(target))
}

/// Reads `return S`.
#[tactic(auto, unfolding(snap_semantics::specs::ListingForms::return_form))]
fn return_form(tokens: &[Token<'_>]) -> Option<Instr>
    ensures { Finds (λ x. x) result (return_form (view_tokens tokens.now)) }
{
    let Some((view, rest)) = name_at(tokens) else {
        return None;
    };
    let Some(()) = end_at(rest) else {
        return None;
    };
    Some(Instr::Return(view))
}

/// Reads `finish`.
#[tactic(auto, unfolding(snap_semantics::specs::ListingForms::finish_form))]
fn finish_form(tokens: &[Token<'_>]) -> Option<Instr>
    ensures { Finds (λ x. x) result (finish_form (view_tokens tokens.now)) }
{
    let Some(()) = end_at(tokens) else {
        return None;
    };
    Some(Instr::Finish)
}

/// Reads a form that begins with `let`.
fn let_forms(tokens: &[Token<'_>]) -> Option<Instr>
    ensures { Finds (λ x. x) result (or_else (let_form (view_tokens tokens.now))
        (let_place_form (view_tokens tokens.now))) }
{
    if let Some(instr) = let_form(tokens) {
        return Some(instr);
    }
    let_place_form(tokens)
}

/// Reads a form that begins with `put`.
fn put_forms(kind: KindTag, tokens: &[Token<'_>]) -> Option<Instr>
    ensures { Finds (λ x. x) result (or_else (put_form kind (view_tokens tokens.now))
        (or_else (put_bit_form (view_tokens tokens.now))
        (put_view_form (view_tokens tokens.now)))) }
{
    if let Some(instr) = put_form(kind, tokens) {
        return Some(instr);
    }
    if let Some(instr) = put_bit_form(tokens) {
        return Some(instr);
    }
    put_view_form(tokens)
}

/// Reads a form that begins with `view`.
fn view_forms(tokens: &[Token<'_>]) -> Option<Instr>
    ensures { Finds (λ x. x) result (or_else (view_data_form (view_tokens tokens.now))
        (view_of_form (view_tokens tokens.now))) }
{
    if let Some(instr) = view_data_form(tokens) {
        return Some(instr);
    }
    view_of_form(tokens)
}

/// Reads a form that begins with `if`.
fn if_forms(tokens: &[Token<'_>]) -> Option<Instr>
    ensures { Finds (λ x. x) result (or_else (if_form (view_tokens tokens.now))
        (if_all_form (view_tokens tokens.now))) }
{
    if let Some(instr) = if_form(tokens) {
        return Some(instr);
    }
    if_all_form(tokens)
}

/// Reads the instruction that begins with this keyword.
#[tactic(auto, unfolding(snap_semantics::specs::ListingForms::form_of_keyword))]
fn form_of_keyword(kind: KindTag, word: &[u8], tokens: &[Token<'_>]) -> Option<Instr>
    ensures { Finds (λ x. x) result (form_of_keyword kind word.now (view_tokens tokens.now)) }
{
    if same_word(word, b"let") {
        let_forms(tokens)
    } else if same_word(word, b"get") {
        get_form(tokens)
    } else if same_word(word, b"bit") {
        bit_form(tokens)
    } else if same_word(word, b"look") {
        look_form(tokens)
    } else if same_word(word, b"put") {
        put_forms(kind, tokens)
    } else if same_word(word, b"view") {
        view_forms(tokens)
    } else if same_word(word, b"each") {
        each_form(tokens)
    } else if same_word(word, b"first") {
        first_form(tokens)
    } else if same_word(word, b"next") {
        next_form(tokens)
    } else if same_word(word, b"if") {
        if_forms(tokens)
    } else if same_word(word, b"goto") {
        goto_form(tokens)
    } else if same_word(word, b"call") {
        call_form(tokens)
    } else if same_word(word, b"return") {
        return_form(tokens)
    } else if same_word(word, b"finish") {
        finish_form(tokens)
    } else {
        None
    }
}

/// Reads `N: instruction`, in a listing of the kind `kind`; `None` where `tokens` are no form of a
/// line.
#[tactic(auto, unfolding(snap_semantics::specs::ListingForms::line_form))]
pub fn line_form(kind: KindTag, tokens: &[Token<'_>]) -> Option<Line>
    ensures { Finds (λ x. x) result (line_form kind (view_tokens tokens.now)) }
{
    let Some((number, rest)) = number_at(tokens) else {
        return None;
    };
    let Some(rest) = symbol_at(Symbol::Colon, rest) else {
        return None;
    };
    let Some((word, rest)) = identifier_at(rest) else {
        return None;
    };
    let Some(instr) = form_of_keyword(kind, word, rest) else {
        return None;
    };
    if is_line_number(number) {
        Some(Line { number, instr })
    } else {
        None
    }
}
