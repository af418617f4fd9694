//! `after`: what a token does where a part of a line is wanted, by the tables of `grammar`.
ghost use Rattle.std.specs.Prelude.{◌≡◌, map, option_map};
ghost use Rattle.snap_text.specs.Tokens.{view_token};
ghost use Rattle.snap_explanation.specs.Grammar.{part_number, same_part, letters_or_sign, admits};
ghost use Rattle.snap_explanation.specs.Grammar.{view_form, view_class_form, view_front, parts_in};
ghost use Rattle.snap_explanation.specs.Grammar.{view_pair, form_in, is_single, class_form_in};
ghost use Rattle.snap_explanation.specs.Grammar.{front_in, values, written, instructions, commands};
ghost use Rattle.snap_explanation.specs.Grammar.{text_form, class_forms, token_form, options};
ghost use Rattle.snap_explanation.specs.Grammar.{view_single, singles, fronts, may_pass, after};
ghost use Rattle.snap_explanation.specs.Grammar.{is_part_among};
ghost use Rattle.snap_explanation.specs.Steps.{view_step};

use crate::grammar::{
    CLASSES, COMMANDS, ClassForm, FRONTS, Front, INSTRUCTIONS, OPTIONS, SINGLES, Single, TextForm,
    VALUES, WRITTEN,
};
use crate::parts::{Class, Part};
use snap_listing::{is_line_number, is_reserved};
use snap_semantics::Symbol;
use snap_text::{Token, symbol_text};
use snap_words::{MAX_COUNT, MAX_ITEMS};

/// What a token does where a part is wanted: it is taken or passed over.
#[derive(Clone, Copy)]
pub enum TokenStep {
    /// The token is the front of the part; these parts are wanted next, one list behind the other.
    Takes(&'static [Part], &'static [Part]),
    /// The token is no front of the part, which may be nothing.
    Passes,
    Refuses,
}

/// Returns the number by which a part is told from others.
fn part_number(part: Part) -> u8
    ensures { result ≡ part_number part }
{
    part as u8
}

/// Returns whether two parts are the same.
pub fn same_part(one: Part, other: Part) -> bool
    ensures { result ≡ same_part one other }
{
    part_number(one) == part_number(other)
}

/// Returns whether a part is one of `parts`.
pub fn is_part_among(part: Part, parts: &[Part]) -> bool
    ensures { result ≡ is_part_among part parts.now }
{
    let mut rest = parts;
    while let [first, behind @ ..] = rest {
        if same_part(part, *first) {
            return true;
        }
        rest = behind;
    }
    false
}

/// Returns how a word or a symbol is spelled; nothing of a number.
fn letters_or_sign<'a>(token: &Token<'a>) -> &'a [u8]
    ensures { result.now ≡ letters_or_sign (view_token token.now) }
{
    match *token {
        Token::Identifier(word) => word,
        Token::Number(_) => b"",
        Token::Sign(symbol) => symbol_text(symbol),
    }
}

/// Returns whether a part is a token that is spelled so.
fn is_single(part: Part, text: &[u8], singles: &[Single]) -> bool
    ensures { result ≡ is_single part text.now (map view_single singles.now) }
{
    for single in singles {
        if same_part(single.0, part) && text == single.1 {
            return true;
        }
    }
    false
}

/// Returns what is wanted behind a token that is spelled so, in the first form of a part that
/// begins with it.
fn form_in(part: Part, text: &[u8], forms: &'static [TextForm]) -> Option<&'static [Part]>
    ensures { option_map parts_in result ≡ form_in part text.now (map view_form forms.now) }
{
    for form in forms {
        if same_part(form.0, part) && text == form.1 {
            return Some(form.2);
        }
    }
    None
}

#[tactic(auto, unfolding(crate::specs::Grammar::singles))]
fn singles() -> &'static [Single]
    ensures { map view_single result.now ≡ singles }
{
    SINGLES
}

#[tactic(auto, unfolding(crate::specs::Grammar::values))]
fn values() -> &'static [TextForm]
    ensures { map view_form result.now ≡ values }
{
    VALUES
}

#[tactic(auto, unfolding(crate::specs::Grammar::written))]
fn written() -> &'static [TextForm]
    ensures { map view_form result.now ≡ written }
{
    WRITTEN
}

#[tactic(auto, unfolding(crate::specs::Grammar::instructions))]
fn instructions() -> &'static [TextForm]
    ensures { map view_form result.now ≡ instructions }
{
    INSTRUCTIONS
}

#[tactic(auto, unfolding(crate::specs::Grammar::commands))]
fn commands() -> &'static [TextForm]
    ensures { map view_form result.now ≡ commands }
{
    COMMANDS
}

#[tactic(auto, unfolding(crate::specs::Grammar::class_forms))]
fn class_forms() -> &'static [ClassForm]
    ensures { map view_class_form result.now ≡ class_forms }
{
    CLASSES
}

#[tactic(auto, unfolding(crate::specs::Grammar::fronts))]
fn fronts() -> &'static [Front]
    ensures { map view_front result.now ≡ fronts }
{
    FRONTS
}

#[tactic(auto, unfolding(crate::specs::Grammar::options))]
fn options() -> &'static [Part]
    ensures { result.now ≡ options }
{
    OPTIONS
}

/// Returns what is wanted behind a token that is spelled so, if a form of a part begins with it.
fn text_form(part: Part, text: &[u8]) -> Option<&'static [Part]>
    ensures { option_map parts_in result ≡ text_form part text.now }
{
    if is_single(part, text, singles()) {
        return Some(&[]);
    }
    if let Some(next) = form_in(part, text, values()) {
        return Some(next);
    }
    if let Some(next) = form_in(part, text, written()) {
        return Some(next);
    }
    if let Some(next) = form_in(part, text, instructions()) {
        return Some(next);
    }
    form_in(part, text, commands())
}

/// Returns whether a set has a token, where `@` is an index or not.
pub fn admits(places: bool, class: Class, token: &Token<'_>) -> bool
    ensures { result ≡ admits places class (view_token token.now) }
{
    match (class, *token) {
        (Class::Number, Token::Number(_)) | (Class::Identifier, Token::Identifier(_)) => true,
        (Class::LineNumber, Token::Number(number)) => is_line_number(number),
        (Class::Count, Token::Number(number)) => 1 <= number && number <= MAX_COUNT,
        (Class::Positive, Token::Number(number)) => 0 < number,
        (Class::Turn, Token::Number(number)) => 1 <= number && number <= MAX_ITEMS,
        (Class::Name, Token::Identifier(word)) => !is_reserved(word),
        (Class::Place, Token::Sign(Symbol::At)) => places,
        _ => false,
    }
}

/// Returns what is wanted behind a token, in the first form of a part that begins with a set of
/// tokens that has it.
fn class_form_in(
    places: bool,
    part: Part,
    token: &Token<'_>,
    forms: &'static [ClassForm],
) -> Option<&'static [Part]>
    ensures { option_map parts_in result
        ≡ class_form_in places part (view_token token.now) (map view_class_form forms.now) }
{
    for form in forms {
        if same_part(form.0, part) && admits(places, form.1, token) {
            return Some(form.2);
        }
    }
    None
}

/// Returns what is wanted behind a token, if a form of a part begins with it.
fn token_form(places: bool, part: Part, token: &Token<'_>) -> Option<&'static [Part]>
    ensures { option_map parts_in result ≡ token_form places part (view_token token.now) }
{
    match text_form(part, letters_or_sign(token)) {
        Some(next) => Some(next),
        None => class_form_in(places, part, token, class_forms()),
    }
}

/// Returns the part with whose forms a part may begin, and what is wanted behind them.
fn front_in(part: Part, fronts: &'static [Front]) -> Option<(Part, &'static [Part])>
    ensures { option_map view_pair result ≡ front_in part (map view_front fronts.now) }
{
    for front in fronts {
        if same_part(front.0, part) {
            return Some((front.1, front.2));
        }
    }
    None
}

/// Returns whether nothing may stand for a part.
pub fn may_pass(part: Part) -> bool
    ensures { result ≡ may_pass part }
{
    is_part_among(part, options())
}

/// Returns what `token` does where `part` is wanted.
pub fn after(places: bool, part: Part, token: &Token<'_>) -> TokenStep
    ensures { view_step result ≡ after places part (view_token token.now) }
{
    if let Some(next) = token_form(places, part, token) {
        return TokenStep::Takes(next, &[]);
    }
    match front_in(part, fronts()) {
        Some((front, more)) => match token_form(places, front, token) {
            Some(next) => TokenStep::Takes(next, more),
            None => TokenStep::Refuses,
        },
        None if may_pass(part) => TokenStep::Passes,
        None => TokenStep::Refuses,
    }
}
