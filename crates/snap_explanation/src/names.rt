//! The token of a line that a refusal is about: a name that is unknown or declared twice, the
//! nearest known name, or a target that is no line.
ghost use Rattle.std.specs.Prelude.{◌≡◌, ◌≤◌, ◌++◌, IfOk, OnOk, length, drop, map};
ghost use Rattle.std.specs.Prelude.{option_map};
ghost use Rattle.snap_semantics.specs.Token.{text_lines};
ghost use Rattle.snap_text.specs.Lines.{view_line};
ghost use Rattle.snap_text.specs.Tokens.{view_token, view_tokens};
ghost use Rattle.snap_explanation.specs.Steps.{view_placed_token};
ghost use Rattle.snap_explanation.specs.Names.{words_of, words_before, is_among, has_word};
ghost use Rattle.snap_explanation.specs.Names.{letters_of, nth_token, first_such, is_bad};
ghost use Rattle.snap_explanation.specs.Names.{first_again};
ghost use Rattle.snap_explanation.specs.Names.{name_count, one_too_many, declared_in, declared_at};
ghost use Rattle.snap_explanation.specs.Names.{front_number, last_before};
ghost use Rattle.snap_explanation.specs.Names.{common_len, is_same_later, is_near};
ghost use Rattle.snap_explanation.specs.Names.{is_leading, is_number, number_there, first_led};
ghost use Rattle.snap_explanation.specs.Names.{begins_with_number, leads_to};
ghost use Rattle.snap_explanation.specs.Names.{leading_line};
ghost use Rattle.snap_explanation.specs.Views.{view_declared};

use crate::pieces::PlacedToken;
use crate::tests::{is_identifier, is_word};
use snap_listing::{is_reserved, same_word};
use snap_text::{TextLines, Token, TokenLine};
use std::alloc::{AllocError, Global};

/// How many header lines a listing has.
const HEADER_LINES: usize = 7;

/// The least number of names that is too many.
const TOO_MANY: usize = 33;

/// The most letters of a name.
const NAME_LETTERS: usize = 8;

/// Returns the identifiers of the header lines of a listing's text before this line.
///
/// # Errors
///
/// `AllocError` where memory runs out.
pub fn words_before(alloc: Global, line: u64, text: &[u8]) -> Result<Vec<&[u8]>, AllocError>
    ensures { IfOk result (λ words. map (λ w. w.now) words.items
        ≡ words_before line 7 (text_lines text.now)) }
{
    let mut words = Vec::new(alloc);
    let mut lines = TextLines::new(text);
    let mut left = HEADER_LINES;
    while left > 0 {
        match lines.next_line(alloc)? {
            Some(found) if found.number < line => {
                if let Some(tokens) = &found.tokens {
                    push_words(&mut words, tokens.as_slice())?;
                }
            }
            _ => return Ok(words),
        }
        left -= 1;
    }
    Ok(words)
}

/// Appends the identifiers among tokens.
fn push_words<'a>(words: &mut Vec<&'a [u8]>, tokens: &[Token<'a>]) -> Result<(), AllocError>
    ensures { OnOk result (map (λ w. w.now) words.new.items
        ≡ map (λ w. w.now) words.old.items ++ words_of (view_tokens tokens.now)) }
{
    let mut rest = tokens;
    while let [first, behind @ ..] = rest {
        if let Token::Identifier(word) = first {
            words.push(*word)?;
        }
        rest = behind;
    }
    Ok(())
}

/// Returns the letters of a word.
pub fn letters_of<'a>(token: &Token<'a>) -> &'a [u8]
    ensures { result.now ≡ letters_of (view_token token.now) }
{
    match *token {
        Token::Identifier(word) => word,
        _ => b"",
    }
}

/// Returns token `index`, counted from 0; `None` where there are fewer.
pub fn nth_token<'a>(index: usize, tokens: &[PlacedToken<'a>]) -> Option<PlacedToken<'a>>
    ensures { option_map view_placed_token result
        ≡ nth_token index (map view_placed_token tokens.now) }
{
    let mut left = index;
    let mut rest = tokens;
    while let [first, behind @ ..] = rest {
        if left == 0 {
            return Some(*first);
        }
        left -= 1;
        rest = behind;
    }
    None
}

/// Returns whether a word is one of `words`.
pub fn is_among(word: &[u8], words: &[&[u8]]) -> bool
    ensures { result ≡ is_among word.now (map (λ w. w.now) words.now) }
{
    let mut rest = words;
    while let [first, behind @ ..] = rest {
        if word == *first {
            return true;
        }
        rest = behind;
    }
    false
}

/// Returns whether a token may not be declared as a name.
fn is_bad(token: &Token<'_>) -> bool
    ensures { result ≡ is_bad (view_token token.now) }
{
    match token {
        Token::Identifier(word) => word.len() > NAME_LETTERS || is_reserved(word),
        _ => false,
    }
}

/// Returns the first token that may not be declared as a name.
pub fn first_bad<'a>(tokens: &[PlacedToken<'a>]) -> Option<PlacedToken<'a>>
    ensures { option_map view_placed_token result
        ≡ first_such is_bad (map view_placed_token tokens.now) }
{
    let mut rest = tokens;
    while let [first, behind @ ..] = rest {
        if is_bad(&first.token) {
            return Some(*first);
        }
        rest = behind;
    }
    None
}

/// Returns the first name of a header line that is one of `known`, or stands before in the line.
///
/// # Errors
///
/// `AllocError` where memory runs out.
pub fn first_again<'a>(
    known: Vec<&'a [u8]>,
    tokens: &[PlacedToken<'a>],
) -> Result<Option<PlacedToken<'a>>, AllocError>
    ensures { IfOk result (λ found. option_map view_placed_token found
        ≡ first_again (map (λ w. w.now) known.entry.items) (map view_placed_token tokens.now)) }
{
    let mut known = known;
    let mut rest = tokens;
    while let [first, behind @ ..] = rest {
        if let Token::Identifier(word) = first.token {
            if is_among(word, known.as_slice()) {
                return Ok(Some(*first));
            }
            known.push(word)?;
        }
        rest = behind;
    }
    Ok(None)
}

/// Returns how many of the words of header lines are names.
pub fn name_count(words: &[&[u8]]) -> usize
    ensures value { result ≡ name_count (map (λ w. w.now) words.now) }
    ensures within { result ≤ length words.now }
{
    let mut count = 0;
    let mut rest = words;
    while let [first, behind @ ..] = rest {
        if !is_reserved(first) {
            count += 1;
        }
        rest = behind;
    }
    count
}

/// Returns the first name too many of a header line, with `count` names before the line; on any
/// other line, its number.
pub fn one_too_many<'a>(count: usize, tokens: &[PlacedToken<'a>]) -> Option<PlacedToken<'a>>
    ensures { option_map view_placed_token result
        ≡ one_too_many count (map view_placed_token tokens.now) }
{
    match tokens {
        [] => None,
        [first, ..] => {
            if is_identifier(&first.token) {
                nth_token(TOO_MANY.saturating_sub(count), tokens)
            } else {
                Some(*first)
            }
        }
    }
}

/// A line with a name, and the word that begins the line.
#[derive(Clone, Copy)]
pub struct Declared<'a> {
    pub line: u64,
    pub keyword: &'a [u8],
}

/// Returns whether one of `tokens` is this word.
fn has_word(word: &[u8], tokens: &[Token<'_>]) -> bool
    ensures { result ≡ has_word word.now (view_tokens tokens.now) }
{
    let mut rest = tokens;
    while let [first, behind @ ..] = rest {
        if is_word(word, first) {
            return true;
        }
        rest = behind;
    }
    false
}

/// Returns a line, if it has this name behind the first word.
fn declared_in<'a>(name: &[u8], line: &TokenLine<'a>) -> Option<Declared<'a>>
    ensures { option_map view_declared result
        ≡ declared_in name.now (view_line line.now) }
{
    match &line.tokens {
        Some(tokens) => match tokens.as_slice() {
            [first, names @ ..] if has_word(name, names) => Some(Declared {
                line: line.number,
                keyword: letters_of(first),
            }),
            _ => None,
        },
        None => None,
    }
}

/// Returns the first line of a text that has a name behind another word.
///
/// # Errors
///
/// `AllocError` where memory runs out.
pub fn declared_at<'a>(
    alloc: Global,
    name: &[u8],
    text: &'a [u8],
) -> Result<Option<Declared<'a>>, AllocError>
    ensures { IfOk result (λ found. option_map view_declared found
        ≡ declared_at name.now (text_lines text.now)) }
{
    let mut lines = TextLines::new(text);
    while let Some(line) = lines.next_line(alloc)? {
        if let Some(found) = declared_in(name, &line) {
            return Ok(Some(found));
        }
    }
    Ok(None)
}

/// A text line, and the number at its front.
#[derive(Clone, Copy)]
pub struct Numbered {
    pub line: u64,
    pub number: u64,
}

/// Returns the number at the front of a line.
fn front_number(tokens: &Option<Vec<Token<'_>>>) -> u64
    ensures { result ≡ front_number (option_map (λ ts. view_tokens ts.items) tokens.now) }
{
    match tokens {
        Some(tokens) => match tokens.as_slice() {
            [Token::Number(number), ..] => *number,
            _ => 0,
        },
        None => 0,
    }
}

/// Returns the last numbered line of a text before line `line`, and the number at its front.
///
/// # Errors
///
/// `AllocError` where memory runs out.
pub fn last_before(alloc: Global, line: u64, text: &[u8]) -> Result<Numbered, AllocError>
    ensures { IfOk result (λ last. last
        ≡ last_before line (record { line = 0; number = 0 }) (text_lines text.now)) }
{
    let mut last = Numbered { line: 0, number: 0 };
    let mut lines = TextLines::new(text);
    while let Some(found) = lines.next_line(alloc)? {
        if found.number >= line {
            return Ok(last);
        }
        last = Numbered {
            line: found.number,
            number: front_number(&found.tokens),
        };
    }
    Ok(last)
}

/// Returns how many letters at the front of two words are the same.
fn common_len(one: &[u8], other: &[u8]) -> usize
    ensures value { result ≡ common_len one.now other.now }
    ensures within { (result ≤ length one.now) × (result ≤ length other.now) }
{
    let mut len = 0;
    let mut left = one;
    let mut right = other;
    while let [first, behind @ ..] = left {
        match right {
            [] => return len,
            [second, later @ ..] => {
                if *first != *second {
                    return len;
                }
                len += 1;
                left = behind;
                right = later;
            }
        }
    }
    len
}

/// Returns a word without its first letter.
fn later(word: &[u8]) -> &[u8]
    ensures { result.now ≡ drop 1 word.now }
{
    match word {
        [] => word,
        [_, rest @ ..] => rest,
    }
}

/// Returns whether two words are the same but for the first letter: put in, left out, or another
/// one.
fn is_same_later(one: &[u8], other: &[u8]) -> bool
    ensures { result ≡ is_same_later one.now other.now }
{
    same_word(later(one), later(other))
        || same_word(later(one), other)
        || same_word(one, later(other))
}

/// Returns whether two words are one letter away.
pub fn is_near(one: &[u8], other: &[u8]) -> bool
    ensures { result ≡ is_near one.now other.now }
{
    let len = common_len(one, other);
    is_same_later(&one[len..], &other[len..])
}

/// Returns whether a word leads to a line.
fn is_leading(token: &Token<'_>) -> bool
    ensures { result ≡ is_leading (view_token token.now) }
{
    is_word(b"goto", token)
        || is_word(b"call", token)
        || is_word(b"scan", token)
        || is_word(b"update", token)
}

/// Returns whether a token is this number.
fn is_number(number: u64, token: &Token<'_>) -> bool
    ensures { result ≡ is_number number (view_token token.now) }
{
    match token {
        Token::Number(found) => number == *found,
        _ => false,
    }
}

/// Returns the first token, if it is this number.
fn number_there<'a>(number: u64, tokens: &[PlacedToken<'a>]) -> Option<PlacedToken<'a>>
    ensures { option_map view_placed_token result
        ≡ number_there number (map view_placed_token tokens.now) }
{
    match tokens {
        [first, ..] if is_number(number, &first.token) => Some(*first),
        _ => None,
    }
}

/// Returns the number of a line to which the word before it leads, if it is `number`.
pub fn first_led<'a>(number: u64, tokens: &[PlacedToken<'a>]) -> Option<PlacedToken<'a>>
    ensures { option_map view_placed_token result
        ≡ first_led number (map view_placed_token tokens.now) }
{
    let mut rest = tokens;
    while let [first, behind @ ..] = rest {
        if is_leading(&first.token) {
            if let Some(found) = number_there(number, behind) {
                return Some(found);
            }
        }
        rest = behind;
    }
    None
}

/// Returns whether the first token is this number.
fn begins_with_number(number: u64, tokens: &[Token<'_>]) -> bool
    ensures { result ≡ begins_with_number number (view_tokens tokens.now) }
{
    match tokens {
        [] => false,
        [first, ..] => is_number(number, first),
    }
}

/// Returns whether tokens lead to this line.
fn leads_to(number: u64, tokens: &[Token<'_>]) -> bool
    ensures { result ≡ leads_to number (view_tokens tokens.now) }
{
    let mut rest = tokens;
    while let [first, behind @ ..] = rest {
        if is_leading(first) && begins_with_number(number, behind) {
            return true;
        }
        rest = behind;
    }
    false
}

/// Returns the number of the first text line that leads to line `number`; 0 if there is none.
///
/// # Errors
///
/// `AllocError` where memory runs out.
pub fn leading_line(alloc: Global, number: u64, text: &[u8]) -> Result<u64, AllocError>
    ensures { IfOk result (λ line. line ≡ leading_line number (text_lines text.now)) }
{
    let mut lines = TextLines::new(text);
    while let Some(line) = lines.next_line(alloc)? {
        if let Some(tokens) = &line.tokens {
            if leads_to(number, tokens.as_slice()) {
                return Ok(line.number);
            }
        }
    }
    Ok(0)
}
