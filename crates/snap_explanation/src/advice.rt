//! `advice`: what the explanation of a refused input advises at the token where a line is lost.
ghost use Rattle.std.specs.Prelude.{◌≡◌, map};
ghost use Rattle.std.specs.List.{list_all};
ghost use Rattle.snap_semantics.specs.Token.{is_digit};
ghost use Rattle.snap_text.specs.Tokens.{view_token};
ghost use Rattle.snap_explanation.specs.Steps.{view_placed_token};
ghost use Rattle.snap_explanation.specs.Advice.{passes, firm, hints, word_advice, otherwise};
ghost use Rattle.snap_explanation.specs.Advice.{advice, has_return, return_advice, first_word};
ghost use Rattle.snap_explanation.specs.Advice.{numbered_advice, form_advice, lexeme_advice};
ghost use Rattle.snap_explanation.specs.Advice.{byte_advice, plain_advice, stray_advice};
ghost use Rattle.snap_explanation.specs.Said.{view_row};

use crate::forms::may_pass;
use crate::line_sorts::LineSort;
use crate::names::letters_of;
use crate::parts::Part;
use crate::pieces::{PlacedToken, is_lexeme_byte};
use crate::tables::{by_byte, by_word};
use crate::tests::{is_identifier, is_line, is_name, is_symbol};
use crate::wording::{
    BYTE_HINTS, COMMAND_FORMS, COMMANDS, COMPARISON_HINTS, END_HINTS, HEADERS, INDEX_HINTS,
    INSTRUCTION_FORMS, INSTRUCTION_HINTS, INSTRUCTIONS, ITEM, JOIN_HINTS, LEXEME_HINTS, LOCAL,
    NAME_HINTS, NAMES, NO_RANGES, NO_SEMICOLONS, NO_SIGNS, NUMBERED, PROCESS_HINTS, RANGE_HINTS,
    REGISTERS, RESERVED, RETURN, SCRIPT, SHAPE, SUM_HINTS, TARGET, VALUE_HINTS, VALUES,
    WRONG_NUMBER,
};
use snap_semantics::Symbol;
use snap_text::Token;

/// Returns whether the advice is of what stands behind `part`: where names may follow, it is of
/// names, and in a schedule there is none.
fn passes(part: Part) -> bool
    ensures { result ≡ passes part }
{
    match part {
        Part::Names | Part::Act => false,
        _ => may_pass(part),
    }
}

/// Returns the first part that has to stand there.
fn firm(wanted: &[Part]) -> Part
    ensures { result ≡ firm wanted.now }
{
    let mut rest = wanted;
    while let [first, behind @ ..] = rest {
        if !passes(*first) {
            return *first;
        }
        rest = behind;
    }
    Part::End
}

/// Returns the table of the advice at a piece, where `part` has to stand.
fn hints(part: Part) -> &'static [(&'static [u8], &'static [u8])]
    ensures { map view_row result.now ≡ hints part }
{
    match part {
        Part::End => END_HINTS,
        Part::CloseBracket => INDEX_HINTS,
        Part::Equal => SUM_HINTS,
        Part::Goto => JOIN_HINTS,
        Part::Process => PROCESS_HINTS,
        Part::Range => RANGE_HINTS,
        Part::Name | Part::Index => NAME_HINTS,
        Part::Term | Part::Expr | Part::SecondPart => VALUE_HINTS,
        Part::Condition | Part::Test => COMPARISON_HINTS,
        Part::Instruction => INSTRUCTION_HINTS,
        _ => &[],
    }
}

/// Returns the advice at a word of which the table says nothing.
fn word_advice(part: Part) -> &'static [u8]
    ensures { result.now ≡ word_advice part }
{
    match part {
        Part::Name | Part::Index => RESERVED,
        Part::Term | Part::Expr | Part::Condition | Part::SecondPart | Part::Test => VALUES,
        Part::LineNumber | Part::Target => TARGET,
        _ => b"",
    }
}

/// Returns the advice at a token of which the table says nothing.
fn otherwise(part: Part, token: &Token<'_>) -> &'static [u8]
    ensures { result.now ≡ otherwise part (view_token token.now) }
{
    match part {
        Part::Kind
        | Part::Scalar
        | Part::Row
        | Part::Words
        | Part::View
        | Part::Scan
        | Part::Update => HEADERS,
        Part::Names => NAMES,
        Part::Command => COMMANDS,
        Part::Register | Part::Shown => REGISTERS,
        Part::Instruction if is_name(token) => LOCAL,
        _ if is_identifier(token) => word_advice(part),
        _ => b"",
    }
}

/// Returns the advice at a token that does not go on with what is wanted, and at the piece that it
/// is.
pub fn advice(wanted: &[Part], token: &Token<'_>, piece: &[u8]) -> &'static [u8]
    ensures { result.now ≡ advice wanted.now (view_token token.now) piece.now }
{
    let part = firm(wanted);
    by_word(hints(part), otherwise(part, token), piece)
}

/// Returns whether a line has a carriage return before another byte.
fn has_return(line: &[u8]) -> bool
    ensures { result ≡ has_return line.now }
{
    let mut rest = line;
    while let [first, behind @ ..] = rest {
        if *first == b'\r' && !behind.is_empty() {
            return true;
        }
        rest = behind;
    }
    false
}

/// Returns the advice on a line with a carriage return inside.
pub fn return_advice(line: &[u8]) -> &'static [u8]
    ensures { result.now ≡ return_advice line.now }
{
    if has_return(line) { RETURN } else { b"" }
}

/// Returns the first token if it is a word, and an empty text otherwise.
fn first_word<'a>(tokens: &[PlacedToken<'a>]) -> &'a [u8]
    ensures { result.now ≡ first_word (map view_placed_token tokens.now) }
{
    match tokens {
        [first, ..] => letters_of(&first.token),
        [] => b"",
    }
}

/// Returns the advice on the form of a numbered line: that on its instruction, if a number and a
/// colon stand before it.
fn numbered_advice(tokens: &[PlacedToken<'_>]) -> &'static [u8]
    ensures { result.now ≡ numbered_advice (map view_placed_token tokens.now) }
{
    match tokens {
        [number, colon, instruction @ ..] if is_symbol(Symbol::Colon, &colon.token) => {
            if is_line(&number.token) {
                by_word(INSTRUCTION_FORMS, INSTRUCTIONS, first_word(instruction))
            } else {
                b""
            }
        }
        _ => NUMBERED,
    }
}

/// Returns the advice on the form of a line of a sort, by its tokens.
pub fn form_advice(sort: LineSort, tokens: &[PlacedToken<'_>]) -> &'static [u8]
    ensures { result.now ≡ form_advice sort (map view_placed_token tokens.now) }
{
    match sort {
        LineSort::Header(_) => b"",
        LineSort::Numbered => numbered_advice(tokens),
        LineSort::Shape => SHAPE,
        LineSort::Item => ITEM,
        LineSort::Script => SCRIPT,
        LineSort::Command => by_word(COMMAND_FORMS, b"", first_word(tokens)),
    }
}

/// Returns whether each byte of `piece` is a digit.
fn all_digits(piece: &[u8]) -> bool
    ensures { result ≡ list_all is_digit piece.now }
{
    let mut rest = piece;
    while let [first, behind @ ..] = rest {
        if *first < b'0' || b'9' < *first {
            return false;
        }
        rest = behind;
    }
    true
}

/// Returns the advice on letters and digits that are no token.
fn lexeme_advice(piece: &[u8], first: u8) -> &'static [u8]
    ensures { result.now ≡ lexeme_advice piece.now first }
{
    if all_digits(piece) {
        WRONG_NUMBER
    } else {
        by_byte(LEXEME_HINTS, first)
    }
}

/// Returns the advice on a byte that begins no token in a line without expressions; `signs` is that
/// on `-` and on a point. The comparisons of a listing are of no use there.
fn plain_advice(signs: &'static [u8], byte: u8) -> &'static [u8]
    ensures { result.now ≡ plain_advice signs.now byte }
{
    match byte {
        b'-' | b'.' => signs,
        b';' => NO_SEMICOLONS,
        b'!' | b'&' | b'>' | b'|' => b"",
        _ => by_byte(BYTE_HINTS, byte),
    }
}

/// Returns the advice on a byte that begins no token, in a line of this sort.
fn byte_advice(sort: LineSort, byte: u8) -> &'static [u8]
    ensures { result.now ≡ byte_advice sort byte }
{
    match sort {
        LineSort::Header(_) | LineSort::Numbered => by_byte(BYTE_HINTS, byte),
        LineSort::Item => plain_advice(NO_RANGES, byte),
        LineSort::Shape | LineSort::Script | LineSort::Command => plain_advice(NO_SIGNS, byte),
    }
}

/// Returns the advice on a piece that is no token, in a line of this sort.
pub fn stray_advice(sort: LineSort, piece: &[u8]) -> &'static [u8]
    ensures { result.now ≡ stray_advice sort piece.now }
{
    match piece {
        [] => b"",
        [first, ..] if is_lexeme_byte(*first) => lexeme_advice(piece, *first),
        [first, ..] => byte_advice(sort, *first),
    }
}
