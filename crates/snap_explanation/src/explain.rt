//! `explanation`: the text on a refused input after the line that refuses it, for each kind of
//! refusal.
ghost use Rattle.std.specs.Prelude.{◌≡◌, ◌++◌, IfOk, drop, map, option_map};
ghost use Rattle.snap_semantics.specs.Token.{text_lines};
ghost use Rattle.snap_text.specs.Drafted.{Adds};
ghost use Rattle.snap_explanation.specs.Lost.{lost_in};
ghost use Rattle.snap_explanation.specs.Steps.{placed_tokens, view_placed, view_placed_token};
ghost use Rattle.snap_explanation.specs.Steps.{view_lost};
ghost use Rattle.snap_explanation.specs.Explanation.{token_advice, piece_of, stray_words};
ghost use Rattle.snap_explanation.specs.Explanation.{stray_text};
ghost use Rattle.snap_explanation.specs.Explanation.{lost_text, lost_or_line};
ghost use Rattle.snap_explanation.specs.Explanation.{form_text_of, form_text, token_spot};
ghost use Rattle.snap_explanation.specs.Explanation.{unlost_advice};
ghost use Rattle.snap_explanation.specs.Explanation.{placed_line, next_header, header_at};
ghost use Rattle.snap_explanation.specs.Explanation.{first_number, misuse_spot, words_spot};
ghost use Rattle.snap_explanation.specs.Explanation.{uses_spot, declared_text, again_text};
ghost use Rattle.snap_explanation.specs.Explanation.{number_at_token, numbered_words};
ghost use Rattle.snap_explanation.specs.Explanation.{rising_text, refused_token};
ghost use Rattle.snap_explanation.specs.Explanation.{reason, rule_spot, at_token};
ghost use Rattle.snap_explanation.specs.Explanation.{listing_explained};
ghost use Rattle.snap_explanation.specs.Explanation.{item_sort, schedule_explained, rule};
ghost use Rattle.snap_explanation.specs.Explanation.{image_explained, part_explained};
ghost use Rattle.snap_explanation.specs.Explanation.{explanation};
ghost use Rattle.snap_explanation.specs.declared.line_sorts.Header.TheVariants.{Kind};
ghost use Rattle.snap_explanation.specs.declared.line_sorts.LineSort.TheVariants as sorts;
ghost use Rattle.snap_explanation.specs.declared.wording.TheConstants.{IMAGE_RULE, NO_FIT};
ghost use Rattle.snap_explanation.specs.Misuse.{wrong_in_line};
ghost use Rattle.snap_explanation.specs.Part.{part_place};
ghost use Rattle.snap_explanation.specs.Names.{first_such, is_bad, leading_line, nth_token};
ghost use Rattle.snap_explanation.specs.Sorts.{kind_in};
ghost use Rattle.snap_explanation.specs.Views.{view_declared, view_misuse, view_names, view_part};

use crate::advice::{advice, form_advice, return_advice, stray_advice};
use crate::inputs::{push_order_advice, push_parts};
use crate::layout::{Layout, Texts};
use crate::line_sorts::{Header, LineSort};
use crate::lost::{LostPlace, lost_in};
use crate::misuse::{Misuse, push_misuse, wrong_in_line};
use crate::names::{
    Declared, Numbered, declared_at, first_again, first_bad, first_led, last_before, leading_line,
    letters_of, name_count, nth_token, one_too_many, words_before,
};
use crate::part::{Part, part_place};
use crate::pieces::{PlacedToken, PlacedTokens, placed_tokens};
use crate::said::push_cut;
use crate::sorts::{Names, kind_in};
use crate::spot::{column_of, piece_at, push_line_spot, push_spot, text_of};
use crate::texts::push_expected_line;
use crate::wording::{
    AN_IMAGE, BAD_NAME, BYTE, COMES_AFTER, DECLARED_AS, DECLARED_BEFORE, DECLARED_IN, HAS_NUMBER,
    IMAGE_RULE, ITEMS, LINE_END, LONG_COMMANDS, LONG_INPUT, LONG_LISTING, LONG_SCHEDULE, NO_CODE,
    NO_FIT, NO_PROCESS, NO_SUCH_LINE, NO_TOKEN, NUMBERS_RISE, QUOTE, QUOTE_END, RISING,
    SECOND_CRASH, TOO_MANY, WRONG,
};
use snap_semantics::{CommandRefusal, ImageRefusal, ListingRefusal, Refusal, ScheduleRefusal};
use snap_text::{Draft, TextLines, Token};
use std::alloc::{AllocError, Global};

/// Appends the rejected bytes, and advice on them.
#[tactic(auto, unfolding(crate::specs::Explanation::stray_words))]
fn push_stray_words(out: &mut Draft, piece: &[u8], advice: &[u8])
    ensures { Adds out.old out.new (stray_words piece.now advice.now) }
{
    out.push(QUOTE);
    push_cut(out, piece);
    out.push(NO_TOKEN);
    out.push(advice);
}

/// Appends the text on a byte that begins no token.
#[tactic(auto, unfolding(crate::specs::Explanation::stray_text))]
pub(crate) fn push_stray(out: &mut Draft, part: &Part<'_>, sort: LineSort, line: u64, column: usize)
    ensures { Adds out.old out.new (stray_text (view_part part.now) sort line column) }
{
    let piece = piece_at(column, text_of(part, line));
    push_spot(out, part, line, column);
    push_stray_words(out, piece, stray_advice(sort, piece));
}

/// Returns what stands at a token, which may be the end of the line.
fn piece_of<'a>(text: &'a [u8], token: Option<PlacedToken<'_>>) -> &'a [u8]
    ensures { result.now ≡ piece_of text.now (option_map view_placed_token token.entry) }
{
    match token {
        Some(token) => piece_at(token.column, text),
        None => &[],
    }
}

/// Returns the advice at a token, which is this piece.
fn token_advice(place: &LostPlace, token: Option<PlacedToken<'_>>, piece: &[u8]) -> &'static [u8]
    ensures { result.now ≡ token_advice (view_lost place.now)
        (option_map view_placed_token token.entry) piece.now }
{
    match token {
        Some(token) => advice(place.wanted.parts.as_slice(), &token.token, piece),
        None => b"",
    }
}

/// Appends the text on a line that is lost at a place.
#[tactic(auto, unfolding(crate::specs::Explanation::lost_text))]
fn push_lost(
    out: &mut Draft,
    part: &Part<'_>,
    sort: LineSort,
    line: u64,
    tokens: &[PlacedToken<'_>],
    place: &LostPlace,
)
    ensures { Adds out.old out.new
        (lost_text (view_part part.now) sort line (map view_placed_token tokens.now)
        (view_lost place.now)) }
{
    let text = text_of(part, line);
    let token = nth_token(place.before, tokens);
    let piece = piece_of(text, token);
    push_spot(out, part, line, column_of(text, token));
    push_expected_line(out, &place.wanted, piece);
    out.push(token_advice(place, token, piece));
    out.push(return_advice(text));
    out.push(form_advice(sort, tokens));
}

/// Appends the text on a line of these tokens, which has not the form of its sort.
fn push_lost_or_line(
    alloc: Global,
    out: &mut Draft,
    part: &Part<'_>,
    sort: LineSort,
    line: u64,
    tokens: &[PlacedToken<'_>],
)
    ensures { Adds out.old out.new
        (lost_or_line (view_part part.now) sort line (map view_placed_token tokens.now)
        (lost_in sort (placed_tokens tokens.now))) }
{
    match lost_in(alloc, sort, tokens) {
        Ok(Some(place)) => push_lost(out, part, sort, line, tokens, &place),
        Ok(None) => push_token_spot(out, part, line, None, unlost_advice(sort)),
        Err(error) => out.fail(error),
    }
}

/// Appends the text on a line with a byte that begins no token, or else of one that is lost.
#[tactic(auto, using(crate::proofs::Counts::same_tokens))]
fn push_placed_form(
    alloc: Global,
    out: &mut Draft,
    part: &Part<'_>,
    sort: LineSort,
    line: u64,
    placed: &PlacedTokens<'_>,
)
    ensures { Adds out.old out.new
        (form_text_of (view_part part.now) sort line (view_placed placed.now)) }
{
    match placed.stray {
        Some(column) => push_stray(out, part, sort, line, column),
        None => push_lost_or_line(alloc, out, part, sort, line, placed.tokens.as_slice()),
    }
}

/// Returns the advice on a refused line of which each token is as expected.
fn unlost_advice(sort: LineSort) -> &'static [u8]
    ensures { result.now ≡ unlost_advice sort }
{
    match sort {
        LineSort::Script => SECOND_CRASH,
        _ => b"",
    }
}

/// Appends the text on a line that has not the form of its sort.
#[tactic(auto, unfolding(crate::specs::Explanation::form_text))]
pub(crate) fn push_form(alloc: Global, out: &mut Draft, part: &Part<'_>, sort: LineSort, line: u64)
    ensures { Adds out.old out.new (form_text (view_part part.now) sort line) }
{
    match placed_tokens(alloc, text_of(part, line)) {
        Ok(placed) => push_placed_form(alloc, out, part, sort, line, &placed),
        Err(error) => out.fail(error),
    }
}

/// Appends a place at a token, if there is one, and the text on it.
fn push_token_spot(
    out: &mut Draft,
    part: &Part<'_>,
    line: u64,
    token: Option<PlacedToken<'_>>,
    said: &[u8],
)
    ensures { Adds out.old out.new
        (token_spot (view_part part.now) line (option_map view_placed_token token.entry) said.now) }
{
    match token {
        Some(token) => push_spot(out, part, line, token.column),
        None => push_line_spot(out, part, line),
    }
    out.push(said);
}

/// Returns the tokens of a line of a part.
#[tactic(auto, unfolding(crate::specs::Explanation::placed_line))]
fn placed_line<'a>(
    alloc: Global,
    part: &Part<'a>,
    line: u64,
) -> Result<Vec<PlacedToken<'a>>, AllocError>
    ensures { IfOk result (λ tokens. map view_placed_token tokens.items
        ≡ placed_line (view_part part.now) line) }
{
    let PlacedTokens { tokens, stray: _ } = placed_tokens(alloc, text_of(part, line))?;
    Ok(tokens)
}

/// Returns the header line behind `header`; the last one stays.
fn next_header(header: Header) -> Header
    ensures { result ≡ next_header header }
{
    match header {
        Header::Kind => Header::Scalars,
        Header::Scalars => Header::Rows,
        Header::Rows => Header::Words,
        Header::Words => Header::Views,
        Header::Views => Header::Scan,
        Header::Scan => Header::Update,
        Header::Update => Header::Update,
    }
}

/// Returns which header line is expected at this line.
fn header_at(alloc: Global, line: u64, text: &[u8]) -> Result<Header, AllocError>
    ensures { IfOk result (λ header. header ≡ header_at Kind line (text_lines text.now)) }
{
    let mut header = Header::Kind;
    let mut lines = TextLines::new(text);
    while let Some(found) = lines.next_line(alloc)? {
        if found.number >= line {
            return Ok(header);
        }
        header = next_header(header);
    }
    Ok(header)
}

/// Returns the number of the first line with tokens; 1 if there is none.
pub(crate) fn first_number(alloc: Global, text: &[u8]) -> Result<u64, AllocError>
    ensures { IfOk result (λ line. line ≡ first_number (text_lines text.now)) }
{
    match TextLines::new(text).next_line(alloc)? {
        Some(line) => Ok(line.number),
        None => Ok(1),
    }
}

/// Appends the text on a token that is not right.
fn push_misuse_spot(
    out: &mut Draft,
    part: &Part<'_>,
    line: u64,
    names: &Names<'_>,
    misuse: Option<Misuse<'_>>,
)
    ensures { Adds out.old out.new
        (misuse_spot (view_part part.now) line (view_names names.now)
        (option_map view_misuse misuse.entry)) }
{
    match misuse {
        Some(misuse) => {
            push_spot(out, part, line, misuse.token.column);
            push_misuse(out, names, &misuse);
        }
        None => push_token_spot(out, part, line, None, WRONG),
    }
}

/// Appends the text on a line of these tokens that uses what it may not, where names are declared.
fn push_names_spot(
    alloc: Global,
    out: &mut Draft,
    part: &Part<'_>,
    line: u64,
    names: &Names<'_>,
    tokens: &[PlacedToken<'_>],
)
    ensures { Adds out.old out.new
        (misuse_spot (view_part part.now) line (view_names names.now)
        (wrong_in_line (view_names names.now) (map view_placed_token tokens.now))) }
{
    match wrong_in_line(alloc, names, tokens) {
        Ok(misuse) => push_misuse_spot(out, part, line, names, misuse),
        Err(error) => out.fail(error),
    }
}

/// Appends the text on a line of these tokens that uses what it may not, behind these words of a
/// header.
fn push_words_spot(
    alloc: Global,
    out: &mut Draft,
    part: &Part<'_>,
    line: u64,
    words: &[&[u8]],
    tokens: &[PlacedToken<'_>],
)
    ensures { Adds out.old out.new
        (words_spot (view_part part.now) line (map view_placed_token tokens.now) (map (λ w. w.now)
        words.now) (kind_in (map (λ w. w.now) words.now))) }
{
    match kind_in(words) {
        Some(kind) => push_names_spot(alloc, out, part, line, &Names { kind, words }, tokens),
        None => push_token_spot(out, part, line, None, WRONG),
    }
}

/// Appends the text on a line that uses what it may not.
#[tactic(auto, unfolding(crate::specs::Explanation::uses_spot))]
fn push_uses_spot(alloc: Global, out: &mut Draft, part: &Part<'_>, line: u64)
    ensures { Adds out.old out.new (uses_spot (view_part part.now) line) }
{
    match (
        words_before(alloc, line, part.text),
        placed_line(alloc, part, line),
    ) {
        (Ok(words), Ok(tokens)) => {
            push_words_spot(alloc, out, part, line, words.as_slice(), tokens.as_slice())
        }
        _ => out.fail(AllocError),
    }
}

/// Appends where a name is declared.
fn push_declared(out: &mut Draft, name: &[u8], found: Option<Declared<'_>>)
    ensures { Adds out.old out.new (declared_text name.now (option_map view_declared found.entry)) }
{
    match found {
        Some(found) => {
            out.push(QUOTE);
            out.push(name);
            out.push(DECLARED_IN);
            out.push_number(found.line);
            out.push(DECLARED_AS);
            out.push(found.keyword);
            out.push(QUOTE_END);
        }
        None => out.push(DECLARED_BEFORE),
    }
}

/// Appends where the name at a token is declared.
fn push_again(alloc: Global, out: &mut Draft, part: &Part<'_>, token: Option<PlacedToken<'_>>)
    ensures { Adds out.old out.new
        (again_text (view_part part.now) (option_map view_placed_token token.entry)) }
{
    let Some(token) = token else {
        return;
    };
    let name = letters_of(&token.token);
    match declared_at(alloc, name, part.text) {
        Ok(found) => push_declared(out, name, found),
        Err(error) => out.fail(error),
    }
}

/// Returns the number at a token.
fn number_at_token(token: Option<PlacedToken<'_>>) -> u64
    ensures { result ≡ number_at_token (option_map view_placed_token token.entry) }
{
    match token {
        Some(
            PlacedToken {
                column: _,
                token: Token::Number(number),
            },
        ) => number,
        _ => 0,
    }
}

/// Appends a numbered line.
#[tactic(auto, unfolding(crate::specs::Explanation::numbered_words))]
fn push_numbered(out: &mut Draft, last: Numbered)
    ensures { Adds out.old out.new (numbered_words last) }
{
    out.push_number(last.line);
    out.push(HAS_NUMBER);
    out.push_number(last.number);
    out.push(LINE_END);
}

/// Appends that a number is not above the one before.
fn push_rising(out: &mut Draft, number: u64, last: Numbered)
    ensures { Adds out.old out.new (rising_text number last) }
{
    out.push(NUMBERS_RISE);
    out.push_number(number);
    out.push(COMES_AFTER);
    push_numbered(out, last);
}

/// Returns the first token behind the first one that may not be declared as a name.
fn first_bad_behind<'a>(tokens: &[PlacedToken<'a>]) -> Option<PlacedToken<'a>>
    ensures { option_map view_placed_token result
        ≡ first_such is_bad (drop 1 (map view_placed_token tokens.now)) }
{
    match tokens {
        [] => None,
        [_, names @ ..] => first_bad(names),
    }
}

/// Returns the token for which a line of a listing is refused, by the words of the header lines
/// before it.
fn refused_token<'a>(
    words: Vec<&'a [u8]>,
    tokens: &[PlacedToken<'a>],
    refusal: &ListingRefusal,
) -> Result<Option<PlacedToken<'a>>, AllocError>
    ensures { IfOk result (λ token. option_map view_placed_token token
        ≡ refused_token (map (λ w. w.now) words.entry.items) (map view_placed_token tokens.now)
        refusal.now) }
{
    match refusal {
        ListingRefusal::NumberNotRising(_) => Ok(nth_token(0, tokens)),
        ListingRefusal::NameTwice(_) => first_again(words, tokens),
        ListingRefusal::NoSuchLine(number) => Ok(first_led(*number, tokens)),
        ListingRefusal::TooMany(_) => Ok(one_too_many(name_count(words.as_slice()), tokens)),
        ListingRefusal::BadName(_) => Ok(first_bad_behind(tokens)),
        _ => Ok(None),
    }
}

/// Appends why a line of a listing is refused for a token.
fn push_reason(
    alloc: Global,
    out: &mut Draft,
    part: &Part<'_>,
    line: u64,
    token: Option<PlacedToken<'_>>,
    refusal: &ListingRefusal,
)
    ensures { Adds out.old out.new
        (reason (view_part part.now) line (option_map view_placed_token token.entry) refusal.now) }
{
    match refusal {
        ListingRefusal::NumberNotRising(_) => match last_before(alloc, line, part.text) {
            Ok(last) => push_rising(out, number_at_token(token), last),
            Err(error) => out.fail(error),
        },
        ListingRefusal::NameTwice(_) => push_again(alloc, out, part, token),
        _ => out.push(rule(refusal)),
    }
}

/// Appends the text on a line of a listing that breaks a rule at a token.
#[tactic(auto, unfolding(crate::specs::Explanation::rule_spot))]
fn push_rule_spot(
    alloc: Global,
    out: &mut Draft,
    part: &Part<'_>,
    line: u64,
    refusal: &ListingRefusal,
)
    ensures { Adds out.old out.new (rule_spot (view_part part.now) line refusal.now) }
{
    let (Ok(words), Ok(tokens)) = (
        words_before(alloc, line, part.text),
        placed_line(alloc, part, line),
    ) else {
        return out.fail(AllocError);
    };
    match refused_token(words, tokens.as_slice(), refusal) {
        Ok(token) => {
            push_token_spot(out, part, line, token, b"");
            push_reason(alloc, out, part, line, token, refusal)
        }
        Err(error) => out.fail(error),
    }
}

/// Appends the text on a line that is refused at token `index`, from 0.
fn push_token(alloc: Global, out: &mut Draft, part: &Part<'_>, line: u64, index: usize, said: &[u8])
    ensures { Adds out.old out.new
        (token_spot (view_part part.now) line (nth_token index (placed_line
        (view_part part.now) line)) said.now) }
{
    match placed_line(alloc, part, line) {
        Ok(tokens) => {
            let token = nth_token(index, tokens.as_slice());
            push_token_spot(out, part, line, token, said)
        }
        Err(error) => out.fail(error),
    }
}

/// Appends the text on a header line that is not the one expected.
fn push_header(alloc: Global, out: &mut Draft, part: &Part<'_>, line: u64)
    ensures { Adds out.old out.new
        (form_text (view_part part.now) (sorts.Header (header_at Kind line (text_lines
        part.now.text.now))) line) }
{
    match header_at(alloc, line, part.text) {
        Ok(header) => push_form(alloc, out, part, LineSort::Header(header), line),
        Err(error) => out.fail(error),
    }
}

/// Appends the text on a listing that leads to a line which it has not.
fn push_target(
    alloc: Global,
    out: &mut Draft,
    part: &Part<'_>,
    number: u64,
    refusal: &ListingRefusal,
)
    ensures { Adds out.old out.new
        (rule_spot (view_part part.now) (leading_line number (text_lines part.now.text.now))
        refusal.now) }
{
    match leading_line(alloc, number, part.text) {
        Ok(line) => push_rule_spot(alloc, out, part, line, refusal),
        Err(error) => out.fail(error),
    }
}

/// Appends the text on a refused listing.
#[tactic(auto, unfolding(crate::specs::Explanation::listing_explained))]
fn push_listing(alloc: Global, out: &mut Draft, part: &Part<'_>, refusal: &ListingRefusal)
    ensures { Adds out.old out.new (listing_explained (view_part part.now) refusal.now) }
{
    match refusal {
        ListingRefusal::TooLong => out.push(LONG_LISTING),
        ListingRefusal::BadHeader(line) => push_header(alloc, out, part, *line),
        ListingRefusal::BadLine(line) => push_form(alloc, out, part, LineSort::Numbered, *line),
        ListingRefusal::UnknownName(line) | ListingRefusal::WrongKind(line) => {
            push_uses_spot(alloc, out, part, *line)
        }
        ListingRefusal::NoSuchLine(number) => push_target(alloc, out, part, *number, refusal),
        ListingRefusal::NumberNotRising(line)
        | ListingRefusal::NameTwice(line)
        | ListingRefusal::TooMany(line)
        | ListingRefusal::BadName(line) => push_rule_spot(alloc, out, part, *line, refusal),
    }
}

/// Returns the sort of the lines behind the shape.
fn item_sort(layout: Layout) -> LineSort
    ensures { result ≡ item_sort layout }
{
    match layout {
        Layout::Parts(_, Texts::Scripts) => LineSort::Script,
        _ => LineSort::Item,
    }
}

/// Appends the text on a shape that is none.
pub(crate) fn push_shape(alloc: Global, out: &mut Draft, part: &Part<'_>)
    ensures { Adds out.old out.new
        (form_text (view_part part.now) sorts.Shape (first_number (text_lines part.now.text.now))) }
{
    match first_number(alloc, part.text) {
        Ok(line) => push_form(alloc, out, part, LineSort::Shape, line),
        Err(error) => out.fail(error),
    }
}

/// Appends the text on a refused schedule.
#[tactic(auto, unfolding(crate::specs::Explanation::schedule_explained))]
fn push_schedule(
    alloc: Global,
    out: &mut Draft,
    layout: Layout,
    part: &Part<'_>,
    refusal: &ScheduleRefusal,
)
    ensures { Adds out.old out.new
        (schedule_explained layout (view_part part.now) refusal.now) }
{
    match refusal {
        ScheduleRefusal::TooLong => out.push(LONG_SCHEDULE),
        ScheduleRefusal::BadShape => push_shape(alloc, out, part),
        ScheduleRefusal::BadItem(line) => push_form(alloc, out, part, item_sort(layout), *line),
        ScheduleRefusal::TooManyItems(line) => push_token(alloc, out, part, *line, 0, ITEMS),
        ScheduleRefusal::NoSuchProcess(line) => push_token(alloc, out, part, *line, 0, NO_PROCESS),
    }
}

/// Appends the text on a shape that does not fit the kind.
fn push_words(alloc: Global, out: &mut Draft, part: &Part<'_>)
    ensures { Adds out.old out.new
        (at_token (view_part part.now) (first_number (text_lines part.now.text.now)) 2 NO_FIT.now) }
{
    match first_number(alloc, part.text) {
        Ok(line) => push_token(alloc, out, part, line, 2, NO_FIT),
        Err(error) => out.fail(error),
    }
}

/// Appends the text on a refused part.
#[tactic(auto, unfolding(crate::specs::Explanation::part_explained))]
fn push_part(alloc: Global, out: &mut Draft, layout: Layout, part: &Part<'_>, refusal: &Refusal)
    ensures { Adds out.old out.new (part_explained layout (view_part part.now) refusal.now) }
{
    match refusal {
        Refusal::Listing(refusal) => push_listing(alloc, out, part, refusal),
        Refusal::Schedule(refusal) => push_schedule(alloc, out, layout, part, refusal),
        Refusal::Words(_) => push_words(alloc, out, part),
        Refusal::Commands(CommandRefusal::BadCommand(line)) => {
            push_form(alloc, out, part, LineSort::Command, *line)
        }
        Refusal::Commands(CommandRefusal::TooLong) => out.push(LONG_COMMANDS),
        _ => {}
    }
}

/// Returns the rule of listings that is broken.
#[tactic(auto, unfolding(crate::specs::Explanation::rule))]
fn rule(refusal: &ListingRefusal) -> &'static [u8]
    ensures { result.now ≡ rule refusal.now }
{
    match refusal {
        ListingRefusal::TooLong => LONG_LISTING,
        ListingRefusal::BadHeader(_) | ListingRefusal::BadLine(_) => b"",
        ListingRefusal::NumberNotRising(_) => RISING,
        ListingRefusal::UnknownName(_) | ListingRefusal::WrongKind(_) => WRONG,
        ListingRefusal::NameTwice(_) => DECLARED_BEFORE,
        ListingRefusal::NoSuchLine(_) => NO_SUCH_LINE,
        ListingRefusal::TooMany(_) => TOO_MANY,
        ListingRefusal::BadName(_) => BAD_NAME,
    }
}

/// Appends which rule the listing in an image breaks.
fn push_broken(out: &mut Draft, refusal: &ListingRefusal)
    ensures { Adds out.old out.new (IMAGE_RULE.now ++ rule refusal.now) }
{
    out.push(IMAGE_RULE);
    out.push(rule(refusal));
}

/// Appends the text on bytes that are no image of a listing.
fn push_image(out: &mut Draft, refusal: &ImageRefusal)
    ensures { Adds out.old out.new (image_explained refusal.now) }
{
    match refusal {
        ImageRefusal::BadCode(place) => {
            out.push(BYTE);
            out.push_number(*place);
            out.push(NO_CODE);
            out.push(AN_IMAGE);
        }
        ImageRefusal::Invalid(broken) => push_broken(out, broken),
        ImageRefusal::NotAnImage
        | ImageRefusal::Version
        | ImageRefusal::Truncated
        | ImageRefusal::Extra => out.push(AN_IMAGE),
    }
}

/// Appends the text on a refused part of an input.
fn push_refused_part(
    alloc: Global,
    out: &mut Draft,
    layout: Layout,
    input: &[u8],
    refusal: &Refusal,
)
    ensures { Adds out.old out.new
        (part_explained layout (part_place layout input.now refusal.now) refusal.now) }
{
    match part_place(alloc, layout, input, refusal) {
        Ok(part) => push_part(alloc, out, layout, &part, refusal),
        Err(error) => out.fail(error),
    }
}

/// Appends the text on a refused input behind the line that refuses it.
#[tactic(auto, unfolding(crate::specs::Explanation::explanation))]
fn push_explanation(alloc: Global, out: &mut Draft, layout: Layout, input: &[u8], refusal: &Refusal)
    ensures { Adds out.old out.new (explanation layout input.now refusal.now) }
{
    match refusal {
        Refusal::InputTooLong => out.push(LONG_INPUT),
        Refusal::Image(refusal) => push_image(out, refusal),
        Refusal::WrongParts(_) => {
            push_parts(alloc, out, layout, input);
            push_order_advice(alloc, out, layout, input, refusal)
        }
        _ => {
            push_refused_part(alloc, out, layout, input, refusal);
            push_order_advice(alloc, out, layout, input, refusal)
        }
    }
}

/// Returns the text on a refused input behind the line that refuses it.
///
/// # Errors
///
/// `AllocError` where memory runs out.
pub fn explanation(
    alloc: Global,
    layout: Layout,
    input: &[u8],
    refusal: &Refusal,
) -> Result<Vec<u8>, AllocError>
    ensures { IfOk result (λ text. text.items ≡ explanation layout input.now refusal.now) }
{
    let mut out = Draft::new(alloc);
    push_explanation(alloc, &mut out, layout, input, refusal);
    out.finish()
}
