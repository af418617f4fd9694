//! What is said of the parts of an input: of their number, and of one that stands in another one's
//! place.
ghost use Rattle.std.specs.Prelude.{◌≡◌, ◌-◌, IfOk, length, map, option_map, take};
ghost use Rattle.snap_semantics.specs.Token.{begins_with, lines_of, text_lines};
ghost use Rattle.snap_text.specs.Drafted.{Adds};
ghost use Rattle.snap_input.specs.Parts.{ends_part, parts_of};
ghost use Rattle.snap_text.specs.Tokens.{view_tokens};
ghost use Rattle.snap_explanation.specs.Inputs.{parts_words, lines_behind};
ghost use Rattle.snap_explanation.specs.Inputs.{near_separator, near_words, separator_words};
ghost use Rattle.snap_explanation.specs.Inputs.{parts_explained, first_is, is_front, fronts_of};
ghost use Rattle.snap_explanation.specs.Inputs.{formless_line, has_parts, order_advice_of};
ghost use Rattle.snap_explanation.specs.Inputs.{order_advice};

use crate::layout::{Layout, Texts};
use crate::part::{lines_through, part_at};
use crate::pieces::begins_with;
use crate::spot::line_of;
use crate::tests::is_word;
use crate::wording::{
    ALONE, COMMANDS_ALONE, FILES_SWAPPED, LINE, LINE_END, LISTING_AND_COMMANDS,
    LISTING_AND_SCHEDULE, LISTING_AND_SCHEDULES, LISTING_AND_SCRIPTS, NEAR, NO_LISTING,
    NO_SEPARATOR, SCHEDULE_ALONE, SCHEDULES_ALONE, SCRIPTS_ALONE, SEPARATORS, SHIPPED, SWAPPED,
    WHOLE_INPUT,
};
use snap_input::split_parts;
use snap_listing::same_word;
use snap_semantics::{ListingRefusal, Refusal};
use snap_tasks::Subject;
use snap_text::{Draft, TextLines, Token, split_line};
use std::alloc::{AllocError, Global};

/// The most lines `%` that are told.
const MOST: usize = 8;

/// Returns the parts that an input has, in words.
fn parts_words(layout: Layout) -> &'static [u8]
    ensures { result.now ≡ parts_words layout }
{
    match layout {
        Layout::Parts(Subject::FirstPart, texts) => match texts {
            Texts::Schedule => LISTING_AND_SCHEDULE,
            Texts::ScheduleAndCommands => LISTING_AND_COMMANDS,
            Texts::Schedules => LISTING_AND_SCHEDULES,
            Texts::Scripts => LISTING_AND_SCRIPTS,
        },
        Layout::Parts(Subject::Shipped(_), texts) => match texts {
            Texts::Schedule => SCHEDULE_ALONE,
            Texts::ScheduleAndCommands => COMMANDS_ALONE,
            Texts::Schedules => SCHEDULES_ALONE,
            Texts::Scripts => SCRIPTS_ALONE,
        },
        _ => WHOLE_INPUT,
    }
}

/// Returns the lines behind parts.
fn lines_behind(alloc: Global, parts: &[&[u8]]) -> Result<Vec<u64>, AllocError>
    ensures { IfOk result (λ lines. lines.items ≡ lines_behind 0 (map (λ p. p.now) parts.now)) }
{
    let mut lines = Vec::new(alloc);
    let mut before = 0;
    for part in parts {
        before = lines_through(before, part);
        lines.push(before)?;
    }
    Ok(lines)
}

/// Returns the first ones of some lines.
#[tactic(auto, using(crate::proofs::Cuts::front_cut))]
fn first_lines(lines: &[u64]) -> &[u64]
    ensures { result.now ≡ take 8 lines.now }
{
    &lines[..MOST.min(lines.len())]
}

/// Appends where the lines `%` of an input are, the first ones of them.
#[tactic(auto, unfolding(crate::specs::Inputs::separator_words))]
fn push_separators(out: &mut Draft, lines: &[u64])
    ensures { Adds out.old out.new (separator_words lines.now) }
{
    if lines.len() == 0 {
        out.push(NO_SEPARATOR);
    } else {
        out.push(SEPARATORS);
        out.push_numbers(first_lines(lines));
        out.push(LINE_END);
    }
}

/// Returns whether a line parts an input.
fn ends_part(line: &[u8]) -> bool
    ensures { result ≡ ends_part line.now }
{
    same_word(line, b"%\n")
        || same_word(line, b"%\r\n")
        || same_word(line, b"%")
        || same_word(line, b"%\r")
}

/// Returns the number of the first line that begins with `%` and has more; 0 if there is none.
fn near_separator(input: &[u8]) -> u64
    ensures { result ≡ near_separator 1 (lines_of input.now) }
{
    let mut number = 1;
    let mut rest = input;
    while !rest.is_empty() {
        let (line, after) = split_line(rest);
        if begins_with(b'%', line) && !ends_part(line) {
            return number;
        }
        number += 1;
        rest = after;
    }
    0
}

/// Appends which line is nearly `%` alone, if one is.
fn push_near(out: &mut Draft, number: u64)
    ensures { Adds out.old out.new (near_words number) }
{
    if number > 0 {
        out.push(LINE);
        out.push_number(number);
        out.push(NEAR);
    }
}

/// Returns the lines behind the parts of an input.
fn part_ends(alloc: Global, input: &[u8]) -> Result<Vec<u64>, AllocError>
    ensures { IfOk result (λ lines. lines.items ≡ lines_behind 0 (parts_of input.now)) }
{
    let parts = split_parts(alloc, input)?;
    lines_behind(alloc, parts.as_slice())
}

/// Appends where the lines `%` are that are behind these parts, but for the last one.
fn push_separators_of(out: &mut Draft, lines: &[u64])
    ensures { Adds out.old out.new (separator_words (take (length lines.now - 1) lines.now)) }
{
    push_separators(out, &lines[..lines.len().saturating_sub(1)]);
}

/// Appends how many parts are taken, and where the lines `%` are.
#[tactic(auto, unfolding(crate::specs::Inputs::parts_explained))]
pub fn push_parts(alloc: Global, out: &mut Draft, layout: Layout, input: &[u8])
    ensures { Adds out.old out.new (parts_explained layout input.now) }
{
    match part_ends(alloc, input) {
        Ok(lines) => {
            out.push(parts_words(layout));
            push_separators_of(out, lines.as_slice());
            push_near(out, near_separator(input));
        }
        Err(error) => out.fail(error),
    }
}

/// Returns whether the first token of a line is this word.
fn first_is(word: &[u8], tokens: &Option<Vec<Token<'_>>>) -> bool
    ensures { result ≡ first_is word.now (option_map (λ ts. view_tokens ts.items) tokens.now) }
{
    match tokens {
        Some(tokens) => match tokens.as_slice() {
            [first, ..] => is_word(word, first),
            [] => false,
        },
        None => false,
    }
}

/// Returns whether the first line with tokens begins with this word.
fn is_front(alloc: Global, word: &[u8], text: &[u8]) -> Result<bool, AllocError>
    ensures { IfOk result (λ is. is ≡ is_front word.now (text_lines text.now)) }
{
    match TextLines::new(text).next_line(alloc)? {
        Some(line) => Ok(first_is(word, &line.tokens)),
        None => Ok(false),
    }
}

/// Whether an input begins as a schedule or as a listing does, and whether its second part begins
/// as a listing does.
#[derive(Clone, Copy)]
pub struct Fronts {
    pub schedule: bool,
    pub listing: bool,
    pub listing_behind: bool,
}

/// Returns how an input begins.
fn fronts_of(alloc: Global, input: &[u8]) -> Result<Fronts, AllocError>
    ensures { IfOk result (λ fronts. fronts ≡ fronts_of input.now) }
{
    let parts = split_parts(alloc, input)?;
    Ok(Fronts {
        schedule: is_front(alloc, b"shape", input)?,
        listing: is_front(alloc, b"kind", input)?,
        listing_behind: is_front(alloc, b"kind", part_at(parts.as_slice(), 1))?,
    })
}

/// Returns the text line that lacks its form.
fn formless_line<'a>(refusal: &ListingRefusal, input: &'a [u8]) -> &'a [u8]
    ensures { result.now ≡ formless_line refusal.now (lines_of input.now) }
{
    match refusal {
        ListingRefusal::BadHeader(line) | ListingRefusal::BadLine(line) => line_of(input, *line),
        _ => b"",
    }
}

/// Returns whether the whole input is no listing, but has parts: it begins as a schedule does, or
/// the line without a form begins with `%`.
fn has_parts(fronts: Fronts, refusal: &ListingRefusal, input: &[u8]) -> bool
    ensures { result ≡ has_parts fronts refusal.now (lines_of input.now) }
{
    fronts.schedule || begins_with(b'%', formless_line(refusal, input))
}

/// Returns the text on a part that stands in another one's place.
fn order_advice(layout: Layout, input: &[u8], refusal: &Refusal, fronts: Fronts) -> &'static [u8]
    ensures { result.now ≡ order_advice_of layout input.now refusal.now fronts }
{
    match (layout, refusal) {
        (Layout::Listing, Refusal::Listing(refusal)) if has_parts(fronts, refusal, input) => ALONE,
        (Layout::NamedListing, Refusal::Listing(_)) if fronts.schedule => FILES_SWAPPED,
        (Layout::NamedSchedule, Refusal::Schedule(_)) if fronts.listing => FILES_SWAPPED,
        (Layout::Parts(Subject::FirstPart, _), Refusal::Listing(_) | Refusal::WrongParts(_))
            if fronts.schedule => {
            if fronts.listing_behind {
                SWAPPED
            } else {
                SHIPPED
            }
        }
        (Layout::Parts(Subject::Shipped(_), _), Refusal::Schedule(_)) if fronts.listing => {
            NO_LISTING
        }
        _ => b"",
    }
}

/// Appends the text on a part that stands in another one's place.
#[tactic(auto, unfolding(crate::specs::Inputs::order_advice))]
pub fn push_order_advice(
    alloc: Global,
    out: &mut Draft,
    layout: Layout,
    input: &[u8],
    refusal: &Refusal,
)
    ensures { Adds out.old out.new (order_advice layout input.now refusal.now) }
{
    match fronts_of(alloc, input) {
        Ok(fronts) => out.push(order_advice(layout, input, refusal, fronts)),
        Err(error) => out.fail(error),
    }
}
