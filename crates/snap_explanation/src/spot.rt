//! `push_spot`: a place of a refused input: where it is, its line, and a mark under its column.
ghost use Rattle.std.specs.Prelude.{◌≡◌, ◌≤◌, length, option_map, take, drop};
ghost use Rattle.snap_semantics.specs.Token.{lines_of};
ghost use Rattle.snap_text.specs.Drafted.{Adds};
ghost use Rattle.snap_explanation.specs.Steps.{view_placed_token};
ghost use Rattle.snap_explanation.specs.Spot.{nth_line, text_of, comment_start, piece_at};
ghost use Rattle.snap_explanation.specs.Spot.{column_of};
ghost use Rattle.snap_explanation.specs.Spot.{part_name_text, line_of_input, line_place, window};
ghost use Rattle.snap_explanation.specs.Spot.{column_words, mark, marked, spot, line_spot};
ghost use Rattle.snap_explanation.specs.Views.{view_part};

use crate::part::{Part, PartName};
use crate::pieces::{PlacedToken, piece_len};
use crate::said::{push_shown, push_spaces};
use crate::wording::{
    COLUMN, LINE, LINE_END, MARGIN, MARK, NTH_SCHEDULE, OF, OF_THE_INPUT, PLACE_END, THE_COMMANDS,
    THE_HISTORY, THE_LISTING, THE_SCHEDULE, THE_SCRIPTS,
};
use snap_text::{Draft, split_line};

/// The most bytes of a line that are shown.
const WINDOW: usize = 72;

/// The most bytes of a line before the marked column.
const BEFORE_MARK: usize = 60;

/// Returns how many bytes of a line stand before its comment.
fn comment_start(line: &[u8]) -> usize
    ensures value { result ≡ comment_start line.now }
    ensures within { result ≤ length line.now }
{
    let mut len = 0;
    while len < line.len() && line[len] != b'#' {
        len += 1;
    }
    len
}

/// Returns the front of `bytes`, at most `most` of them.
#[tactic(auto, using(crate::proofs::Cuts::front_cut))]
pub fn front(bytes: &[u8], most: usize) -> &[u8]
    ensures { result.now ≡ take most bytes.now }
{
    &bytes[..most.min(bytes.len())]
}

/// Returns what stands behind the first `count` bytes.
#[tactic(auto, using(crate::proofs::Cuts::behind_cut))]
fn behind(bytes: &[u8], count: usize) -> &[u8]
    ensures { result.now ≡ drop count bytes.now }
{
    &bytes[count.min(bytes.len())..]
}

/// Returns the piece in a column; none behind the line.
pub fn piece_at(column: usize, line: &[u8]) -> &[u8]
    ensures { result.now ≡ piece_at column line.now }
{
    let rest = behind(line, column.saturating_sub(1));
    front(rest, piece_len(rest))
}

/// Returns the column of a token; behind the last one that of the end of the line.
pub fn column_of(line: &[u8], token: Option<PlacedToken<'_>>) -> usize
    ensures { result ≡ column_of line.now (option_map view_placed_token token.entry) }
{
    match token {
        Some(token) => token.column,
        None => comment_start(line) + 1,
    }
}

/// Appends what a part is.
fn push_part_name(out: &mut Draft, name: PartName)
    ensures { Adds out.old out.new (part_name_text name) }
{
    match name {
        PartName::Listing => out.push(THE_LISTING),
        PartName::Schedule => out.push(THE_SCHEDULE),
        PartName::NthSchedule(number) => {
            out.push(NTH_SCHEDULE);
            out.push_number(number as u64);
        }
        PartName::Scripts => out.push(THE_SCRIPTS),
        PartName::Commands => out.push(THE_COMMANDS),
        PartName::History => out.push(THE_HISTORY),
    }
}

/// Returns the number in the input of line `line`, which stands behind `before` others.
fn line_of_input(before: u64, line: u64) -> u64
    ensures { result ≡ line_of_input before line }
{
    if line <= u64::MAX - before {
        before + line
    } else {
        line
    }
}

/// Appends where a line of a part stands.
#[tactic(auto, unfolding(crate::specs::Spot::line_place))]
fn push_line_place(out: &mut Draft, part: &Part<'_>, line: u64)
    ensures { Adds out.old out.new (line_place (view_part part.now) line) }
{
    out.push(LINE);
    out.push_number(line_of_input(part.before, line));
    out.push(OF_THE_INPUT);
    out.push_number(line);
    out.push(OF);
    push_part_name(out, part.name);
}

/// Appends a column.
#[tactic(auto, unfolding(crate::specs::Spot::column_words))]
fn push_column_words(out: &mut Draft, column: usize)
    ensures { Adds out.old out.new (column_words column) }
{
    out.push(COLUMN);
    out.push_number(column as u64);
    out.push(PLACE_END);
}

/// Appends a line of text around a column.
#[tactic(auto, unfolding(crate::specs::Spot::window))]
fn push_window(out: &mut Draft, text: &[u8], column: usize)
    ensures { Adds out.old out.new (window text.now column) }
{
    let shown = front(behind(text, column.saturating_sub(BEFORE_MARK)), WINDOW);
    out.push(MARGIN);
    push_shown(out, shown);
    out.push(LINE_END);
}

/// Appends a mark under a column.
#[tactic(auto, unfolding(crate::specs::Spot::mark))]
fn push_mark(out: &mut Draft, column: usize)
    ensures { Adds out.old out.new (mark column) }
{
    let count = column
        .saturating_sub(1)
        .saturating_sub(column.saturating_sub(BEFORE_MARK));
    out.push(MARGIN);
    push_spaces(out, count);
    out.push(MARK);
}

/// Appends a line around a column, marked.
#[tactic(auto, unfolding(crate::specs::Spot::marked))]
fn push_marked(out: &mut Draft, text: &[u8], column: usize)
    ensures { Adds out.old out.new (marked text.now column) }
{
    push_window(out, text, column);
    push_mark(out, column);
}

/// Appends a place: where it stands, its line, and a mark under its column.
#[tactic(auto, unfolding(crate::specs::Spot::spot))]
pub fn push_spot(out: &mut Draft, part: &Part<'_>, line: u64, column: usize)
    ensures { Adds out.old out.new (spot (view_part part.now) line column) }
{
    push_line_place(out, part, line);
    push_column_words(out, column);
    push_marked(out, text_of(part, line), column);
}

/// Appends a line as a place, if no column of it is one.
#[tactic(auto, unfolding(crate::specs::Spot::line_spot))]
pub fn push_line_spot(out: &mut Draft, part: &Part<'_>, line: u64)
    ensures { Adds out.old out.new (line_spot (view_part part.now) line) }
{
    push_line_place(out, part, line);
    out.push(PLACE_END);
    push_window(out, text_of(part, line), 1);
}

/// Returns line number `number`, counted from 1; an empty line if there is none.
pub fn line_of(text: &[u8], number: u64) -> &[u8]
    ensures { result.now ≡ nth_line number (lines_of text.now) }
{
    let mut left = number;
    let mut rest = text;
    while !rest.is_empty() {
        let (line, after) = split_line(rest);
        if left <= 1 {
            return line;
        }
        left -= 1;
        rest = after;
    }
    &[]
}

/// Returns a line of a part.
pub fn text_of<'a>(part: &Part<'a>, line: u64) -> &'a [u8]
    ensures { result.now ≡ text_of (view_part part.now) line }
{
    line_of(part.text, line)
}
