//! `history_explanation`: the text on an input that is no history, after the line that refuses it.
ghost use Rattle.std.specs.Prelude.{◌≡◌, IfOk};
ghost use Rattle.snap_text.specs.Drafted.{Adds};
ghost use Rattle.snap_explanation.specs.HistoryExplanation.{history_explanation, history_part};
ghost use Rattle.snap_explanation.specs.HistoryExplanation.{refused_line, history_rule, no_event};
ghost use Rattle.snap_explanation.specs.Pieces.{placed_of};
ghost use Rattle.snap_explanation.specs.Spot.{text_of};
ghost use Rattle.snap_explanation.specs.Views.{view_part};

use crate::explain::{push_shape, push_stray};
use crate::line_sorts::LineSort;
use crate::part::{Part, PartName};
use crate::pieces::placed_tokens;
use crate::spot::{push_line_spot, text_of};
use crate::wording::{
    BAD_VIEW, BUSY, CRASHED, EVENT_FORMS, LONG_HISTORY, NO_PROCESS, NO_WORD, NOT_CALLED, NOT_RISING,
};
use snap_history_text::HistoryRefusal;
use snap_text::Draft;
use std::alloc::{AllocError, Global};

/// Returns the history that an input spells.
fn history_part(input: &[u8]) -> Part<'_>
    ensures { view_part result ≡ history_part input.now }
{
    Part {
        name: PartName::History,
        before: 0,
        text: input,
    }
}

/// Returns the line of a history that is refused, and 0 where none is.
fn refused_line(refusal: &HistoryRefusal) -> u64
    ensures { result ≡ refused_line refusal.now }
{
    match refusal {
        HistoryRefusal::TooLong | HistoryRefusal::BadShape => 0,
        HistoryRefusal::BadEvent(line)
        | HistoryRefusal::NoSuchProcess(line)
        | HistoryRefusal::NotRising(line)
        | HistoryRefusal::NoSuchWord(line)
        | HistoryRefusal::Busy(line)
        | HistoryRefusal::Crashed(line)
        | HistoryRefusal::NotCalled(line)
        | HistoryRefusal::BadView(line) => *line,
    }
}

/// Returns the rule of histories that is broken.
fn history_rule(refusal: &HistoryRefusal) -> &'static [u8]
    ensures { result.now ≡ history_rule refusal.now }
{
    match refusal {
        HistoryRefusal::TooLong => LONG_HISTORY,
        HistoryRefusal::BadShape | HistoryRefusal::BadEvent(_) => b"",
        HistoryRefusal::NoSuchProcess(_) => NO_PROCESS,
        HistoryRefusal::NotRising(_) => NOT_RISING,
        HistoryRefusal::NoSuchWord(_) => NO_WORD,
        HistoryRefusal::Busy(_) => BUSY,
        HistoryRefusal::Crashed(_) => CRASHED,
        HistoryRefusal::NotCalled(_) => NOT_CALLED,
        HistoryRefusal::BadView(_) => BAD_VIEW,
    }
}

/// Appends the text on a line that is no event: on the byte in this column that begins no token, if
/// one does, or on the forms of events.
fn push_stray_or_forms(out: &mut Draft, part: &Part<'_>, line: u64, stray: Option<usize>)
    ensures { Adds out.old out.new (no_event (view_part part.now) line stray) }
{
    match stray {
        Some(column) => push_stray(out, part, LineSort::Script, line, column),
        None => {
            push_line_spot(out, part, line);
            out.push(EVENT_FORMS);
        }
    }
}

/// Appends the text on a line that is no event.
fn push_no_event(alloc: Global, out: &mut Draft, part: &Part<'_>, line: u64)
    ensures { Adds out.old out.new (no_event (view_part part.now) line
        (placed_of (text_of (view_part part.now) line)).stray) }
{
    match placed_tokens(alloc, text_of(part, line)) {
        Ok(placed) => push_stray_or_forms(out, part, line, placed.stray),
        Err(error) => out.fail(error),
    }
}

/// Appends the text on an input that is no history.
#[tactic(auto, unfolding(crate::specs::HistoryExplanation::history_explanation))]
fn push_history(alloc: Global, out: &mut Draft, input: &[u8], refusal: &HistoryRefusal)
    ensures { Adds out.old out.new (history_explanation input.now refusal.now) }
{
    let part = history_part(input);
    match refusal {
        HistoryRefusal::TooLong => out.push(LONG_HISTORY),
        HistoryRefusal::BadShape => push_shape(alloc, out, &part),
        HistoryRefusal::BadEvent(line) => push_no_event(alloc, out, &part, *line),
        _ => {
            push_line_spot(out, &part, refused_line(refusal));
            out.push(history_rule(refusal));
        }
    }
}

/// Returns the text on an input that is no history behind the line that refuses it.
///
/// # Errors
///
/// `AllocError` where memory runs out.
pub fn history_explanation(
    alloc: Global,
    input: &[u8],
    refusal: &HistoryRefusal,
) -> Result<Vec<u8>, AllocError>
    ensures { IfOk result (λ text. text.items ≡ history_explanation input.now refusal.now) }
{
    let mut out = Draft::new(alloc);
    push_history(alloc, &mut out, input, refusal);
    out.finish()
}
