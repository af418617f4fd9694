//! Histories read from texts.
ghost use Rattle.std.specs.Prelude.{◌≡◌, ◌<◌, length, option_map, replicate, Err, IfOk};
ghost use Rattle.snap_semantics.specs.Answers.{Answers, Gives};
ghost use Rattle.snap_semantics.specs.declared.fault.Fault.TheVariants.{Refused};
ghost use Rattle.snap_text.specs.Lines.{view_line};
ghost use Rattle.snap_judge.specs.History.{Free, IsHistory};
ghost use Rattle.snap_history_text.specs.HistoryText.{event_of, events_of, has_word, history_of};
ghost use Rattle.snap_history_text.specs.HistoryText.{line_event, max_bytes, number_behind};
ghost use Rattle.snap_history_text.specs.ReaderSteps.{first_shape, next_event, view_callers};
ghost use Rattle.snap_history_text.specs.declared.refusal.HistoryRefusal.TheVariants.{TooLong};

use crate::callers::{Caller, free_callers, note_event, wrong_turn};
use crate::event_form::EventForm;
use crate::form::event_form;
use crate::refusal::{HistoryFault, HistoryRefusal};
use snap_judge::History;
use snap_sched::shape_form;
use snap_semantics::{Event, Happening, Op};
use snap_text::{TextLines, TokenLine};
use snap_words::Shape;
use std::alloc::Global;

/// The most bytes of the text of a history.
pub const MAX_BYTES: usize = 16_777_216;

/// Returns the number of the event behind one with the number `last`: the one on its line, or the
/// next one.
fn number_behind(last: u64, number: Option<u64>) -> Option<u64>
    ensures { result ≡ number_behind last number }
{
    match number {
        Some(number) if last < number => Some(number),
        Some(_) => None,
        None => last.checked_add(1),
    }
}

/// Returns whether the updated word exists; every other event passes.
fn has_word(shape: Shape, what: &Happening) -> bool
    ensures { result ≡ has_word shape what.now }
{
    match what {
        Happening::Call(Op::Update { word, .. }) => 0 < *word && *word <= shape.w(),
        _ => true,
    }
}

/// Returns the event of the form of a line.
fn event_of(
    shape: Shape,
    last: u64,
    callers: &[Caller],
    line: u64,
    form: EventForm,
) -> Result<Event, HistoryRefusal>
    requires { length callers.now ≡ shape.n }
    ensures { Gives (λ e. e) result
        (event_of shape last (view_callers callers.now) line form) }
{
    let EventForm {
        number,
        process,
        what,
    } = form;
    if process == 0 || shape.n() < process {
        return Err(HistoryRefusal::NoSuchProcess(line));
    }
    let Some(item) = number_behind(last, number) else {
        return Err(HistoryRefusal::NotRising(line));
    };
    if !has_word(shape, &what) {
        return Err(HistoryRefusal::NoSuchWord(line));
    }
    let caller = callers[(process - 1) as usize];
    match wrong_turn(shape, line, caller, &what) {
        Some(refusal) => Err(refusal),
        None => Ok(Event {
            item,
            process: process as u32,
            what,
        }),
    }
}

/// Returns the event of a line.
fn line_event(
    alloc: Global,
    shape: Shape,
    last: u64,
    callers: &[Caller],
    line: &TokenLine<'_>,
) -> Result<Event, HistoryFault>
    requires { length callers.now ≡ shape.n }
    ensures { Answers (λ e. e) result
        (line_event shape last (view_callers callers.now) (view_line line.now)) }
{
    let found = match &line.tokens {
        Some(tokens) => event_form(alloc, tokens.as_slice())?,
        None => None,
    };
    let Some(form) = found else {
        return Err(HistoryFault::Refused(HistoryRefusal::BadEvent(line.number)));
    };
    match event_of(shape, last, callers, line.number, form) {
        Ok(event) => Ok(event),
        Err(refusal) => Err(HistoryFault::Refused(refusal)),
    }
}

/// Reads the event of the next line.
fn next_event(
    alloc: Global,
    shape: Shape,
    last: u64,
    callers: &[Caller],
    lines: &mut TextLines<'_>,
) -> Result<Option<Event>, HistoryFault>
    requires { length callers.now ≡ shape.n }
    ensures { Answers (option_map (λ e. (e, lines.new))) result
        (next_event shape last (view_callers callers.now) lines.old) }
{
    match lines.next_line(alloc)? {
        Some(line) => Ok(Some(line_event(alloc, shape, last, callers, &line)?)),
        None => Ok(None),
    }
}

/// Reads the shape that the first line is.
fn first_shape(alloc: Global, lines: &mut TextLines<'_>) -> Result<Shape, HistoryFault>
    ensures { Answers (λ s. (s, lines.new)) result (first_shape lines.old) }
{
    let Some(line) = lines.next_line(alloc)? else {
        return Err(HistoryFault::Refused(HistoryRefusal::BadShape));
    };
    let found = match &line.tokens {
        Some(tokens) => shape_form(tokens.as_slice()),
        None => None,
    };
    match found {
        Some(shape) => Ok(shape),
        None => Err(HistoryFault::Refused(HistoryRefusal::BadShape)),
    }
}

/// Reads the events of the lines.
fn events_of(
    alloc: Global,
    shape: Shape,
    lines: &mut TextLines<'_>,
) -> Result<Vec<Event>, HistoryFault>
    ensures { Answers (λ events. events.items) result
        (events_of shape 0 (replicate shape.n Free) lines.old) }
{
    let mut events = Vec::new(alloc);
    let mut callers = free_callers(alloc, shape.n())?;
    let mut last = 0;
    while let Some(event) = next_event(alloc, shape, last, callers.as_slice(), lines)? {
        last = event.item;
        note_event(&mut callers, &event);
        events.push(event)?;
    }
    Ok(events)
}

/// Reads the history that `text` spells.
///
/// # Errors
///
/// The first reason why `text` is no history, or `Memory` where memory runs out.
pub fn read(alloc: Global, text: &[u8]) -> Result<History, HistoryFault>
    ensures answer { Answers (λ h. h) result (history_of text.now) }
    ensures history { IfOk result (λ h. IsHistory h) }
    ensures too_long { max_bytes < length text.now → result ≡ Err (Refused TooLong) }
{
    if text.len() > MAX_BYTES {
        return Err(HistoryFault::Refused(HistoryRefusal::TooLong));
    }
    let mut lines = TextLines::new(text);
    let shape = first_shape(alloc, &mut lines)?;
    let events = events_of(alloc, shape, &mut lines)?;
    Ok(History { shape, events })
}
