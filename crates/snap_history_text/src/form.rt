//! `EventForm`: the forms of the lines of a history: an event of a process, with its number or
//! without it.
ghost use Rattle.std.specs.Prelude.{IfOk};
ghost use Rattle.snap_text.specs.Tokens.{Finds, view_tokens};
ghost use Rattle.snap_history_text.specs.HistoryForms.{answer_form, call_form, event_form, mark_form};
ghost use Rattle.snap_history_text.specs.HistoryForms.{numbered_form, plain_form, scan_form};
ghost use Rattle.snap_history_text.specs.HistoryForms.{update_form, values_of, what_form};

use crate::event_form::EventForm;
use snap_semantics::{Happening, Op};
use snap_text::{Token, end_at, keyword_at, number_at};
use snap_words::View;
use std::alloc::{AllocError, Global};

/// Reads `scan`.
#[tactic(auto, unfolding(crate::specs::HistoryForms::scan_form))]
fn scan_form(tokens: &[Token<'_>]) -> Option<Op>
    ensures { Finds (λ x. x) result (scan_form (view_tokens tokens.now)) }
{
    let rest = keyword_at(b"scan", tokens)?;
    end_at(rest)?;
    Some(Op::Scan)
}

/// Reads `update K X`.
#[tactic(auto, unfolding(crate::specs::HistoryForms::update_form))]
fn update_form(tokens: &[Token<'_>]) -> Option<Op>
    ensures { Finds (λ x. x) result (update_form (view_tokens tokens.now)) }
{
    let rest = keyword_at(b"update", tokens)?;
    let (word, rest) = number_at(rest)?;
    let (value, rest) = number_at(rest)?;
    end_at(rest)?;
    Some(Op::Update { word, value })
}

/// Reads `scan` or `update K X`.
#[tactic(auto, unfolding(crate::specs::HistoryForms::call_form))]
fn call_form(tokens: &[Token<'_>]) -> Option<Op>
    ensures { Finds (λ x. x) result (call_form (view_tokens tokens.now)) }
{
    if let Some(op) = scan_form(tokens) {
        return Some(op);
    }
    update_form(tokens)
}

/// Reads a keyword alone.
#[tactic(auto, unfolding(crate::specs::HistoryForms::mark_form))]
fn mark_form(word: &[u8], tokens: &[Token<'_>]) -> Option<()>
    ensures { Finds (λ x. x) result (mark_form word.now (view_tokens tokens.now)) }
{
    let rest = keyword_at(word, tokens)?;
    end_at(rest)
}

/// Reads numbers to the end of the tokens; `None` where one of them is no number.
fn values_of(alloc: Global, tokens: &[Token<'_>]) -> Result<Option<Vec<u64>>, AllocError>
    ensures { IfOk result (λ found. Finds (λ xs. xs.items) found
        (values_of (view_tokens tokens.now))) }
{
    let mut values = Vec::new(alloc);
    for token in tokens {
        match *token {
            Token::Number(value) => values.push(value)?,
            _ => return Ok(None),
        }
    }
    Ok(Some(values))
}

/// Reads `answer V1 .. Vw`.
#[tactic(auto, unfolding(crate::specs::HistoryForms::answer_form))]
fn answer_form(alloc: Global, tokens: &[Token<'_>]) -> Result<Option<View>, AllocError>
    ensures { IfOk result (λ found. Finds (λ x. x) found
        (answer_form (view_tokens tokens.now))) }
{
    let Some(rest) = keyword_at(b"answer", tokens) else {
        return Ok(None);
    };
    match values_of(alloc, rest)? {
        Some(values) => Ok(Some(View::of(values))),
        None => Ok(None),
    }
}

/// Reads what happens to a process, behind its number.
#[tactic(auto, unfolding(crate::specs::HistoryForms::what_form))]
fn what_form(alloc: Global, tokens: &[Token<'_>]) -> Result<Option<Happening>, AllocError>
    ensures { IfOk result (λ found. Finds (λ x. x) found (what_form (view_tokens tokens.now))) }
{
    if let Some(op) = call_form(tokens) {
        return Ok(Some(Happening::Call(op)));
    }
    if let Some(view) = answer_form(alloc, tokens)? {
        return Ok(Some(Happening::Answer(view)));
    }
    if let Some(()) = mark_form(b"done", tokens) {
        return Ok(Some(Happening::Done));
    }
    match mark_form(b"crash", tokens) {
        Some(()) => Ok(Some(Happening::Crash)),
        None => Ok(None),
    }
}

/// Reads a process and what happens to it.
#[tactic(auto, unfolding(crate::specs::HistoryForms::plain_form))]
fn plain_form(
    alloc: Global,
    number: Option<u64>,
    tokens: &[Token<'_>],
) -> Result<Option<EventForm>, AllocError>
    ensures { IfOk result (λ found. Finds (λ x. x) found
        (plain_form number (view_tokens tokens.now))) }
{
    let Some((process, rest)) = number_at(tokens) else {
        return Ok(None);
    };
    match what_form(alloc, rest)? {
        Some(what) => Ok(Some(EventForm {
            number,
            process,
            what,
        })),
        None => Ok(None),
    }
}

/// Reads `event T`, a process, and what happens to it.
#[tactic(auto, unfolding(crate::specs::HistoryForms::numbered_form))]
fn numbered_form(alloc: Global, tokens: &[Token<'_>]) -> Result<Option<EventForm>, AllocError>
    ensures { IfOk result (λ found. Finds (λ x. x) found
        (numbered_form (view_tokens tokens.now))) }
{
    let Some(rest) = keyword_at(b"event", tokens) else {
        return Ok(None);
    };
    let Some((number, rest)) = number_at(rest) else {
        return Ok(None);
    };
    plain_form(alloc, Some(number), rest)
}

/// Reads the form that a line is.
///
/// # Errors
///
/// `AllocError` where memory runs out.
#[tactic(auto, unfolding(crate::specs::HistoryForms::event_form))]
pub fn event_form(alloc: Global, tokens: &[Token<'_>]) -> Result<Option<EventForm>, AllocError>
    ensures { IfOk result (λ found. Finds (λ x. x) found (event_form (view_tokens tokens.now))) }
{
    if let Some(form) = numbered_form(alloc, tokens)? {
        return Ok(Some(form));
    }
    plain_form(alloc, None, tokens)
}
