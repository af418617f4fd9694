//! The forms of the prompt's own lines, such as `list`, `why`, `call`, `until` and `end`, which are
//! no debugger commands.
ghost use Rattle.std.specs.Prelude.{◌≡◌};
ghost use Rattle.snap_text.specs.Tokens.{view_tokens};
ghost use Rattle.snap_prompt.specs.Ask.{adding_ask, alone, break_ask, call_ask, leading_ask};
ghost use Rattle.snap_prompt.specs.Ask.{list_ask, op_form, prompt_ask, steps_ask, why_ask};
ghost use Rattle.snap_prompt.specs.Ask.{word_ask, yes_form};

use crate::addition::Addition;
use crate::ask::Ask;
use snap_debug_commands::{Breakpoint, Command, keyword_form, number_form, numbers_form};
use snap_semantics::Op;
use snap_text::{Token, keyword_at, number_at};

/// Reads `word` alone, which asks for `ask`.
#[tactic(auto, unfolding(crate::specs::Ask::alone))]
fn alone(word: &[u8], ask: Ask, tokens: &[Token<'_>]) -> Option<Ask>
    ensures { result ≡ alone word.now ask (view_tokens tokens.now) }
{
    keyword_form(word, tokens)?;
    Some(ask)
}

/// Reads a word of the prompt's own.
#[tactic(auto, unfolding(crate::specs::Ask::word_ask))]
fn word_ask(tokens: &[Token<'_>]) -> Option<Ask>
    ensures { result ≡ word_ask (view_tokens tokens.now) }
{
    if let Some(ask) = alone(b"quit", Ask::Quit, tokens) {
        return Some(ask);
    }
    if let Some(ask) = alone(b"help", Ask::Help, tokens) {
        return Some(ask);
    }
    if let Some(ask) = alone(b"all", Ask::All, tokens) {
        return Some(ask);
    }
    if let Some(ask) = alone(b"report", Ask::Report, tokens) {
        return Some(ask);
    }
    if let Some(ask) = alone(b"save", Ask::Save, tokens) {
        return Some(ask);
    }
    if let Some(ask) = alone(b"s", Ask::Do(Command::Step(1)), tokens) {
        return Some(ask);
    }
    alone(b"b", Ask::Do(Command::Back(1)), tokens)
}

/// Reads `list`, or `list I`.
#[tactic(auto, unfolding(crate::specs::Ask::list_ask))]
fn list_ask(tokens: &[Token<'_>]) -> Option<Ask>
    ensures { result ≡ list_ask (view_tokens tokens.now) }
{
    if let Some(ask) = alone(b"list", Ask::ListLast, tokens) {
        return Some(ask);
    }
    let process = number_form(b"list", tokens)?;
    Some(Ask::List(process))
}

/// Reads `why`, or `why T`.
#[tactic(auto, unfolding(crate::specs::Ask::why_ask))]
fn why_ask(tokens: &[Token<'_>]) -> Option<Ask>
    ensures { result ≡ why_ask (view_tokens tokens.now) }
{
    if let Some(ask) = alone(b"why", Ask::Why(None), tokens) {
        return Some(ask);
    }
    let item = number_form(b"why", tokens)?;
    Some(Ask::Why(Some(item)))
}

/// Reads a scan, or an update.
#[tactic(auto, unfolding(crate::specs::Ask::op_form))]
fn op_form(tokens: &[Token<'_>]) -> Option<Op>
    ensures { result ≡ op_form (view_tokens tokens.now) }
{
    if keyword_form(b"scan", tokens).is_some() {
        return Some(Op::Scan);
    }
    let (word, value) = numbers_form(b"update", tokens)?;
    Some(Op::Update { word, value })
}

/// Reads `call I scan`, or `call I update K X`.
#[tactic(auto, unfolding(crate::specs::Ask::call_ask))]
fn call_ask(tokens: &[Token<'_>]) -> Option<Ask>
    ensures { result ≡ call_ask (view_tokens tokens.now) }
{
    let rest = keyword_at(b"call", tokens)?;
    let (process, rest) = number_at(rest)?;
    let op = op_form(rest)?;
    Some(Ask::Add(Addition::Call { process, op }))
}

/// Reads `step I K`, for steps at all.
#[tactic(auto, unfolding(crate::specs::Ask::steps_ask))]
fn steps_ask(word: &[u8], tokens: &[Token<'_>]) -> Option<Ask>
    ensures { result ≡ steps_ask word.now (view_tokens tokens.now) }
{
    let (process, count) = numbers_form(word, tokens)?;
    if count == 0 {
        return None;
    }
    Some(Ask::Add(Addition::Steps { process, count }))
}

/// Reads an addition to the schedule.
#[tactic(auto, unfolding(crate::specs::Ask::adding_ask))]
fn adding_ask(tokens: &[Token<'_>]) -> Option<Ask>
    ensures { result ≡ adding_ask (view_tokens tokens.now) }
{
    if let Some(ask) = steps_ask(b"step", tokens) {
        return Some(ask);
    }
    if let Some(ask) = steps_ask(b"s", tokens) {
        return Some(ask);
    }
    if let Some(ask) = call_ask(tokens) {
        return Some(ask);
    }
    let process = number_form(b"crash", tokens)?;
    Some(Ask::Add(Addition::Crash { process }))
}

/// Reads `until I N`, or `end I`.
#[tactic(auto, unfolding(crate::specs::Ask::leading_ask))]
fn leading_ask(tokens: &[Token<'_>]) -> Option<Ask>
    ensures { result ≡ leading_ask (view_tokens tokens.now) }
{
    if let Some((process, line)) = numbers_form(b"until", tokens) {
        return Some(Ask::Until { process, line });
    }
    let process = number_form(b"end", tokens)?;
    Some(Ask::End { process })
}

/// Reads `b I N`, which sets a breakpoint.
#[tactic(auto, unfolding(crate::specs::Ask::break_ask))]
fn break_ask(tokens: &[Token<'_>]) -> Option<Ask>
    ensures { result ≡ break_ask (view_tokens tokens.now) }
{
    let (process, line) = numbers_form(b"b", tokens)?;
    Some(Ask::Do(Command::Break(Breakpoint { process, line })))
}

/// Reads a request of the prompt's own.
#[tactic(auto, unfolding(crate::specs::Ask::prompt_ask))]
pub(crate) fn prompt_ask(tokens: &[Token<'_>]) -> Option<Ask>
    ensures { result ≡ prompt_ask (view_tokens tokens.now) }
{
    if let Some(ask) = word_ask(tokens) {
        return Some(ask);
    }
    if let Some(ask) = list_ask(tokens) {
        return Some(ask);
    }
    if let Some(ask) = why_ask(tokens) {
        return Some(ask);
    }
    if let Some(ask) = break_ask(tokens) {
        return Some(ask);
    }
    if let Some(ask) = leading_ask(tokens) {
        return Some(ask);
    }
    adding_ask(tokens)
}

/// Reads `y`, or `yes`.
#[tactic(auto, unfolding(crate::specs::Ask::yes_form))]
pub(crate) fn yes_form(tokens: &[Token<'_>]) -> Option<()>
    ensures { result ≡ yes_form (view_tokens tokens.now) }
{
    keyword_form(b"y", tokens).or(keyword_form(b"yes", tokens))
}
