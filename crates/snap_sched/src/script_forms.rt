//! `ScriptForm`: the forms of the lines of live runs' scripts: a call of a process, or the turn at
//! which it crashes.
ghost use Rattle.std.specs.Prelude.{◌≡◌, IfOk};
ghost use Rattle.snap_text.specs.Tokens.{Finds, view_tokens};
ghost use Rattle.snap_sched.specs.ScriptForms.{call_form, crash_at_form};
ghost use Rattle.snap_sched.specs.ScriptForms.{script_form, ops_of, crash_of};

use crate::forms::{ItemForm, item_form};
use snap_semantics::Op;
use snap_text::{Token, end_at, keyword_at, number_at};
use snap_words::MAX_ITEMS;
use std::alloc::{AllocError, Global};

/// The form of a line of scripts, whether or not its process exists.
#[derive(Clone, Copy)]
pub enum ScriptForm {
    Call { process: u64, op: Op },
    /// The process crashes at a turn, counted from 1.
    Crash { process: u64, turn: u64 },
}

/// Reads `I scan` or `I update K X`.
#[tactic(auto, unfolding(crate::specs::ScriptForms::call_form))]
fn call_form(tokens: &[Token<'_>]) -> Option<ScriptForm>
    ensures { Finds (λ x. x) result (call_form (view_tokens tokens.now)) }
{
    match item_form(tokens)? {
        ItemForm::Call { process, op } => Some(ScriptForm::Call { process, op }),
        ItemForm::Steps { .. } | ItemForm::Crash { .. } => None,
    }
}

/// Reads `I crash K`.
#[tactic(auto, unfolding(crate::specs::ScriptForms::crash_at_form))]
fn crash_at_form(tokens: &[Token<'_>]) -> Option<ScriptForm>
    ensures { Finds (λ x. x) result (crash_at_form (view_tokens tokens.now)) }
{
    let (process, rest) = number_at(tokens)?;
    let rest = keyword_at(b"crash", rest)?;
    let (turn, rest) = number_at(rest)?;
    end_at(rest)?;
    if turn < 1 || MAX_ITEMS < turn {
        return None;
    }
    Some(ScriptForm::Crash { process, turn })
}

/// Reads the form of a line of scripts; `None` where `tokens` are none.
#[tactic(auto, unfolding(crate::specs::ScriptForms::script_form))]
pub fn script_form(tokens: &[Token<'_>]) -> Option<ScriptForm>
    ensures { Finds (λ x. x) result (script_form (view_tokens tokens.now)) }
{
    if let Some(form) = call_form(tokens) {
        return Some(form);
    }
    crash_at_form(tokens)
}

/// Returns the operations that `process` calls, in order.
///
/// # Errors
///
/// `AllocError` where memory runs out.
pub fn ops_of(alloc: Global, forms: &[ScriptForm], process: u64) -> Result<Vec<Op>, AllocError>
    ensures { IfOk result (λ ops. ops.items ≡ ops_of process forms.now) }
{
    let mut ops = Vec::new(alloc);
    for form in forms {
        if let ScriptForm::Call {
            process: caller,
            op,
        } = *form
        {
            if caller == process {
                ops.push(op)?;
            }
        }
    }
    Ok(ops)
}

/// Returns the turn at which `process` crashes, if it does.
pub fn crash_of(forms: &[ScriptForm], process: u64) -> Option<u64>
    ensures { result ≡ crash_of process forms.now }
{
    for form in forms {
        if let ScriptForm::Crash {
            process: crashing,
            turn,
        } = *form
        {
            if crashing == process {
                return Some(turn);
            }
        }
    }
    None
}
