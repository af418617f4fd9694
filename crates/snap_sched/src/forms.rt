//! `ItemForm`: the forms of the lines of a schedule: the shape, steps of a process, a call, or a
//! crash.
ghost use Rattle.snap_semantics.specs.ScheduleForms.{shape_form, step_form, steps_form, scan_form};
ghost use Rattle.snap_semantics.specs.ScheduleForms.{update_form, crash_form, item_form};
ghost use Rattle.snap_text.specs.Tokens.{Finds, view_tokens};
ghost use Rattle.snap_sched.specs.ReaderSteps.{view_form, shape_of};

use snap_semantics::{Op, Symbol};
use snap_text::{Token, end_at, keyword_at, number_at, symbol_at};
use snap_words::Shape;

/// The form of a line, whether or not its process exists.
#[derive(Clone, Copy)]
pub enum ItemForm {
    Steps { process: u64, count: u64 },
    Call { process: u64, op: Op },
    Crash { process: u64 },
}

/// Returns the shape of these counts; `None` unless both are 1 to `MAX_COUNT`.
fn shape_of(n: u64, w: u64) -> Option<Shape>
    ensures { Finds (λ s. s) result (shape_of n w) }
{
    Shape::new(n, w).ok()
}

/// Reads `shape N W`; `None` where `tokens` are no such form.
#[tactic(auto, unfolding(snap_semantics::specs::ScheduleForms::shape_form))]
pub fn shape_form(tokens: &[Token<'_>]) -> Option<Shape>
    ensures { Finds (λ s. s) result (shape_form (view_tokens tokens.now)) }
{
    let rest = keyword_at(b"shape", tokens)?;
    let (n, rest) = number_at(rest)?;
    let (w, rest) = number_at(rest)?;
    end_at(rest)?;
    shape_of(n, w)
}

/// Reads `I`.
#[tactic(auto, unfolding(snap_semantics::specs::ScheduleForms::step_form))]
fn step_form(tokens: &[Token<'_>]) -> Option<ItemForm>
    ensures { Finds view_form result (step_form (view_tokens tokens.now)) }
{
    let (process, rest) = number_at(tokens)?;
    end_at(rest)?;
    Some(ItemForm::Steps { process, count: 1 })
}

/// Reads `I*K`.
#[tactic(auto, unfolding(snap_semantics::specs::ScheduleForms::steps_form))]
fn steps_form(tokens: &[Token<'_>]) -> Option<ItemForm>
    ensures { Finds view_form result (steps_form (view_tokens tokens.now)) }
{
    let (process, rest) = number_at(tokens)?;
    let rest = symbol_at(Symbol::Star, rest)?;
    let (count, rest) = number_at(rest)?;
    end_at(rest)?;
    if count == 0 {
        return None;
    }
    Some(ItemForm::Steps { process, count })
}

/// Reads `I scan`.
#[tactic(auto, unfolding(snap_semantics::specs::ScheduleForms::scan_form))]
fn scan_form(tokens: &[Token<'_>]) -> Option<ItemForm>
    ensures { Finds view_form result (scan_form (view_tokens tokens.now)) }
{
    let (process, rest) = number_at(tokens)?;
    let rest = keyword_at(b"scan", rest)?;
    end_at(rest)?;
    Some(ItemForm::Call {
        process,
        op: Op::Scan,
    })
}

/// Reads `I update K X`.
#[tactic(auto, unfolding(snap_semantics::specs::ScheduleForms::update_form))]
fn update_form(tokens: &[Token<'_>]) -> Option<ItemForm>
    ensures { Finds view_form result (update_form (view_tokens tokens.now)) }
{
    let (process, rest) = number_at(tokens)?;
    let rest = keyword_at(b"update", rest)?;
    let (word, rest) = number_at(rest)?;
    let (value, rest) = number_at(rest)?;
    end_at(rest)?;
    Some(ItemForm::Call {
        process,
        op: Op::Update { word, value },
    })
}

/// Reads `I crash`.
#[tactic(auto, unfolding(snap_semantics::specs::ScheduleForms::crash_form))]
fn crash_form(tokens: &[Token<'_>]) -> Option<ItemForm>
    ensures { Finds view_form result (crash_form (view_tokens tokens.now)) }
{
    let (process, rest) = number_at(tokens)?;
    let rest = keyword_at(b"crash", rest)?;
    end_at(rest)?;
    Some(ItemForm::Crash { process })
}

/// Reads the form of a line; `None` where `tokens` are no form of an item.
#[tactic(auto, unfolding(snap_semantics::specs::ScheduleForms::item_form))]
pub fn item_form(tokens: &[Token<'_>]) -> Option<ItemForm>
    ensures { Finds view_form result (item_form (view_tokens tokens.now)) }
{
    if let Some(form) = step_form(tokens) {
        return Some(form);
    }
    if let Some(form) = steps_form(tokens) {
        return Some(form);
    }
    if let Some(form) = scan_form(tokens) {
        return Some(form);
    }
    if let Some(form) = update_form(tokens) {
        return Some(form);
    }
    crash_form(tokens)
}
