//! The text of a failure: the answers that would have been right, and the reasons.
ghost use Rattle.std.specs.Prelude.{◌≡◌, ◌++◌, IfOk, codes, decimal};
ghost use Rattle.snap_judge.specs.declared.operation.Operation.{Operation};
ghost use Rattle.snap_judge_reasons.specs.declared.reason.Grounds.TheVariants as grounds;
ghost use Rattle.snap_text.specs.Drafted.{Adds};
ghost use Rattle.snap_judge_reasons.specs.FailureText.{answer_line, answer_lines, asked_text};
ghost use Rattle.snap_judge_reasons.specs.FailureText.{failure_text, grounds_text, operation_name};
ghost use Rattle.snap_judge_reasons.specs.FailureText.{reason_line, reason_lines};

use crate::reason::{Grounds, Reason};
use snap_judge::{Action, Operation};
use snap_text::Draft;
use snap_words::View;
use std::alloc::{AllocError, Global};

/// Appends the call of a process.
fn push_asked(draft: &mut Draft, process: u32, action: &Action<'_>)
    ensures { Adds draft.old draft.new (asked_text process action.now) }
{
    match action {
        Action::Sets { word, value } => {
            draft.push(b"update ");
            draft.push_number(*word);
            draft.push(b" ");
            draft.push_number(*value);
        }
        Action::Sees(_) => {
            draft.push(b"scan of process ");
            draft.push_number(u64::from(process));
        }
    }
}

/// Appends an operation, by its call and the event of that call.
fn push_name(draft: &mut Draft, operation: &Operation<'_>)
    ensures { Adds draft.old draft.new (operation_name operation.now) }
{
    push_asked(draft, operation.process, &operation.action);
    draft.push(b" (event ");
    draft.push_number(operation.call);
    draft.push(b")");
}

/// Appends that the first operation ended before the second one was called.
fn push_ended(draft: &mut Draft, first: &Operation<'_>, second: &Operation<'_>)
    ensures { Adds draft.old draft.new
        (grounds_text grounds.Ended first.now second.now) }
{
    push_name(draft, first);
    draft.push(b" ended before ");
    push_name(draft, second);
    draft.push(b" was called");
}

/// Appends that the scan saw the update.
fn push_saw(draft: &mut Draft, update: &Operation<'_>, scan: &Operation<'_>)
    ensures { Adds draft.old draft.new (grounds_text grounds.Saw update.now scan.now) }
{
    push_name(draft, scan);
    draft.push(b" saw ");
    push_name(draft, update);
}

/// Appends that the scan did not see the update.
fn push_missed(draft: &mut Draft, scan: &Operation<'_>, update: &Operation<'_>)
    ensures { Adds draft.old draft.new (grounds_text grounds.Missed scan.now update.now) }
{
    push_name(draft, scan);
    draft.push(b" did not see ");
    push_name(draft, update);
}

/// Appends a word and a value behind a text.
fn push_setting(draft: &mut Draft, text: &[u8], word: u64, value: u64)
    ensures { Adds draft.old draft.new
        (text.now ++ decimal word ++ codes " " ++ decimal value) }
{
    draft.push(text);
    draft.push_number(word);
    draft.push(b" ");
    draft.push_number(value);
}

/// Appends that the scan saw the value in the word, and that no update sets it.
fn push_unset(draft: &mut Draft, scan: &Operation<'_>, word: u64, value: u64)
    ensures { (other : Operation) → Adds draft.old draft.new
        (grounds_text (grounds.Unset word value) scan.now other) }
{
    push_name(draft, scan);
    draft.push(b" saw ");
    draft.push_number(value);
    draft.push(b" in word ");
    draft.push_number(word);
    push_setting(draft, b", but no update ", word, value);
    draft.push(b" was called before it ended");
}

/// Appends why the first operation took place before the second one.
fn push_grounds(draft: &mut Draft, reason: &Reason<'_>)
    ensures { Adds draft.old draft.new
        (grounds_text reason.now.grounds reason.now.first reason.now.second) }
{
    match reason.grounds {
        Grounds::Ended => push_ended(draft, &reason.first, &reason.second),
        Grounds::Saw => push_saw(draft, &reason.first, &reason.second),
        Grounds::Missed => push_missed(draft, &reason.first, &reason.second),
        Grounds::Unset { word, value } => push_unset(draft, &reason.first, word, value),
    }
}

/// Appends the line of a reason.
fn push_reason(draft: &mut Draft, reason: &Reason<'_>)
    ensures { Adds draft.old draft.new (reason_line reason.now) }
{
    draft.push(b"because: ");
    push_grounds(draft, reason);
    draft.push(b"\n");
}

/// Appends the lines of reasons.
fn push_reasons(draft: &mut Draft, reasons: &[Reason<'_>])
    ensures { Adds draft.old draft.new (reason_lines reasons.now) }
{
    for reason in reasons {
        push_reason(draft, reason);
    }
}

/// Appends the line of an answer.
fn push_answer(draft: &mut Draft, view: &View)
    ensures { Adds draft.old draft.new (answer_line view.now) }
{
    draft.push(b"right answer:");
    draft.push_numbers(view.as_slice());
    draft.push(b"\n");
}

/// Appends the lines of answers.
fn push_answers(draft: &mut Draft, views: &[View])
    ensures { Adds draft.old draft.new (answer_lines views.now) }
{
    for view in views {
        push_answer(draft, view);
    }
}

/// Returns what is written of an answer at which a history fails: a line for each answer that would
/// have been right, and one for each reason.
///
/// # Errors
///
/// `AllocError` where memory runs out.
pub fn failure_text(
    alloc: Global,
    views: &[View],
    reasons: &[Reason<'_>],
) -> Result<Vec<u8>, AllocError>
    ensures { IfOk result (λ text. text.items ≡ failure_text views.now reasons.now) }
{
    let mut draft = Draft::new(alloc);
    push_answers(&mut draft, views);
    push_reasons(&mut draft, reasons);
    draft.finish()
}
