//! `talk`: a dialog of a respondent at a console, turn by turn, from its first prompt to its end.
ghost use Rattle.std.specs.Prelude.{◌≡◌, ◌++◌, ℕ, List, None, IfErr, IfOk, IfSome, OnErr, OnOk};
ghost use Rattle.std.specs.Io.BufRead.{DropsThrough};
ghost use Rattle.snap_streams.specs.Dialog.{IsBrokenOff, IsDialog, Replies, SaysOrEnds};
ghost use Rattle.snap_streams.specs.Dialog.{ShowsTranscript, ShowsTranscriptPart, next_or_end};
ghost use Rattle.snap_streams.specs.Failures.{MayEndDialog, failure_of};
ghost use Rattle.snap_streams.specs.Talks.{PartPassed, PartShown, TurnPassed, TurnShown};
ghost use Rattle.snap_streams.specs.TypedLines.{typed_lines};

use crate::console::Console;
use crate::dialog_fault::DialogFault;
use crate::respondent::Respondent;
use std::alloc::{AllocError, Global};

/// Appends an answer of `partner` to `line`, and returns whether the dialog goes on. Nothing is
/// answered to the end of the input, which ends the dialog.
fn push_answer_or_end<P: Respondent>(
    partner: &mut P,
    out: &mut Vec<u8>,
    line: &[u8],
) -> Result<bool, AllocError>
    ensures { IfOk result (λ more. Replies (SaysOrEnds P.says) (next_or_end P.next_of)
        partner.old line.now out.old.items out.new.items partner.new more) }
{
    if line.is_empty() {
        return Ok(false);
    }
    partner.push_answer(out, line)
}

/// Takes one turn: shows the prompt, reads a line, and shows its answer, in that order; and returns
/// whether another turn follows. After an error, a beginning of the turn has passed.
fn take_turn<C: Console, P: Respondent>(
    alloc: Global,
    console: &mut C,
    partner: &mut P,
) -> Result<bool, DialogFault>
    requires { C.failure console.old ≡ None }
    ensures passes { IfOk result (λ more. TurnPassed P.prompt_of P.says P.next_of partner.old
        partner.new more (C.passed console.old) (C.passed console.new)) }
    ensures rest { OnOk result (DropsThrough (C.left console.old) (C.left console.new) 10) }
    ensures shown { IfOk result (λ more. TurnShown P.prompt_of P.says P.next_of partner.old
        partner.new more (C.left console.old) (C.shown console.old) (C.shown console.new)) }
    ensures failure { C.failure console.new ≡ failure_of result }
    ensures fails { IfErr result (λ fault. MayEndDialog fault (C.left console.old)) }
    ensures passes_part { OnErr result (PartPassed P.prompt_of partner.old
        (C.passed console.old) (C.passed console.new)) }
    ensures shows_part { OnErr result (PartShown P.prompt_of P.says partner.old
        (C.left console.old) (C.shown console.old) (C.shown console.new)) }
{
    let mut prompt = Vec::new(alloc);
    partner.push_prompt(&mut prompt)?;
    console.say(&prompt)?;
    let line = console.line(alloc)?;
    let mut reply = Vec::new(alloc);
    let goes_on = push_answer_or_end(partner, &mut reply, &line)?;
    console.say(&reply)?;
    Ok(goes_on)
}

/// Talks with `partner` at `console` until the dialog ends. What passes is a dialog, each answer
/// before the next prompt; what is shown is a transcript of what is typed.
///
/// # Errors
///
/// The fault of a device of `console` that failed; `Memory` where memory runs out; `Endless` where
/// the lines, or the bytes of one, are more than can be counted. A beginning of a dialog has passed
/// then, and a beginning of a transcript was shown.
pub fn talk<C: Console, P: Respondent>(
    alloc: Global,
    console: &mut C,
    partner: &mut P,
) -> Result<(), DialogFault>
    requires { C.failure console.old ≡ None }
    ensures passes { OnOk result (IsDialog P.prompt_of P.says P.next_of partner.old partner.new
        (C.passed console.old) (C.passed console.new)) }
    ensures shown { OnOk result (IfSome (C.left console.old) (λ input.
        ShowsTranscript P.prompt_of P.says P.next_of partner.old (typed_lines input) partner.new
        (C.shown console.old) (C.shown console.new))) }
    ensures failure { C.failure console.new ≡ failure_of result }
    ensures fails { IfErr result (λ fault. MayEndDialog fault (C.left console.old)) }
    ensures passes_part { OnErr result (IsBrokenOff P.prompt_of P.says P.next_of partner.old
        (C.passed console.old) (C.passed console.new)) }
    ensures shows_part { OnErr result (IfSome (C.left console.old) (λ input.
        ShowsTranscriptPart P.prompt_of P.says P.next_of partner.old (typed_lines input)
        (C.shown console.old) (C.shown console.new))) }
{
    for _count in 0..u64::MAX {
        if !take_turn(alloc, console, partner)? {
            return Ok(());
        }
    }
    Err(DialogFault::Endless)
}
