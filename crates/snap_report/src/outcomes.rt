//! The printed texts of an item's outcome (`outcome_text`), of its line (`outcome_line`), and of
//! where each process stands (`head_lines`).
ghost use Rattle.snap_text.specs.Drafted.{Adds};
ghost use Rattle.snap_report.specs.OutcomeLine.{number_text, outcome_line, run_text};
ghost use Rattle.snap_report.specs.OutcomeText.{head_lines, outcome_text, reason_text};

use crate::process_text::{cause_text, head_line};
use snap_listing::LineTexts;
use snap_machine::Machine;
use snap_semantics::{Outcome, Reason};
use snap_text::Draft;
use snap_words::Kind;

/// Appends why an item is skipped.
pub fn reason_text(out: &mut Draft, reason: Reason)
    ensures { Adds out.old out.new (reason_text reason) }
{
    match reason {
        Reason::Trapped => out.push(b"Trapped"),
        Reason::Crashed => out.push(b"Crashed"),
        Reason::Busy => out.push(b"Busy"),
        Reason::Idle => out.push(b"Idle"),
        Reason::NoSuchWord => out.push(b"NoSuchWord"),
        Reason::NotOwner => out.push(b"NotOwner"),
    }
}

/// Appends the outcome of an item.
pub fn outcome_text(out: &mut Draft, outcome: &Outcome)
    ensures { Adds out.old out.new (outcome_text outcome.now) }
{
    match outcome {
        Outcome::Called => out.push(b"called"),
        Outcome::Stepped => out.push(b"stepped"),
        Outcome::Answered(view) => {
            out.push(b"answered");
            out.push_numbers(view.as_slice());
        }
        Outcome::Finished => out.push(b"finished"),
        Outcome::Trapped(cause) => {
            out.push(b"trapped ");
            cause_text(out, *cause);
        }
        Outcome::Crashed => out.push(b"crashed"),
        Outcome::Skipped(reason) => {
            out.push(b"skipped ");
            reason_text(out, *reason);
        }
    }
}

/// Appends the status of each process, from process 1 on.
pub fn head_lines<K: Kind>(out: &mut Draft, machine: &Machine<K>)
    ensures { Adds out.old out.new (head_lines 1 machine.now.state.processes) }
{
    let shape = machine.shape();
    for k in 0..shape.n() {
        head_line(out, machine, k as u32 + 1);
    }
}

/// Appends ` at ` and the text of the line that was run, if one was.
fn run_text(out: &mut Draft, texts: &LineTexts, run: Option<u64>)
    ensures { Adds out.old out.new (run_text texts.now run) }
{
    let Some(number) = run else {
        return;
    };
    match texts.with_number(number) {
        Some(text) => {
            out.push(b" at ");
            out.push(text);
        }
        None => {}
    }
}

/// Appends `item T I `.
fn number_text(out: &mut Draft, number: u64, process: u32)
    ensures { Adds out.old out.new (number_text number process) }
{
    out.push(b"item ");
    out.push_number(number);
    out.push(b" ");
    out.push_number(u64::from(process));
    out.push(b" ");
}

/// Appends `item T I OUTCOME`, and the line that was run.
#[tactic(auto, unfolding(crate::specs::OutcomeLine::outcome_line))]
pub fn outcome_line(
    out: &mut Draft,
    texts: &LineTexts,
    number: u64,
    process: u32,
    outcome: &Outcome,
    run: Option<u64>,
)
    ensures { Adds out.old out.new (outcome_line texts.now number process outcome.now run) }
{
    number_text(out, number, process);
    outcome_text(out, outcome);
    run_text(out, texts, run);
    out.push(b"\n");
}
