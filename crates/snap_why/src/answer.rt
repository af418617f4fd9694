//! What `why` prints of an answered scan: its point, its double collects, and from whom it borrowed
//! its view, if it did.
ghost use Rattle.std.specs.Prelude.{◌≡◌, ◌≤◌, ◌<◌, ◌-◌, IfSome, Some, get_or, length};
ghost use Rattle.snap_text.specs.Drafted.{Adds};
ghost use Rattle.snap_acts.specs.Loans.{step_at};
ghost use Rattle.snap_why.specs.Answer.{answer_lines, call_lines, chain_lines, goto_line};
ghost use Rattle.snap_why.specs.Answer.{goto_text, lender_lines, lender_of, own_lines};
ghost use Rattle.snap_why.specs.Answer.{process_text, scan_lines, taken_lines, taken_or_own};
ghost use Rattle.snap_why.specs.Answer.{verdict_with, view_lines, writer_lines, written_lines};

use snap_acts::{Borrowed, ScanPlaces, TraceStep, set_for, view_taken};
use snap_audit::{Verdict, push_verdict_line};
use snap_text::Draft;

/// Returns the item of the step at a place, and 0 if there is none.
pub(crate) fn item_at(steps: &[TraceStep], place: usize) -> u64
    ensures { result ≡ (step_at steps.now place).item }
{
    if place < steps.len() {
        steps[place].item
    } else {
        0
    }
}

/// Returns the process of the step at a place, and 0 if there is none.
fn process_at(steps: &[TraceStep], place: usize) -> u32
    ensures { result ≡ (step_at steps.now place).process }
{
    if place < steps.len() {
        steps[place].process
    } else {
        0
    }
}

/// Appends the command that goes to an item.
#[tactic(auto, unfolding(crate::specs::Answer::goto_text))]
pub(crate) fn push_goto(out: &mut Draft, item: u64)
    ensures { Adds out.old out.new (goto_text item) }
{
    out.push(b": goto ");
    out.push_number(item);
    out.push(b"\n");
}

/// Appends `process I`.
#[tactic(auto, unfolding(crate::specs::Answer::process_text))]
pub(crate) fn push_process(out: &mut Draft, process: u32)
    ensures { Adds out.old out.new (process_text process) }
{
    out.push(b"process ");
    out.push_number(u64::from(process));
}

/// Appends what happened at an item, and the command that goes there.
#[tactic(auto, unfolding(crate::specs::Answer::goto_line))]
pub(crate) fn push_goto_line(out: &mut Draft, what: &[u8], item: u64)
    ensures { Adds out.old out.new (goto_line what.now item) }
{
    out.push(what);
    push_goto(out, item);
}

/// Appends a scan of an update.
fn push_scan(out: &mut Draft, steps: &[TraceStep], scan: ScanPlaces)
    ensures { Adds out.old out.new (scan_lines steps.now scan) }
{
    push_goto_line(out, b"its scan began", item_at(steps, scan.from));
    push_goto_line(out, b"its scan ended", item_at(steps, scan.to));
}

/// Appends the scan that saw a view, if it is in the trace.
fn push_lender(out: &mut Draft, steps: &[TraceStep], scan: Option<ScanPlaces>)
    ensures { Adds out.old out.new (lender_lines steps.now scan) }
{
    match scan {
        Some(scan) => push_scan(out, steps, scan),
        None => out.push(b"it is of no scan of an update\n"),
    }
}

/// Appends who wrote a view at a place, and the scan that saw it.
fn push_writer(out: &mut Draft, steps: &[TraceStep], place: usize, lender: Option<ScanPlaces>)
    ensures { Adds out.old out.new (writer_lines steps.now place lender) }
{
    push_process(out, process_at(steps, place));
    push_goto_line(out, b" wrote it", item_at(steps, place));
    push_lender(out, steps, lender);
}

/// Appends who wrote the borrowed view, if a process had written it.
#[tactic(auto, unfolding(crate::specs::Answer::written_lines))]
fn push_written(
    out: &mut Draft,
    steps: &[TraceStep],
    written: Option<usize>,
    lender: Option<ScanPlaces>,
)
    ensures { Adds out.old out.new (written_lines steps.now written lender) }
{
    match written {
        Some(place) => push_writer(out, steps, place, lender),
        None => out.push(b"no process had written it\n"),
    }
}

/// Appends a view that was taken.
fn push_taken(out: &mut Draft, steps: &[TraceStep], view: Borrowed)
    ensures { Adds out.old out.new (taken_lines steps.now view) }
{
    push_goto_line(out, b" took a view", item_at(steps, view.taken));
    push_written(out, steps, view.written, view.lender);
}

/// Appends how a process came by a view that its scan, which began at `from`, did not take: it set
/// its local at the place `set`.
fn push_own(out: &mut Draft, steps: &[TraceStep], from: usize, set: Option<usize>)
    ensures { Adds out.old out.new (own_lines steps.now from set) }
{
    match set {
        None => out.push(b" set no view in this scan, nor before it\n"),
        Some(place) => {
            if place < from {
                push_goto_line(
                    out,
                    b" set no view in this scan; it had set this one before",
                    item_at(steps, place),
                );
            } else {
                out.push(b" took no view: it read these values itself\n");
            }
        }
    }
}

/// Appends the view that a scan took, or how it came by its own.
fn push_taken_or_own(out: &mut Draft, steps: &[TraceStep], scan: ScanPlaces, view: Option<Borrowed>)
    requires { scan.to ≤ length steps.now }
    ensures { Adds out.old out.new (taken_or_own steps.now scan view) }
{
    match view {
        Some(view) => push_taken(out, steps, view),
        None => push_own(out, steps, scan.from, set_for(steps, scan.to)),
    }
}

/// Appends where the view comes from with which a scan ends.
#[tactic(auto, unfolding(crate::specs::Answer::view_lines))]
fn push_view(out: &mut Draft, steps: &[TraceStep], scan: ScanPlaces, view: Option<Borrowed>)
    requires { scan.to ≤ length steps.now }
    ensures { Adds out.old out.new (view_lines steps.now scan view) }
{
    push_process(out, scan.process);
    push_taken_or_own(out, steps, scan, view);
}

/// Returns the lender's scan, if a view was taken.
fn lender_of(view: Option<Borrowed>) -> Option<ScanPlaces>
    ensures { result ≡ lender_of view }
{
    view?.lender
}

/// Appends the views that a scan, its lender's scan, and so on took.
fn push_chain(out: &mut Draft, steps: &[TraceStep], first: ScanPlaces)
    requires { first.to ≤ length steps.now }
    ensures { Adds out.old out.new (chain_lines steps.now (Some first) (length steps.now)) }
{
    let mut next = Some(first);
    let mut left = steps.len();
    while left > 0 {
        let Some(scan) = next else {
            return;
        };
        let view = view_taken(steps, scan);
        push_view(out, steps, scan, view);
        next = lender_of(view);
        left -= 1;
    }
}

/// Appends a verdict, and the call.
fn push_call(out: &mut Draft, verdict: &Verdict)
    ensures { Adds out.old out.new (call_lines verdict.now) }
{
    push_verdict_line(out, verdict);
    out.push(b"call");
    push_goto(out, verdict.call);
}

/// Appends why the scan of a verdict answered so, which an item answers, with what is said of its
/// point.
#[tactic(auto, unfolding(crate::specs::Answer::answer_lines))]
pub(crate) fn push_answer(
    out: &mut Draft,
    steps: &[TraceStep],
    verdict: &Verdict,
    item: u64,
    point: &[u8],
)
    requires { item ≤ length steps.now }
    ensures { Adds out.old out.new
        (answer_lines steps.now (length steps.now) verdict.now item point.now) }
{
    push_call(out, verdict);
    out.push(point);
    let scan = ScanPlaces {
        process: verdict.process,
        from: verdict.call.saturating_sub(1) as usize,
        to: item.saturating_sub(1) as usize,
    };
    push_chain(out, steps, scan);
}

/// Returns the verdict of the scan that an item answers.
pub(crate) fn verdict_with(verdicts: &[Verdict], item: u64) -> Option<Verdict>
    ensures { result ≡ verdict_with verdicts.now item }
{
    for verdict in verdicts {
        if verdict.answer == item {
            return Some(*verdict);
        }
    }
    None
}
