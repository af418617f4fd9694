//! `input_text`: prints a failing run as an input of the debugger: listing, note of what fails,
//! schedule, and a command that goes to its end.
ghost use Rattle.std.specs.Prelude.{◌≡◌, IfOk, codes, if◌then◌else◌};
ghost use Rattle.snap_text.specs.Drafted.{Adds};
ghost use Rattle.snap_hunt_output.specs.Input.{ends_line, failure_line, input_text};
ghost use Rattle.snap_hunt_output.specs.Input.{listing_part, order_line, run_note, steps_line};

use snap_audit::push_verdict_line;
use snap_debug_commands::{Command, push_command};
use snap_hunt::{Failure, OwnSteps};
use snap_report::outcome_text;
use snap_sched::{Schedule, print};
use snap_semantics::Outcome;
use snap_text::Draft;
use std::alloc::{AllocError, Global};

/// Returns whether the last line of a text has its line feed.
fn ends_line(text: &[u8]) -> bool
    ensures { result ≡ ends_line text.now }
{
    !text.is_empty() && text[text.len() - 1] == b'\n'
}

/// Appends the text of a listing, with a line feed behind its last line.
fn push_listing(out: &mut Draft, listing: &[u8])
    ensures { Adds out.old out.new (listing_part listing.now) }
{
    out.push(listing);
    if ends_line(listing) {
        return;
    }
    out.push(b"\n");
}

/// Returns the word for an update or a scan, and a space.
fn operation_word(update: bool) -> &'static [u8]
    ensures { result.now ≡ (if update then codes "update " else codes "scan ") }
{
    if update { b"update " } else { b"scan " }
}

/// Appends `scan I call C step N item T`, or `update` if it is one.
fn steps_line(out: &mut Draft, process: u32, item: u64, own: &OwnSteps)
    ensures { Adds out.old out.new (steps_line process item own.now) }
{
    out.push(operation_word(own.update));
    out.push_number(u64::from(process));
    out.push(b" call ");
    out.push_number(own.call);
    out.push(b" step ");
    out.push_number(own.count);
    out.push(b" item ");
    out.push_number(item);
    out.push(b"\n");
}

/// Appends `not linearizable: event T process I`.
fn order_line(out: &mut Draft, process: u32, item: u64)
    ensures { Adds out.old out.new (order_line process item) }
{
    out.push(b"not linearizable: event ");
    out.push_number(item);
    out.push(b" process ");
    out.push_number(u64::from(process));
    out.push(b"\n");
}

/// Appends what fails: the event at which a run stops being linearizable, a verdict as an audit has
/// it, the trap of a process, or a step too many.
pub(crate) fn failure_line(out: &mut Draft, failure: &Failure)
    ensures { Adds out.old out.new (failure_line failure.now) }
{
    match failure {
        Failure::NotLinearizable { process, item } => order_line(out, *process, *item),
        Failure::NoPoint(verdict) => push_verdict_line(out, verdict),
        Failure::ManyCollects(verdict) => push_verdict_line(out, verdict),
        Failure::ManySteps { process, item, own } => steps_line(out, *process, *item, own),
        Failure::Trapped {
            process,
            line,
            cause,
        } => {
            out.push(b"process ");
            out.push_number(u64::from(*process));
            out.push(b" ");
            outcome_text(out, &Outcome::Trapped(*cause));
            out.push(b" at ");
            out.push_number(*line);
            out.push(b"\n");
        }
    }
}

/// Appends `# run K of seed S: FAILURE`.
fn run_note(out: &mut Draft, seed: u64, run: u64, failure: &Failure)
    ensures { Adds out.old out.new (run_note seed run failure.now) }
{
    out.push(b"# run ");
    out.push_number(run);
    out.push(b" of seed ");
    out.push_number(seed);
    out.push(b": ");
    failure_line(out, failure);
}

/// Returns an input: a listing, a schedule whose run fails, and a command that goes to its last
/// item.
pub(crate) fn input_text(
    alloc: Global,
    listing: &[u8],
    seed: u64,
    run: u64,
    failure: &Failure,
    schedule: &Schedule,
) -> Result<Vec<u8>, AllocError>
    ensures { IfOk result (λ out. out.items
        ≡ input_text listing.now seed run failure.now schedule.now) }
{
    let mut out = Draft::new(alloc);
    push_listing(&mut out, listing);
    out.push(b"%\n");
    run_note(&mut out, seed, run, failure);
    let schedule_text = print(alloc, schedule)?;
    out.push(schedule_text.as_slice());
    out.push(b"%\n");
    push_command(&mut out, &Command::Goto(schedule.items().len()));
    out.finish()
}
