//! What the debugger's prompt says of a line that it refuses: why, and what would have been right.
ghost use Rattle.std.specs.Prelude.{◌≡◌, codes};
ghost use Rattle.snap_text.specs.Drafted.{Adds};
ghost use Rattle.snap_prompt.specs.Hints.{added_hint, first_number, hint_text, last_number};
ghost use Rattle.snap_prompt.specs.Hints.{range_text, refused_addition, refused_line};
ghost use Rattle.snap_prompt.specs.Hints.{refused_steps, register_words, standing_line};

use crate::NoSteps;
use crate::words::{
    BIT_REGISTERS, CRASHED, IDLE, ITEM_LIMIT, LINE_LIMIT, LINES, MARKS_FULL, MULTI_REGISTERS,
    POSITIONS, PROCESSES, REGISTERS, SEE_HELP, TRAPPED,
};
use snap_debug::{Session, push_refusal};
use snap_faults::push_refused;
use snap_semantics::{CommandRefusal, Line, Refusal, ScheduleRefusal};
use snap_text::Draft;
use snap_words::{Kind, KindTag};

/// Returns the number of the first of `lines`, and 0 if there is none.
fn first_number(lines: &[Line]) -> u64
    ensures { result ≡ first_number lines.now }
{
    match lines {
        [first, ..] => first.number,
        [] => 0,
    }
}

/// Returns the number of the last of `lines`, and 0 if there is none.
fn last_number(lines: &[Line]) -> u64
    ensures { result ≡ last_number 0 lines.now }
{
    let mut number = 0;
    for line in lines {
        number = line.number;
    }
    number
}

/// Appends a range of numbers.
fn push_range(out: &mut Draft, what: &[u8], from: u64, to: u64)
    ensures { Adds out.old out.new (range_text what.now from to) }
{
    out.push(b": ");
    out.push(what);
    out.push(b" ");
    out.push_number(from);
    out.push(b" to ");
    out.push_number(to);
}

/// Appends the range of the lines of the listing.
pub(crate) fn push_lines_range<K: Kind>(out: &mut Draft, session: &Session<K>, what: &[u8])
    ensures { let lines = session.now.run.source.lines in Adds out.old out.new
        (range_text what.now (first_number lines) (last_number 0 lines)) }
{
    let lines = session.program().listing().lines();
    push_range(out, what, first_number(lines), last_number(lines));
}

/// Returns the registers of a kind, as they stand before the numbers of its words.
fn register_words(kind: KindTag) -> &'static [u8]
    ensures { result.now ≡ register_words kind }
{
    match kind {
        KindTag::Seq => REGISTERS,
        KindTag::Bits => BIT_REGISTERS,
        KindTag::Multi => MULTI_REGISTERS,
    }
}

/// Appends what would have been right.
#[tactic(auto, unfolding(crate::specs::Hints::hint_text))]
fn push_hint<K: Kind>(out: &mut Draft, session: &Session<K>, refusal: &CommandRefusal)
    ensures { Adds out.old out.new (hint_text session.now refusal.now) }
{
    match refusal {
        CommandRefusal::BadCommand(_) => out.push(SEE_HELP),
        CommandRefusal::NoSuchLine => push_lines_range(out, session, LINES),
        CommandRefusal::NoSuchProcess => {
            push_range(out, PROCESSES, 1, session.machine().shape().n());
        }
        CommandRefusal::NoSuchRegister => {
            let what = register_words(session.program().kind());
            push_range(out, what, 1, session.machine().shape().w());
        }
        CommandRefusal::NoSuchPosition => {
            push_range(out, POSITIONS, 0, session.total());
        }
        CommandRefusal::TooManyMarks => out.push(MARKS_FULL),
        CommandRefusal::TooLong => out.push(LINE_LIMIT),
    }
}

/// Appends the line of a refused command.
#[tactic(auto, unfolding(crate::specs::Hints::refused_line))]
pub(crate) fn push_refused_line<K: Kind>(
    out: &mut Draft,
    session: &Session<K>,
    refusal: &CommandRefusal,
)
    ensures { Adds out.old out.new (refused_line session.now refusal.now) }
{
    out.push(b"refused: ");
    push_refusal(out, refusal);
    push_hint(out, session, refusal);
    out.push(b"\n");
}

/// Appends what would have been right to add.
fn push_added_hint<K: Kind>(out: &mut Draft, session: &Session<K>, refusal: &ScheduleRefusal)
    ensures { Adds out.old out.new (added_hint session.now refusal.now) }
{
    match refusal {
        ScheduleRefusal::NoSuchProcess(_) => {
            push_range(out, PROCESSES, 1, session.machine().shape().n());
        }
        ScheduleRefusal::TooLong
        | ScheduleRefusal::BadShape
        | ScheduleRefusal::BadItem(_)
        | ScheduleRefusal::TooManyItems(_) => out.push(ITEM_LIMIT),
    }
}

/// Appends the line of an addition that is refused.
#[tactic(auto, unfolding(crate::specs::Hints::refused_addition))]
pub(crate) fn push_refused_addition<K: Kind>(
    out: &mut Draft,
    session: &Session<K>,
    refusal: ScheduleRefusal,
)
    ensures { Adds out.old out.new (refused_addition session.now refusal) }
{
    push_refused(out, &Refusal::Schedule(refusal));
    push_added_hint(out, session, &refusal);
    out.push(b"\n");
}

/// Appends the line of a process that takes no steps because of its status.
fn push_standing(out: &mut Draft, process: u64, how: &[u8])
    ensures { Adds out.old out.new (standing_line process how.now) }
{
    out.push(b"refused: process ");
    out.push_number(process);
    out.push(b" ");
    out.push(how);
    out.push(b"\n");
}

/// Appends why a process takes no steps to a goal. A refusal of the schedule names the line.
#[tactic(auto, unfolding(crate::specs::Hints::refused_steps))]
pub(crate) fn push_refused_steps<K: Kind>(
    out: &mut Draft,
    session: &Session<K>,
    line: u64,
    process: u64,
    why: NoSteps,
)
    ensures { Adds out.old out.new (refused_steps session.now line process why) }
{
    match why {
        NoSteps::NoSuchProcess => {
            push_refused_line(out, session, &CommandRefusal::NoSuchProcess);
        }
        NoSteps::NoSuchLine => push_refused_line(out, session, &CommandRefusal::NoSuchLine),
        NoSteps::Idle => push_standing(out, process, IDLE),
        NoSteps::Trapped => push_standing(out, process, TRAPPED),
        NoSteps::Crashed => push_standing(out, process, CRASHED),
        NoSteps::Full => {
            push_refused_addition(out, session, ScheduleRefusal::TooManyItems(line));
        }
    }
}
