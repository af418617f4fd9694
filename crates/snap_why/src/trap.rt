//! What `why` prints of a trapped process: the line, and the operand at which it trapped, or why
//! its operation cannot go on.
ghost use Rattle.std.specs.Prelude.{◌≡◌, map, option_map};
ghost use Rattle.snap_text.specs.Drafted.{Adds};
ghost use Rattle.snap_words.specs.Shape.{IsOneOf};
ghost use Rattle.snap_semantics.specs.Source.{instr_at};
ghost use Rattle.snap_semantics.specs.State.{process_at};
ghost use Rattle.snap_listing.specs.LineTexts.{text_with, written};
ghost use Rattle.snap_why.specs.Trap.{cause_line, end_line, nested_line, operand_line};
ghost use Rattle.snap_why.specs.Trap.{text_or_number, trap_line, trap_lines, trouble_of};

use crate::answer::push_process;
use crate::text::push_trouble;
use crate::{Taker, Trouble, line_trouble};
use snap_listing::LineTexts;
use snap_machine::Machine;
use snap_report::outcome_text;
use snap_semantics::{Activity, Cause, Op, Outcome, Status};
use snap_text::Draft;
use snap_words::Kind;

/// Appends the text of a line, or its number if there is no such line.
fn push_line(out: &mut Draft, texts: &LineTexts, number: u64)
    ensures { Adds out.old out.new (text_or_number number (text_with texts.now number)) }
{
    match texts.with_number(number) {
        Some(text) => out.push(text),
        None => out.push_number(number),
    }
}

/// Appends `process I trapped CAUSE at LINE`.
fn push_trap_line(
    out: &mut Draft,
    texts: &LineTexts,
    process: u32,
    cause: Cause,
    activity: Activity,
)
    ensures { Adds out.old out.new (trap_line texts.now process cause activity) }
{
    push_process(out, process);
    out.push(b" ");
    outcome_text(out, &Outcome::Trapped(cause));
    out.push(b" at ");
    push_line(out, texts, activity.line);
    out.push(b"\n");
}

/// Appends the operand of a line, if one is wrong.
fn push_operand(out: &mut Draft, trouble: Option<Trouble>)
    ensures { Adds out.old out.new (operand_line trouble) }
{
    match trouble {
        Some(trouble) => push_trouble(out, &trouble),
        None => {}
    }
}

/// Returns the operand at which the line of a process traps, if there is such a line.
fn trouble_of<K: Kind>(machine: &Machine<K>, process: u32, activity: Activity) -> Option<Trouble>
    requires { IsOneOf machine.now.shape.n process }
    ensures { result ≡ trouble_of machine.now.source machine.now.shape machine.now.state
        (record { process = process; op = activity.op; place = 0 })
        (instr_at machine.now.source.lines activity.line) }
{
    let taker = Taker {
        process,
        op: activity.op,
        place: 0,
    };
    match machine.program().listing().instr(activity.line) {
        Some(instr) => line_trouble(machine, taker, instr),
        None => None,
    }
}

/// Appends that a call is inside of another one.
fn push_nested(out: &mut Draft, link: Option<u64>)
    ensures { Adds out.old out.new (nested_line link) }
{
    let Some(line) = link else {
        return;
    };
    out.push(b"a call inside of a call, which returns to line ");
    out.push_number(line);
    out.push(b"\n");
}

/// Appends how an operation ends.
fn push_end(out: &mut Draft, op: Op, link: Option<u64>)
    ensures { Adds out.old out.new (end_line op link) }
{
    match (op, link) {
        (Op::Scan, _) => out.push(b"a scan ends by `return`\n"),
        (Op::Update { .. }, None) => out.push(b"an update ends by `finish`\n"),
        (Op::Update { .. }, Some(_)) => out.push(b"the scan of an update ends by `return`\n"),
    }
}

/// Appends why a process trapped.
fn push_cause<K: Kind>(
    out: &mut Draft,
    machine: &Machine<K>,
    process: u32,
    cause: Cause,
    activity: Activity,
)
    requires { IsOneOf machine.now.shape.n process }
    ensures { Adds out.old out.new
        (cause_line machine.now.source machine.now.shape machine.now.state process cause activity) }
{
    match cause {
        Cause::Nested => push_nested(out, activity.link),
        Cause::BadEnd => push_end(out, activity.op, activity.link),
        Cause::OffEnd => out.push(b"no line follows\n"),
        Cause::Index | Cause::Overflow | Cause::NotABit | Cause::Owner => {
            push_operand(out, trouble_of(machine, process, activity));
        }
    }
}

/// Appends why a process trapped, if it has trapped.
pub(crate) fn push_trap<K: Kind>(
    out: &mut Draft,
    texts: &LineTexts,
    machine: &Machine<K>,
    process: u32,
)
    requires texts { texts.now ≡ map written machine.now.source.lines }
    requires process { IsOneOf machine.now.shape.n process }
    ensures { Adds out.old out.new
        (trap_lines machine.now.source machine.now.shape machine.now.state process
        (process_at machine.now.state process).status) }
{
    match machine.status(process) {
        Status::Trapped(cause, activity) => {
            push_trap_line(out, texts, process, cause, activity);
            push_cause(out, machine, process, cause, activity);
        }
        Status::Idle | Status::Busy(_) | Status::Crashed(_) => {}
    }
}
