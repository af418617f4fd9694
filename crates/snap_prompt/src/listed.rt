//! What the prompt answers to `list`: the lines of the listing around the one at which a process
//! is, or all of them.
ghost use Rattle.std.specs.Prelude.{◌≡◌, map};
ghost use Rattle.snap_text.specs.Drafted.{Adds};
ghost use Rattle.snap_words.specs.Shape.{IsOneOf};
ghost use Rattle.snap_listing.specs.LineTexts.{text_with, written};
ghost use Rattle.snap_prompt.specs.Listed.{is_near, list_text, pointer_text, marked_line};
ghost use Rattle.snap_prompt.specs.Listed.{near_line, near_lines, stand_text, text_or_none};

use crate::hints::push_refused_line;
use snap_debug::Session;
use snap_listing::LineTexts;
use snap_report::head_line;
use snap_semantics::{CommandRefusal, Line};
use snap_text::Draft;
use snap_words::Kind;

/// Returns whether a number is at most eight from the line at which a process stands. If the
/// process stands at none, each number is near.
fn is_near(line: Option<u64>, number: u64) -> bool
    ensures { result ≡ is_near line number }
{
    match line {
        Some(line) => line.saturating_sub(8) <= number && number.saturating_sub(8) <= line,
        None => true,
    }
}

/// Appends the mark of the line at which a process stands, or the space of another one.
fn push_mark(out: &mut Draft, line: Option<u64>, number: u64)
    ensures { Adds out.old out.new (pointer_text line number) }
{
    match line {
        Some(line) if line == number => out.push(b"> "),
        _ => out.push(b"  "),
    }
}

/// Appends the text of a line.
fn push_line_text(out: &mut Draft, texts: &LineTexts, number: u64)
    ensures { Adds out.old out.new (text_or_none (text_with texts.now number)) }
{
    match texts.with_number(number) {
        Some(text) => out.push(text),
        None => {}
    }
}

/// Appends a line, marked if a process stands at it.
fn push_marked_line(out: &mut Draft, texts: &LineTexts, line: Option<u64>, number: u64)
    ensures { Adds out.old out.new (marked_line texts.now line number) }
{
    push_mark(out, line, number);
    push_line_text(out, texts, number);
    out.push(b"\n");
}

/// Appends a line if it is near.
fn push_near_line(out: &mut Draft, texts: &LineTexts, line: Option<u64>, number: u64)
    ensures { Adds out.old out.new (near_line texts.now line number) }
{
    if is_near(line, number) {
        push_marked_line(out, texts, line, number);
    }
}

/// Appends the lines that are near.
fn push_near_lines(out: &mut Draft, texts: &LineTexts, line: Option<u64>, lines: &[Line])
    ensures { Adds out.old out.new (near_lines texts.now line lines.now) }
{
    for l in lines {
        push_near_line(out, texts, line, l.number);
    }
}

/// Appends the status of a process, and the lines around its own; all lines if it stands at none.
#[tactic(auto, unfolding(crate::specs::Listed::stand_text))]
fn push_stand<K: Kind>(out: &mut Draft, texts: &LineTexts, session: &Session<K>, process: u32)
    requires texts { texts.now ≡ map written session.now.run.source.lines }
    requires process { IsOneOf session.now.run.shape.n process }
    ensures { Adds out.old out.new (stand_text session.now process) }
{
    head_line(out, session.machine(), process);
    let line = session.machine().line(process);
    push_near_lines(out, texts, line, session.program().listing().lines());
}

/// Appends where process `i` stands, and the lines around; or that there is no such process.
#[tactic(auto, unfolding(crate::specs::Listed::list_text))]
pub(crate) fn push_list<K: Kind>(out: &mut Draft, texts: &LineTexts, session: &Session<K>, i: u64)
    requires { texts.now ≡ map written session.now.run.source.lines }
    ensures { Adds out.old out.new (list_text session.now i) }
{
    if i == 0 || session.machine().shape().n() < i {
        push_refused_line(out, session, &CommandRefusal::NoSuchProcess);
        return;
    }
    push_stand(out, texts, session, i as u32);
}
