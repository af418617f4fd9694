//! `push_changes`: prints the changes from one text to another, old lines after `- ` and new ones
//! after `+ `.
ghost use Rattle.std.specs.Prelude.{◌≡◌, ◌<◌, ◌+◌, ◌++◌, false, length};
ghost use Rattle.snap_semantics.specs.Token.{lines_of};
ghost use Rattle.snap_text.specs.Changes.{behind_first, changes_between, changes_text};
ghost use Rattle.snap_text.specs.Changes.{line_with, replaced_text, text_between};
ghost use Rattle.snap_text.specs.Drafted.{Adds};

use crate::draft::Draft;
use crate::lines::split_line;

/// Returns `text` without its first line.
pub fn behind_first_line(text: &[u8]) -> &[u8]
    ensures { lines_of result.now ≡ behind_first (lines_of text.now) }
{
    if text.is_empty() {
        return text;
    }
    let (_first, rest) = split_line(text);
    rest
}

/// Appends `line` behind `mark`.
fn push_line(out: &mut Draft, mark: &[u8], line: &[u8])
    ensures { Adds out.old out.new (line_with mark.now line.now) }
{
    out.push(mark);
    out.push(line);
    out.push(b"\n");
}

/// Appends the line that stands in the place of `before`, if it is another line.
fn push_replaced(out: &mut Draft, before: &[u8], after: &[u8])
    ensures { Adds out.old out.new (replaced_text before.now after.now) }
{
    if before == after {
        return;
    }
    push_line(out, b"- ", before);
    push_line(out, b"+ ", after);
}

/// Appends what changed in the first lines of `before` and `after`, and returns the lines behind
/// them.
fn push_first<'a>(out: &mut Draft, before: &'a [u8], after: &'a [u8]) -> (&'a [u8], &'a [u8])
    requires { 0 < length before.now + length after.now }
    ensures text { out.new.failed ≡ false → (out.old.failed ≡ false)
        × (out.new.text ++ text_between (lines_of result.0.now) (lines_of result.1.now)
        ≡ out.old.text ++ text_between (lines_of before.now) (lines_of after.now)) }
    ensures shorter { length result.0.now + length result.1.now
        < length before.now + length after.now }
{
    if before.is_empty() {
        let (line, rest) = split_line(after);
        push_line(out, b"+ ", line);
        return (before, rest);
    }
    if after.is_empty() {
        let (line, rest) = split_line(before);
        push_line(out, b"- ", line);
        return (rest, after);
    }
    let (old, rest_before) = split_line(before);
    let (new, rest_after) = split_line(after);
    push_replaced(out, old, new);
    (rest_before, rest_after)
}

/// Appends the changes from one text to another: each line that was removed behind `- `, and each
/// that was added behind `+ `.
pub fn push_changes(out: &mut Draft, before: &[u8], after: &[u8])
    ensures { Adds out.old out.new
        (changes_text (changes_between (lines_of before.now) (lines_of after.now))) }
{
    let mut old = before;
    let mut new = after;
    while !old.is_empty() || !new.is_empty() {
        let (rest_old, rest_new) = push_first(out, old, new);
        old = rest_old;
        new = rest_new;
    }
}
