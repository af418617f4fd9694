//! The printed texts of processes and their locals.
ghost use Rattle.std.specs.Prelude.{map};
ghost use Rattle.snap_text.specs.Drafted.{Adds};
ghost use Rattle.snap_words.specs.Shape.{IsOneOf};
ghost use Rattle.snap_semantics.specs.State.{process_at};
ghost use Rattle.snap_semantics.specs.Report.{
  cause_text,
  link_text,
  stop_text,
  status_text,
  head_line,
  number_local,
  list_local,
  word_local,
  words_local,
  locals_text,
  process_lines,
  processes_lines,
};
ghost use Rattle.snap_machine.specs.SeenContents.{seen_named};
ghost use Rattle.snap_report.specs.ReportLines.{local_lines, place_text, sort_lines};

use crate::event_text::op_text;
use crate::word_text::word_text;
use snap_machine::{Local, Machine};
use snap_semantics::{Activity, Cause, Name, Sort, Status};
use snap_text::Draft;
use snap_words::{Kind, KindTag};

/// Appends why a process trapped.
pub(crate) fn cause_text(out: &mut Draft, cause: Cause)
    ensures { Adds out.old out.new (cause_text cause) }
{
    match cause {
        Cause::Index => out.push(b"Index"),
        Cause::Overflow => out.push(b"Overflow"),
        Cause::NotABit => out.push(b"NotABit"),
        Cause::Owner => out.push(b"Owner"),
        Cause::Nested => out.push(b"Nested"),
        Cause::BadEnd => out.push(b"BadEnd"),
        Cause::OffEnd => out.push(b"OffEnd"),
    }
}

/// Appends the line to which `return` leads back.
fn link_text(out: &mut Draft, link: Option<u64>)
    ensures { Adds out.old out.new (link_text link) }
{
    match link {
        Some(line) => {
            out.push(b" link ");
            out.push_number(line);
        }
        None => {}
    }
}

/// Appends the line at which a process stopped, if it was busy.
fn stop_text(out: &mut Draft, was: &Option<Activity>)
    ensures { Adds out.old out.new (stop_text was.now) }
{
    match was {
        Some(activity) => {
            out.push(b" at ");
            out.push_number(activity.line);
        }
        None => {}
    }
}

/// Appends the status of a process.
fn status_text(out: &mut Draft, status: &Status)
    ensures { Adds out.old out.new (status_text status.now) }
{
    match status {
        Status::Idle => out.push(b"idle"),
        Status::Busy(activity) => {
            op_text(out, activity.op);
            out.push(b" at ");
            out.push_number(activity.line);
            link_text(out, activity.link);
        }
        Status::Trapped(cause, activity) => {
            out.push(b"trapped ");
            cause_text(out, *cause);
            out.push(b" at ");
            out.push_number(activity.line);
        }
        Status::Crashed(was) => {
            out.push(b"crashed");
            stop_text(out, was);
        }
    }
}

/// Appends `process I` and the status of process `i`.
pub fn head_line<K: Kind>(out: &mut Draft, machine: &Machine<K>, i: u32)
    requires { IsOneOf machine.now.shape.n i }
    ensures { Adds out.old out.new (head_line i (process_at machine.now.state i).status) }
{
    out.push(b"process ");
    out.push_number(u64::from(i));
    out.push(b" ");
    status_text(out, &machine.status(i));
    out.push(b"\n");
}

/// Appends a scalar.
fn number_local(out: &mut Draft, name: &Name, value: u64)
    ensures { Adds out.old out.new (number_local name.now value) }
{
    out.push(b"  ");
    out.push(name.letters());
    out.push(b" = ");
    out.push_number(value);
    out.push(b"\n");
}

/// Appends a row or a view.
fn list_local(out: &mut Draft, name: &Name, values: &[u64])
    ensures { Adds out.old out.new (list_local name.now values.now) }
{
    out.push(b"  ");
    out.push(name.letters());
    out.push(b" =");
    out.push_numbers(values);
    out.push(b"\n");
}

/// Appends a place of a `words` local, up to its `=`.
fn place_text(out: &mut Draft, name: &Name, place: u64)
    ensures { Adds out.old out.new (place_text name.now place) }
{
    out.push(b"  ");
    out.push(name.letters());
    out.push(b" ");
    out.push_number(place);
    out.push(b" = ");
}

/// Appends a place of a `words` local.
pub(crate) fn word_local<K: Kind>(
    out: &mut Draft,
    kind: KindTag,
    name: &Name,
    place: u64,
    word: &K::Word,
)
    ensures { Adds out.old out.new (word_local kind name.now place (K.as_word word.now)) }
{
    place_text(out, name, place);
    word_text::<K>(out, kind, word);
    out.push(b"\n");
}

/// Appends the places of a `words` local.
fn words_local<K: Kind>(out: &mut Draft, kind: KindTag, name: &Name, words: &[K::Word])
    ensures { Adds out.old out.new (words_local kind name.now 1 (map K.as_word words.now)) }
{
    let mut k = 0;
    while k < words.len() {
        word_local::<K>(out, kind, name, k as u64 + 1, &words[k]);
        k += 1;
    }
}

/// Appends the lines of a local.
pub(crate) fn local_lines<K: Kind>(out: &mut Draft, kind: KindTag, local: (Name, Local<'_, K>))
    ensures { let e = seen_named K.as_word local.entry in
        Adds out.old out.new (local_lines kind e.0 e.1) }
{
    let (name, value) = local;
    match value {
        Local::Number(number) => number_local(out, &name, number),
        Local::Row(row) => list_local(out, &name, row),
        Local::Words(words) => words_local::<K>(out, kind, &name, words),
        Local::View(view) => list_local(out, &name, view.as_slice()),
    }
}

/// Appends the lines of the locals of a sort of process i.
fn sort_lines<K: Kind>(out: &mut Draft, machine: &Machine<K>, i: u32, sort: Sort)
    requires { IsOneOf machine.now.shape.n i }
    ensures { Adds out.old out.new
        (sort_lines machine.now.source.kind sort (process_at machine.now.state i).locals) }
{
    let kind = machine.program().kind();
    let mut k = 0;
    while let Some(local) = machine.local_at(i, sort, k) {
        local_lines(out, kind, local);
        k += 1;
    }
}

/// Appends the locals of process i, sort by sort.
fn locals_text<K: Kind>(out: &mut Draft, machine: &Machine<K>, i: u32)
    requires { IsOneOf machine.now.shape.n i }
    ensures { Adds out.old out.new
        (locals_text machine.now.source.kind (process_at machine.now.state i).locals) }
{
    sort_lines(out, machine, i, Sort::Scalar);
    sort_lines(out, machine, i, Sort::Row);
    sort_lines(out, machine, i, Sort::Words);
    sort_lines(out, machine, i, Sort::View);
}

/// Appends the lines of process i.
pub fn process_lines<K: Kind>(out: &mut Draft, machine: &Machine<K>, i: u32)
    requires { IsOneOf machine.now.shape.n i }
    ensures { Adds out.old out.new
        (process_lines machine.now.source.kind i (process_at machine.now.state i)) }
{
    head_line(out, machine, i);
    locals_text(out, machine, i);
}

/// Appends the lines of the processes, from process 1 on.
pub fn processes_lines<K: Kind>(out: &mut Draft, machine: &Machine<K>)
    ensures { Adds out.old out.new
        (processes_lines machine.now.source.kind 1 machine.now.state.processes) }
{
    let shape = machine.shape();
    for k in 0..shape.n() {
        process_lines(out, machine, k as u32 + 1);
    }
}
