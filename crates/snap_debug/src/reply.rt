//! `Reply`: the text that a debugger session answers to a command, and a function for each reply.
ghost use Rattle.std.specs.Prelude.{◌≡◌, ◌++◌, IfOk, false, length, zero};
ghost use Rattle.snap_text.specs.Drafted.{Adds};
ghost use Rattle.snap_words.specs.Shape.{IsOneOf};
ghost use Rattle.snap_semantics.specs.Readers.{contents};
ghost use Rattle.snap_semantics.specs.Report.{position_line, process_lines, values_line};
ghost use Rattle.snap_semantics.specs.State.{process_at, values};
ghost use Rattle.snap_report.specs.OutcomeText.{head_lines};
ghost use Rattle.snap_report.specs.ReportLines.{register_line};
ghost use Rattle.snap_debug.specs.Replies.{last_text};
ghost use Rattle.snap_debug.specs.Session.{events_text, marks_line};

use crate::marks::Marks;
use snap_machine::Machine;
use snap_report::{
    event_lines, head_lines, outcome_text, position_line, process_lines, register_line, values_line,
};
use snap_semantics::{Event, Outcome};
use snap_text::Draft;
use snap_words::{Address, Kind};
use std::alloc::{AllocError, Global};
use std::marker::Model;

/// The text of a reply, each of whose lines ends with a line feed.
#[derive(Drop)]
pub struct Reply {
    text: Vec<u8>,
}

impl Model for Reply {
    ghost use Rattle.std.specs.Prelude.{List, ℕ};

    ghost Value = { List ℕ };

    ghost view = { λ r. r.text.items };
}

impl Reply {
    /// Returns the reply that a draft is put together to.
    ///
    /// # Errors
    ///
    /// `AllocError` where memory ran out for one of the pieces.
    fn of(draft: Draft) -> Result<Reply, AllocError>
        ensures { IfOk result (λ r. (r ≡ draft.text) × (draft.failed ≡ false)) }
    {
        Ok(Reply {
            text: draft.finish()?,
        })
    }

    /// Returns the bytes of the reply.
    pub fn as_slice(&self) -> &[u8]
        ensures { result.now ≡ self.now }
    {
        self.text.as_slice()
    }
}

/// Returns `marks M`.
pub(crate) fn marks_reply(alloc: Global, marks: &Marks) -> Result<Reply, AllocError>
    ensures { IfOk result (λ r. r ≡ marks_line marks.now) }
{
    let mut text = Draft::new(alloc);
    text.push(b"marks ");
    text.push_number(marks.count() as u64);
    text.push(b"\n");
    Reply::of(text)
}

/// Returns the line of a position.
pub(crate) fn position_reply(alloc: Global, position: u64, total: u64) -> Result<Reply, AllocError>
    ensures { IfOk result (λ r. r ≡ position_line position total) }
{
    let mut text = Draft::new(alloc);
    position_line(&mut text, position, total);
    Reply::of(text)
}

/// Returns the line of a register.
pub(crate) fn register_reply<K: Kind>(
    alloc: Global,
    machine: &Machine<K>,
    a: Address,
) -> Result<Reply, AllocError>
    ensures { IfOk result (λ r. r ≡ register_line machine.now.source.kind a.bank a.i a.j
        (contents machine.now.state.memory a.bank a.i a.j)) }
{
    let mut text = Draft::new(alloc);
    register_line(&mut text, machine, a);
    Reply::of(text)
}

/// Returns the lines of a process.
pub(crate) fn process_reply<K: Kind>(
    alloc: Global,
    machine: &Machine<K>,
    i: u32,
) -> Result<Reply, AllocError>
    requires { IsOneOf machine.now.shape.n i }
    ensures { IfOk result (λ r. r ≡ process_lines machine.now.source.kind i
        (process_at machine.now.state i)) }
{
    let mut text = Draft::new(alloc);
    process_lines(&mut text, machine, i);
    Reply::of(text)
}

/// Returns the line of the values.
pub(crate) fn values_reply<K: Kind>(
    alloc: Global,
    machine: &Machine<K>,
) -> Result<Reply, AllocError>
    ensures { IfOk result (λ r. r ≡ values_line (values machine.now.state)) }
{
    let mut text = Draft::new(alloc);
    values_line(&mut text, machine);
    Reply::of(text)
}

/// Returns how many events there are, and their lines.
pub(crate) fn events_reply(alloc: Global, events: &[Event]) -> Result<Reply, AllocError>
    ensures { IfOk result (λ r. r ≡ events_text events.now) }
{
    let mut text = Draft::new(alloc);
    text.push(b"events ");
    text.push_number(events.len() as u64);
    text.push(b"\n");
    event_lines(&mut text, events);
    Reply::of(text)
}

/// Appends the last item's process, and its outcome.
fn last_text(out: &mut Draft, last: &Option<(u32, Outcome)>)
    ensures { Adds out.old out.new (last_text last.now) }
{
    match last {
        None => out.push(b"last none\n"),
        Some((process, outcome)) => {
            out.push(b"last ");
            out.push_number(u64::from(*process));
            out.push(b" ");
            outcome_text(out, outcome);
            out.push(b"\n");
        }
    }
}

/// Returns the line of the position, the last item and where the processes stand.
pub(crate) fn where_reply<K: Kind>(
    alloc: Global,
    machine: &Machine<K>,
    position: u64,
    total: u64,
    last: &Option<(u32, Outcome)>,
) -> Result<Reply, AllocError>
    ensures { IfOk result (λ r. r ≡ position_line position total ++ last_text last.now
        ++ head_lines 1 machine.now.state.processes) }
{
    let mut text = Draft::new(alloc);
    position_line(&mut text, position, total);
    last_text(&mut text, last);
    head_lines(&mut text, machine);
    Reply::of(text)
}
