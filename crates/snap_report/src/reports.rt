//! `report`: the printed report of a machine at a position (a number of items done), with the
//! events up to it.
ghost use Rattle.snap_text.specs.Drafted.{Adds};
ghost use Rattle.snap_semantics.specs.Report.{position_line, report_text};
ghost use Rattle.snap_report.specs.ReportLines.{first_line};

use crate::event_text::event_lines;
use crate::process_text::processes_lines;
use crate::register_text::{register_lines, values_line};
use snap_machine::Machine;
use snap_semantics::Event;
use snap_text::Draft;
use snap_words::Kind;

/// Appends `position T of TOTAL`.
pub fn position_line(out: &mut Draft, position: u64, total: u64)
    ensures { Adds out.old out.new (position_line position total) }
{
    out.push(b"position ");
    out.push_number(position);
    out.push(b" of ");
    out.push_number(total);
    out.push(b"\n");
}

/// Appends `report at T of TOTAL`.
fn first_line(out: &mut Draft, position: u64, total: u64)
    ensures { Adds out.old out.new (first_line position total) }
{
    out.push(b"report at ");
    out.push_number(position);
    out.push(b" of ");
    out.push_number(total);
    out.push(b"\n");
}

/// Appends the report of the state of `machine` after `position` of `total` items, and of the
/// events up to it.
pub fn report<K: Kind>(
    out: &mut Draft,
    machine: &Machine<K>,
    events: &[Event],
    position: u64,
    total: u64,
)
    ensures { Adds out.old out.new
        (report_text machine.now.source.kind machine.now.state events.now position total) }
{
    first_line(out, position, total);
    values_line(out, machine);
    register_lines(out, machine);
    processes_lines(out, machine);
    event_lines(out, events);
}
