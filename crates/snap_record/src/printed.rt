//! The printed texts of a record and of its machine, each answered as a text of its own: the report
//! and its lines.
ghost use Rattle.std.specs.Prelude.{◌≡◌, IfOk, length};
ghost use Rattle.snap_words.specs.Shape.{IsOneOf};
ghost use Rattle.snap_semantics.specs.Readers.{contents};
ghost use Rattle.snap_semantics.specs.Report.{event_line, head_line, process_lines};
ghost use Rattle.snap_semantics.specs.Report.{report_text, values_line};
ghost use Rattle.snap_semantics.specs.State.{process_at, values};
ghost use Rattle.snap_report.specs.OutcomeText.{outcome_text};
ghost use Rattle.snap_report.specs.ReportLines.{register_line};
ghost use Rattle.snap_report.specs.RunReport.{report_at};

use crate::record::Record;
use snap_machine::Machine;
use snap_report::Report;
use snap_semantics::{Event, Outcome};
use snap_text::Draft;
use snap_words::{Address, Kind};
use std::alloc::{AllocError, Global};

impl<K: Kind> Record<K> {
    /// Returns the report of the last position: the values, the registers, the processes and the
    /// events.
    ///
    /// # Errors
    ///
    /// `AllocError` where memory runs out.
    pub fn report(&self) -> Result<Report, AllocError>
        ensures { IfOk result (λ report. report
            ≡ report_at self.now (length self.now.items)) }
    {
        let position = self.items().len();
        report_at(
            self.allocator(),
            self.machine(),
            self.events(),
            position,
            position,
        )
    }
}

/// Returns the report of the state of `machine` after `position` of `total` items, with the events
/// up to it.
///
/// # Errors
///
/// `AllocError` where memory runs out.
pub fn report_at<K: Kind>(
    alloc: Global,
    machine: &Machine<K>,
    events: &[Event],
    position: u64,
    total: u64,
) -> Result<Report, AllocError>
    ensures { IfOk result (λ report. report
        ≡ report_text machine.now.source.kind machine.now.state events.now position total) }
{
    let mut text = Draft::new(alloc);
    snap_report::report(&mut text, machine, events, position, total);
    Ok(Report::of(text.finish()?))
}

/// Returns the line of the register at `address`: its address and its contents.
///
/// # Errors
///
/// `AllocError` where memory runs out.
pub fn register_line<K: Kind>(
    alloc: Global,
    machine: &Machine<K>,
    address: Address,
) -> Result<Vec<u8>, AllocError>
    ensures { let read = contents machine.now.state.memory address.bank address.i address.j in
        IfOk result (λ text. text.items
        ≡ register_line machine.now.source.kind address.bank address.i address.j read) }
{
    let mut text = Draft::new(alloc);
    snap_report::register_line(&mut text, machine, address);
    text.finish()
}

/// Returns the lines of process `i`: its status, and its locals.
///
/// # Errors
///
/// `AllocError` where memory runs out.
pub fn process_lines<K: Kind>(
    alloc: Global,
    machine: &Machine<K>,
    i: u32,
) -> Result<Vec<u8>, AllocError>
    requires { IsOneOf machine.now.shape.n i }
    ensures { IfOk result (λ text. text.items
        ≡ process_lines machine.now.source.kind i (process_at machine.now.state i)) }
{
    let mut text = Draft::new(alloc);
    snap_report::process_lines(&mut text, machine, i);
    text.finish()
}

/// Returns the line of the status of process `i`.
///
/// # Errors
///
/// `AllocError` where memory runs out.
pub fn head_line<K: Kind>(
    alloc: Global,
    machine: &Machine<K>,
    i: u32,
) -> Result<Vec<u8>, AllocError>
    requires { IsOneOf machine.now.shape.n i }
    ensures { IfOk result (λ text. text.items
        ≡ head_line i (process_at machine.now.state i).status) }
{
    let mut text = Draft::new(alloc);
    snap_report::head_line(&mut text, machine, i);
    text.finish()
}

/// Returns the line of the values.
///
/// # Errors
///
/// `AllocError` where memory runs out.
pub fn values_line<K: Kind>(alloc: Global, machine: &Machine<K>) -> Result<Vec<u8>, AllocError>
    ensures { IfOk result (λ text. text.items ≡ values_line (values machine.now.state)) }
{
    let mut text = Draft::new(alloc);
    snap_report::values_line(&mut text, machine);
    text.finish()
}

/// Returns the line of an event.
///
/// # Errors
///
/// `AllocError` where memory runs out.
pub fn event_line(alloc: Global, event: &Event) -> Result<Vec<u8>, AllocError>
    ensures { IfOk result (λ text. text.items ≡ event_line event.now) }
{
    let mut text = Draft::new(alloc);
    snap_report::event_line(&mut text, event);
    text.finish()
}

/// Returns the words of an outcome.
///
/// # Errors
///
/// `AllocError` where memory runs out.
pub fn outcome_text(alloc: Global, outcome: &Outcome) -> Result<Vec<u8>, AllocError>
    ensures { IfOk result (λ text. text.items ≡ outcome_text outcome.now) }
{
    let mut text = Draft::new(alloc);
    snap_report::outcome_text(&mut text, outcome);
    text.finish()
}
