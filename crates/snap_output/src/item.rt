//! The trace of one item of a run: its outcome, the line of the listing that it ran, and what it
//! changed in the report.
ghost use Rattle.std.specs.Prelude.{◌≡◌, ◌-◌, [], ◌++◌, false, IfOk, IsTrue, OnOk};
ghost use Rattle.std.specs.Prelude.{get_or, length, option_to_list, slice_set};
ghost use Rattle.snap_text.specs.Drafted.{Adds};
ghost use Rattle.snap_words.specs.Shape.{IsOneOf};
ghost use Rattle.snap_semantics.specs.Report.{head_line};
ghost use Rattle.snap_semantics.specs.Run.{event_of};
ghost use Rattle.snap_semantics.specs.State.{process_at};
ghost use Rattle.snap_semantics.specs.Table.{done, who};
ghost use Rattle.snap_semantics.specs.declared.process.Outcome.TheVariants as outcomes;
ghost use Rattle.snap_semantics.specs.declared.process.Reason.{Reason};
ghost use Rattle.snap_report.specs.WrittenLines.{written_local, written_shared};
ghost use Rattle.snap_output.specs.Step.{done_text, line_run};
ghost use Rattle.snap_output.specs.Touched.{came_text, changed_local, changes_text};
ghost use Rattle.snap_output.specs.Touched.{head_texts, of_process};

use crate::heads::Heads;
use snap_listing::LineTexts;
use snap_machine::{Machine, WritePlace};
use snap_record::event_of;
use snap_report::{event_line, outcome_line, written_local, written_shared};
use snap_semantics::{Event, Item, Outcome, Status, who};
use snap_text::{Draft, push_changes};
use snap_words::Kind;
use std::alloc::{AllocError, Global};

/// Returns the number of the line that an item runs, by the status of its process.
fn line_run(item: Item, status: Status) -> Option<u64>
    ensures { result ≡ line_run item status }
{
    match (item, status) {
        (Item::Step(_), Status::Busy(activity)) => Some(activity.line),
        _ => None,
    }
}

/// Appends the line of a local, with its process in place of its first space.
fn push_of_process(out: &mut Draft, i: u32, line: &[u8])
    ensures { Adds out.old out.new (of_process i line.now) }
{
    match line {
        [] => {}
        [_, rest @ ..] => {
            out.push(b"process ");
            out.push_number(u64::from(i));
            out.push(rest);
        }
    }
}

/// Appends what changed of the line of a local of process `i`, if it did.
fn push_changed_local(out: &mut Draft, i: u32, before: &[u8], after: &[u8])
    ensures { Adds out.old out.new (changed_local i before.now after.now) }
{
    if before == after {
        return;
    }
    out.push(b"- ");
    push_of_process(out, i, before);
    out.push(b"+ ");
    push_of_process(out, i, after);
}

/// Appends an event that came, if there is one.
fn push_came(out: &mut Draft, event: &Option<Event>)
    ensures { Adds out.old out.new (came_text (option_to_list event.now)) }
{
    match event {
        Some(event) => {
            out.push(b"+ ");
            event_line(out, event);
        }
        None => {}
    }
}

/// Returns whether an item was skipped.
fn is_skipped(outcome: &Outcome) -> bool
    ensures { IsTrue result → (r : Reason) × (outcome.now ≡ outcomes.Skipped r) }
{
    match outcome {
        Outcome::Skipped(_) => true,
        _ => false,
    }
}

/// The lines at a place where an item writes: of the registers, and of the locals of its process.
#[derive(Drop)]
struct PlaceLines {
    shared: Draft,
    local: Draft,
}

impl PlaceLines {
    fn new(alloc: Global) -> PlaceLines {
        PlaceLines {
            shared: Draft::new(alloc),
            local: Draft::new(alloc),
        }
    }

    /// Makes the lines at `place` anew, in the same memory.
    fn renew<K: Kind>(&mut self, machine: &Machine<K>, i: u32, place: WritePlace)
        requires { IsOneOf machine.now.shape.n i }
        ensures shared { self.new.shared.failed ≡ false → self.new.shared.text
            ≡ written_shared machine.now.source.kind machine.now.state place }
        ensures local { self.new.local.failed ≡ false → self.new.local.text
            ≡ written_local machine.now.source.kind (process_at machine.now.state i).locals place }
    {
        self.shared.clear();
        written_shared(&mut self.shared, machine, place);
        self.local.clear();
        written_local(&mut self.local, machine, i, place);
    }
}

/// What is written, the first line of each process, and the lines at the place where an item
/// writes, before it and after it, which are made anew for each item in the same memory.
#[derive(Drop)]
pub(crate) struct Sheet {
    out: Draft,
    heads: Heads,
    lines_before: PlaceLines,
    lines_after: PlaceLines,
}

impl Sheet {
    /// Returns a sheet without text, for a run that begins as `machine` stands.
    pub(crate) fn new<K: Kind>(alloc: Global, machine: &Machine<K>) -> Result<Sheet, AllocError>
        ensures text { IfOk result (λ s. s.out.text ≡ []) }
        ensures heads { IfOk result (λ s. s.heads ≡ head_texts 1 machine.now.state.processes) }
    {
        Ok(Sheet {
            out: Draft::new(alloc),
            heads: Heads::of(alloc, machine)?,
            lines_before: PlaceLines::new(alloc),
            lines_after: PlaceLines::new(alloc),
        })
    }

    /// Returns the text of the sheet.
    pub(crate) fn into_text(self) -> Result<Vec<u8>, AllocError>
        ensures { IfOk result (λ text. text.items ≡ self.out.text) }
    {
        let Sheet {
            out,
            heads: _,
            lines_before: _,
            lines_after: _,
        } = self;
        out.finish()
    }

    /// Appends what an item of process `i` changed besides the events, where the lines at its place
    /// were made before it and after it.
    fn push_changed<K: Kind>(&mut self, machine: &Machine<K>, i: u32) -> Result<(), AllocError>
        requires process { IsOneOf machine.now.shape.n i }
        requires count { length self.old.heads ≡ machine.now.shape.n }
        ensures text { OnOk result (Adds self.old.out self.new.out (changes_text i
            self.old.lines_before.shared.text self.old.lines_after.shared.text
            (get_or self.old.heads (i - 1) []) (head_line i (process_at machine.now.state i).status)
            self.old.lines_before.local.text self.old.lines_after.local.text)) }
        ensures well { OnOk result ((self.old.lines_before.shared.failed ≡ false)
            × (self.old.lines_after.shared.failed ≡ false)
            × (self.old.lines_before.local.failed ≡ false)
            × (self.old.lines_after.local.failed ≡ false)) }
        ensures heads { OnOk result (self.new.heads ≡ slice_set self.old.heads (i - 1)
            (head_line i (process_at machine.now.state i).status)) }
    {
        let Sheet {
            out,
            heads,
            lines_before,
            lines_after,
        } = self;
        push_changes(out, lines_before.shared.text()?, lines_after.shared.text()?);
        heads.renew(out, machine, i)?;
        push_changed_local(
            out,
            i,
            lines_before.local.text()?,
            lines_after.local.text()?,
        );
        Ok(())
    }
}

/// Does item number `number`, and appends what it did and what it changed.
#[tactic(auto, unfolding(crate::specs::Step::done_text))]
pub(crate) fn push_item<K: Kind>(
    sheet: &mut Sheet,
    texts: &LineTexts,
    machine: &mut Machine<K>,
    number: u64,
    item: Item,
) -> Result<(), AllocError>
    requires process { IsOneOf machine.old.shape.n (who item) }
    requires heads { sheet.old.heads ≡ head_texts 1 machine.old.state.processes }
    ensures text { OnOk result (sheet.new.out.text ≡ sheet.old.out.text ++ done_text texts.now
        machine.old.source machine.old.shape machine.old.state number item) }
    ensures heads { OnOk result (sheet.new.heads ≡ head_texts 1 machine.new.state.processes) }
    ensures state { OnOk result (machine.new.state
        ≡ (done machine.old.source machine.old.shape machine.old.state item).0) }
    ensures source { machine.new.source ≡ machine.old.source }
    ensures shape { machine.new.shape ≡ machine.old.shape }
{
    let i = who(item);
    let run = line_run(item, machine.status(i));
    // What `shape` and `lines` promise: there are as many processes as the shape has, and the
    // listing keeps the rules of listings.
    let _shape = machine.shape();
    let _lines = machine.program().listing().lines();
    let place = machine.overwritten(item)?.write_place();
    sheet.lines_before.renew(machine, i, place);
    let outcome = machine.apply(item)?;
    outcome_line(&mut sheet.out, texts, number, i, &outcome, run);
    if is_skipped(&outcome) {
        let _skipped = sheet.out.text()?;
        return Ok(());
    }
    sheet.lines_after.renew(machine, i, place);
    sheet.push_changed(machine, i)?;
    push_came(&mut sheet.out, &event_of(number, item, outcome));
    let _well = sheet.out.text()?;
    Ok(())
}
