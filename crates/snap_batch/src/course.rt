//! `Course`: a machine with the events that callers saw; `run_to_end` takes it through a whole
//! schedule.
ghost use Rattle.std.specs.Prelude.{◌≡◌, ◌<◌, ◌+◌, [], ◌∷◌, ◌++◌, ◌^◌};
ghost use Rattle.std.specs.Prelude.{true, IfOk, OnOk, replicate};
ghost use Rattle.std.specs.List.{AllByRecursion};
ghost use Rattle.snap_text.specs.Drafted.{Adds};
ghost use Rattle.snap_words.specs.Shape.{IsOneOf};
ghost use Rattle.snap_semantics.specs.Run.{event_of};
ghost use Rattle.snap_semantics.specs.Schedule.{Schedule};
ghost use Rattle.snap_semantics.specs.Source.{Source};
ghost use Rattle.snap_semantics.specs.Table.{who};
ghost use Rattle.snap_semantics.specs.declared.process.Item.TheVariants.{Step};
ghost use Rattle.snap_batch.specs.Courses.{DoesNothing, Takes};
ghost use Rattle.snap_batch.specs.End.{IsEnd, end_report};

use snap_asm_program::Program;
use snap_machine::{Machine, OwnCode};
use snap_record::event_of;
use snap_report::report;
use snap_sched::Schedule;
use snap_semantics::{Event, Item, Outcome, Status, who};
use snap_text::Draft;
use snap_words::Kind;
use std::alloc::{AllocError, Global};

/// A machine, and what callers saw of the items that were done.
pub struct Course<K: Kind> {
    pub machine: Machine<OwnCode<K>>,
    pub events: Vec<Event>,
    /// How many items are done.
    pub done: u64,
}

impl<K: Kind> Drop for Course<K> {
    // A drop that is written out is one call: it is proved once, and not again at each drop.
    fn drop(self) {
        let Course {
            machine: _,
            events: _,
            done: _,
        } = self;
    }
}

/// Returns whether an item is a step of a process that is not busy, which does nothing, however
/// often it comes.
fn is_idle_step<K: Kind>(machine: &Machine<K>, item: Item) -> bool
    requires { IsOneOf machine.now.shape.n (who item) }
    ensures { result ≡ true →
        DoesNothing machine.now.source machine.now.shape machine.now.state item }
{
    let Item::Step(process) = item else {
        return false;
    };
    match machine.status(process) {
        Status::Busy(_) => false,
        Status::Idle => true,
        Status::Trapped(_, _) => true,
        Status::Crashed(_) => true,
    }
}

impl<K: Kind> Course<K> {
    /// Does one item more.
    #[inline(always)]
    fn take(&mut self, item: Item) -> Result<(), AllocError>
        requires process { IsOneOf self.old.machine.shape.n (who item) }
        requires few { self.old.done < 2 ^ 63 }
        ensures { OnOk result (Takes self.old (item ∷ []) self.new) }
    {
        let outcome = self.machine.apply(item)?;
        self.done += 1;
        if let Outcome::Stepped = outcome {
            return Ok(());
        }
        self.note(item, outcome)
    }

    /// Notes what callers see of the last item that was done.
    fn note(&mut self, item: Item, outcome: Outcome) -> Result<(), AllocError>
        ensures events { OnOk result (self.new.events.items ≡ self.old.events.items
            ++ event_of self.old.done item outcome) }
        ensures machine { self.new.machine ≡ self.old.machine }
        ensures number { self.new.done ≡ self.old.done }
    {
        if let Some(event) = event_of(self.done, item, outcome) {
            self.events.push(event)?;
        }
        Ok(())
    }

    /// Does an item `count` times more.
    #[inline(always)]
    fn take_times(&mut self, item: Item, count: u64) -> Result<(), AllocError>
        requires process { 0 < count → IsOneOf self.old.machine.shape.n (who item) }
        requires few { self.old.done + count < 2 ^ 63 }
        ensures { OnOk result (Takes self.old (replicate count item) self.new) }
    {
        let end = self.done + count;
        while self.done < end {
            if is_idle_step(&self.machine, item) {
                self.done = end;
            } else {
                self.take(item)?;
            }
        }
        Ok(())
    }

    /// Appends the report of the end of the schedule.
    #[tactic(auto, using(crate::proofs::Ends::end_reported))]
    pub fn push_report(&self, out: &mut Draft)
        ensures { (l : Source) (s : Schedule) → IsEnd l s self.now →
            Adds out.old out.new (end_report l s) }
    {
        report(
            out,
            &self.machine,
            self.events.as_slice(),
            self.done,
            self.done,
        );
    }
}

/// Runs `program` over the whole of `schedule`, and returns its course.
///
/// # Errors
///
/// `AllocError` where memory runs out.
pub fn run_to_end<K: Kind>(
    alloc: Global,
    program: &Program,
    schedule: &Schedule,
) -> Result<Course<K>, AllocError>
    requires { program.now.kind ≡ K.TAG }
    ensures { IfOk result (λ c. IsEnd program.now schedule.now c) }
{
    let shape = schedule.shape();
    let mut course = Course {
        machine: Machine::new(alloc, program, shape)?,
        events: Vec::new(alloc),
        done: 0,
    };
    let mut left = schedule.items().segments();
    while let Some(segment) = left.next() {
        let (item, count) = segment.repeated();
        course.take_times(item, count)?;
    }
    Ok(course)
}
