//! `Finder`: what a certification has found of the items of a run so far: the writes of updates
//! (`UpdateWrite`), or the first thing that is missing.
ghost use Rattle.std.specs.Prelude.{◌≡◌, ◌-◌, false, length, IfOk, OnOk};
ghost use Rattle.std.specs.Prelude.{bytes_eq, get_or, replicate, slice_set};
ghost use Rattle.snap_words.specs.Shape.{IsOneOf};
ghost use Rattle.snap_semantics.specs.State.{values};
ghost use Rattle.snap_semantics.specs.declared.process.Outcome.TheVariants.{Finished};
ghost use Rattle.snap_runs.specs.Run.{run_over};
ghost use Rattle.snap_certify.specs.Certification.{
  at_line,
  changes,
  ended,
  executed,
  found_at,
  lacks,
  progress_after,
  stepped,
  unwritten,
  written,
};
ghost use Rattle.snap_certify.specs.declared.found.Progress.{Progress};
ghost use Rattle.snap_certify.specs.declared.found.SeenItem.{SeenItem};
ghost use Rattle.snap_certify.specs.Finding.{
  Finds,
  Notes,
  WritesWord,
  fresh,
  seen_sight,
  seen_write,
  so_far,
  values_first,
  with_found,
};

use crate::found::{Finding, Lack, Missing, Progress, UpdateWrite};
use crate::sight::{Sight, changes, executed};
use snap_asm_program::Program;
use snap_machine::Machine;
use snap_record::{LineRole, new_roles};
use snap_sched::Schedule;
use snap_semantics::{Activity, Op, Outcome};
use snap_words::{Kind, Shape, View};
use std::alloc::{AllocError, Global};

/// Returns the finding that something is missing at item `t`.
fn lacks(lack: Lack, t: u64, item: &Sight<'_>, progress: Progress) -> Finding
    ensures { result ≡ lacks lack t (seen_sight item.now) progress }
{
    Finding::Lacks(Missing {
        lack,
        process: item.process,
        call: progress.call,
        item: t,
    })
}

/// Returns whether `now` are the values `past` with one of them set, if there is such a place.
fn is_set(
    alloc: Global,
    now: &[u64],
    past: &[u64],
    place: u64,
    value: u64,
) -> Result<bool, AllocError>
    ensures { IfOk result (λ b. b ≡ bytes_eq now.now (slice_set past.now place value)) }
{
    let mut wanted = Vec::from_slice(alloc, past)?;
    let place = place as usize;
    if place < wanted.len() {
        wanted[place] = value;
    }
    Ok(now == wanted.as_slice())
}

/// Returns what is written by item `t`, which executes the line under an operation.
fn written(
    alloc: Global,
    t: u64,
    item: &Sight<'_>,
    progress: Progress,
    op: Op,
) -> Result<Finding, AllocError>
    ensures { IfOk result (λ f. f ≡ written t (seen_sight item.now) progress op) }
{
    let Op::Update { word, value } = op else {
        return Ok(lacks(Lack::Update, t, item, progress));
    };
    if progress.wrote {
        return Ok(lacks(Lack::FirstWrite, t, item, progress));
    }
    let place = word.saturating_sub(1);
    if !is_set(alloc, item.values_after, item.values_before, place, value)? {
        return Ok(lacks(Lack::OwnValue, t, item, progress));
    }
    Ok(Finding::Write(UpdateWrite {
        process: item.process,
        word,
        value,
        call: progress.call,
        item: t,
    }))
}

/// Returns what is found of item `t` that does not execute the line.
fn unwritten(t: u64, item: &Sight<'_>, progress: Progress) -> Finding
    ensures { result ≡ unwritten t (seen_sight item.now) progress }
{
    if changes(item) {
        lacks(Lack::Line, t, item, progress)
    } else {
        Finding::Nothing
    }
}

/// Returns what is found of item `t` by what it executes.
fn stepped(
    alloc: Global,
    line: u64,
    t: u64,
    item: &Sight<'_>,
    progress: Progress,
) -> Result<Finding, AllocError>
    ensures { IfOk result
        (λ f. f ≡ stepped line t (seen_sight item.now) progress (executed (seen_sight item.now))) }
{
    match executed(item) {
        Some(activity) if activity.line == line => {
            written(alloc, t, item, progress, activity.op)
        }
        _ => Ok(unwritten(t, item, progress)),
    }
}

/// Returns what is found of item `t` as the end of an update.
fn ended(t: u64, item: &Sight<'_>, progress: Progress) -> Finding
    ensures { result ≡ ended t (seen_sight item.now) progress (seen_sight item.now).outcome }
{
    match item.outcome {
        Outcome::Finished if !progress.wrote => lacks(Lack::Write, t, item, progress),
        _ => Finding::Nothing,
    }
}

/// Returns what is found at item `t`, by the progress of its process before it.
fn found_at(
    alloc: Global,
    line: u64,
    t: u64,
    item: &Sight<'_>,
    progress: Progress,
) -> Result<Finding, AllocError>
    ensures { IfOk result (λ f. f ≡ found_at line t (seen_sight item.now) progress) }
{
    match stepped(alloc, line, t, item, progress)? {
        Finding::Nothing => Ok(ended(t, item, progress)),
        found => Ok(found),
    }
}

/// Returns whether a line is executed.
fn at_line(line: u64, activity: Option<Activity>) -> bool
    ensures { result ≡ at_line line activity }
{
    match activity {
        Some(activity) => activity.line == line,
        None => false,
    }
}

/// Returns the progress of a process after its item `t`.
fn progress_after(line: u64, t: u64, item: &Sight<'_>, progress: Progress) -> Progress
    ensures { result ≡ progress_after line t (seen_sight item.now) progress }
{
    match item.outcome {
        Outcome::Called => Progress {
            call: t,
            wrote: false,
        },
        _ => Progress {
            call: progress.call,
            wrote: progress.wrote || at_line(line, executed(item)),
        },
    }
}

/// The writes that were found so far, in the order of their items, where updates write at a line;
/// or the first thing that is missing, behind which nothing is sought.
pub(crate) struct Finder {
    alloc: Global,
    pub(crate) line: u64,
    /// What the lines are, by their numbers.
    pub(crate) roles: Vec<LineRole>,
    /// The values of the words.
    pub(crate) values: View,
    /// How far each process is.
    pub(crate) progress: Vec<Progress>,
    pub(crate) writes: Vec<UpdateWrite>,
    pub(crate) missing: Option<Missing>,
}

impl Drop for Finder {
    // A drop that is written out is one call: it is proved once, and not again at each drop.
    fn drop(self) {
        let Finder {
            alloc: _,
            line: _,
            roles: _,
            values: _,
            progress: _,
            writes: _,
            missing: _,
        } = self;
    }
}

/// Returns the progress of each process before its first call.
fn new_progress(alloc: Global, shape: Shape) -> Result<Vec<Progress>, AllocError>
    ensures { IfOk result (λ ps. ps.items ≡ replicate shape.n fresh) }
{
    let none = Progress {
        call: 0,
        wrote: false,
    };
    Ok(vec![in alloc; none; shape.n() as usize]?)
}

impl Finder {
    /// Returns a finder before the first item of the run of `program` over `schedule`, where
    /// updates write at `line` and the values are `values`.
    pub(crate) fn new(
        alloc: Global,
        program: &Program,
        schedule: &Schedule,
        line: u64,
        values: View,
    ) -> Result<Finder, AllocError>
        requires line { WritesWord program.now line }
        requires values { values ≡ values_first program.now schedule.now }
        ensures line { IfOk result (λ f. f.line ≡ line) }
        ensures finds { IfOk result (Finds (run_over program.now schedule.now) 0) }
    {
        let shape = schedule.shape();
        Ok(Finder {
            alloc,
            line,
            roles: new_roles(alloc, program)?,
            values,
            progress: new_progress(alloc, shape)?,
            writes: Vec::new(alloc),
            missing: None,
        })
    }

    /// Adds a finding, if nothing is missing yet.
    fn add(&mut self, found: Finding) -> Result<(), AllocError>
        ensures line { self.new.line ≡ self.old.line }
        ensures roles { self.new.roles ≡ self.old.roles }
        ensures values { self.new.values ≡ self.old.values }
        ensures progress { self.new.progress ≡ self.old.progress }
        ensures found { OnOk result (so_far self.new.missing self.new.writes.items
            ≡ with_found (so_far self.old.missing self.old.writes.items) found) }
    {
        if self.missing.is_some() {
            return Ok(());
        }
        match found {
            Finding::Nothing => {}
            Finding::Write(write) => self.writes.push(write)?,
            Finding::Lacks(missing) => self.missing = Some(missing),
        }
        Ok(())
    }

    /// Notes item number `number`, a step of a process at a line that writes a word, which leaves
    /// `machine`.
    pub(crate) fn note_write<K: Kind>(
        &mut self,
        machine: &Machine<K>,
        number: u64,
        process: u32,
        activity: Activity,
        outcome: &Outcome,
    ) -> Result<(), AllocError>
        requires { IsOneOf (length self.old.progress.items) process }
        ensures notes { OnOk result ((d : Progress) → Notes number
            (seen_write process activity outcome.now self.old.values (values machine.now.state))
            (get_or self.old.progress.items (process - 1) d) self.old self.new) }
        ensures values { OnOk result (self.new.values ≡ values machine.now.state) }
        ensures line { OnOk result (self.new.line ≡ self.old.line) }
    {
        let place = (process - 1) as usize;
        let past = self.progress[place];
        let after = machine.values()?;
        let sight = Sight {
            process,
            activity: Some(activity),
            outcome,
            values_before: self.values.as_slice(),
            values_after: after.as_slice(),
        };
        let found = found_at(self.alloc, self.line, number, &sight, past)?;
        let progress = progress_after(self.line, number, &sight, past);
        self.progress[place] = progress;
        self.values = after;
        self.add(found)
    }

    /// Notes that an update of a process ends at item number `number`. If it has not written, its
    /// write is missing.
    fn end(&mut self, number: u64, process: u32)
        requires { IsOneOf (length self.old.progress.items) process }
        ensures line { self.new.line ≡ self.old.line }
        ensures roles { self.new.roles ≡ self.old.roles }
        ensures values { self.new.values ≡ self.old.values }
        ensures progress { self.new.progress ≡ self.old.progress }
        ensures found { (d : Progress) (x : SeenItem) → x.process ≡ process →
            so_far self.new.missing self.new.writes.items
            ≡ with_found (so_far self.old.missing self.old.writes.items)
            (ended number x (get_or self.old.progress.items (process - 1) d) Finished) }
    {
        let past = self.progress[(process - 1) as usize];
        if past.wrote || self.missing.is_some() {
            return;
        }
        self.missing = Some(Missing {
            lack: Lack::Write,
            process,
            call: past.call,
            item: number,
        });
    }

    /// Notes item number `number`, which changes no value and does not execute the line.
    #[inline(always)]
    pub(crate) fn note_other(&mut self, number: u64, process: u32, outcome: &Outcome)
        requires { IsOneOf (length self.old.progress.items) process }
        ensures notes { (x : SeenItem) (d : Progress) → x.process ≡ process →
            x.outcome ≡ outcome.now → changes x ≡ false →
            at_line self.old.line (executed x) ≡ false →
            Notes number x (get_or self.old.progress.items (process - 1) d) self.old self.new }
        ensures values { self.new.values ≡ self.old.values }
        ensures line { self.new.line ≡ self.old.line }
    {
        match outcome {
            Outcome::Called => {
                self.progress[(process - 1) as usize] = Progress {
                    call: number,
                    wrote: false,
                };
            }
            Outcome::Finished => self.end(number, process),
            _ => {}
        }
    }
    /// Takes what was found: the writes, and the first thing that is missing.
    pub(crate) fn found(self) -> (Vec<UpdateWrite>, Option<Missing>)
        ensures writes { result.0 ≡ self.writes }
        ensures missing { result.1 ≡ self.missing }
    {
        let Finder {
            alloc: _,
            line: _,
            roles: _,
            values: _,
            progress: _,
            writes,
            missing,
        } = self;
        (writes, missing)
    }
}
