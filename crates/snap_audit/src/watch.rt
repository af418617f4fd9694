//! `Watch`: what an audit has to know of the items that a machine has done on its way through a
//! run. The items are not kept, unlike in a record.
ghost use Rattle.std.specs.Prelude.{◌≡◌, ◌<◌, ◌+◌, ◌++◌, ◌∷◌, IfOk, OnOk};
ghost use Rattle.std.specs.Prelude.{◌-◌, false, length, map, option_to_list, replicate, slice_index, ◌^◌};
ghost use Rattle.snap_words.specs.Shape.{IsOneOf};
ghost use Rattle.snap_semantics.specs.State.{values};
ghost use Rattle.snap_semantics.specs.declared.event.Event.{Event};
ghost use Rattle.snap_runs.specs.Audit.{audit};
ghost use Rattle.snap_runs.specs.Run.{events_of, run_over};
ghost use Rattle.snap_runs.specs.StepRoles.{StepRole, is_test};
ghost use Rattle.snap_record.specs.History.{changes_to, counted};
ghost use Rattle.snap_walk.specs.Walk.{Way};
ghost use Rattle.snap_audit.specs.Watch.{Watches, WatchesOn, is_silent, is_test_line, is_write_line};
ghost use Rattle.snap_audit.specs.Watch.{silent_lines, so_far, told_role};

use crate::sweep::sweep;
use snap_asm_program::Program;
use snap_machine::Machine;
use snap_record::{Change, LineRole, Row, event_of, new_roles, note_values, role_in};
use snap_runs::Verdict;
use snap_sched::Schedule;
use snap_semantics::{Activity, Event, Outcome, who};
use snap_walk::{Passed, Walk};
use snap_words::{Kind, Shape};
use std::alloc::{AllocError, Global};

/// What an audit has to know of the items that a machine has done.
#[derive(Drop)]
pub struct Watch {
    shape: Shape,
    /// What the lines are, by their numbers.
    roles: Vec<LineRole>,
    /// Whether there is nothing to note of a line, by its number.
    silent: Vec<bool>,
    values: Row,
    /// The changes of values, in order.
    changes: Vec<Change>,
    events: Vec<Event>,
    /// How many double collects each process has had.
    collects: Vec<u64>,
    /// At each event, how many double collects its process had had.
    at_events: Vec<u64>,
}

/// Returns the role of the line that an item is told to run. An item that runs none, or one that is
/// not told, writes no word, and tests nothing for all.
#[inline(always)]
fn told_role(roles: &[LineRole], activity: Option<Activity>) -> LineRole
    ensures { result ≡ told_role roles.now activity }
{
    match activity {
        Some(activity) => role_in(roles, activity.line),
        None => LineRole::Nothing,
    }
}

/// Returns whether a line writes a word.
#[inline(always)]
fn is_write(role: LineRole) -> bool
    ensures { result ≡ is_write_line role }
{
    match role {
        LineRole::Write => true,
        LineRole::Test => false,
        LineRole::Return => false,
        LineRole::Nothing => false,
    }
}

/// Returns whether there is nothing to note of a step that goes on from a line of this role.
fn is_silent(role: LineRole) -> bool
    ensures { result ≡ is_silent role }
{
    match role {
        LineRole::Write => false,
        LineRole::Test => false,
        LineRole::Return => true,
        LineRole::Nothing => true,
    }
}

/// Returns for each line, by its number, whether there is nothing to note of it.
fn silent_lines(alloc: Global, roles: &[LineRole]) -> Result<Vec<bool>, AllocError>
    ensures { IfOk result (λ v. v.items ≡ map is_silent roles.now) }
{
    let mut silent = Vec::new(alloc);
    for role in roles {
        silent.push(is_silent(*role))?;
    }
    Ok(silent)
}

/// Notes the values after item number `number`, which leaves `machine`. The values stay as they are
/// if the item writes no word.
fn note_changes<K: Kind>(
    now: &mut Row,
    changes: &mut Vec<Change>,
    number: u64,
    role: LineRole,
    machine: &Machine<K>,
) -> Result<(), AllocError>
    requires count { length now.old ≡ machine.now.shape.w }
    requires stay { is_write_line role ≡ false → values machine.now.state ≡ now.old }
    ensures now { OnOk result (now.new ≡ values machine.now.state) }
    ensures changes { OnOk result (changes.new.items ≡ changes.old.items
        ++ changes_to number 0 now.old (values machine.now.state)) }
    ensures count { OnOk result (length now.new ≡ machine.now.shape.w) }
{
    if is_write(role) {
        changes.reserve(now.as_slice().len())?;
        note_values(now, changes, number, machine);
    }
    Ok(())
}

/// Counts a double collect, if an item ends one.
fn note_test(collects: &mut Vec<u64>, i: u32, role: LineRole, outcome: &Outcome)
    requires process { IsOneOf (length collects.old.items) i }
    requires few { slice_index collects.old.items (i - 1) + 1 < 2 ^ 64 }
    ensures { (d : StepRole) → is_test d ≡ is_test_line role → collects.new.items
        ≡ counted d outcome.now i collects.old.items }
{
    if let (LineRole::Test, Outcome::Stepped) = (role, outcome) {
        collects[(i - 1) as usize] += 1;
    }
}

/// Notes an event of a process, if there is one, and how many double collects the process has made.
fn note_event(
    events: &mut Vec<Event>,
    at_events: &mut Vec<u64>,
    event: Option<Event>,
    collects: &[u64],
    i: u32,
) -> Result<(), AllocError>
    requires { IsOneOf (length collects.now) i }
    ensures events { OnOk result (events.new.items ≡ events.old.items ++ option_to_list event) }
    ensures at_events { OnOk result (at_events.new.items ≡ at_events.old.items
        ++ map (λ (e : Event). slice_index collects.now (i - 1)) (option_to_list event)) }
{
    if let Some(event) = event {
        events.push(event)?;
        at_events.push(collects[(i - 1) as usize])?;
    }
    Ok(())
}

/// Returns `count` zeros.
fn zeros(alloc: Global, count: u64) -> Result<Vec<u64>, AllocError>
    ensures { IfOk result (λ v. v.items ≡ replicate count 0) }
{
    Ok(vec![in alloc; 0; count as usize]?)
}

impl Watch {
    /// Returns a watch before the first item of the run of `program` over a schedule.
    ///
    /// # Errors
    ///
    /// `AllocError` where memory runs out.
    pub fn new(alloc: Global, program: &Program, schedule: &Schedule) -> Result<Watch, AllocError>
        ensures { IfOk result
            (Watches (record { run = run_over program.now schedule.now; at = 0 })) }
    {
        // What `items` promises: the schedule keeps the rules of schedules.
        let _items = schedule.items();
        let shape = schedule.shape();
        let roles = new_roles(alloc, program)?;
        let silent = silent_lines(alloc, roles.as_slice())?;
        Ok(Watch {
            shape,
            roles,
            silent,
            values: Row::zeros(alloc, shape.w())?,
            changes: Vec::new(alloc),
            events: Vec::new(alloc),
            collects: zeros(alloc, shape.n())?,
            at_events: Vec::new(alloc),
        })
    }

    /// Returns for each line, by its number, whether it is silent: a step that goes on from it is not
    /// noted. Nor are skipped items.
    pub fn silent_lines(&self) -> &[bool]
        ensures { result.now ≡ silent_lines self.now }
    {
        self.silent.as_slice()
    }

    /// Notes the item that was told last on the way, where silent lines are quiet.
    ///
    /// # Errors
    ///
    /// `AllocError` where memory runs out.
    pub fn note<K: Kind>(&mut self, walk: &Walk<'_, K>, passed: Passed) -> Result<(), AllocError>
        requires passed { (w : Way) × WatchesOn w self.old passed walk.now }
        ensures watches { OnOk result (Watches walk.now self.new) }
        ensures lines { silent_lines self.new ≡ silent_lines self.old }
    {
        let Passed {
            number,
            item,
            activity,
            outcome,
        } = passed;
        let role = told_role(self.roles.as_slice(), activity);
        note_changes(
            &mut self.values,
            &mut self.changes,
            number,
            role,
            walk.machine(),
        )?;
        let i = who(item);
        note_test(&mut self.collects, i, role, &outcome);
        let event = event_of(number, item, outcome);
        note_event(
            &mut self.events,
            &mut self.at_events,
            event,
            self.collects.as_slice(),
            i,
        )?;
        Ok(())
    }

    /// Returns what callers saw, in order.
    pub fn into_events(self) -> Vec<Event>
        ensures { (w : Way) → Watches w self → result.items ≡ events_of w.run w.at }
    {
        let Watch { events, .. } = self;
        events
    }

    /// Returns the verdicts on the scans of the run so far.
    ///
    /// # Errors
    ///
    /// `AllocError` where memory runs out.
    pub fn verdicts(&self, alloc: Global) -> Result<Vec<Verdict>, AllocError>
        requires { (w : Way) × Watches w self.now }
        ensures { IfOk result (λ v. (w : Way) → Watches w self.now → v.items ≡ audit (so_far w)) }
    {
        sweep(
            alloc,
            self.shape,
            self.changes.as_slice(),
            self.events.as_slice(),
            self.at_events.as_slice(),
        )
    }
}
