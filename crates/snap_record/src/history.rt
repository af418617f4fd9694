//! What a record keeps of its run besides the items: changes of values (`Change`), events, and
//! counts of double collects.
ghost use Rattle.std.specs.Prelude.{◌≡◌, ◌+◌, ◌-◌, ◌<◌, ◌≤◌, ◌++◌, [], ◌&&◌, ◌^◌};
ghost use Rattle.std.specs.Prelude.{IsTrue, get_or, length, map, option_to_list, vec_capacity};
ghost use Rattle.std.specs.Prelude.{vec_len, slice_index, slice_set, ℕ, List, OnOk, true, false};
ghost use Rattle.snap_words.specs.Shape.{IsOneOf};
ghost use Rattle.snap_semantics.specs.Run.{call_event, event_of};
ghost use Rattle.snap_semantics.specs.State.{values};
ghost use Rattle.snap_semantics.specs.Table.{who};
ghost use Rattle.snap_semantics.specs.declared.process.Item.{Item};
ghost use Rattle.snap_semantics.specs.declared.event.Event.{Event};
ghost use Rattle.snap_semantics.specs.declared.process.Outcome.TheVariants as outcomes;
ghost use Rattle.snap_runs.specs.StepRoles.{Answer, is_test, is_write};
ghost use Rattle.snap_runs.specs.Scan.{is_stepped};
ghost use Rattle.snap_record.specs.History.{change_at, changes_to, counted};
ghost use Rattle.snap_record.specs.SeenRoles.{seen_step_role};

use crate::row::Row;
use crate::step_role::StepRole;
use snap_machine::{Contents, Machine};
use snap_semantics::{Event, Happening, Item, Outcome, who};
use snap_words::{Address, Bank, Field, Kind, field_of};
use std::alloc::{AllocError, Global};

/// A change of a value by an item. Items count from 1, places of values from 0.
#[derive(Clone, Copy)]
pub struct Change {
    pub item: u64,
    pub place: u64,
    pub value: u64,
}

/// Returns the event of a call.
fn call_event(number: u64, item: Item) -> Option<Event>
    ensures { option_to_list result ≡ call_event number item }
{
    match item {
        Item::Step(_) => None,
        Item::Call(process, op) => Some(Event {
            item: number,
            process,
            what: Happening::Call(op),
        }),
        Item::Crash(_) => None,
    }
}

/// Returns the event of item number `number`, if it has one. The view of an answer is the one that
/// was to be answered.
#[inline(always)]
pub fn event_of(number: u64, item: Item, outcome: &Outcome, step_role: StepRole) -> Option<Event>
    requires { (v : List ℕ) → outcome.now ≡ outcomes.Answered v → seen_step_role step_role
        ≡ Answer v }
    ensures { option_to_list result ≡ event_of number item outcome.now }
{
    match outcome {
        Outcome::Called => call_event(number, item),
        Outcome::Answered(_) => match step_role {
            StepRole::Answer(view) => Some(Event {
                item: number,
                process: who(item),
                what: Happening::Answer(view),
            }),
            _ => unreachable!(),
        },
        Outcome::Finished => Some(Event {
            item: number,
            process: who(item),
            what: Happening::Done,
        }),
        Outcome::Stepped => None,
        Outcome::Trapped(_) => None,
        Outcome::Crashed => Some(Event {
            item: number,
            process: who(item),
            what: Happening::Crash,
        }),
        Outcome::Skipped(_) => None,
    }
}

/// Notes the value of a place after an item.
#[tactic(auto, using(crate::proofs::Values::value_again))]
fn note_value(now: &mut Row, changes: &mut Vec<Change>, item: u64, place: usize, value: u64)
    requires place { place < length now.old }
    requires room { vec_len changes.old < vec_capacity changes.old }
    ensures now { now.new ≡ slice_set now.old place value }
    ensures changes { changes.new.items ≡ changes.old.items
        ++ change_at item place (slice_index now.old place) value }
    ensures room { (vec_len changes.new ≤ vec_len changes.old + 1) ×
        (vec_capacity changes.new ≡ vec_capacity changes.old) }
{
    if now.as_slice()[place] == value {
        return;
    }
    changes.push_reserved(Change {
        item,
        place: place as u64,
        value,
    });
    now.set(place, value);
}

/// Returns the value at place `k`, counted from 0. No memory is allocated.
fn value_of<K: Kind>(machine: &Machine<K>, k: usize) -> u64
    requires { k < machine.now.shape.w }
    ensures { result ≡ get_or (values machine.now.state) k 0 }
{
    // What `shape` promises: the memory is one of the shape.
    let _shape = machine.shape();
    let i = k as u64 + 1;
    match machine.register(Address {
        bank: Bank::R,
        i,
        j: 0,
    }) {
        Ok(Contents::Word(word)) => field_of::<K>(word, Field::Datum),
        _ => unreachable!(),
    }
}

/// Notes the changes of values to those of a machine.
pub fn note_values<K: Kind>(
    now: &mut Row,
    changes: &mut Vec<Change>,
    item: u64,
    machine: &Machine<K>,
)
    requires count { length now.old ≡ machine.now.shape.w }
    requires room { vec_len changes.old + machine.now.shape.w ≤ vec_capacity changes.old }
    ensures now { now.new ≡ values machine.now.state }
    ensures changes { changes.new.items ≡ changes.old.items
        ++ changes_to item 0 now.old (values machine.now.state) }
    ensures count { length now.new ≡ machine.now.shape.w }
{
    let count = machine.shape().w() as usize;
    let mut k = 0;
    while k < count {
        note_value(now, changes, item, k, value_of(machine, k));
        k += 1;
    }
}

/// Returns whether a line writes a word.
#[inline(always)]
fn is_write(step_role: &StepRole) -> bool
    ensures { result ≡ is_write (seen_step_role step_role.now) }
{
    match step_role {
        StepRole::Write => true,
        StepRole::Test => false,
        StepRole::Answer(_) => false,
        StepRole::Nothing => false,
    }
}

/// Makes room for the changes of `count` values, if a line writes a word.
///
/// # Errors
///
/// `AllocError` where memory runs out.
#[inline(always)]
pub fn reserve_changes(
    changes: &mut Vec<Change>,
    step_role: &StepRole,
    count: usize,
) -> Result<(), AllocError>
    ensures kept { changes.new.items ≡ changes.old.items }
    ensures room { OnOk result (is_write (seen_step_role step_role.now) ≡ true
        → vec_len changes.new + count ≤ vec_capacity changes.new) }
{
    if is_write(step_role) {
        changes.reserve(count)?;
    }
    Ok(())
}

/// Notes the values after an item, which leaves `machine`. The values stay as they are if the item
/// writes no word.
#[inline(always)]
pub fn note_item<K: Kind>(
    now: &mut Row,
    changes: &mut Vec<Change>,
    item: u64,
    step_role: &StepRole,
    machine: &Machine<K>,
)
    requires count { length now.old ≡ machine.now.shape.w }
    requires room { is_write (seen_step_role step_role.now) ≡ true → vec_len changes.old
        + machine.now.shape.w ≤ vec_capacity changes.old }
    requires stay { is_write (seen_step_role step_role.now) ≡ false → values machine.now.state
        ≡ now.old }
    ensures now { now.new ≡ values machine.now.state }
    ensures changes { changes.new.items ≡ changes.old.items
        ++ changes_to item 0 now.old (values machine.now.state) }
    ensures count { length now.new ≡ machine.now.shape.w }
{
    if is_write(step_role) {
        note_values(now, changes, item, machine);
    }
}

/// Counts a double collect, if an item ends one.
#[inline(always)]
pub fn note_collect(collects: &mut Vec<u64>, i: u32, step_role: &StepRole, outcome: &Outcome)
    requires process { IsOneOf (length collects.old.items) i }
    requires few { slice_index collects.old.items (i - 1) + 1 < 2 ^ 64 }
    ensures { collects.new.items ≡ counted (seen_step_role step_role.now) outcome.now i
        collects.old.items }
{
    if ends_collect(step_role, outcome) {
        collects[(i - 1) as usize] += 1;
    }
}

/// Notes an event, if there is one, and how many double collects its process has made.
#[inline(always)]
pub fn note_event(
    events: &mut Vec<Event>,
    at_events: &mut Vec<u64>,
    event: Option<Event>,
    collects: u64,
)
    requires events { vec_len events.old < vec_capacity events.old }
    requires at_events { vec_len at_events.old < vec_capacity at_events.old }
    ensures events { events.new.items ≡ events.old.items ++ option_to_list event }
    ensures at_events { at_events.new.items ≡ at_events.old.items
        ++ map (λ (e : Event). collects) (option_to_list event) }
{
    if let Some(event) = event {
        events.push_reserved(event);
        at_events.push_reserved(collects);
    }
}

/// Returns whether a test for all goes on.
#[inline(always)]
pub fn ends_collect(step_role: &StepRole, outcome: &Outcome) -> bool
    ensures { result ≡ (is_test (seen_step_role step_role.now) && is_stepped outcome.now) }
{
    match (step_role, outcome) {
        (StepRole::Test, Outcome::Stepped) => true,
        _ => false,
    }
}

/// Returns whether nobody sees what came of an item.
#[inline(always)]
fn is_unseen(outcome: &Outcome) -> bool
    ensures { (t : ℕ) (x : Item) → IsTrue result → event_of t x outcome.now ≡ [] }
{
    match outcome {
        Outcome::Stepped => true,
        Outcome::Trapped(_) => true,
        Outcome::Skipped(_) => true,
        _ => false,
    }
}

/// What an item of a record did.
#[derive(Clone, Copy)]
pub struct Done<'o> {
    /// The item's place in the record, counted from 1.
    pub number: u64,
    pub item: Item,
    pub outcome: &'o Outcome,
}

/// Notes what callers see of an item, and how many double collects its process has made. The view
/// of an answer is the one that was to be answered.
#[inline(always)]
pub fn note_outcome(
    events: &mut Vec<Event>,
    at_events: &mut Vec<u64>,
    collects: &[u64],
    done: &Done<'_>,
    step_role: StepRole,
)
    requires process { IsOneOf (length collects.now) (who done.now.item) }
    requires answer { (v : List ℕ) → done.now.outcome.now ≡ outcomes.Answered v →
        seen_step_role step_role ≡ Answer v }
    requires events { vec_len events.old < vec_capacity events.old }
    requires at_events { vec_len at_events.old < vec_capacity at_events.old }
    ensures events { events.new.items ≡ events.old.items
        ++ event_of done.now.number done.now.item done.now.outcome.now }
    ensures at_events { at_events.new.items ≡ at_events.old.items
        ++ map (λ (e : Event). slice_index collects.now (who done.now.item - 1))
        (event_of done.now.number done.now.item done.now.outcome.now) }
{
    let Done {
        number,
        item,
        outcome,
    } = *done;
    if is_unseen(outcome) {
        return;
    }
    let event = event_of(number, item, outcome, step_role);
    note_event(events, at_events, event, collects[(who(item) - 1) as usize]);
}
