//! `OwnSteps`: the steps that each process has taken since its last call, and the failure that they
//! are too many.
ghost use Rattle.std.specs.Prelude.{◌≡◌, ◌<◌, ◌≤◌, ◌+◌, ◌-◌, ◌^◌};
ghost use Rattle.std.specs.Prelude.{IfOk, get_or, length, replicate, slice_set};
ghost use Rattle.snap_words.specs.Shape.{IsOneOf};
ghost use Rattle.snap_semantics.specs.Rules.{or_else};
ghost use Rattle.snap_semantics.specs.Table.{who};
ghost use Rattle.snap_hunt.specs.Firsts.{asks_update};
ghost use Rattle.snap_hunt.specs.Watching.{is_taken, none_taken, noted, overrun_by};
ghost use Rattle.snap_hunt.specs.declared.failures.OwnSteps.{OwnSteps};

use crate::failures::{Failure, OwnSteps};
use snap_semantics::{Item, Op, Outcome, who};
use std::alloc::{AllocError, Global};

/// Returns whether an item calls an update.
fn asks_update(item: Item) -> bool
    ensures { result ≡ asks_update item }
{
    match item {
        Item::Call(_, Op::Update { .. }) => true,
        Item::Call(_, Op::Scan) | Item::Step(_) | Item::Crash(_) => false,
    }
}

/// Returns whether an item is a step that is not skipped.
fn is_taken(item: Item, outcome: &Outcome) -> bool
    ensures { result ≡ is_taken item outcome.now }
{
    match (item, outcome) {
        (Item::Step(_), Outcome::Skipped(_)) => false,
        (Item::Step(_), _) => true,
        _ => false,
    }
}

impl OwnSteps {
    /// Returns the steps before the first call.
    fn new() -> OwnSteps
        ensures { result ≡ none_taken }
    {
        OwnSteps {
            update: false,
            call: 0,
            count: 0,
        }
    }

    /// Notes item number `number`, which is one of the same process.
    fn note(&mut self, number: u64, item: Item, outcome: &Outcome)
        requires { self.old.count + 1 < 2 ^ 64 }
        ensures { self.new ≡ noted self.old number item outcome.now }
    {
        if let Outcome::Called = outcome {
            self.update = asks_update(item);
            self.call = number;
            self.count = 0;
        } else if is_taken(item, outcome) {
            self.count += 1;
        }
    }

    /// Returns that the operation has taken more than `most` steps by item number `number`, which
    /// is one of them.
    fn overrun(&self, most: u64, number: u64, item: Item, outcome: &Outcome) -> Option<Failure>
        ensures { result ≡ overrun_by most number item outcome.now self.now }
    {
        if is_taken(item, outcome) && most < self.count {
            Some(Failure::ManySteps {
                process: who(item),
                item: number,
                own: *self,
            })
        } else {
            None
        }
    }
}

/// Returns each process before its first call.
pub(crate) fn none_taken(alloc: Global, count: u64) -> Result<Vec<OwnSteps>, AllocError>
    ensures { IfOk result (λ v. v.items ≡ replicate count none_taken) }
{
    Ok(vec![in alloc; OwnSteps::new(); count as usize]?)
}

/// Notes item number `number`, and returns that with it an operation has taken more than `most`
/// steps, if it has.
pub(crate) fn note(
    owns: &mut Vec<OwnSteps>,
    most: u64,
    number: u64,
    item: Item,
    outcome: &Outcome,
) -> Option<Failure>
    requires process { IsOneOf (length owns.old.items) (who item) }
    requires few { (d : OwnSteps) → (get_or owns.old.items (who item - 1) d).count + 1 < 2 ^ 64 }
    ensures owns { (d : OwnSteps) → owns.new.items ≡ slice_set owns.old.items (who item - 1)
        (noted (get_or owns.old.items (who item - 1) d) number item outcome.now) }
    ensures result { (d : OwnSteps) → result ≡ overrun_by most number item outcome.now
        (noted (get_or owns.old.items (who item - 1) d) number item outcome.now) }
{
    let own = &mut owns[(who(item) - 1) as usize];
    own.note(number, item, outcome);
    own.overrun(most, number, item, outcome)
}

/// Returns the first of two failures.
pub(crate) fn first(found: Option<Failure>, later: Option<Failure>) -> Option<Failure>
    ensures { result ≡ or_else found later }
{
    match found {
        Some(failure) => Some(failure),
        None => later,
    }
}
