//! A search tries what is next at a node.
ghost use Rattle.std.specs.Prelude.{◌≡◌, ◌+◌, true, IfNone, IfOk, IfSome, OnOk, length};
ghost use Rattle.snap_judge.specs.Kept.{AreSteps, Can};
ghost use Rattle.snap_judge.specs.Choices.{IsChoice};
ghost use Rattle.snap_judge.specs.Nodes.{HasEntered, HasTried, IsNode, IsTried};

use crate::advance::advance;
use crate::choices::{next_choice, open_update};
use crate::config::{Entered, Node, OpenUpdate, Step};
use crate::taking::take_update;
use std::alloc::AllocError;

/// Takes this update in a copy of the node's configuration, and passes what can be passed then.
fn enter(
    steps: &[Step<'_>],
    node: &Node,
    order: &mut Vec<usize>,
    update: OpenUpdate,
) -> Result<Entered, AllocError>
    requires node { IsNode (length node.now.config.slots.items)
        (length node.now.config.values.items) steps.now order.old.items node.now }
    requires update { IsChoice steps.now node.now.config update }
    requires steps { AreSteps (length node.now.config.slots.items)
        (length node.now.config.values.items) steps.now }
    ensures entered { IfOk result (λ e. HasEntered steps.now node.now update.place order.old.items
        order.new.items e) }
{
    order.truncate(node.depth);
    let mut config = node.config.copy()?;
    take_update(steps, &mut config, order, update)?;
    let at_end = advance(steps, &mut config, order)?;
    Ok(Entered { config, at_end })
}

/// Tries the open update at the next place of a node that has to be tried, and returns where the
/// search has come to; `None` where each was tried, so that nothing explains the rest from there.
fn try_place(
    steps: &[Step<'_>],
    node: &mut Node,
    order: &mut Vec<usize>,
) -> Result<Option<Entered>, AllocError>
    requires node { IsNode (length node.old.config.slots.items)
        (length node.old.config.values.items) steps.now order.old.items node.old }
    requires tried { IsTried steps.now node.old }
    requires begun { node.old.begun ≡ true }
    requires steps { AreSteps (length node.old.config.slots.items)
        (length node.old.config.values.items) steps.now }
    ensures same { OnOk result (node.new.config ≡ node.old.config) }
    ensures none { IfOk result (λ e. IfNone e (Can steps.now node.old.config → ⊥)) }
    ensures kept { IfOk result (λ e. IfNone e (order.new.items ≡ order.old.items)) }
    ensures some { IfOk result (λ e. IfSome e (λ x. HasTried steps.now node.old node.new
        order.old.items order.new.items x)) }
{
    let Some(update) = next_choice(steps, &node.config, node.ending, node.next) else {
        return Ok(None);
    };
    node.next = update.place + 1;
    let entered = enter(steps, node, order, update)?;
    Ok(Some(entered))
}

/// Tries the open update that is next at a node: first the one that ends, which mostly explains
/// more than the others, and then each by its place. Returns where the search has come to; `None`
/// where each was tried, so that nothing explains the rest from there.
///
/// # Errors
///
/// `AllocError` where memory runs out.
pub fn try_next(
    steps: &[Step<'_>],
    node: &mut Node,
    order: &mut Vec<usize>,
) -> Result<Option<Entered>, AllocError>
    requires node { IsNode (length node.old.config.slots.items)
        (length node.old.config.values.items) steps.now order.old.items node.old }
    requires tried { IsTried steps.now node.old }
    requires steps { AreSteps (length node.old.config.slots.items)
        (length node.old.config.values.items) steps.now }
    ensures same { OnOk result (node.new.config ≡ node.old.config) }
    ensures none { IfOk result (λ e. IfNone e (Can steps.now node.old.config → ⊥)) }
    ensures kept { IfOk result (λ e. IfNone e (order.new.items ≡ order.old.items)) }
    ensures some { IfOk result (λ e. IfSome e (λ x. HasTried steps.now node.old node.new
        order.old.items order.new.items x)) }
{
    if node.begun {
        return try_place(steps, node, order);
    }
    node.begun = true;
    match open_update(steps, &node.config, node.ending) {
        Some(update) => {
            let entered = enter(steps, node, order, update)?;
            Ok(Some(entered))
        }
        None => try_place(steps, node, order),
    }
}
