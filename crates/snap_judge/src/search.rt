//! A search for an order in which all operations of a history take place.
ghost use Rattle.std.specs.Prelude.{◌≡◌, ◌<◌, ℕ, [], length, slice_index_or, suc, true, false};
ghost use Rattle.std.specs.Prelude.{IfNone, IfOk, IfSome, OnOk};
ghost use Rattle.std.specs.List.{All};
ghost use Rattle.snap_judge.specs.Kept.{AreNumbered, AreSteps, Can, IsConfig, IsStuck};
ghost use Rattle.snap_judge.specs.Nodes.{HasNode, IsAlive, IsAt, IsFound, IsTrail, kept_by};
ghost use Rattle.snap_judge.specs.Nodes.{KeepsTrailCounts, NothingExplains, NothingLeft};
ghost use Rattle.snap_judge.specs.declared.config.Step.TheVariants as kept_step;

use crate::advance::advance;
use crate::branches::try_next;
use crate::config::{Config, Entered, Found, Node, Slot, Step};
use std::alloc::{AllocError, Global};
use std::collections::HashSet;

/// Where a search of the histories of a number of processes and words is: the nodes at which it has
/// chosen, the configurations from which nothing explains the rest, and the operations that have
/// taken place, by the steps that call them.
#[derive(Drop)]
struct Trail {
    processes: usize,
    words: usize,
    nodes: Vec<Node>,
    failed: HashSet<Config>,
    order: Vec<usize>,
}

/// Returns the place of the process whose end the step at `position` is; `None` where it is no end.
fn ending_at(steps: &[Step<'_>], position: usize) -> Option<usize>
    requires position { position < length steps.now }
    requires process { (i : ℕ) → slice_index_or steps.now position kept_step.Waits
        ≡ kept_step.Ends i → 0 < i }
    ensures some { IfSome result (λ p. slice_index_or steps.now position kept_step.Waits
        ≡ kept_step.Ends (suc p)) }
    ensures none { IfNone result ((i : ℕ) → slice_index_or steps.now position kept_step.Waits
        ≡ kept_step.Ends i → ⊥) }
{
    match &steps[position] {
        Step::Ends(process) => Some((*process - 1) as usize),
        Step::Calls(_) => None,
        Step::Waits => None,
    }
}

/// Returns whether it is known that nothing explains the rest from where the search has come to:
/// the same configuration has failed before, or the next step is no end.
fn is_dead(steps: &[Step<'_>], failed: &HashSet<Config>, entered: &Entered) -> bool
    requires config { IsConfig steps.now entered.now.config }
    requires stuck { entered.now.at_end ≡ false → IsStuck steps.now entered.now.config }
    requires process { (i : ℕ) → slice_index_or steps.now entered.now.config.position
        kept_step.Waits ≡ kept_step.Ends i → 0 < i }
    requires failed { All (λ c. Can steps.now c → ⊥) failed.now.keys }
    ensures dead { result ≡ true → Can steps.now entered.now.config → ⊥ }
    ensures alive { result ≡ false → IsAlive steps.now failed.now.keys entered.now }
{
    if entered.at_end {
        return false;
    }
    // As long as nothing has failed, no configuration is hashed.
    if !failed.is_empty() && failed.contains(&entered.config) {
        return true;
    }
    match ending_at(steps, entered.config.position) {
        Some(_) => false,
        None => true,
    }
}

/// Goes to the first configuration, and passes what can be passed. Returns what the search has come
/// to, or that nothing explains the history.
fn start(
    alloc: Global,
    steps: &[Step<'_>],
    trail: &mut Trail,
) -> Result<Option<Entered>, AllocError>
    requires steps { AreSteps trail.old.processes trail.old.words steps.now }
    requires nodes { trail.old.nodes.items ≡ [] }
    requires failed { trail.old.failed.keys ≡ [] }
    requires order { trail.old.order.items ≡ [] }
    ensures trail { OnOk result (IsTrail steps.now trail.new) }
    ensures some { IfOk result (λ r. IfSome r (λ e. IsAt steps.now trail.new e)) }
    ensures none { IfOk result (λ r. IfNone r
        (NothingExplains trail.old.processes trail.old.words steps.now)) }
    ensures kept { KeepsTrailCounts trail.old trail.new }
    ensures count { OnOk result (kept_by trail.new ≡ 0) }
{
    let mut config = Config {
        position: 0,
        values: vec![in alloc; 0; trail.words]?,
        slots: vec![in alloc; Slot::Free; trail.processes]?,
    };
    let at_end = advance(steps, &mut config, &mut trail.order)?;
    let entered = Entered { config, at_end };
    if is_dead(steps, &trail.failed, &entered) {
        return Ok(None);
    }
    Ok(Some(entered))
}

/// Tries what is next at a node that was the last one, and returns where the search has come to;
/// `None` where each was tried, so that nothing explains the rest from the nodes that are left.
fn retry(
    steps: &[Step<'_>],
    trail: &mut Trail,
    mut node: Node,
) -> Result<Option<Entered>, AllocError>
    requires trail { IsTrail steps.now trail.old }
    requires node { HasNode steps.now trail.old node }
    ensures trail { OnOk result (IsTrail steps.now trail.new) }
    ensures kept { KeepsTrailCounts trail.old trail.new }
    ensures some { IfOk result (λ r. IfSome r (λ e. IsAt steps.now trail.new e)) }
    ensures none { IfOk result (λ r. IfNone r (NothingLeft steps.now trail.new)) }
    ensures fewer { IfOk result (λ r. IfNone r (trail.new.nodes.items ≡ trail.old.nodes.items)) }
    ensures count { OnOk result (kept_by trail.new ≡ suc (kept_by trail.old)) }
{
    while let Some(entered) = try_next(steps, &mut node, &mut trail.order)? {
        if !is_dead(steps, &trail.failed, &entered) {
            trail.nodes.push(node)?;
            return Ok(Some(entered));
        }
    }
    let Node { config, .. } = node;
    trail.failed.insert(config)?;
    Ok(None)
}

/// Goes back to the last node at which something is left to try, and tries it; returns where the
/// search has come to, or `None` where nothing explains the history.
fn descend(steps: &[Step<'_>], trail: &mut Trail) -> Result<Option<Entered>, AllocError>
    requires trail { IsTrail steps.now trail.old }
    requires left { NothingLeft steps.now trail.old }
    ensures trail { OnOk result (IsTrail steps.now trail.new) }
    ensures kept { KeepsTrailCounts trail.old trail.new }
    ensures some { IfOk result (λ r. IfSome r (λ e. IsAt steps.now trail.new e)) }
    ensures none { IfOk result (λ r. IfNone r
        (NothingExplains trail.old.processes trail.old.words steps.now)) }
    ensures count { IfOk result (λ r. IfSome r (λ _. kept_by trail.new ≡ kept_by trail.old)) }
{
    while let Some(node) = trail.nodes.pop() {
        if let Some(entered) = retry(steps, trail, node)? {
            return Ok(Some(entered));
        }
    }
    Ok(None)
}

/// Makes a node of what the search has come to.
fn enter_node(steps: &[Step<'_>], trail: &mut Trail, entered: Entered) -> Result<(), AllocError>
    requires trail { IsTrail steps.now trail.old }
    requires at { IsAt steps.now trail.old entered }
    requires stuck { entered.at_end ≡ false }
    ensures trail { OnOk result (IsTrail steps.now trail.new) }
    ensures kept { KeepsTrailCounts trail.old trail.new }
    ensures left { OnOk result (NothingLeft steps.now trail.new) }
    ensures count { OnOk result (kept_by trail.new ≡ suc (kept_by trail.old)) }
{
    let Entered { config, at_end: _ } = entered;
    let Some(ending) = ending_at(steps, config.position) else {
        return Ok(());
    };
    let depth = trail.order.len();
    trail.nodes.push(Node {
        config,
        depth,
        begun: false,
        next: 0,
        ending,
    })?;
    Ok(())
}

/// Goes on from `entered`, and returns where the search comes to next, or `None` where nothing
/// explains the history.
fn go_on(
    steps: &[Step<'_>],
    trail: &mut Trail,
    entered: Entered,
) -> Result<Option<Entered>, AllocError>
    requires trail { IsTrail steps.now trail.old }
    requires at { IsAt steps.now trail.old entered }
    requires stuck { entered.at_end ≡ false }
    ensures trail { OnOk result (IsTrail steps.now trail.new) }
    ensures kept { KeepsTrailCounts trail.old trail.new }
    ensures some { IfOk result (λ r. IfSome r (λ e. IsAt steps.now trail.new e)) }
    ensures none { IfOk result (λ r. IfNone r
        (NothingExplains trail.old.processes trail.old.words steps.now)) }
    ensures count { IfOk result (λ r. IfSome r
        (λ _. kept_by trail.new ≡ suc (kept_by trail.old))) }
{
    enter_node(steps, trail, entered)?;
    descend(steps, trail)
}

/// Returns the most steps that have passed at one of the configurations.
fn furthest(failed: &HashSet<Config>) -> usize {
    let mut furthest = 0;
    for config in failed {
        furthest = furthest.max(config.position);
    }
    furthest
}

/// Searches for an order in which all operations take place. The search keeps at most `most`
/// configurations, no two of them the same: those at which it has a choice left, and those from
/// which nothing explains the rest; it returns that it has not decided if there are more.
///
/// # Errors
///
/// `AllocError` where memory runs out.
pub fn search(
    alloc: Global,
    steps: &[Step<'_>],
    processes: usize,
    words: usize,
    most: usize,
) -> Result<Found, AllocError>
    requires steps { AreSteps processes words steps.now }
    requires numbered { AreNumbered steps.now }
    ensures { IfOk result (IsFound most processes words steps.now) }
{
    let mut trail = Trail {
        processes,
        words,
        nodes: Vec::new(alloc),
        failed: HashSet::new(alloc),
        order: Vec::new(alloc),
    };
    let Some(mut entered) = start(alloc, steps, &mut trail)? else {
        return Ok(Found::Unexplained(0));
    };
    for _ in 0..most {
        if entered.at_end {
            let Trail { order, .. } = trail;
            return Ok(Found::Explained(order));
        }
        let Some(next) = go_on(steps, &mut trail, entered)? else {
            return Ok(Found::Unexplained(furthest(&trail.failed)));
        };
        entered = next;
    }
    if entered.at_end {
        let Trail { order, .. } = trail;
        return Ok(Found::Explained(order));
    }
    Ok(Found::Undecided)
}
