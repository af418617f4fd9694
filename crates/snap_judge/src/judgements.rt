//! Whether a history is linearizable, and if not, at which event it fails.
ghost use Rattle.snap_judge.specs.History.{IsHistory};
ghost use Rattle.snap_judge.specs.Linearizable.{IsLinearizableHistory};
ghost use Rattle.snap_judge.specs.Judgement.{IsDecision, IsFailing, IsJudgement, failing_of};
ghost use Rattle.std.specs.Prelude.{◌≡◌, ◌<◌, suc, IfOk};

use crate::config::Found;
use crate::decisions::{decide, operations, search_events};
use crate::history::History;
use crate::linearizability::Linearizability;
use crate::operation::Operation;
use std::alloc::{AllocError, Global};

/// What is said of a history.
#[derive(Drop)]
pub enum Judgement<'a> {
    /// The history is linearizable: its operations could have taken place one after another in this
    /// order.
    Linearizable(Vec<Operation<'a>>),
    /// The history is not linearizable up to this event, counted from 1; up to the event before it
    /// is.
    NotLinearizable(usize),
    /// The search has not decided whether the history is linearizable up to this event, counted
    /// from 1.
    Undecided(usize),
}

/// Where a history fails.
#[derive(Clone, Copy, Debug, PartialEq, Eq)]
pub enum Failing {
    /// The history is linearizable.
    Nowhere,
    /// The history is not linearizable up to this event, counted from 1; up to the event before it
    /// is.
    At(usize),
    /// The search has not decided whether the history is linearizable up to this event, counted
    /// from 1: more configurations can be met on the way there than it may keep.
    Undecided(usize),
}

/// Returns how many events are tried next, where up to `holds` of them a history is linearizable
/// and up to `fails` it is not: as many as a search passed, then one more, and else the middle.
fn next_count(holds: usize, fails: usize, passed: usize) -> usize
    requires { suc holds < fails }
    ensures more { holds < result }
    ensures fewer { result < fails }
{
    if holds < passed && passed < fails {
        return passed;
    }
    if holds == passed {
        return holds + 1;
    }
    holds + (fails - holds) / 2
}

/// Finds the event at which a history that is not linearizable fails. A search of the whole history
/// failed, and `passed` events on the way. No search is led by later events, so mostly these are
/// the events before the one that fails: that is tried first. Where it is not so, the event is
/// sought in the middle of those between one up to which the history is linearizable and one up to
/// which it is not.
fn failure(
    alloc: Global,
    history: &History,
    passed: usize,
    most: usize,
) -> Result<Judgement<'_>, AllocError>
    requires history { IsHistory history.now }
    requires fails { IsLinearizableHistory history.now → ⊥ }
    ensures { IfOk result (IsJudgement most history.now) }
{
    let mut holds = 0;
    let mut fails = history.events.len();
    while holds + 1 < fails {
        let count = next_count(holds, fails, passed);
        match decide(alloc, history, count, most)? {
            Linearizability::Linearizable => holds = count,
            Linearizability::NotLinearizable => fails = count,
            Linearizability::Undecided => return Ok(Judgement::Undecided(count)),
        }
    }
    Ok(Judgement::NotLinearizable(fails))
}

/// Returns where a history fails by this judgement.
pub fn failing_of(judgement: &Judgement<'_>) -> Failing
    ensures { result ≡ failing_of judgement.now }
{
    match judgement {
        Judgement::Linearizable(_) => Failing::Nowhere,
        Judgement::NotLinearizable(event) => Failing::At(*event),
        Judgement::Undecided(event) => Failing::Undecided(*event),
    }
}

/// Judges whether `history` is linearizable, and if it is not, at which event it fails.
///
/// A search keeps a list of at most `most` configurations, no two of them the same, for the whole
/// history, and again for each beginning of it that is tried. What more configurations would decide
/// is answered as undecided.
///
/// # Errors
///
/// `AllocError` where memory runs out.
pub fn judge(alloc: Global, history: &History, most: usize) -> Result<Judgement<'_>, AllocError>
    requires { IsHistory history.now }
    ensures { IfOk result (IsJudgement most history.now) }
{
    let count = history.events.len();
    if count == 0 {
        return Ok(Judgement::Linearizable(Vec::new(alloc)));
    }
    let (steps, found) = search_events(alloc, history, count, most)?;
    match found {
        Found::Explained(order) => {
            let ordered = operations(alloc, &steps, &order)?;
            Ok(Judgement::Linearizable(ordered))
        }
        Found::Unexplained(passed) => failure(alloc, history, passed, most),
        Found::Undecided => Ok(Judgement::Undecided(count)),
    }
}

/// Returns where `history` fails, by such searches as those of `judge`.
///
/// # Errors
///
/// `AllocError` where memory runs out.
pub fn judge_without_order(
    alloc: Global,
    history: &History,
    most: usize,
) -> Result<Failing, AllocError>
    requires { IsHistory history.now }
    ensures { IfOk result (IsFailing most history.now) }
{
    let judgement = judge(alloc, history, most)?;
    Ok(failing_of(&judgement))
}

/// Decides whether `history` is linearizable, by one search of all of it.
///
/// # Errors
///
/// `AllocError` where memory runs out.
pub fn decision(
    alloc: Global,
    history: &History,
    most: usize,
) -> Result<Linearizability, AllocError>
    requires { IsHistory history.now }
    ensures { IfOk result (IsDecision most history.now) }
{
    decide(alloc, history, history.events.len(), most)
}
