//! Answers that would have been right where a history fails.
ghost use Rattle.std.specs.Prelude.{◌≡◌, ◌-◌, ◌<◌, false, true, ℕ, List, length, IfOk, IfSome, OnOk};
ghost use Rattle.std.specs.List.{All};
ghost use Rattle.snap_words.specs.Shape.{IsOneOf};
ghost use Rattle.snap_semantics.specs.declared.event.Happening.TheVariants as what;
ghost use Rattle.snap_judge.specs.History.{IsHistory};
ghost use Rattle.snap_judge.specs.Linearizable.{IsLinearizableHistory, last_of};
ghost use Rattle.snap_judge_reasons.specs.RightAnswers.{AreRightAnswers, AreRightNext, IsRightNext};
ghost use Rattle.snap_judge_reasons.specs.RightAnswers.{followed_by, most_answers};

use crate::candidates::{Bounds, propose};
use crate::copies::first_events;
use snap_judge::{Failing, History, judge_without_order};
use snap_semantics::{Event, Happening};
use snap_words::View;
use std::alloc::{AllocError, Global};

/// How many answers are told of at most.
const MOST_ANSWERS: usize = 8;

/// The most views that are tried, and the most events of histories that are judged for them.
const MOST_VIEWS: usize = 64;

const MOST_EVENTS: usize = 400_000;

/// How many turns of a search an event may take.
const TURNS_PER_EVENT: usize = 8;

/// Returns how many views are tried behind `count` events, and in how many turns each.
fn bounds(count: usize, most: usize) -> Bounds {
    Bounds {
        views: (MOST_EVENTS / count.saturating_add(1)).min(MOST_VIEWS),
        turns: count
            .saturating_mul(TURNS_PER_EVENT)
            .saturating_add(1_000)
            .min(most),
    }
}

/// Returns whether the history with this answer behind it, of this process and at this event
/// number, is judged to be linearizable.
fn is_right(
    alloc: Global,
    front: &mut History,
    event: &Event,
    view: View,
    most: usize,
) -> Result<bool, AllocError>
    requires { IsHistory (followed_by front.old event.now.process event.now.item view) }
    ensures kept { OnOk result (front.new ≡ front.old) }
    ensures right { IfOk result (λ r. r ≡ true → IsLinearizableHistory
        (followed_by front.old event.now.process event.now.item view)) }
{
    front.events.push(Event {
        item: event.item,
        process: event.process,
        what: Happening::Answer(view),
    })?;
    let failing = judge_without_order(alloc, front, most)?;
    front.events.pop();
    match failing {
        Failing::Nowhere => Ok(true),
        Failing::At(_) => Ok(false),
        Failing::Undecided(_) => Ok(false),
    }
}

/// Returns whether `view` has `values`.
fn is_view(view: &View, values: &[u64]) -> bool
    ensures { result ≡ false → view.now ≡ values.now → ⊥ }
{
    view.as_slice() == values
}

/// Returns whether one of `views` has `values`.
fn is_among(views: &[View], values: &[u64]) -> bool
    ensures { result ≡ false → All (λ view. view ≡ values.now → ⊥) views.now }
{
    for view in views {
        if is_view(view, values) {
            return true;
        }
    }
    false
}

/// Returns the view of `values`, if it is as long as others and would be right as the next answer,
/// in the event that is given with another answer.
fn right_view(
    alloc: Global,
    front: &mut History,
    event: &Event,
    values: &[u64],
    most: usize,
) -> Result<Option<View>, AllocError>
    requires { (view : List ℕ) → length view ≡ front.old.shape.w
        → IsHistory (followed_by front.old event.now.process event.now.item view) }
    ensures kept { OnOk result (front.new ≡ front.old) }
    ensures some { IfOk result (λ r. IfSome r (λ view. (view ≡ values.now)
        × IsRightNext front.old event.now.process event.now.item view)) }
{
    if values.len() as u64 != front.shape.w() {
        return Ok(None);
    }
    let tried = View::of(Vec::from_slice(alloc, values)?);
    if is_right(alloc, front, event, tried, most)? {
        Ok(Some(View::of(Vec::from_slice(alloc, values)?)))
    } else {
        Ok(None)
    }
}

/// Adds the view of `values`, if it would be right as the next answer and is not among `views`.
fn add_right(
    alloc: Global,
    front: &mut History,
    event: &Event,
    views: &mut Vec<View>,
    values: &[u64],
    most: usize,
) -> Result<(), AllocError>
    requires history { (view : List ℕ) → length view ≡ front.old.shape.w
        → IsHistory (followed_by front.old event.now.process event.now.item view) }
    requires right { AreRightNext front.old event.now.process event.now.item views.old.items }
    requires few { length views.old.items < most_answers }
    ensures kept { OnOk result (front.new ≡ front.old) }
    ensures right { OnOk result
        (AreRightNext front.old event.now.process event.now.item views.new.items) }
{
    if is_among(views, values) {
        return Ok(());
    }
    if let Some(view) = right_view(alloc, front, event, values, most)? {
        views.push(view)?;
    }
    Ok(())
}

/// Returns those of the views that would be right as the next answer, in the event that is given
/// with another answer.
fn right_ones(
    alloc: Global,
    front: &mut History,
    event: &Event,
    tried: &[Vec<u64>],
    most: usize,
) -> Result<Vec<View>, AllocError>
    requires { (view : List ℕ) → length view ≡ front.old.shape.w
        → IsHistory (followed_by front.old event.now.process event.now.item view) }
    ensures { IfOk result (λ views.
        AreRightNext front.old event.now.process event.now.item views.items) }
{
    let mut views = Vec::new(alloc);
    for values in tried {
        if MOST_ANSWERS <= views.len() {
            return Ok(views);
        }
        add_right(alloc, front, event, &mut views, values.as_slice(), most)?;
    }
    Ok(views)
}

/// Returns event number `count` of the history.
fn last_event(history: &History, count: usize) -> &Event
    requires { IsOneOf (length history.now.events) count }
    ensures { result.now ≡ last_of count history.now }
{
    &history.events[count - 1]
}

/// Returns answers that would have been right in place of `view`, which event number `count` of the
/// history answers.
fn answers(
    alloc: Global,
    history: &History,
    count: usize,
    view: &View,
    most: usize,
) -> Result<Vec<View>, AllocError>
    requires history { IsHistory history.now }
    requires count { IsOneOf (length history.now.events) count }
    requires answer { (last_of count history.now).what ≡ what.Answer view.now }
    ensures { IfOk result (λ views. AreRightAnswers history.now count views.items) }
{
    let event = last_event(history, count);
    let mut front = first_events(alloc, history, count - 1)?;
    let bounds = bounds(count, most);
    let tried = propose(alloc, &front, event.process, view.as_slice(), bounds)?;
    right_ones(alloc, &mut front, event, &tried.views, bounds.turns)
}

/// Returns answers that would have been right at event number `count` of `history`, counted from 1:
/// at most eight, no two of them the same, and none where that event is no answer. Each of them is
/// judged in at most `most` turns of a search.
///
/// Further answers may have been right. The more events stand before event `count`, the fewer
/// answers are tried.
///
/// # Errors
///
/// `AllocError` where memory runs out.
pub fn right_answers(
    alloc: Global,
    history: &History,
    count: usize,
    most: usize,
) -> Result<Vec<View>, AllocError>
    requires { IsHistory history.now }
    ensures { IfOk result (λ views. AreRightAnswers history.now count views.items) }
{
    if count == 0 || history.events.len() < count {
        return Ok(Vec::new(alloc));
    }
    match &history.events[count - 1].what {
        Happening::Answer(view) => answers(alloc, history, count, view, most),
        Happening::Call(_) => Ok(Vec::new(alloc)),
        Happening::Done => Ok(Vec::new(alloc)),
        Happening::Crash => Ok(Vec::new(alloc)),
    }
}
