//! Why no order explains a history.
ghost use Rattle.std.specs.Prelude.{IfOk, IfSome};
ghost use Rattle.snap_judge.specs.Linearizable.{up_to};
ghost use Rattle.snap_judge_reasons.specs.Reasons.{IsCircle};

use crate::beginning::Beginning;
use crate::circles::is_circle;
use crate::graph::Graph;
use crate::graph_search::shortest_circle;
use crate::reason::Reason;
use snap_judge::{History, Operation};
use std::alloc::{AllocError, Global};

/// Returns the place of the operation that ended at this event number.
fn ended_at(operations: &[Operation<'_>], end: u64) -> Option<usize> {
    for place in 0..operations.len() {
        if operations[place].end == Some(end) {
            return Some(place);
        }
    }
    None
}

/// Returns a circle of reasons on which the operation lies that ends at event number `end` of the
/// history.
fn circle_at<'a>(
    alloc: Global,
    history: &Beginning<'a>,
    end: u64,
) -> Result<Option<Vec<Reason<'a>>>, AllocError>
    ensures { IfOk result (λ r. IfSome r (λ reasons. IsCircle history.now reasons.items)) }
{
    let graph = Graph::of(alloc, history)?;
    let Some(start) = ended_at(&graph.operations, end) else {
        return Ok(None);
    };
    let reasons = shortest_circle(alloc, &graph, start)?;
    if is_circle(history, &graph.operations, &reasons) {
        Ok(Some(reasons))
    } else {
        Ok(None)
    }
}

/// Returns why no order explains `history` up to its event number `count`, counted from 1: a
/// shortest circle of reasons through the operation that ends there; `None` where none is found.
///
/// If no value stands twice in a word, none is set to 0, and each word has one process that updates
/// it, then there is such a circle at the event at which a history fails. Neither that nor that the
/// circle is a shortest one is proved; that it is a circle of reasons is proved.
///
/// # Errors
///
/// `AllocError` where memory runs out.
pub fn reasons(
    alloc: Global,
    history: &History,
    count: usize,
) -> Result<Option<Vec<Reason<'_>>>, AllocError>
    ensures { IfOk result (λ r. IfSome r (λ reasons.
        IsCircle (up_to count history.now) reasons.items)) }
{
    if count == 0 || history.events.len() < count {
        return Ok(None);
    }
    let beginning = Beginning::of(history, count);
    circle_at(alloc, &beginning, history.events[count - 1].item)
}
