//! A search for a shortest circle of reasons, breadth first, in time and memory proportional to the
//! history: of the operations called after an end, and of the updates of a word that a scan did not
//! see, those that have been reached are the last ones, and none of them is looked at again.
//!
//! Nothing is proved of what the search finds: `is_circle` tests it.
use crate::graph::{Graph, Origin};
use crate::reason::{Grounds, Reason};
use snap_judge::Action;
use std::alloc::{AllocError, Global};

/// From which operation another one was reached, and on which grounds.
#[derive(Clone, Copy)]
struct Parent {
    place: usize,
    grounds: Grounds,
}

/// How each operation was reached; the operations in the order in which they were reached; and
/// how many operations at the front have not all been reached by an end, nor how many updates at
/// the front of each word by a scan that did not see them.
#[derive(Drop)]
struct Search {
    parents: Vec<Option<Parent>>,
    queue: Vec<usize>,
    uncalled: usize,
    unmissed: Vec<usize>,
}

/// Notes that an operation is reached, unless it was reached before.
fn reach(search: &mut Search, place: usize, parent: Parent) -> Result<(), AllocError> {
    if let Some(reached) = search.parents.get_mut(place) {
        if reached.is_none() {
            *reached = Some(parent);
            search.queue.push(place)?;
        }
    }
    Ok(())
}

/// Reaches each operation that was called after the end of the one at `place`.
fn reach_later(
    graph: &Graph<'_>,
    search: &mut Search,
    place: usize,
    end: u64,
) -> Result<(), AllocError> {
    for later in (0..search.uncalled).rev() {
        let Some(operation) = graph.operations.get(later) else {
            return Ok(());
        };
        if operation.call <= end {
            return Ok(());
        }
        search.uncalled = later;
        let grounds = Grounds::Ended;
        reach(search, later, Parent { place, grounds })?;
    }
    Ok(())
}

/// Reaches each scan that saw the update at `place`.
fn reach_seeing(graph: &Graph<'_>, search: &mut Search, place: usize) -> Result<(), AllocError> {
    if let Some(scans) = graph.seen_by.get(place) {
        for scan in scans {
            let grounds = Grounds::Saw;
            reach(search, *scan, Parent { place, grounds })?;
        }
    }
    Ok(())
}

/// Returns the event number after which the updates of a word are called that a scan which shows
/// this value in it did not see, if that is known.
fn missed_after(graph: &Graph<'_>, word: usize, value: u64) -> Option<u64> {
    match graph.origin(word, value) {
        Origin::Beginning => Some(0),
        Origin::Update(place) => match graph.operations.get(place) {
            Some(operation) => operation.end,
            None => None,
        },
        Origin::Nowhere => None,
        Origin::Unclear => None,
    }
}

/// Reaches each update of the word at a place that was called after an event, as one that the scan
/// did not see.
fn reach_missed(
    graph: &Graph<'_>,
    search: &mut Search,
    place: usize,
    word: usize,
    after: u64,
) -> Result<(), AllocError> {
    let (Some(updates), Some(unmissed)) = (graph.updates.get(word), search.unmissed.get(word))
    else {
        return Ok(());
    };
    for turn in (0..*unmissed).rev() {
        let Some(update) = updates.get(turn) else {
            return Ok(());
        };
        let is_later = match graph.operations.get(*update) {
            Some(operation) => after < operation.call,
            None => false,
        };
        if !is_later {
            return Ok(());
        }
        if let Some(count) = search.unmissed.get_mut(word) {
            *count = turn;
        }
        let grounds = Grounds::Missed;
        reach(search, *update, Parent { place, grounds })?;
    }
    Ok(())
}

/// Reaches each update that the scan at `place` did not see.
fn reach_unseen(
    graph: &Graph<'_>,
    search: &mut Search,
    place: usize,
    view: &[u64],
) -> Result<(), AllocError> {
    for word in 0..view.len() {
        if let Some(after) = missed_after(graph, word, view[word]) {
            reach_missed(graph, search, place, word, after)?;
        }
    }
    Ok(())
}

/// Reaches each operation that took place after the one at `place`.
fn go_on(graph: &Graph<'_>, search: &mut Search, place: usize) -> Result<(), AllocError> {
    let Some(operation) = graph.operations.get(place) else {
        return Ok(());
    };
    if let Some(end) = operation.end {
        reach_later(graph, search, place, end)?;
    }
    match &operation.action {
        Action::Sets { .. } => reach_seeing(graph, search, place),
        Action::Sees(view) => reach_unseen(graph, search, place, view),
    }
}

/// Returns whether the operation at this place has been reached.
fn is_reached(search: &Search, place: usize) -> bool {
    match search.parents.get(place) {
        Some(parent) => parent.is_some(),
        None => false,
    }
}

/// Returns a search that starts at this operation, and has reached none.
fn search_from(alloc: Global, graph: &Graph<'_>, start: usize) -> Result<Search, AllocError> {
    let mut unmissed = Vec::new(alloc);
    for updates in &graph.updates {
        unmissed.push(updates.len())?;
    }
    let mut queue = Vec::new(alloc);
    queue.push(start)?;
    Ok(Search {
        parents: vec![in alloc; None; graph.operations.len()]?,
        queue,
        uncalled: graph.operations.len(),
        unmissed,
    })
}

/// Reaches operations from the one at `start` on, until it is itself reached.
fn reach_back(alloc: Global, graph: &Graph<'_>, start: usize) -> Result<Search, AllocError> {
    let mut search = search_from(alloc, graph, start)?;
    for turn in 0..graph.operations.len() {
        let Some(place) = search.queue.get(turn) else {
            break;
        };
        let place = *place;
        go_on(graph, &mut search, place)?;
        if is_reached(&search, start) {
            break;
        }
    }
    Ok(search)
}

/// Returns the reasons that lead from the operation at `start` back to it.
fn circle<'a>(
    alloc: Global,
    graph: &Graph<'a>,
    search: &Search,
    start: usize,
) -> Result<Vec<Reason<'a>>, AllocError> {
    let mut reasons = Vec::new(alloc);
    let mut place = start;
    for _ in 0..graph.operations.len() {
        let Some(Some(parent)) = search.parents.get(place) else {
            break;
        };
        let (Some(first), Some(second)) = (
            graph.operations.get(parent.place),
            graph.operations.get(place),
        ) else {
            break;
        };
        reasons.push(Reason {
            grounds: parent.grounds,
            first: *first,
            second: *second,
        })?;
        place = parent.place;
        if place == start {
            break;
        }
    }
    reasons.reverse();
    Ok(reasons)
}

/// Returns the first word, counted from 1, in which the view shows a value that no update sets, and
/// that value.
fn unset(graph: &Graph<'_>, view: &[u64]) -> Option<Grounds> {
    for word in 0..view.len() {
        if let Origin::Nowhere = graph.origin(word, view[word]) {
            return Some(Grounds::Unset {
                word: word as u64 + 1,
                value: view[word],
            });
        }
    }
    None
}

/// Returns a shortest circle of reasons through the operation at `start`; no reasons if there is
/// none.
///
/// # Errors
///
/// `AllocError` where memory runs out.
pub fn shortest_circle<'a>(
    alloc: Global,
    graph: &Graph<'a>,
    start: usize,
) -> Result<Vec<Reason<'a>>, AllocError> {
    let Some(operation) = graph.operations.get(start) else {
        return Ok(Vec::new(alloc));
    };
    if let Action::Sees(view) = &operation.action {
        if let Some(grounds) = unset(graph, view) {
            let mut reasons = Vec::new(alloc);
            reasons.push(Reason {
                grounds,
                first: *operation,
                second: *operation,
            })?;
            return Ok(reasons);
        }
    }
    let search = reach_back(alloc, graph, start)?;
    circle(alloc, graph, &search, start)
}
