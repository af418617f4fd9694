//! Answers that may have been right, to be tried. Nothing is proved of them.
ghost use Rattle.snap_judge.specs.History.{IsHistory};

use crate::operations::operations_of;
use snap_judge::{Action, History, Judgement, Operation, judge};
use std::alloc::{AllocError, Global};

/// How many views are tried, and in how many turns each of them is judged.
#[derive(Clone, Copy)]
pub struct Bounds {
    pub views: usize,
    pub turns: usize,
}

/// Views, no two of them the same, at most a given number.
#[derive(Drop)]
pub struct Candidates {
    pub views: Vec<Vec<u64>>,
    most: usize,
}

impl Candidates {
    /// Returns no views, with room for at most `most`.
    fn new(alloc: Global, most: usize) -> Candidates {
        Candidates {
            views: Vec::new(alloc),
            most,
        }
    }

    /// Returns whether there is no more room.
    fn is_full(&self) -> bool {
        self.views.len() >= self.most
    }

    /// Adds a copy of `values`, unless they are there or there is no room.
    fn add(&mut self, alloc: Global, values: &[u64]) -> Result<(), AllocError> {
        if self.is_full() || self.views.iter().any(|view| view.as_slice() == values) {
            return Ok(());
        }
        self.views.push(Vec::from_slice(alloc, values)?)?;
        Ok(())
    }
}

/// Returns whether an operation ended before event number `call`.
fn ended_before(operation: &Operation<'_>, call: u64) -> bool {
    match operation.end {
        Some(end) => end < call,
        None => false,
    }
}

/// Returns how many of the operations, which took place in this order, come before a scan that was
/// called at event number `call`: all up to the last one that ended before.
fn needed(order: &[Operation<'_>], call: u64) -> usize {
    let mut needed = 0;
    for place in 0..order.len() {
        if ended_before(&order[place], call) {
            needed = place + 1;
        }
    }
    needed
}

/// Sets a word, counted from 1, if there is one.
fn set(values: &mut Vec<u64>, word: u64, value: u64) {
    if let Some(place) = values.get_mut(word.wrapping_sub(1) as usize) {
        *place = value;
    }
}

/// Lets an operation take place.
fn take(values: &mut Vec<u64>, operation: &Operation<'_>) {
    if let Action::Sets { word, value } = &operation.action {
        set(values, *word, *value);
    }
}

/// Adds the values that stood in the words from the call of the scan on, while the operations took
/// place in this order, and returns the last ones.
fn add_held(
    alloc: Global,
    candidates: &mut Candidates,
    words: usize,
    order: &[Operation<'_>],
    call: u64,
) -> Result<Vec<u64>, AllocError> {
    let needed = needed(order, call);
    let mut values = vec![in alloc; 0; words]?;
    if needed == 0 {
        candidates.add(alloc, &values)?;
    }
    for place in 0..order.len() {
        take(&mut values, &order[place]);
        if needed <= place + 1 {
            candidates.add(alloc, &values)?;
        }
    }
    Ok(values)
}

/// Adds each of the views with the word set to the value.
fn set_in_each(
    alloc: Global,
    candidates: &mut Candidates,
    ends: &mut Vec<Vec<u64>>,
    word: u64,
    value: u64,
) -> Result<(), AllocError> {
    for place in 0..ends.len() {
        if candidates.is_full() {
            return Ok(());
        }
        let Some(end) = ends.get(place) else {
            return Ok(());
        };
        let mut values = end.clone()?;
        set(&mut values, word, value);
        candidates.add(alloc, &values)?;
        ends.push(values)?;
    }
    Ok(())
}

/// Returns whether an operation that is called at event `call` is one of `order`.
fn is_among(order: &[Operation<'_>], call: u64) -> bool {
    order.iter().any(|operation| operation.call == call)
}

/// Adds the last values with updates that have not ended and did not take place: each taken or not.
fn add_open(
    alloc: Global,
    candidates: &mut Candidates,
    all: &[Operation<'_>],
    order: &[Operation<'_>],
    last: Vec<u64>,
) -> Result<(), AllocError> {
    let mut ends = Vec::new(alloc);
    ends.push(last)?;
    for operation in all {
        if operation.end.is_none() && !is_among(order, operation.call) {
            if let Action::Sets { word, value } = &operation.action {
                set_in_each(alloc, candidates, &mut ends, *word, *value)?;
            }
        }
    }
    Ok(())
}

/// Adds the view that was answered with 0 in one of its words.
fn add_zeroed(alloc: Global, candidates: &mut Candidates, view: &[u64]) -> Result<(), AllocError> {
    for place in 0..view.len() {
        let mut values = Vec::from_slice(alloc, view)?;
        set(&mut values, place as u64 + 1, 0);
        candidates.add(alloc, &values)?;
    }
    Ok(())
}

/// Adds the view that was answered with 0, or with the value of one update, in the word of that
/// update.
fn add_exchanged(
    alloc: Global,
    candidates: &mut Candidates,
    all: &[Operation<'_>],
    view: &[u64],
) -> Result<(), AllocError> {
    for operation in all.iter().rev() {
        if candidates.is_full() {
            return Ok(());
        }
        if let Action::Sets { word, value } = &operation.action {
            let mut values = Vec::from_slice(alloc, view)?;
            set(&mut values, *word, *value);
            candidates.add(alloc, &values)?;
        }
    }
    add_zeroed(alloc, candidates, view)
}

/// Returns the event number of the last call of `process`.
fn last_call(all: &[Operation<'_>], process: u32) -> u64 {
    for operation in all.iter().rev() {
        if operation.process == process {
            return operation.call;
        }
    }
    0
}

/// Returns views that the last scan of `process` in this history may have seen, in place of `view`,
/// if it ends next.
///
/// # Errors
///
/// `AllocError` where memory runs out.
pub fn propose(
    alloc: Global,
    front: &History,
    process: u32,
    view: &[u64],
    bounds: Bounds,
) -> Result<Candidates, AllocError>
    requires { IsHistory front.now }
{
    let mut candidates = Candidates::new(alloc, bounds.views);
    let words = front.shape.w() as usize;
    let all = operations_of(alloc, front.shape.n() as usize, &front.events)?;
    let call = last_call(&all, process);
    if let Judgement::Linearizable(order) = judge(alloc, front, bounds.turns)? {
        let last = add_held(alloc, &mut candidates, words, &order, call)?;
        add_open(alloc, &mut candidates, &all, &order, last)?;
    }
    add_exchanged(alloc, &mut candidates, &all, view)?;
    Ok(candidates)
}
