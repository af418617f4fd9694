//! `Gone`: a process or a word that the shape of a failing schedule may do without, and shapes and
//! items without it.
ghost use Rattle.std.specs.Prelude.{◌≤◌};

use snap_semantics::{Item, Op};
use snap_words::Shape;
use std::alloc::{AllocError, Global};

/// A process or a word that is left out. What is done by it, or to it, is left out too, or falls to
/// another one, its heir.
#[derive(Clone, Copy)]
pub(crate) struct Place {
    pub(crate) number: u64,
    pub(crate) heir: Option<u64>,
}

/// A process that is left out, a word, or a process with the word that it owns.
#[derive(Clone, Copy)]
pub(crate) struct Gone {
    pub(crate) process: Option<Place>,
    pub(crate) word: Option<Place>,
}

/// Appends a place of `count` that is left out, with each heir.
fn push_heirs(places: &mut Vec<Place>, number: u64, count: u64) -> Result<(), AllocError> {
    places.push(Place { number, heir: None })?;
    for k in 0..count {
        if k + 1 != number {
            places.push(Place {
                number,
                heir: Some(k + 1),
            })?;
        }
    }
    Ok(())
}

/// Returns each of `count` places that may be left out, with each heir.
fn places(alloc: Global, count: u64) -> Result<Vec<Place>, AllocError> {
    let mut places = Vec::new(alloc);
    for k in 0..count {
        push_heirs(&mut places, k + 1, count)?;
    }
    Ok(places)
}

/// Appends the words that may be left out by themselves.
fn push_words(all: &mut Vec<Gone>, words: &[Place]) -> Result<(), AllocError> {
    for word in words {
        all.push(Gone {
            process: None,
            word: Some(*word),
        })?;
    }
    Ok(())
}

/// Returns what may be left out of a shape: a process, with its word if it owns one, or else also a
/// word.
pub(crate) fn all_gone(alloc: Global, shape: Shape, owns: bool) -> Result<Vec<Gone>, AllocError> {
    let mut all = Vec::new(alloc);
    for place in places(alloc, shape.n())?.as_slice() {
        all.push(Gone {
            process: Some(*place),
            word: if owns { Some(*place) } else { None },
        })?;
    }
    if !owns {
        push_words(&mut all, places(alloc, shape.w())?.as_slice())?;
    }
    Ok(all)
}

/// Returns a count, without the place that is gone.
fn count_left(count: u64, gone: Option<Place>) -> u64 {
    count.saturating_sub(u64::from(gone.is_some()))
}

/// Returns a shape without what is gone.
pub(crate) fn shape_left(shape: Shape, gone: Gone) -> Option<Shape> {
    let n = count_left(shape.n(), gone.process);
    let w = count_left(shape.w(), gone.word);
    Shape::new(n, w).ok()
}

/// Returns the number of another place once one is gone.
fn closed_up(number: u64, gone: Place) -> u64
    ensures { result ≤ number }
{
    if gone.number < number {
        number - 1
    } else {
        number
    }
}

/// Returns the number of a place once one is gone; for that one, the number of its heir.
fn number_left(number: u64, gone: Option<Place>) -> Option<u64> {
    match gone {
        Some(gone) if gone.number == number => Some(closed_up(gone.heir?, gone)),
        Some(gone) => Some(closed_up(number, gone)),
        None => Some(number),
    }
}

/// Returns the number of a process.
fn process_left(process: u32, gone: Gone) -> Option<u32> {
    u32::try_from(number_left(u64::from(process), gone.process)?).ok()
}

/// Returns an operation without what is gone; `None` for an update of a word with no heir.
fn op_left(op: Op, gone: Gone) -> Option<Op> {
    match op {
        Op::Scan => Some(Op::Scan),
        Op::Update { word, value } => Some(Op::Update {
            word: number_left(word, gone.word)?,
            value,
        }),
    }
}

/// Returns an item without what is gone; `None` for one of a process or a word with no heir.
pub(crate) fn item_left(item: Item, gone: Gone) -> Option<Item> {
    match item {
        Item::Step(process) => Some(Item::Step(process_left(process, gone)?)),
        Item::Call(process, op) => {
            let process = process_left(process, gone)?;
            Some(Item::Call(process, op_left(op, gone)?))
        }
        Item::Crash(process) => Some(Item::Crash(process_left(process, gone)?)),
    }
}
