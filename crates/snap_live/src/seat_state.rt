//! `SeatState`: what a seat knows of its desk. No value of these ghost types is made; they stand in
//! the rule of the desk alone.
use snap_asm_program::Program;
use snap_semantics::{Item, Outcome};
use snap_words::Shape;
use std::collections::LinkedList;

/// What a desk runs: a listing, and how many processes and words there are.
pub struct Setting {
    pub source: Program,
    pub shape: Shape,
}

/// How far a seat is with its turn: between turns, with a ticket that is not yet served, or served,
/// with the history.
pub enum Stage {
    Idle,
    Waits(u64),
    Served(u64, LinkedList<Item>),
}

/// A turn that was made: the item's place in the history, the item and its outcome.
pub struct OwnTurn {
    pub number: u64,
    pub item: Item,
    pub outcome: Outcome,
}

/// A process and its turns in order.
pub struct Own {
    pub process: u64,
    pub turns: LinkedList<OwnTurn>,
}

/// What a seat knows.
pub struct SeatState {
    /// False for a seat that was joined into another.
    pub alive: bool,
    pub base: Setting,
    /// A beginning of the history.
    pub seen: LinkedList<Item>,
    /// What the two seats had seen that were joined into this one.
    pub olds: LinkedList<LinkedList<Item>>,
    /// The processes of a seat with their turns, none before the seat is named.
    pub owns: LinkedList<Own>,
    /// How many tickets the seat has drawn.
    pub draws: u64,
    pub stage: Stage,
    /// Whether this seat may name a process; at most one seat of a desk may.
    pub may_name: bool,
    /// How many processes are named, as the seat knows that may name one.
    pub named: u64,
}
