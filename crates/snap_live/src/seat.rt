//! `Seat`: the right to make the turns of one process at a desk; `Note`: what a seat has seen, for
//! another.
ghost use Rattle.std.specs.Prelude.{◌≡◌, ◌+◌, ◌^◌, ◌<◌, [], ◌∷◌, IfOk, IfErr, length};
ghost use mathlib.Core.List.{IsPrefix};
ghost use Rattle.snap_words.specs.Shape.{IsOneOf};
ghost use Rattle.snap_semantics.specs.Table.{who};
ghost use Rattle.snap_semantics.specs.declared.process.Item.TheVariants.{Step, Call, Crash};
ghost use Rattle.snap_live.specs.Seats.{IsSeatOf, IsSame, IsIdle};
ghost use Rattle.snap_live.specs.SeatStates.{own, turns_in, longer};
ghost use Rattle.snap_live.specs.Shown.{IsTurn, StaysWith};
ghost use Rattle.snap_live.specs.Turned.{Turned, RefusedAs};
ghost use Rattle.snap_live.specs.Untaken.{NoTurn};

use crate::desk::Desk;
use crate::refusal::LiveFault;
use crate::steps::{
    SharedTable, TableSeat, catch_up, draw, give, join, publish, serve, split, take, wait,
};
use snap_record::{MAX_ITEMS, RecordFault};
use snap_semantics::{Fault, Item, LiveRefusal, Op, Outcome};
use snap_words::Kind;
use std::marker::Model;
use std::sync::Wait;

/// A turn that was made: the item's place in the history, counted from 1, and its outcome.
#[derive(Drop)]
pub struct Turn {
    pub number: u64,
    pub outcome: Outcome,
}

/// The right to the turns of one process at a desk.
#[derive(Drop)]
pub struct Seat<K: Kind> {
    pub(crate) table_seat: TableSeat<K>,
    pub(crate) process: u32,
    pub(crate) asked: u64,
    pub(crate) seen: u64,
}

impl<K: Kind> Model for Seat<K> {
    ghost use Rattle.std.specs.Prelude.{◌≡◌, [], ◌∷◌, length};
    ghost use Rattle.snap_words.specs.Shape.{IsOneOf};
    ghost use Rattle.snap_live.specs.SeatStates.{own, turns_in};
    ghost use Rattle.snap_live.specs.Seats.{IsIdle};
    ghost use Rattle.snap_live.specs.Shown.{SeatView};

    ghost Value = { SeatView };

    ghost view = { λ s. record {
      desk = record { id = s.table_seat.table_id; base = s.table_seat.me.0.base };
      process = s.process;
      asked = s.asked;
      seen = s.table_seat.me.0.seen;
      own = turns_in s.table_seat.me.0.owns;
    } };

    ghost invariant = { λ s. IsIdle s.table_seat.me ×
        (s.table_seat.me.0.owns ≡ own s.process (turns_in s.table_seat.me.0.owns) ∷ []) ×
        (s.table_seat.me.0.draws ≡ s.asked) × (s.seen ≡ length s.table_seat.me.0.seen) ×
        IsOneOf s.table_seat.me.0.base.shape.n s.process };
}

/// What a seat has seen, for another seat.
#[derive(Drop)]
pub struct Note<K: Kind> {
    table_seat: TableSeat<K>,
    seen: u64,
}

impl<K: Kind> Model for Note<K> {
    ghost use Rattle.std.specs.Prelude.{◌≡◌, [], length};
    ghost use Rattle.snap_live.specs.Seats.{IsIdle};
    ghost use Rattle.snap_live.specs.Shown.{NoteView};

    ghost Value = { NoteView };

    ghost view = { λ n. record {
      desk = record { id = n.table_seat.table_id; base = n.table_seat.me.0.base };
      seen = n.table_seat.me.0.seen;
    } };

    ghost invariant = { λ n. IsIdle n.table_seat.me × (n.table_seat.me.0.owns ≡ []) ×
        (n.table_seat.me.0.draws ≡ 0) × (n.seen ≡ length n.table_seat.me.0.seen) };
}

/// Makes one turn of a seat that has a process: draws a ticket, and once it is served, takes the
/// record, does the item, and puts the record back.
fn one_turn<K: Kind, R: Wait>(
    rt: &R,
    shared: &SharedTable<K>,
    table_seat: &mut TableSeat<K>,
    item: Item,
) -> Result<Turn, RecordFault>
    requires shared { IsSeatOf shared.now.table_id table_seat.old.table_id }
    requires idle { IsIdle table_seat.old.me × (table_seat.old.me.0.draws < 2 ^ 32) ×
        (table_seat.old.me.0.owns ≡ own (who item) (turns_in table_seat.old.me.0.owns) ∷ []) }
    requires one { IsOneOf table_seat.old.me.0.base.shape.n (who item) }
    ensures table_seat { IsSame table_seat.old.table_id table_seat.new.table_id }
    ensures turn { IfOk result (λ t. Turned table_seat.old.me item t.number t.outcome
        table_seat.new.me) }
    ensures refused { IfErr result (λ e. RefusedAs e table_seat.old.me table_seat.new.me) }
{
    let ticket = draw(shared, table_seat);
    wait(rt, shared, table_seat, ticket);
    let mut history = take(shared, table_seat);
    match history.apply(item) {
        Ok(outcome) => {
            let number = history.record().items().len();
            publish(shared, table_seat, ticket, item, &outcome, number);
            give(shared, table_seat, history);
            serve(shared, table_seat, ticket);
            Ok(Turn { number, outcome })
        }
        Err(RecordFault::Full) => {
            let number = history.record().items().len();
            catch_up(shared, table_seat, ticket, number);
            give(shared, table_seat, history);
            serve(shared, table_seat, ticket);
            Err(RecordFault::Full)
        }
        Err(RecordFault::Memory) => {
            // What `items` promises: the run of the record is a valid one.
            let _items = history.record().items();
            give(shared, table_seat, history);
            serve(shared, table_seat, ticket);
            Err(RecordFault::Memory)
        }
    }
}

impl<K: Kind> Seat<K> {
    /// Calls `op` at the process of the seat, and returns the turn.
    ///
    /// # Errors
    ///
    /// `Refused` with `Full` where the record has no room; `Memory` where memory runs out.
    pub fn call<R: Wait>(&mut self, rt: &R, desk: &Desk<K>, op: Op) -> Result<Turn, LiveFault>
        requires desk { self.old.desk ≡ desk.now }
        requires asked { self.old.asked < 2 ^ 32 }
        ensures seat { StaysWith self.old self.new (self.old.asked + 1) }
        ensures turn { IfOk result (λ t. IsTurn self.old self.new (Call self.old.process op)
            t.number t.outcome) }
        ensures refused { IfErr result (λ e. NoTurn e self.old self.new) }
    {
        let process = self.process;
        self.turn(rt, desk, Item::Call(process, op))
    }

    /// Runs the line of the process of the seat, and returns the turn.
    ///
    /// # Errors
    ///
    /// `Refused` with `Full` where the record has no room; `Memory` where memory runs out.
    pub fn step<R: Wait>(&mut self, rt: &R, desk: &Desk<K>) -> Result<Turn, LiveFault>
        requires desk { self.old.desk ≡ desk.now }
        requires asked { self.old.asked < 2 ^ 32 }
        ensures seat { StaysWith self.old self.new (self.old.asked + 1) }
        ensures turn { IfOk result (λ t. IsTurn self.old self.new (Step self.old.process) t.number
            t.outcome) }
        ensures refused { IfErr result (λ e. NoTurn e self.old self.new) }
    {
        let process = self.process;
        self.turn(rt, desk, Item::Step(process))
    }

    /// Crashes the process of the seat, and returns the turn.
    ///
    /// # Errors
    ///
    /// `Refused` with `Full` where the record has no room; `Memory` where memory runs out.
    pub fn crash<R: Wait>(&mut self, rt: &R, desk: &Desk<K>) -> Result<Turn, LiveFault>
        requires desk { self.old.desk ≡ desk.now }
        requires asked { self.old.asked < 2 ^ 32 }
        ensures seat { StaysWith self.old self.new (self.old.asked + 1) }
        ensures turn { IfOk result (λ t. IsTurn self.old self.new (Crash self.old.process) t.number
            t.outcome) }
        ensures refused { IfErr result (λ e. NoTurn e self.old self.new) }
    {
        let process = self.process;
        self.turn(rt, desk, Item::Crash(process))
    }

    /// Makes a turn with an item of the seat's process.
    fn turn<R: Wait>(&mut self, rt: &R, desk: &Desk<K>, item: Item) -> Result<Turn, LiveFault>
        requires mine { who item ≡ self.old.process }
        requires desk { self.old.desk ≡ desk.now }
        requires asked { self.old.asked < 2 ^ 32 }
        ensures seat { StaysWith self.old self.new (self.old.asked + 1) }
        ensures turn { IfOk result (λ t. IsTurn self.old self.new item t.number t.outcome) }
        ensures refused { IfErr result (λ e. NoTurn e self.old self.new) }
    {
        self.asked += 1;
        match one_turn(rt, &desk.table.shared, &mut self.table_seat, item) {
            Ok(turn) => {
                self.seen = turn.number;
                Ok(turn)
            }
            Err(RecordFault::Full) => {
                self.seen = MAX_ITEMS;
                Err(Fault::Refused(LiveRefusal::Full(MAX_ITEMS)))
            }
            Err(RecordFault::Memory) => Err(Fault::Memory),
        }
    }

    /// Returns a note of what the seat has seen.
    pub fn note(&mut self, desk: &Desk<K>) -> Note<K>
        requires { self.old.desk ≡ desk.now }
        ensures seat { self.new ≡ self.old }
        ensures note { result ≡ record { desk = self.old.desk; seen = self.old.seen } }
    {
        let table_seat = split(&desk.table.shared, &mut self.table_seat);
        Note {
            table_seat,
            seen: self.seen,
        }
    }

    /// Takes in what `note` has seen: the seat has then seen the longer of its list and the note's.
    pub fn meet(&mut self, desk: &Desk<K>, note: Note<K>)
        requires { (self.old.desk ≡ desk.now) × (note.desk ≡ desk.now) }
        ensures seat { StaysWith self.old self.new self.old.asked × (self.new.own ≡ self.old.own) }
        ensures seen { self.new.seen ≡ longer self.old.seen note.seen }
        ensures begins { IsPrefix self.old.seen self.new.seen × IsPrefix note.seen self.new.seen }
    {
        let Note { table_seat, seen } = note;
        join(&desk.table.shared, &mut self.table_seat, table_seat);
        if self.seen < seen {
            self.seen = seen;
        }
    }

    /// Returns how many items the seat has seen.
    pub fn seen_len(&self) -> u64
        ensures { result ≡ length self.now.seen }
    {
        self.seen
    }

    /// Returns how many turns the seat has made or tried.
    pub fn asked(&self) -> u64
        ensures { result ≡ self.now.asked }
    {
        self.asked
    }

    /// Returns the process of the seat, counted from 1.
    pub fn process(&self) -> u32
        ensures { result ≡ self.now.process }
    {
        self.process
    }
}
