//! `Desk`: one record in a table that threads share; `open` gives a new desk and a seat for each
//! process.
ghost use Rattle.std.specs.Prelude.{◌≡◌, ◌+◌, ◌≤◌, [], IfOk};
ghost use Rattle.snap_live.specs.Seats.{IsSeatOf, IsSame};
ghost use Rattle.snap_live.specs.SeatStates.{opener};
ghost use Rattle.snap_live.specs.Shown.{seat_of, seats_of};

use crate::desk_rule::{DeskRule, InitialRecord};
use crate::held_record::HeldRecord;
use crate::seat::Seat;
use crate::seat_state::SeatState;
use crate::steps::{SharedTable, TableSeat, name, split};
use atomic_table::{Refused, Table};
use snap_asm_program::Program;
use snap_record::Record;
use snap_words::{Kind, Shape};
use std::alloc::{AllocError, Global};
use std::marker::Model;
use std::snapshot::Snapshot;

/// A desk, which threads share: the record lies in the one slot of a table, and seats take it out
/// in the order of their tickets.
#[derive(Drop)]
pub struct Desk<K: Kind> {
    pub(crate) table: Table<Option<HeldRecord<K>>, SeatState, InitialRecord<K>, DeskRule, Global>,
    pub(crate) count: u32,
}

impl<K: Kind> Model for Desk<K> {
    ghost use Rattle.std.specs.Prelude.{◌≡◌, ◌<◌};
    ghost use Rattle.snap_live.specs.Shown.{DeskView};
    ghost use Rattle.snap_live.specs.Turns.{setting_of};

    ghost Value = { DeskView };

    ghost view = { λ d. record {
      id = d.table.shared.table_id;
      base = setting_of d.table.shared.key.value;
    } };

    ghost invariant = { λ d. (d.table.shared.table_id.words ≡ 4) ×
        (d.table.shared.table_id.slots ≡ 1) × (d.count ≡ d.table.shared.key.value.shape.n) ×
        (0 < d.count) };
}

/// Returns a desk before the first item of a program over a shape, with a seat for each process.
///
/// # Errors
///
/// `AllocError` where memory runs out.
pub fn open<K: Kind>(
    alloc: Global,
    program: &Program,
    shape: Shape,
) -> Result<(Desk<K>, Vec<Seat<K>>), AllocError>
    requires { program.now.kind ≡ K.TAG }
    ensures desk { IfOk result (λ r. r.0.base ≡ record { source = program.now; shape = shape }) }
    ensures seats { IfOk result (λ r. r.1.items ≡ seats_of r.0 shape.n) }
{
    let mut slots = Vec::with_capacity(alloc, 1)?;
    let first = Record::new(alloc, program, shape)?;
    let about = Snapshot::of(&first);
    let held = HeldRecord::new(alloc, first)?;
    slots.push_reserved(Some(held));
    let count = shape.n() as u32;
    let mut seats = Vec::with_capacity(alloc, count as usize)?;
    let (table, mut opener) = match Table::new(alloc, &[0, 0, 0, 0], slots, &about) {
        Ok(made) => made,
        Err(Refused { slots: _ }) => return Err(AllocError),
    };
    for i in 0..count {
        let (seat, next) = seat_next(&table.shared, opener, i + 1);
        seats.push_reserved(seat);
        opener = next;
    }
    Ok((Desk { table, count }, seats))
}

/// Returns the seat of the next process, and the seat that may name the process behind it.
fn seat_next<K: Kind>(
    shared: &SharedTable<K>,
    mut table_seat: TableSeat<K>,
    process: u32,
) -> (Seat<K>, TableSeat<K>)
    requires shared { IsSeatOf shared.now.table_id table_seat.table_id }
    requires opener { (table_seat.me ≡ (opener table_seat.me.0.base table_seat.me.0.named, [])) ×
        (process ≡ table_seat.me.0.named + 1) × (process ≤ table_seat.me.0.base.shape.n) }
    ensures seat { result.0
        ≡ seat_of (record { id = table_seat.table_id; base = table_seat.me.0.base }) process }
    ensures next { IsSame table_seat.table_id result.1.table_id ×
        (result.1.me ≡ (opener table_seat.me.0.base process, [])) }
{
    name(shared, &mut table_seat);
    let next = split(shared, &mut table_seat);
    let seat = Seat {
        table_seat,
        process,
        asked: 0,
        seen: 0,
    };
    (seat, next)
}
