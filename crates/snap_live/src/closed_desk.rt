//! `close`: the end of a desk, which takes the seats of all processes back, and returns the record
//! of all turns.
ghost use Rattle.std.specs.Prelude.{◌≡◌, ℕ, ◌≤◌, IfOk, IfErr, MatchBool, MatchOption, All};
ghost use mathlib.Core.List.{IsPrefix};
ghost use Rattle.snap_words.specs.Shape.{IsOneOf};
ghost use Rattle.snap_live.specs.Closed.{HasSeat, IsLeastMissing, NamesMissing, IsIn};
ghost use Rattle.snap_live.specs.Rule.{OwnTurns, HasProcess};
ghost use Rattle.snap_live.specs.Seats.{IsSeatOf, IsSame, IsIdle};
ghost use Rattle.snap_live.specs.Shown.{SeatView, Keeps};
ghost use Rattle.snap_live.specs.Turns.{setting_of};

use crate::desk::Desk;
use crate::desk_rule::{DeskRule, InitialRecord};
use crate::held_record::HeldRecord;
use crate::refusal::LiveFault;
use crate::seat::Seat;
use crate::seat_state::SeatState;
use crate::steps::{SharedTable, TableSeat, join};
use atomic_table::Table;
use snap_record::Record;
use snap_semantics::{Fault, LiveRefusal};
use snap_words::Kind;
use std::alloc::Global;

/// Returns the record, at the end. The table's seat has been joined with all others that have a
/// process.
fn finish<K: Kind>(
    table: Table<Option<HeldRecord<K>>, SeatState, InitialRecord<K>, DeskRule, Global>,
    table_seat: TableSeat<K>,
) -> Record<K>
    requires table { IsSeatOf table.shared.table_id table_seat.table_id }
    requires table_seat { IsIdle table_seat.me ×
        ((p : ℕ) → 1 ≤ p → p ≤ table.shared.key.value.shape.n → HasProcess p table_seat.me.0.owns) }
    ensures base { setting_of result ≡ setting_of table.shared.key.value }
    ensures seen { IsPrefix table_seat.me.0.seen result.items }
    ensures turns { OwnTurns (setting_of table.shared.key.value) result.items table_seat.me.0.owns }
{
    let mut closed = table.close_with(table_seat);
    let kept = closed.take(0).unwrap();
    closed.free();
    kept.into_record()
}

/// Returns whether one of the seats is of this process.
fn has_seat<K: Kind>(seats: &[Seat<K>], process: u32) -> bool
    ensures { MatchBool result (HasSeat process seats.now) (¬ HasSeat process seats.now) }
{
    for seat in seats {
        if seat.process() == process {
            return true;
        }
    }
    false
}

/// Returns the least process that has no seat.
fn first_missing<K: Kind>(seats: &[Seat<K>], count: u32) -> Option<u32>
    ensures { MatchOption result ((p : ℕ) → IsOneOf count p →
        HasSeat p seats.now) (λ p. IsLeastMissing p count seats.now) }
{
    for process in 0..count {
        if !has_seat(seats, process + 1) {
            return Some(process + 1);
        }
    }
    None
}

/// Returns one seat of the table that knows what all of `seats` know.
fn gather<K: Kind>(shared: &SharedTable<K>, first: Seat<K>, seats: Vec<Seat<K>>) -> TableSeat<K>
    requires shared { IsSeatOf shared.now.table_id first.desk.id }
    requires seats { All (λ s. s.desk ≡ first.desk) seats.items }
    ensures table_seat { IsSame shared.now.table_id result.table_id × IsIdle result.me ×
        (result.me.0.base ≡ first.desk.base) }
    ensures first { IsIn result.me.0.seen result.me.0.owns first }
    ensures others { All (IsIn result.me.0.seen result.me.0.owns) seats.items }
{
    let mut table_seat = table_seat_of(first);
    for seat in seats {
        take_in(shared, &mut table_seat, seat);
    }
    table_seat
}

/// Returns what the seat knows.
fn table_seat_of<K: Kind>(seat: Seat<K>) -> TableSeat<K>
    ensures table_seat { (result.table_id ≡ seat.desk.id) × IsIdle result.me ×
        (result.me.0.base ≡ seat.desk.base) }
    ensures knows { IsIn result.me.0.seen result.me.0.owns seat }
{
    let Seat {
        table_seat,
        process: _,
        asked: _,
        seen: _,
    } = seat;
    table_seat
}

/// Joins a seat into the table's seat, which knows what both knew then.
fn take_in<K: Kind>(shared: &SharedTable<K>, table_seat: &mut TableSeat<K>, seat: Seat<K>)
    requires shared { IsSeatOf shared.now.table_id table_seat.old.table_id ×
        (seat.desk.id ≡ shared.now.table_id) }
    requires idle { IsIdle table_seat.old.me }
    ensures table_seat { IsSame table_seat.old.table_id table_seat.new.table_id ×
        IsIdle table_seat.new.me × (table_seat.new.me.0.base ≡ table_seat.old.me.0.base) }
    ensures knows { IsIn table_seat.new.me.0.seen table_seat.new.me.0.owns seat }
    ensures knew { (s : SeatView) → IsIn table_seat.old.me.0.seen table_seat.old.me.0.owns s →
        IsIn table_seat.new.me.0.seen table_seat.new.me.0.owns s }
{
    join(shared, table_seat, table_seat_of(seat));
}

/// Closes the desk, and returns the record of all turns. The record begins with what each seat had
/// seen, and its items of a seat's process are the seat's turns. No memory is allocated.
///
/// # Errors
///
/// `Refused` with `SeatMissing` and the least process that has no seat among `seats`; the desk and
/// the seats are handed back then.
pub fn close<K: Kind>(
    desk: Desk<K>,
    mut seats: Vec<Seat<K>>,
) -> Result<Record<K>, (LiveFault, Desk<K>, Vec<Seat<K>>)>
    requires { All (λ s. s.desk ≡ desk) seats.items }
    ensures kept { IfOk result (λ r. (setting_of r ≡ desk.base) ×
        All (Keeps desk.base r.items) seats.items) }
    ensures whole { IfOk result (λ r. (p : ℕ) → IsOneOf desk.base.shape.n p →
        HasSeat p seats.items) }
    ensures missing { IfErr result (λ e. NamesMissing e.0 desk.base.shape.n seats.items ×
        (e.1 ≡ desk) × (e.2.items ≡ seats.items)) }
{
    if let Some(process) = first_missing(seats.as_slice(), desk.count) {
        let missing = Fault::Refused(LiveRefusal::SeatMissing(process));
        return Err((missing, desk, seats));
    }
    let Some(first) = seats.pop() else {
        unreachable!()
    };
    let Desk { table, count: _ } = desk;
    let table_seat = gather(&table.shared, first, seats);
    Ok(finish(table, table_seat))
}
