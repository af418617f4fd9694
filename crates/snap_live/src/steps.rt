//! The steps of seats on the desk's shared table, which has four words and one slot for the record:
//! `draw` a ticket, `wait`, `take` the record, `publish`, `serve`.
ghost use Rattle.std.specs.Prelude.{◌≡◌, ◌+◌, ◌*◌, ◌^◌, ◌<◌, ◌++◌, [], ◌∷◌};
ghost use Rattle.std.specs.Prelude.{true, Some, None, length, MatchBool};
ghost use Rattle.snap_live.specs.declared.seat_state.Stage.TheVariants.{Idle, Waits, Served};
ghost use Rattle.snap_semantics.specs.Table.{who};
ghost use Rattle.snap_live.specs.Turns.{last_outcome, run_of};
ghost use Rattle.snap_live.specs.SeatStates.{waits, rests, names, stays, comes, grip_of, own};
ghost use Rattle.snap_live.specs.SeatStates.{turns_in, publishes, catches_up, both, tells};
ghost use Rattle.snap_live.specs.Rule.{Taken, HasAll, OwnTurns, AllPrefix};
ghost use Rattle.snap_live.specs.Seats.{IsSeatOf, IsSame, IsIdle};

use crate::desk_rule::{
    Both, CatchUp, Cut, DeskRule, Draw, Entry, InitialRecord, Look, NameProcess, Publish, Serve,
    Tell,
};
use crate::held_record::HeldRecord;
use crate::seat_state::SeatState;
use atomic_table::{Seat, Shared};
use snap_semantics::{Item, Outcome};
use snap_words::Kind;
use std::marker::Brand;
use std::sync::Wait;
use std::thread::yield_now;

/// What all seats share.
pub(crate) type SharedTable<K> = Shared<
    Option<HeldRecord<K>>,
    SeatState,
    InitialRecord<K>,
    DeskRule,
>;

/// What a seat steps with.
pub(crate) type TableSeat<K> = Seat<Option<HeldRecord<K>>, SeatState>;

/// The word that has the length of the history.
const LENGTH: usize = 0;

/// The word that has the next ticket.
const NEXT: usize = 1;

/// The word that has the ticket that is served.
const SERVING: usize = 2;

/// The word that has how many processes are named.
const COUNT: usize = 3;

/// Takes the next process for the seat that may name a process.
pub(crate) fn name<K: Kind>(shared: &SharedTable<K>, seat: &mut TableSeat<K>)
    requires shared { IsSeatOf shared.now.table_id seat.old.table_id }
    requires fresh { IsIdle seat.old.me × (seat.old.me.0.draws ≡ 0) × (seat.old.me.0.owns ≡ []) }
    requires may { (seat.old.me.0.may_name ≡ true) ×
        (seat.old.me.0.named < seat.old.me.0.base.shape.n) }
    ensures { IsSame seat.old.table_id seat.new.table_id ×
        (seat.new.me ≡ (names seat.old.me.0 (seat.old.me.0.named + 1), [])) }
{
    shared.fetch_add::<NameProcess>(seat, COUNT, 1);
}

/// Returns a new seat, which has seen what `seat` has seen. If `seat` might name a process, the new
/// seat may, and `seat` may not any more.
pub(crate) fn split<K: Kind>(shared: &SharedTable<K>, seat: &mut TableSeat<K>) -> TableSeat<K>
    requires shared { IsSeatOf shared.now.table_id seat.old.table_id }
    requires idle { IsIdle seat.old.me }
    ensures old { IsSame seat.old.table_id seat.new.table_id ×
        (seat.new.me ≡ (stays seat.old.me.0, [])) }
    ensures new { IsSame seat.old.table_id result.table_id ×
        (result.me ≡ (comes seat.old.me.0, [])) }
{
    shared.split_seat::<Cut>(seat)
}

/// Joins `other` into `seat`, with what it has seen and its turns.
pub(crate) fn join<K: Kind>(shared: &SharedTable<K>, seat: &mut TableSeat<K>, other: TableSeat<K>)
    requires shared { IsSeatOf shared.now.table_id seat.old.table_id ×
        (other.table_id ≡ shared.now.table_id) }
    requires idle { IsIdle seat.old.me × IsIdle other.me }
    ensures seat { IsSame seat.old.table_id seat.new.table_id ×
        (seat.new.me ≡ (tells (both seat.old.me.0 other.me.0), [])) }
    ensures told { AllPrefix (seat.old.me.0.seen ∷ other.me.0.seen ∷ []) seat.new.me.0.seen }
{
    shared.join_seat::<Both>(seat, other);
    shared.load::<Tell>(seat, LENGTH);
}

/// Draws a ticket for a seat, and returns it.
pub(crate) fn draw<K: Kind>(shared: &SharedTable<K>, seat: &mut TableSeat<K>) -> u64
    requires shared { IsSeatOf shared.now.table_id seat.old.table_id }
    requires idle { IsIdle seat.old.me ×
        (seat.old.me.0.draws < 2 ^ 32 * length seat.old.me.0.owns) }
    ensures { IsSame seat.old.table_id seat.new.table_id ×
        (seat.new.me ≡ (waits seat.old.me.0 result, [])) }
{
    shared.fetch_add::<Draw>(seat, NEXT, 1)
}

/// Returns whether the ticket is served; the seat has the record then.
fn look<K: Kind>(shared: &SharedTable<K>, seat: &mut TableSeat<K>, ticket: u64) -> bool
    requires shared { IsSeatOf shared.now.table_id seat.old.table_id }
    requires waits { (seat.old.me.1 ≡ []) × (seat.old.me.0.alive ≡ true) ×
        (seat.old.me.0.stage ≡ Waits ticket) }
    ensures same { IsSame seat.old.table_id seat.new.table_id }
    ensures told { MatchBool result (Taken ticket seat.old.me seat.new.me) (seat.new.me
        ≡ seat.old.me) }
{
    shared.load::<Look>(seat, SERVING) == ticket
}

/// Looks until the ticket is served.
pub(crate) fn wait<K: Kind, R: Wait>(
    rt: &R,
    shared: &SharedTable<K>,
    seat: &mut TableSeat<K>,
    ticket: u64,
)
    requires shared { IsSeatOf shared.now.table_id seat.old.table_id }
    requires waits { (seat.old.me.1 ≡ []) × (seat.old.me.0.alive ≡ true) ×
        (seat.old.me.0.stage ≡ Waits ticket) }
    ensures same { IsSame seat.old.table_id seat.new.table_id }
    ensures served { Taken ticket seat.old.me seat.new.me }
{
    for _ in rt.forever() {
        if look(shared, seat, ticket) {
            return;
        }
        yield_now();
    }
    unreachable!()
}

/// Takes the record, which leaves the slot empty.
pub(crate) fn take<K: Kind>(shared: &SharedTable<K>, seat: &mut TableSeat<K>) -> HeldRecord<K>
    requires shared { IsSeatOf shared.now.table_id seat.old.table_id }
    requires has { HasAll seat.old.me }
    ensures given { result ≡ run_of seat.old.me.0.base (grip_of seat.old.me.0.stage) }
    ensures seat { IsSame seat.old.table_id seat.new.table_id ×
        (seat.new.me ≡ (seat.old.me.0, (0, None) ∷ [])) }
{
    shared.exchange(seat, 0, None).unwrap()
}

/// Adds the item, which the entry names, to the history.
fn publish_as<J: Entry, K: Kind>(
    shared: &SharedTable<K>,
    seat: &mut TableSeat<K>,
    ticket: u64,
    item: Item,
    outcome: &Outcome,
    len: u64,
)
    requires shared { IsSeatOf shared.now.table_id seat.old.table_id }
    requires entry { (item ≡ J.item) × (outcome.now ≡ J.outcome) }
    requires served { (seat.old.me.0.alive ≡ true) ×
        (seat.old.me.0.stage ≡ Served ticket (grip_of seat.old.me.0.stage)) }
    requires own { seat.old.me.0.owns ≡ own (who item) (turns_in seat.old.me.0.owns) ∷ [] }
    requires len { len ≡ length (grip_of seat.old.me.0.stage ++ item ∷ []) }
    requires run { outcome.now ≡ last_outcome seat.old.me.0.base (grip_of seat.old.me.0.stage
        ++ item ∷ []) }
    ensures seat { IsSame seat.old.table_id seat.new.table_id ×
        (seat.new.me ≡ (publishes seat.old.me.0 item outcome.now, seat.old.me.1)) }
    ensures turns { OwnTurns seat.old.me.0.base seat.new.me.0.seen seat.new.me.0.owns }
{
    shared.store::<Publish<J>>(seat, LENGTH, len);
}

/// Adds the item to the history.
pub(crate) fn publish<K: Kind>(
    shared: &SharedTable<K>,
    seat: &mut TableSeat<K>,
    ticket: u64,
    item: Item,
    outcome: &Outcome,
    len: u64,
)
    requires shared { IsSeatOf shared.now.table_id seat.old.table_id }
    requires served { (seat.old.me.0.alive ≡ true) ×
        (seat.old.me.0.stage ≡ Served ticket (grip_of seat.old.me.0.stage)) }
    requires own { seat.old.me.0.owns ≡ own (who item) (turns_in seat.old.me.0.owns) ∷ [] }
    requires len { len ≡ length (grip_of seat.old.me.0.stage ++ item ∷ []) }
    requires run { outcome.now ≡ last_outcome seat.old.me.0.base (grip_of seat.old.me.0.stage
        ++ item ∷ []) }
    ensures seat { IsSame seat.old.table_id seat.new.table_id ×
        (seat.new.me ≡ (publishes seat.old.me.0 item outcome.now, seat.old.me.1)) }
    ensures turns { OwnTurns seat.old.me.0.base seat.new.me.0.seen seat.new.me.0.owns }
{
    publish_as::<Brand, K>(shared, seat, ticket, item, outcome, len);
}

/// Adds nothing, and lets the seat see the history.
pub(crate) fn catch_up<K: Kind>(
    shared: &SharedTable<K>,
    seat: &mut TableSeat<K>,
    ticket: u64,
    len: u64,
)
    requires shared { IsSeatOf shared.now.table_id seat.old.table_id }
    requires served { (seat.old.me.0.alive ≡ true) ×
        (seat.old.me.0.stage ≡ Served ticket (grip_of seat.old.me.0.stage)) }
    requires len { len ≡ length (grip_of seat.old.me.0.stage) }
    ensures seat { IsSame seat.old.table_id seat.new.table_id ×
        (seat.new.me ≡ (catches_up seat.old.me.0, seat.old.me.1)) }
    ensures turns { OwnTurns seat.old.me.0.base seat.new.me.0.seen seat.new.me.0.owns }
{
    shared.store::<CatchUp>(seat, LENGTH, len);
}

/// Puts the record into the slot.
pub(crate) fn give<K: Kind>(shared: &SharedTable<K>, seat: &mut TableSeat<K>, given: HeldRecord<K>)
    requires shared { IsSeatOf shared.now.table_id seat.old.table_id }
    requires empty { seat.old.me.1 ≡ (0, None) ∷ [] }
    requires given { given ≡ run_of seat.old.me.0.base (grip_of seat.old.me.0.stage) }
    ensures { IsSame seat.old.table_id seat.new.table_id × (seat.new.me.0 ≡ seat.old.me.0) ×
        HasAll seat.new.me }
{
    drop(shared.exchange(seat, 0, Some(given)));
}

/// Brings the slot home, so that the next ticket is served.
pub(crate) fn serve<K: Kind>(shared: &SharedTable<K>, seat: &mut TableSeat<K>, ticket: u64)
    requires shared { IsSeatOf shared.now.table_id seat.old.table_id }
    requires served { (seat.old.me.0.alive ≡ true) ×
        (seat.old.me.0.stage ≡ Served ticket (grip_of seat.old.me.0.stage)) × HasAll seat.old.me }
    ensures { IsSame seat.old.table_id seat.new.table_id ×
        (seat.new.me ≡ (rests seat.old.me.0, [])) }
{
    shared.fetch_add::<Serve>(seat, SERVING, 1);
}
