//! `DeskRule`, the invariant of the desk's table, and a type for each step that seats make on it:
//! `Draw`, `Look`, `Publish`, `Serve` and others.
ghost use Rattle.snap_live.specs.Rule.{TableInvariant, NamedProcess, Drew, Looked};
ghost use Rattle.snap_live.specs.Rule.{Published, CaughtUp, ServedOut, Told};
ghost use Rattle.snap_live.specs.SeatStates.{newcomer, stays, comes, both, nobody};
ghost use Rattle.snap_live.specs.Turns.{setting_of};

use crate::held_record::HeldRecord;
use crate::seat_state::SeatState;
use atomic_table::{Join, Play, Split, TableRule};
use snap_record::Record;
use snap_words::Kind;
use std::marker::{Brand, PhantomData};
use std::snapshot::Snapshot;

/// What the rule may read: the record as it was at the start.
pub(crate) type InitialRecord<K> = Snapshot<Record<K>>;

/// The rule.
pub struct DeskRule;

impl<K: Kind> TableRule<Option<HeldRecord<K>>, SeatState, InitialRecord<K>> for DeskRule {
    ghost holds = { λ k. TableInvariant (setting_of k.value) };

    ghost first = { λ k. newcomer (setting_of k.value) };
}

/// A seat takes the next process.
pub(crate) struct NameProcess;

impl<K: Kind> Play<Option<HeldRecord<K>>, SeatState> for NameProcess {
    ghost then = { NamedProcess };
}

/// A seat draws a ticket.
pub(crate) struct Draw;

impl<K: Kind> Play<Option<HeldRecord<K>>, SeatState> for Draw {
    ghost then = { Drew };
}

/// A seat looks whose ticket is served, and has the record if that is its own.
pub(crate) struct Look;

impl<K: Kind> Play<Option<HeldRecord<K>>, SeatState> for Look {
    ghost then = { Looked };
}

/// What is added to the history, which each call picks.
pub(crate) trait Entry {
    ghost use Rattle.snap_semantics.specs.declared.process.Item.{Item};
    ghost use Rattle.snap_semantics.specs.declared.process.Outcome.{Outcome};

    ghost item: { Item };

    ghost outcome: { Outcome };
}

impl Entry for Brand {
    ghost use Rattle.snap_semantics.specs.declared.process.Item.TheVariants.{Step};
    ghost use Rattle.snap_semantics.specs.declared.process.Outcome.TheVariants.{Stepped};

    ghost item = { Step 0 };

    ghost outcome = { Stepped };
}

/// The served seat adds its item to the history.
pub(crate) struct Publish<J> {
    entry: PhantomData<J>,
}

impl<K: Kind, J: Entry> Play<Option<HeldRecord<K>>, SeatState> for Publish<J> {
    ghost then = { Published J.item J.outcome };
}

/// The served seat adds nothing, and has seen the history.
pub(crate) struct CatchUp;

impl<K: Kind> Play<Option<HeldRecord<K>>, SeatState> for CatchUp {
    ghost then = { CaughtUp };
}

/// The served seat gives the record back, and the next ticket is served.
pub(crate) struct Serve;

impl<K: Kind> Play<Option<HeldRecord<K>>, SeatState> for Serve {
    ghost then = { ServedOut };
}

/// A seat hears of what it was joined with.
pub(crate) struct Tell;

impl<K: Kind> Play<Option<HeldRecord<K>>, SeatState> for Tell {
    ghost then = { Told };
}

/// A new seat, which has seen as much.
pub(crate) struct Cut;

impl Split<SeatState> for Cut {
    ghost left = { stays };

    ghost right = { comes };
}

/// One seat of two.
pub(crate) struct Both;

impl Join<SeatState> for Both {
    ghost both = { both };

    ghost spent = { nobody };
}
