//! `advance`: takes the values of the words from one item of a record to a later one, by the
//! changes between them.
ghost use Rattle.std.specs.Prelude.{◌≡◌, ◌≤◌, ℕ, drop, slice_set};
ghost use Rattle.snap_record.specs.History.{values_by};

use crate::history::Change;
use crate::row::Row;

/// Makes a change.
fn make_change(values: &mut Row, change: Change)
    ensures { values.new ≡ slice_set values.old change.place change.value }
{
    let place = change.place as usize;
    if place < values.as_slice().len() {
        values.set(place, change.value);
    }
}

/// Makes the next changes up to an item, and answers which one is next then.
pub fn advance(values: &mut Row, changes: &[Change], next: usize, item: u64) -> usize
    ensures later { (u : ℕ) → item ≤ u → values_by values.new (drop result changes.now) u
        ≡ values_by values.old (drop next changes.now) u }
    ensures now { values_by values.new (drop result changes.now) item ≡ values.new }
{
    let mut k = next;
    while k < changes.len() {
        let change = changes[k];
        if change.item > item {
            return k;
        }
        make_change(values, change);
        k += 1;
    }
    k
}
