//! `who`: the process of an item of a schedule.
ghost use Rattle.std.specs.Prelude.{◌≡◌};
ghost use Rattle.snap_semantics.specs.Table.{who};

use crate::process::Item;

/// Returns the process of an item.
pub fn who(item: Item) -> u32
    ensures { result ≡ who item }
{
    match item {
        Item::Step(i) => i,
        Item::Call(i, _) => i,
        Item::Crash(i) => i,
    }
}
