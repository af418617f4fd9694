//! `event_of`: what callers see of an item.
ghost use Rattle.std.specs.Prelude.{◌≡◌, option_to_list};
ghost use Rattle.snap_semantics.specs.Run.{event_of};

use snap_semantics::{Event, Happening, Item, Outcome, who};

/// Returns what callers see of item number `number`, if they see anything.
#[inline(always)]
pub fn event_of(number: u64, item: Item, outcome: Outcome) -> Option<Event>
    ensures { option_to_list result ≡ event_of number item outcome }
{
    let what = match (outcome, item) {
        (Outcome::Called, Item::Call(_, op)) => Happening::Call(op),
        (Outcome::Answered(view), _) => Happening::Answer(view),
        (Outcome::Finished, _) => Happening::Done,
        (Outcome::Crashed, _) => Happening::Crash,
        _ => return None,
    };
    Some(Event {
        item: number,
        process: who(item),
        what,
    })
}
