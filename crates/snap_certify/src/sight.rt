//! `Sight`: an item as a certification sees it, with the values before and after it; and which
//! items are seen as such.
ghost use Rattle.std.specs.Prelude.{◌≡◌, false, IfSome, None, option_map, Some};
ghost use Rattle.snap_audit.specs.Watch.{is_write_line, told_role};
ghost use Rattle.snap_certify.specs.Certification.{changes, executed};
ghost use Rattle.snap_certify.specs.Finding.{seen_sight};

use snap_record::{LineRole, role_in};
use snap_semantics::{Activity, Outcome};

/// An item as a certification sees it (`SeenItem`), of which a machine and a walk have the parts.
#[derive(Drop)]
pub(crate) struct Sight<'a> {
    pub(crate) process: u32,
    /// The activity of the process before the item, if it is busy and the item is a step.
    pub(crate) activity: Option<Activity>,
    pub(crate) outcome: &'a Outcome,
    /// The values before the item.
    pub(crate) values_before: &'a [u64],
    /// The values after the item.
    pub(crate) values_after: &'a [u64],
}

/// Returns whether an item changes the values.
pub(crate) fn changes(item: &Sight<'_>) -> bool
    ensures { result ≡ changes (seen_sight item.now) }
{
    item.values_before != item.values_after
}

/// Returns what an item executes: the activity at which a step finds its process, if the process
/// goes on.
pub(crate) fn executed(item: &Sight<'_>) -> Option<Activity>
    ensures { result ≡ executed (seen_sight item.now) }
{
    match item.outcome {
        Outcome::Trapped(_) => None,
        _ => item.activity,
    }
}

/// Returns the line that an item executes.
pub(crate) fn executed_line(item: &Sight<'_>) -> Option<u64>
    ensures { result ≡ option_map (λ a. a.line) (executed (seen_sight item.now)) }
{
    Some(executed(item)?.line)
}

/// Returns what the process of an item was at, if a line is told that writes a word. No other item
/// writes one.
#[inline(always)]
pub(crate) fn writing(roles: &[LineRole], activity: Option<Activity>) -> Option<Activity>
    ensures some { IfSome result (λ a. activity ≡ Some a) }
    ensures none { result ≡ None → is_write_line (told_role roles.now activity) ≡ false }
{
    let Some(activity) = activity else {
        return None;
    };
    match role_in(roles, activity.line) {
        LineRole::Write => Some(activity),
        LineRole::Test => None,
        LineRole::Return => None,
        LineRole::Nothing => None,
    }
}
