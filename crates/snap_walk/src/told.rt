//! What a walk looks at to say whether an item is told: the item, its line, and what came of it.
ghost use Rattle.std.specs.Prelude.{◌≡◌, Some, None, if◌then◌else◌};
ghost use Rattle.snap_walk.specs.Walk.{is_quiet, is_skip};
ghost use Rattle.snap_walk.specs.Walking.{has_stepped, is_step, skip_reason};

use snap_semantics::{Activity, Item, Outcome, Reason, Status};

/// Returns whether a line is quiet.
#[inline(always)]
pub(crate) fn is_quiet(quiet: &[bool], line: u64) -> bool
    ensures { result ≡ is_quiet quiet.now line }
{
    match quiet.get(line as usize) {
        Some(is_quiet) => *is_quiet,
        None => false,
    }
}

/// Returns what is told of what a process was at: nothing where its line is quiet.
#[inline(always)]
pub(crate) fn told(is_quiet: bool, activity: Activity) -> Option<Activity>
    ensures { result ≡ (if is_quiet then None else Some activity) }
{
    if is_quiet { None } else { Some(activity) }
}

/// Returns whether an item is a step.
#[inline(always)]
pub(crate) fn is_step(item: Item) -> bool
    ensures { result ≡ is_step item }
{
    match item {
        Item::Step(_) => true,
        Item::Call(_, _) | Item::Crash(_) => false,
    }
}

/// Returns whether a step went on to another line.
#[inline(always)]
pub(crate) fn has_stepped(outcome: &Outcome) -> bool
    ensures { result ≡ has_stepped outcome.now }
{
    match outcome {
        Outcome::Stepped => true,
        _ => false,
    }
}

/// Returns whether an item was skipped.
#[inline(always)]
pub(crate) fn is_skip(outcome: &Outcome) -> bool
    ensures { result ≡ is_skip outcome.now }
{
    match outcome {
        Outcome::Skipped(_) => true,
        _ => false,
    }
}

/// Returns why a step of a process that stands so is skipped.
pub(crate) fn skip_reason(status: Status) -> Reason
    ensures { result ≡ skip_reason status }
{
    match status {
        Status::Idle => Reason::Idle,
        Status::Busy(_) => Reason::Busy,
        Status::Trapped(_, _) => Reason::Trapped,
        Status::Crashed(_) => Reason::Crashed,
    }
}
