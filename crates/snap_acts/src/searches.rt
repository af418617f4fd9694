//! `StepPattern`, `first_step_from`, `first_within` and `last_before`: searches in the trace of a run
//! for a step, such as the end of an operation or a write.
ghost use Rattle.std.specs.Prelude.{◌≡◌, ◌+◌, ◌≤◌, ◌<◌, IfSome, drop, length, option_map};
ghost use Rattle.snap_acts.specs.Searches.{
  first_meeting,
  is_answer_or_trap,
  is_end,
  is_enter,
  is_leave,
  is_write,
  first_within,
  last_before,
  meets,
  publishes,
  reads_into,
  sets_view,
  writes_word,
};

use crate::{Act, Spot, TraceStep};
use snap_semantics::Name;

/// A step that is searched for.
#[derive(Clone, Copy)]
pub enum StepPattern {
    /// The end of an operation of a process.
    End(u32),
    /// The end of the scan of an update of a process.
    Leave(u32),
    /// The end of an operation of a process, or of the scan of its update.
    Closing(u32),
    Write,
    WriteOf(u64),
    /// A process reads a word into this place.
    ReadInto(u32, Spot),
    /// The view of a process is written.
    Published(u64),
    /// The scan of an update of a process begins.
    Enter(u32),
    /// A process sets this view local.
    Sets(u32, Name),
    /// A scan is answered, or a process traps.
    AnswerOrTrap,
}

/// Returns whether an operation ends.
fn is_end(act: &Act) -> bool
    ensures { result ≡ is_end act.now }
{
    match act {
        Act::Answer(_, _) => true,
        Act::Done => true,
        Act::Crash => true,
        Act::Trap => true,
        _ => false,
    }
}

/// Returns whether the scan of an update ends.
fn is_leave(act: &Act) -> bool
    ensures { result ≡ is_leave act.now }
{
    match act {
        Act::Leave(_) => true,
        _ => false,
    }
}

fn is_write(act: &Act) -> bool
    ensures { result ≡ is_write act.now }
{
    match act {
        Act::Write(_, _, _) => true,
        _ => false,
    }
}

fn writes_word(k: u64, act: &Act) -> bool
    ensures { result ≡ writes_word k act.now }
{
    match act {
        Act::Write(word, _, _) => *word == k,
        _ => false,
    }
}

/// Returns whether a word is read into this place.
fn reads_into(spot: &Spot, act: &Act) -> bool
    ensures { result ≡ reads_into spot.now act.now }
{
    match act {
        Act::Read(_, into) => into.words.is(&spot.words) && into.place == spot.place,
        _ => false,
    }
}

fn publishes(k: u64, act: &Act) -> bool
    ensures { result ≡ publishes k act.now }
{
    match act {
        Act::Publish(j, _) => *j == k,
        _ => false,
    }
}

/// Returns whether the scan of an update begins.
fn is_enter(act: &Act) -> bool
    ensures { result ≡ is_enter act.now }
{
    match act {
        Act::Enter => true,
        _ => false,
    }
}

/// Returns whether this view local is set.
fn sets_view(view: &Name, act: &Act) -> bool
    ensures { result ≡ sets_view view.now act.now }
{
    match act {
        Act::Look(_, set) => set.is(view),
        Act::Borrow(_, set) => set.is(view),
        Act::Collect(set) => set.is(view),
        _ => false,
    }
}

/// Returns whether a scan is answered, or a process traps.
fn is_answer_or_trap(act: &Act) -> bool
    ensures { result ≡ is_answer_or_trap act.now }
{
    match act {
        Act::Answer(_, _) => true,
        Act::Trap => true,
        _ => false,
    }
}

/// Returns whether a step is one that `wanted` describes.
fn meets(wanted: &StepPattern, step: &TraceStep) -> bool
    ensures { result ≡ meets wanted.now step.now }
{
    match wanted {
        StepPattern::End(i) => step.process == *i && is_end(&step.act),
        StepPattern::Leave(i) => step.process == *i && is_leave(&step.act),
        StepPattern::Closing(i) => step.process == *i && (is_leave(&step.act) || is_end(&step.act)),
        StepPattern::Write => is_write(&step.act),
        StepPattern::WriteOf(k) => writes_word(*k, &step.act),
        StepPattern::ReadInto(i, spot) => step.process == *i && reads_into(spot, &step.act),
        StepPattern::Published(k) => publishes(*k, &step.act),
        StepPattern::Enter(i) => step.process == *i && is_enter(&step.act),
        StepPattern::Sets(i, view) => step.process == *i && sets_view(view, &step.act),
        StepPattern::AnswerOrTrap => is_answer_or_trap(&step.act),
    }
}

/// Returns the first step from a place on that `wanted` describes.
pub fn first_step_from(steps: &[TraceStep], from: usize, wanted: StepPattern) -> Option<&TraceStep>
    ensures { option_map (λ s. s.now) result ≡ first_meeting wanted (drop from steps.now) }
{
    let mut k = from;
    while k < steps.len() {
        if meets(&wanted, &steps[k]) {
            return Some(&steps[k]);
        }
        k += 1;
    }
    None
}

/// Returns the last of the first `count` places at which stands a step that `wanted` describes.
pub fn last_before(steps: &[TraceStep], count: usize, wanted: StepPattern) -> Option<usize>
    requires { count ≤ length steps.now }
    ensures place { result ≡ last_before wanted steps.now count }
    ensures within { IfSome result (λ k. k < count) }
{
    let mut k = count;
    while k > 0 {
        if meets(&wanted, &steps[k - 1]) {
            return Some(k - 1);
        }
        k -= 1;
    }
    None
}

/// Returns the first of `count` places from `from` on at which stands a step that `wanted`
/// describes.
pub fn first_within(
    steps: &[TraceStep],
    from: usize,
    count: usize,
    wanted: StepPattern,
) -> Option<usize>
    requires { from + count ≤ length steps.now }
    ensures place { result ≡ first_within wanted steps.now from count }
    ensures within { IfSome result (λ k. k < from + count) }
{
    let mut k = from;
    let mut left = count;
    while left > 0 {
        if meets(&wanted, &steps[k]) {
            return Some(k);
        }
        k += 1;
        left -= 1;
    }
    None
}
