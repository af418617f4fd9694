//! `edited`: cuts a schedule after its first items, and adds items there.
ghost use Rattle.std.specs.Prelude.{◌≡◌, ◌≤◌, ◌<◌, ◌+◌, ◌^◌, ◌++◌};
ghost use Rattle.std.specs.Prelude.{IfOk, OnOk, length, take};
ghost use Rattle.std.specs.List.{AllByRecursion};
ghost use Rattle.snap_words.specs.Shape.{max_items};
ghost use Rattle.snap_semantics.specs.Answers.{Answers, Gives};
ghost use Rattle.snap_semantics.specs.Schedule.{admitted, form_count, form_items, form_process};
ghost use Rattle.snap_semantics.specs.ScheduleText.{FitsItem};
ghost use Rattle.snap_prompt.specs.Edits.{edited, form_of};

use crate::addition::Addition;
use snap_sched::{Items, MAX_ITEMS, Schedule};
use snap_semantics::{Fault, ScheduleRefusal};
use std::alloc::{AllocError, Global};

/// Returns `addition` if its process is one of `n` and it has no more than `left` items.
fn admitted(n: u64, left: u64, line: u64, addition: Addition) -> Result<Addition, ScheduleRefusal>
    ensures { Gives form_of result (admitted n left line (form_of addition)) }
{
    let (process, count) = match addition {
        Addition::Steps { process, count } => (process, count),
        Addition::Call { process, .. } => (process, 1),
        Addition::Crash { process } => (process, 1),
    };
    if process == 0 || n < process {
        return Err(ScheduleRefusal::NoSuchProcess(line));
    }
    if left < count {
        return Err(ScheduleRefusal::TooManyItems(line));
    }
    Ok(addition)
}

/// Appends the items of `addition`.
fn push_addition(items: &mut Items, addition: Addition) -> Result<(), AllocError>
    requires process { form_process (form_of addition) < 2 ^ 32 }
    requires few { length items.old + form_count (form_of addition) < 2 ^ 32 }
    ensures added { OnOk result (items.new ≡ items.old ++ form_items (form_of addition)) }
    ensures fits { AllByRecursion FitsItem items.new }
{
    match addition {
        Addition::Steps { process, count } => items.push_steps(process as u32, count),
        Addition::Call { process, op } => items.push_call(process as u32, op),
        Addition::Crash { process } => items.push_crash(process as u32),
    }
}

/// Returns the first `count` of `items`.
fn first_items(alloc: Global, items: &Items, count: u64) -> Result<Items, AllocError>
    requires within { count ≤ length items.now }
    requires few { length items.now ≤ max_items }
    ensures { IfOk result (λ first. first ≡ take count items.now) }
{
    let mut first = Items::new(alloc);
    let mut left = items.iter();
    while first.len() < count {
        let Some(item) = left.next() else {
            return Ok(first);
        };
        first.push(item)?;
    }
    Ok(first)
}

/// Returns the first `count` items of `schedule`, and those of `addition` behind them.
///
/// # Errors
///
/// `Refused` with `NoSuchProcess` or `TooManyItems`, and the number `line`; `Memory` where memory
/// runs out.
#[tactic(auto, unfolding(crate::specs::Edits::edited))]
pub fn edited(
    alloc: Global,
    schedule: &Schedule,
    count: u64,
    line: u64,
    addition: Addition,
) -> Result<Schedule, Fault<ScheduleRefusal>>
    requires { count ≤ length schedule.now.items }
    ensures { Answers (λ s. s) result (edited line count (form_of addition) schedule.now) }
{
    let shape = schedule.shape();
    let addition = admitted(shape.n(), MAX_ITEMS - count, line, addition)?;
    let mut items = first_items(alloc, schedule.items(), count)?;
    push_addition(&mut items, addition)?;
    Ok(Schedule::new(shape, items))
}
