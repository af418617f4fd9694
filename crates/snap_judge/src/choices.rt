//! Which open updates have to be tried before an end that may not pass.
ghost use Rattle.std.specs.Prelude.{◌≡◌, ◌-◌, ◌<◌, ◌≤◌, ℕ, List, true, false, length};
ghost use Rattle.std.specs.Prelude.{IfNone, IfSome};
ghost use Rattle.snap_runs.specs.Operation.{Sees, Sets};
ghost use Rattle.snap_judge.specs.Kept.{AreSteps, IsConfig, IsSettled, called_at};
ghost use Rattle.snap_judge.specs.Choices.{IsAlone, IsChoice, IsScanAt, IsUnwanted, NotNowAt, Wants};

use crate::config::{Config, OpenUpdate, Slot, Step};
use crate::operation::Action;

/// Returns whether step `call` calls an update of this word.
fn sets_word(steps: &[Step<'_>], call: usize, word: u64) -> bool
    requires { call < length steps.now }
    ensures { result ≡ false →
        (value : ℕ) → (called_at steps.now call).action ≡ Sets word value → ⊥ }
{
    match &steps[call] {
        Step::Calls(operation) => match &operation.action {
            Action::Sets { word: sets, .. } => *sets == word,
            Action::Sees(_) => false,
        },
        Step::Ends(_) => false,
        Step::Waits => false,
    }
}

/// Returns whether step `call` calls a scan that sees this value in the word at this place.
fn sees_value(steps: &[Step<'_>], call: usize, place: usize, value: u64) -> bool
    requires { call < length steps.now }
    ensures { result ≡ false → Wants place value (called_at steps.now call) → ⊥ }
{
    match &steps[call] {
        Step::Calls(operation) => match &operation.action {
            Action::Sets { .. } => false,
            Action::Sees(view) => match view.get(place) {
                Some(seen) => *seen == value,
                None => value == 0,
            },
        },
        Step::Ends(_) => true,
        Step::Waits => true,
    }
}

/// Returns whether an update of this word is open at another place.
fn has_rival(steps: &[Step<'_>], config: &Config, place: usize, word: u64) -> bool
    requires { IsConfig steps.now config.now }
    ensures { result ≡ false → IsAlone steps.now config.now place word }
{
    for other in 0..config.slots.len() {
        if let Slot::Open(call) = config.slots[other]
            && other != place
            && sets_word(steps, call, word)
        {
            return true;
        }
    }
    false
}

/// Returns whether an open scan sees this value in this word.
fn is_wanted(steps: &[Step<'_>], config: &Config, word: u64, value: u64) -> bool
    requires { IsConfig steps.now config.now }
    ensures { result ≡ false → IsUnwanted steps.now config.now word value }
{
    for place in 0..config.slots.len() {
        if let Slot::Open(call) = config.slots[place]
            && sees_value(steps, call, word.saturating_sub(1) as usize, value)
        {
            return true;
        }
    }
    false
}

/// Returns the word and the value of the update that step `call` calls; `None` where it calls none.
fn called_update(steps: &[Step<'_>], call: usize) -> Option<(u64, u64)>
    requires { call < length steps.now }
    ensures some { IfSome result (λ u. (called_at steps.now call).action ≡ Sets u.0 u.1) }
    ensures none { IfNone result
        ((view : List ℕ) × ((called_at steps.now call).action ≡ Sees view)) }
{
    match &steps[call] {
        Step::Calls(operation) => match &operation.action {
            Action::Sets { word, value } => Some((*word, *value)),
            Action::Sees(_) => None,
        },
        Step::Ends(_) => None,
        Step::Waits => None,
    }
}

/// Returns the update that is open at `place`; `None` where none is.
pub fn open_update(steps: &[Step<'_>], config: &Config, place: usize) -> Option<OpenUpdate>
    requires config { IsConfig steps.now config.now }
    requires steps { AreSteps (length config.now.slots.items) (length config.now.values.items)
        steps.now }
    requires place { place < length config.now.slots.items }
    ensures some { IfSome result (λ u. IsChoice steps.now config.now u × (u.place ≡ place)) }
    ensures none { IfNone result (IsScanAt steps.now config.now place) }
{
    match config.slots[place] {
        Slot::Open(call) => match called_update(steps, call) {
            Some((word, value)) => Some(OpenUpdate {
                place,
                call,
                word,
                value,
            }),
            None => None,
        },
        Slot::Taken(_) => None,
        Slot::Free => None,
    }
}

/// Returns the update that is open at `place`, if it has to be tried before the end of the process
/// at the place `ending`.
fn choice_at(steps: &[Step<'_>], config: &Config, ending: usize, place: usize) -> Option<OpenUpdate>
    requires config { IsConfig steps.now config.now }
    requires steps { AreSteps (length config.now.slots.items) (length config.now.values.items)
        steps.now }
    requires settled { IsSettled steps.now config.now }
    requires place { place < length config.now.slots.items }
    ensures none { IfNone result (NotNowAt steps.now config.now ending place) }
    ensures some { IfSome result (λ u. IsChoice steps.now config.now u × (u.place ≡ place)) }
{
    let Some(update) = open_update(steps, config, place) else {
        return None;
    };
    if place == ending {
        return Some(update);
    }
    if has_rival(steps, config, place, update.word) {
        return Some(update);
    }
    if is_wanted(steps, config, update.word, update.value) {
        return Some(update);
    }
    None
}

/// Returns the open update at the first place from `from` on that has to be tried before the end of
/// the process at the place `ending`.
pub fn next_choice(
    steps: &[Step<'_>],
    config: &Config,
    ending: usize,
    from: usize,
) -> Option<OpenUpdate>
    requires config { IsConfig steps.now config.now }
    requires steps { AreSteps (length config.now.slots.items) (length config.now.values.items)
        steps.now }
    requires settled { IsSettled steps.now config.now }
    requires from { from ≤ length config.now.slots.items }
    ensures none { IfNone result ((p : ℕ) → from ≤ p → NotNowAt steps.now config.now ending p) }
    ensures some { IfSome result (λ u. IsChoice steps.now config.now u × (from ≤ u.place)
        × ((q : ℕ) → from ≤ q → q < u.place → NotNowAt steps.now config.now ending q)) }
{
    for place in from..config.slots.len() {
        if let Some(update) = choice_at(steps, config, ending, place) {
            return Some(update);
        }
    }
    None
}
