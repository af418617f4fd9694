//! `Caller`: what a process is at, between the lines of a history.
ghost use Rattle.std.specs.Prelude.{◌≡◌, IfOk, length, replicate};
ghost use Rattle.snap_words.specs.Shape.{IsOneOf};
ghost use Rattle.snap_history_text.specs.HistoryText.{callers_behind, wrong_turn};
ghost use Rattle.snap_history_text.specs.ReaderSteps.{view_caller, view_callers};
ghost use Rattle.snap_judge.specs.History.{Free, caller_after};

use crate::refusal::HistoryRefusal;
use snap_semantics::{Event, Happening, Op};
use snap_words::Shape;
use std::alloc::{AllocError, Global};

/// What a process is at: nothing, an operation that it called, or it has crashed.
#[derive(Clone, Copy)]
pub enum Caller {
    Free,
    Busy(Op),
    Gone,
}

/// Returns why `what` may not come next for its process in line `line`; `None` where it may.
pub fn wrong_turn(
    shape: Shape,
    line: u64,
    caller: Caller,
    what: &Happening,
) -> Option<HistoryRefusal>
    ensures { result ≡ wrong_turn shape line (view_caller caller) what.now }
{
    match (caller, what) {
        (Caller::Gone, _) => Some(HistoryRefusal::Crashed(line)),
        (Caller::Free, Happening::Call(_) | Happening::Crash) => None,
        (Caller::Free, _) => Some(HistoryRefusal::NotCalled(line)),
        (Caller::Busy(_), Happening::Crash) => None,
        (Caller::Busy(_), Happening::Call(_)) => Some(HistoryRefusal::Busy(line)),
        (Caller::Busy(Op::Update { .. }), Happening::Done) => None,
        (Caller::Busy(Op::Scan), Happening::Answer(view)) => {
            if view.as_slice().len() as u64 == shape.w() {
                None
            } else {
                Some(HistoryRefusal::BadView(line))
            }
        }
        (Caller::Busy(_), _) => Some(HistoryRefusal::NotCalled(line)),
    }
}

/// Returns what each of `n` processes is at before the first event.
///
/// # Errors
///
/// `AllocError` where memory runs out.
#[tactic(auto, using(crate::proofs::Noted::one_more))]
pub fn free_callers(alloc: Global, n: u64) -> Result<Vec<Caller>, AllocError>
    ensures { IfOk result (λ callers. view_callers callers.items ≡ replicate n Free) }
{
    let mut callers = Vec::new(alloc);
    for _k in 0..n {
        callers.push(Caller::Free)?;
    }
    Ok(callers)
}

/// Returns what a process is at behind its event.
fn caller_after(what: &Happening) -> Caller
    ensures { view_caller result ≡ caller_after what.now }
{
    match what {
        Happening::Call(op) => Caller::Busy(*op),
        Happening::Answer(_) => Caller::Free,
        Happening::Done => Caller::Free,
        Happening::Crash => Caller::Gone,
    }
}

/// Notes what the process of an event is at behind it.
pub fn note_event(callers: &mut Vec<Caller>, event: &Event)
    requires { IsOneOf (length callers.old.items) event.now.process }
    ensures { view_callers callers.new.items
        ≡ callers_behind (view_callers callers.old.items) event.now }
{
    let place = (event.process - 1) as usize;
    callers[place] = caller_after(&event.what);
}
