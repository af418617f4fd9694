//! `audit`: the verdicts on the answered scans of a record, found in one sweep over its events.
ghost use Rattle.std.specs.Prelude.{◌≡◌, ◌≤◌, ◌<◌, ◌+◌, ◌-◌, ◌^◌, ◌∷◌};
ghost use Rattle.std.specs.Prelude.{List, IfOk, OnOk, get_or, length, replicate};
ghost use Rattle.snap_words.specs.Shape.{IsOneOf};
ghost use Rattle.snap_semantics.specs.declared.event.Event.{Event};
ghost use Rattle.snap_runs.specs.Audit.{audit};
ghost use Rattle.snap_runs.specs.Run.{Run, run_over};
ghost use Rattle.snap_record.specs.History.{collects_at};
ghost use Rattle.snap_audit.specs.Sweep.{IsToldBy, Sweeps, fresh};
ghost use Rattle.snap_audit.specs.declared.caller.Caller.{Caller};

use crate::caller::Caller;
use crate::watch::Watch;
use snap_asm_program::Program;
use snap_record::{Change, Record};
use snap_runs::Verdict;
use snap_sched::Schedule;
use snap_semantics::{Event, Happening};
use snap_walk::Walk;
use snap_words::{Kind, Shape};
use std::alloc::{AllocError, Global};

/// Returns what is kept of each process before its first call.
#[tactic(auto, using(snap_machine::proofs::Replicas::one_again))]
fn new_callers(alloc: Global, shape: Shape) -> Result<Vec<Caller>, AllocError>
    ensures { IfOk result (λ cs. cs.items ≡ replicate shape.n (fresh shape.w)) }
{
    let mut callers = Vec::new(alloc);
    for _k in 0..shape.n() {
        callers.push(Caller::new(alloc, shape.w())?)?;
    }
    Ok(callers)
}

/// Notes an event: keeps a call, and for an answer finds out whether the scan has a point.
fn note_event(
    alloc: Global,
    changes: &[Change],
    callers: &mut Vec<Caller>,
    verdicts: &mut Vec<Verdict>,
    event: &Event,
    collects: u64,
) -> Result<(), AllocError>
    requires process { IsOneOf (length callers.old.items) event.now.process }
    requires order { (d : Caller) → (get_or callers.old.items (event.now.process - 1) d).call
        ≤ event.now.item }
    requires few { event.now.item + 1 < 2 ^ 64 }
    requires collects { (d : Caller) → (get_or callers.old.items (event.now.process - 1) d).collects
        ≤ collects }
    ensures { OnOk result ((r : Run) (left : List Event) → collects ≡ collects_at r event.now →
        Sweeps r changes.now callers.old.items verdicts.old.items (event.now ∷ left) →
        Sweeps r changes.now callers.new.items verdicts.new.items left) }
{
    let k = (event.process - 1) as usize;
    match &event.what {
        Happening::Call(_) => {
            callers[k].go_on(changes, event.item, collects);
            Ok(())
        }
        Happening::Answer(view) => {
            let caller = &callers[k];
            let verdict = caller.verdict(alloc, changes, event, view.as_slice(), collects)?;
            verdicts.push(verdict)?;
            Ok(())
        }
        Happening::Done => Ok(()),
        Happening::Crash => Ok(()),
    }
}

/// Returns the verdicts on the answered scans of a run, by its changes and its events.
pub(crate) fn sweep(
    alloc: Global,
    shape: Shape,
    changes: &[Change],
    events: &[Event],
    collects: &[u64],
) -> Result<Vec<Verdict>, AllocError>
    requires { (r : Run) × IsToldBy r shape changes.now events.now collects.now }
    ensures { IfOk result (λ v. (r : Run) → IsToldBy r shape changes.now events.now collects.now →
        v.items ≡ audit r) }
{
    let mut callers = new_callers(alloc, shape)?;
    let mut verdicts = Vec::new(alloc);
    let mut k = 0;
    while k < events.len() {
        note_event(
            alloc,
            changes,
            &mut callers,
            &mut verdicts,
            &events[k],
            collects[k],
        )?;
        k += 1;
    }
    Ok(verdicts)
}

/// Returns the verdict on each scan that was called and has been answered, in the order of the
/// answers: the least item from its call to its answer after which the values were its view, if
/// there is one, and how many double collects it made.
///
/// # Errors
///
/// `AllocError` where memory runs out.
pub fn audit<K: Kind>(alloc: Global, history: &Record<K>) -> Result<Vec<Verdict>, AllocError>
    ensures { IfOk result (λ v. v.items ≡ audit history.now) }
{
    // What `items` promises: the run of the record is a valid one.
    let _items = history.items();
    sweep(
        alloc,
        history.machine().shape(),
        history.changes(),
        history.events(),
        history.event_collects(),
    )
}

/// Returns the verdicts of `audit` on the run of `program` over the whole of `schedule`, of which
/// no record is kept.
///
/// # Errors
///
/// `AllocError` where memory runs out.
pub fn audit_over<K: Kind>(
    alloc: Global,
    program: &Program,
    schedule: &Schedule,
) -> Result<Vec<Verdict>, AllocError>
    requires { program.now.kind ≡ K.TAG }
    ensures { IfOk result (λ v. v.items ≡ audit (run_over program.now schedule.now)) }
{
    let mut walk = Walk::<K>::over(alloc, program, schedule)?;
    let mut watch = Watch::new(alloc, program, schedule)?;
    while let Some(passed) = walk.next_told(watch.silent_lines(), false)? {
        watch.note(&walk, passed)?;
    }
    watch.verdicts(alloc)
}
