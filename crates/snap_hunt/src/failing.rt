//! What fails in a run, of the failures that are `Wanted`: that it is not linearizable, a scan
//! without a point, a trap, an operation of too many steps, or a scan of too many double collects.
ghost use Rattle.std.specs.Prelude.{◌≡◌, IfOk, length};
ghost use Rattle.snap_semantics.specs.Rules.{or_else};
ghost use Rattle.snap_runs.specs.Audit.{audit};
ghost use Rattle.snap_walk.specs.Walk.{Way};
ghost use Rattle.snap_audit.specs.Watch.{Watches, so_far};
ghost use Rattle.snap_hunt.specs.Finding.{Finds};
ghost use Rattle.snap_hunt.specs.Failing.{
  first_trap,
  many_collects,
  no_point,
  of_collects,
  of_points,
  of_steps,
  of_traps,
  trap_of,
};

use crate::failures::{Failure, Wanted};
use crate::judged::of_judgement;
use snap_audit::Watch;
use snap_machine::Machine;
use snap_run_judge::History;
use snap_runs::Verdict;
use snap_semantics::Status;
use snap_walk::Walk;
use snap_words::Kind;
use std::alloc::{AllocError, Global};

/// Returns the first scan that has no point.
fn no_point(verdicts: &[Verdict]) -> Option<Failure>
    ensures { result ≡ no_point verdicts.now }
{
    for verdict in verdicts {
        if verdict.point.is_none() {
            return Some(Failure::NoPoint(*verdict));
        }
    }
    None
}

/// Returns the first scan that made more than `most` double collects.
fn many_collects(verdicts: &[Verdict], most: u64) -> Option<Failure>
    ensures { result ≡ many_collects most verdicts.now }
{
    for verdict in verdicts {
        if most < verdict.collects {
            return Some(Failure::ManyCollects(*verdict));
        }
    }
    None
}

/// Returns that a process has trapped, if it has.
fn trap_of(process: u32, status: Status) -> Option<Failure>
    ensures { result ≡ trap_of process status }
{
    match status {
        Status::Trapped(cause, activity) => Some(Failure::Trapped {
            process,
            line: activity.line,
            cause,
        }),
        Status::Idle | Status::Busy(_) | Status::Crashed(_) => None,
    }
}

/// Returns the least process that has trapped.
#[tactic(auto, using(crate::proofs::Traps::trap_here, crate::proofs::Traps::trap_passed, crate::proofs::Traps::no_trap))]
fn first_trap<K: Kind>(machine: &Machine<K>) -> Option<Failure>
    ensures { result ≡ first_trap machine.now.state 1 machine.now.shape.n }
{
    for k in 0..machine.shape().n() {
        let process = k as u32 + 1;
        if let Some(found) = trap_of(process, machine.status(process)) {
            return Some(found);
        }
    }
    None
}

/// Returns the first scan without a point, if that failure is wanted.
fn of_points(wanted: &Wanted, verdicts: &[Verdict]) -> Option<Failure>
    ensures { result ≡ of_points wanted.now verdicts.now }
{
    if wanted.point {
        no_point(verdicts)
    } else {
        None
    }
}

/// Returns the least process that has trapped, if that failure is wanted.
fn of_traps<K: Kind>(wanted: &Wanted, machine: &Machine<K>) -> Option<Failure>
    ensures { result ≡ of_traps wanted.now machine.now.state machine.now.shape.n }
{
    if wanted.trap {
        first_trap(machine)
    } else {
        None
    }
}

/// Returns the first scan of too many double collects, if that failure is wanted.
fn of_collects(wanted: &Wanted, verdicts: &[Verdict]) -> Option<Failure>
    ensures { result ≡ of_collects wanted.now verdicts.now }
{
    match wanted.collects {
        Some(most) => many_collects(verdicts, most),
        None => None,
    }
}

/// Returns the verdicts on a run, if the first scan without a point, or with too many double
/// collects, is wanted.
#[tactic(auto, using(crate::proofs::Judging::no_points_asked, crate::proofs::Judging::no_collects_asked))]
fn verdicts_for(alloc: Global, watch: &Watch, wanted: &Wanted) -> Result<Vec<Verdict>, AllocError>
    requires { (w : Way) × Watches w watch.now }
    ensures points { IfOk result (λ vs. (w : Way) → Watches w watch.now →
        of_points wanted.now vs.items ≡ of_points wanted.now (audit (so_far w))) }
    ensures collects { IfOk result (λ vs. (w : Way) → Watches w watch.now →
        of_collects wanted.now vs.items ≡ of_collects wanted.now (audit (so_far w))) }
{
    if wanted.point || wanted.collects.is_some() {
        watch.verdicts(alloc)
    } else {
        Ok(Vec::new(alloc))
    }
}

/// Returns the first wanted failure that is seen in a run: a scan without a point, a trap,
/// `overrun`, which is the first operation of too many steps, or a scan of too many double
/// collects.
fn first_seen<K: Kind>(
    machine: &Machine<K>,
    verdicts: &[Verdict],
    overrun: Option<Failure>,
    wanted: &Wanted,
) -> Option<Failure>
    ensures { result ≡ or_else (of_points wanted.now verdicts.now)
        (or_else (of_traps wanted.now machine.now.state machine.now.shape.n)
        (or_else overrun (of_collects wanted.now verdicts.now))) }
{
    if let Some(found) = of_points(wanted, verdicts) {
        return Some(found);
    }
    if let Some(found) = of_traps(wanted, machine) {
        return Some(found);
    }
    if let Some(found) = overrun {
        return Some(found);
    }
    of_collects(wanted, verdicts)
}

/// Returns the first wanted failure of a run, behind its last item: that it is not linearizable, or
/// what is seen in it. `overrun` is the first operation of too many steps.
pub(crate) fn failure<K: Kind>(
    alloc: Global,
    walk: &Walk<'_, K>,
    watch: Watch,
    overrun: Option<Failure>,
    wanted: &Wanted,
) -> Result<Option<Failure>, AllocError>
    requires end { walk.now.at ≡ length walk.now.run.items }
    requires watch { Watches walk.now watch }
    requires overrun { overrun ≡ of_steps wanted.now walk.now.run }
    ensures { IfOk result (Finds wanted.now walk.now.run) }
{
    let verdicts = verdicts_for(alloc, &watch, wanted)?;
    let machine = walk.machine();
    let history = History {
        shape: machine.shape(),
        events: watch.into_events(),
    };
    let judged = of_judgement(alloc, machine.program(), &history, wanted)?;
    if judged.is_some() {
        return Ok(judged);
    }
    Ok(first_seen(machine, verdicts.as_slice(), overrun, wanted))
}
