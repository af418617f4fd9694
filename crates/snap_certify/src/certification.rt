//! `certify`: the certification of a record: what it is certified by, or the first thing that is
//! missing.
ghost use Rattle.std.specs.Prelude.{◌≡◌, IfOk, IsOk, Ok};
ghost use Rattle.snap_runs.specs.Linearization.{IsLinearizable};
ghost use Rattle.snap_runs.specs.Audit.{audit};
ghost use Rattle.snap_runs.specs.Run.{Run, run_over};
ghost use Rattle.snap_certify.specs.Certificate.{IsCertificate};
ghost use Rattle.snap_certify.specs.Certification.{
  Evidence,
  certificate_of,
  certification_of,
  point_of,
  points,
  seen_certification,
  write_line,
};
ghost use Rattle.snap_certify.specs.Finding.{pointed};

use crate::certificate::{Certification, Certified};
use crate::certificates::certified_has_certificate;
use crate::found::{Lack, Missing, UpdateWrite};
use crate::line::write_line;
use crate::pass::find;
use snap_asm_program::Program;
use snap_record::Record;
use snap_runs::Verdict;
use snap_sched::Schedule;
use snap_words::Kind;
use std::alloc::{AllocError, Global};

/// Checks that a scan has its point; without one, a point is missing at its answer.
fn point_of(verdict: &Verdict) -> Result<(), Missing>
    ensures { result ≡ point_of verdict.now verdict.now.point }
{
    match verdict.point {
        Some(_) => Ok(()),
        None => Err(Missing {
            lack: Lack::Point,
            process: verdict.process,
            call: verdict.call,
            item: verdict.answer,
        }),
    }
}

/// Checks that each scan has its point.
fn points(verdicts: &[Verdict]) -> Result<(), Missing>
    ensures { result ≡ points verdicts.now }
{
    for verdict in verdicts {
        point_of(verdict)?;
    }
    Ok(())
}

/// Returns the certificate of these writes and verdicts, if each scan has its point, or what is
/// missing.
fn pointed(line: u64, writes: Vec<UpdateWrite>, verdicts: Vec<Verdict>) -> Certification
    ensures { (r : Run) → verdicts.items ≡ audit r →
        seen_certification result ≡ pointed r line writes.items }
{
    match points(verdicts.as_slice()) {
        Ok(()) => Certification::Certified(Certified {
            line,
            writes,
            points: verdicts,
        }),
        Err(missing) => Certification::Missing(missing),
    }
}

/// Returns the certification of the run of a program over a schedule.
pub(crate) fn certification_over<K: Kind>(
    alloc: Global,
    program: &Program,
    schedule: &Schedule,
) -> Result<Certification, AllocError>
    requires { program.now.kind ≡ K.TAG }
    ensures { IfOk result (λ c. seen_certification c
        ≡ certification_of (run_over program.now schedule.now)) }
{
    let line = write_line::<K>(alloc, program, schedule)?;
    let found = find::<K>(alloc, program, schedule, line)?;
    let (finder, watch) = found;
    let (writes, missing) = finder.found();
    match missing {
        Some(missing) => Ok(Certification::Missing(missing)),
        None => {
            let verdicts = watch.verdicts(alloc)?;
            Ok(pointed(line, writes, verdicts))
        }
    }
}

/// Returns the certification of a record.
fn conclude<K: Kind>(alloc: Global, history: &Record<K>) -> Result<Certification, AllocError>
    ensures { IfOk result (λ c. seen_certification c ≡ certification_of history.now) }
{
    let schedule = history.schedule()?;
    certification_over::<K>(alloc, history.machine().program(), &schedule)
}

/// Returns what a record is certified by, or the first thing that is missing: of the writes, in the
/// order of the items, and then of the points, in the order of the answers. A certified run has a
/// certificate, and is linearizable.
///
/// # Errors
///
/// `AllocError` where memory runs out.
pub fn certify<K: Kind>(alloc: Global, history: &Record<K>) -> Result<Certification, AllocError>
    ensures exact { IfOk result (λ c. seen_certification c ≡ certification_of history.now) }
    ensures certificate { IfOk result (λ c. (e : Evidence) → seen_certification c ≡ Ok e →
        IsCertificate (write_line history.now) history.now (certificate_of history.now e)) }
    ensures linearizable { IfOk result (λ c.
        IsOk (seen_certification c) → IsLinearizable history.now) }
{
    certified_has_certificate();
    // What `items` promises: the run of the record is a valid one.
    let _items = history.items();
    conclude(alloc, history)
}
