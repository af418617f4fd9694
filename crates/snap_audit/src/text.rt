//! The printed text of an audit: a line for the verdict on each answered scan.
ghost use Rattle.std.specs.Prelude.{◌≡◌, IfOk};
ghost use Rattle.snap_text.specs.Drafted.{Adds};
ghost use Rattle.snap_runs.specs.Run.{run_over};
ghost use Rattle.snap_audit.specs.VerdictText.{audit_text, point_text, verdict_line, verdict_lines};

use crate::sweep::{audit, audit_over};
use snap_asm_program::Program;
use snap_record::Record;
use snap_runs::Verdict;
use snap_sched::Schedule;
use snap_text::Draft;
use snap_words::Kind;
use std::alloc::{AllocError, Global};

/// Appends a point, or that there is none.
fn push_point(out: &mut Draft, point: Option<u64>)
    ensures { Adds out.old out.new (point_text point) }
{
    match point {
        Some(item) => out.push_number(item),
        None => out.push(b"none"),
    }
}

/// Appends the line of a verdict, `scan I call C answer E point P collects N`.
pub fn push_verdict_line(out: &mut Draft, verdict: &Verdict)
    ensures { Adds out.old out.new (verdict_line verdict.now) }
{
    out.push(b"scan ");
    out.push_number(u64::from(verdict.process));
    out.push(b" call ");
    out.push_number(verdict.call);
    out.push(b" answer ");
    out.push_number(verdict.answer);
    out.push(b" point ");
    push_point(out, verdict.point);
    out.push(b" collects ");
    out.push_number(verdict.collects);
    out.push(b"\n");
}

/// Returns the line of a verdict, `scan I call C answer E point P collects N`.
///
/// # Errors
///
/// `AllocError` where memory runs out.
pub fn verdict_line(alloc: Global, verdict: &Verdict) -> Result<Vec<u8>, AllocError>
    ensures { IfOk result (λ line. line.items ≡ verdict_line verdict.now) }
{
    let mut line = Draft::new(alloc);
    push_verdict_line(&mut line, verdict);
    line.finish()
}

/// Appends the lines of verdicts.
fn push_verdict_lines(out: &mut Draft, verdicts: &[Verdict])
    ensures { Adds out.old out.new (verdict_lines verdicts.now) }
{
    for verdict in verdicts {
        push_verdict_line(out, verdict);
    }
}

/// Returns the text of verdicts, a line for each.
fn text_of(alloc: Global, verdicts: &[Verdict]) -> Result<Vec<u8>, AllocError>
    ensures { IfOk result (λ out. out.items ≡ verdict_lines verdicts.now) }
{
    let mut out = Draft::new(alloc);
    push_verdict_lines(&mut out, verdicts);
    out.finish()
}

/// Returns the audit of a record, a line for each verdict.
///
/// # Errors
///
/// `AllocError` where memory runs out.
pub fn audit_text<K: Kind>(alloc: Global, history: &Record<K>) -> Result<Vec<u8>, AllocError>
    ensures { IfOk result (λ out. out.items ≡ audit_text history.now) }
{
    let verdicts = audit(alloc, history)?;
    text_of(alloc, verdicts.as_slice())
}

/// Returns the audit of a program's run over a whole schedule, a line for each verdict.
///
/// # Errors
///
/// `AllocError` where memory runs out.
pub fn audit_text_over<K: Kind>(
    alloc: Global,
    program: &Program,
    schedule: &Schedule,
) -> Result<Vec<u8>, AllocError>
    requires { program.now.kind ≡ K.TAG }
    ensures { IfOk result (λ out. out.items ≡ audit_text (run_over program.now schedule.now)) }
{
    let verdicts = audit_over::<K>(alloc, program, schedule)?;
    text_of(alloc, verdicts.as_slice())
}
