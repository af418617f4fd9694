//! `certification_text`: the printed certification of a run, a line for each operation in the order
//! of linearization points, or the line of what is missing and a verdict on the run.
ghost use Rattle.std.specs.Prelude.{◌≡◌, ◌++◌, IfOk, codes, drop};
ghost use Rattle.snap_text.specs.Drafted.{Adds};
ghost use Rattle.snap_certify.specs.Certification.{seen_certification};
ghost use Rattle.snap_certify.specs.CertificationText.{
  IsCertificateText,
  in_order,
  lack_text,
  missing_line,
  places_text,
  reason_text,
  scan_line,
  text_of,
  update_line,
  update_lines,
  writes_after,
  writes_until,
};
ghost use Rattle.snap_judge.specs.declared.judgements.Failing.{Failing};
ghost use Rattle.snap_run_judge.specs.RunHistory.{history_of};
ghost use Rattle.snap_run_judge.specs.RunJudgement.{IsRunJudgement, most_configurations};
ghost use Rattle.snap_run_judge.specs.VerdictText.{verdict_text};

use crate::found::{Lack, Missing};
use crate::order::{in_order, point_item};
use crate::{Certification, UpdateWrite, certify};
use snap_record::Record;
use snap_run_judge::{MOST_CONFIGURATIONS, judge_record, push_verdict};
use snap_runs::Verdict;
use snap_text::Draft;
use snap_words::Kind;
use std::alloc::{AllocError, Global};

/// Appends `update I call C place T word W value V`.
fn update_line(out: &mut Draft, write: &UpdateWrite)
    ensures { Adds out.old out.new (update_line write.now) }
{
    out.push(b"update ");
    out.push_number(u64::from(write.process));
    out.push(b" call ");
    out.push_number(write.call);
    out.push(b" place ");
    out.push_number(write.item);
    out.push(b" word ");
    out.push_number(write.word);
    out.push(b" value ");
    out.push_number(write.value);
    out.push(b"\n");
}

/// Appends `scan I call C place T answer E`.
fn scan_line(out: &mut Draft, verdict: &Verdict)
    ensures { Adds out.old out.new (scan_line verdict.now) }
{
    out.push(b"scan ");
    out.push_number(u64::from(verdict.process));
    out.push(b" call ");
    out.push_number(verdict.call);
    out.push(b" place ");
    out.push_number(point_item(verdict));
    out.push(b" answer ");
    out.push_number(verdict.answer);
    out.push(b"\n");
}

/// Appends the lines of the writes from a place on.
fn update_lines(out: &mut Draft, writes: &[UpdateWrite], from: usize)
    ensures { Adds out.old out.new (update_lines (drop from writes.now)) }
{
    let mut k = from;
    while k < writes.len() {
        update_line(out, &writes[k]);
        k += 1;
    }
}

/// Returns the lines of the next writes up to an item, and which write comes then.
fn writes_until(out: &mut Draft, writes: &[UpdateWrite], next: usize, item: u64) -> usize
    ensures text { Adds out.old out.new
        (update_lines (writes_until item (drop next writes.now))) }
    ensures left { drop result writes.now ≡ writes_after item (drop next writes.now) }
{
    let mut k = next;
    while k < writes.len() {
        if writes[k].item > item {
            return k;
        }
        update_line(out, &writes[k]);
        k += 1;
    }
    k
}

/// Appends the lines of writes and scans, in the order of their places.
fn places_text(out: &mut Draft, writes: &[UpdateWrite], scans: &[Verdict])
    ensures { Adds out.old out.new (places_text writes.now scans.now) }
{
    let mut next = 0;
    for scan in scans {
        next = writes_until(out, writes, next, point_item(scan));
        scan_line(out, scan);
    }
    update_lines(out, writes, next);
}

/// Appends what is missing, in words.
fn lack_text(out: &mut Draft, lack: Lack)
    ensures { Adds out.old out.new (lack_text lack) }
{
    match lack {
        Lack::Line => out.push(b"another line changes the values"),
        Lack::Update => out.push(b"a scan executes the line at which updates write"),
        Lack::FirstWrite => out.push(b"the update writes twice"),
        Lack::OwnValue => out.push(b"the update writes something else"),
        Lack::Write => out.push(b"the update ends without its write"),
        Lack::Point => out.push(b"the scan has no point"),
    }
}

/// Appends `: WHAT`.
fn reason_text(out: &mut Draft, lack: Lack)
    ensures { Adds out.old out.new (reason_text lack) }
{
    out.push(b": ");
    lack_text(out, lack);
    out.push(b"\n");
}

/// Appends `process I call C item T: WHAT`.
fn missing_line(out: &mut Draft, missing: &Missing)
    ensures { Adds out.old out.new (missing_line missing.now) }
{
    out.push(b"process ");
    out.push_number(u64::from(missing.process));
    out.push(b" call ");
    out.push_number(missing.call);
    out.push(b" item ");
    out.push_number(missing.item);
    reason_text(out, missing.lack);
}

/// Returns the text of a certified run: its operations in the order of their places.
fn certified_text(
    alloc: Global,
    writes: &[UpdateWrite],
    scans: &[Verdict],
) -> Result<Vec<u8>, AllocError>
    ensures { IfOk result (λ out. out.items
        ≡ codes "linearizable by these points\n" ++ places_text writes.now scans.now) }
{
    let mut out = Draft::new(alloc);
    out.push(b"linearizable by these points\n");
    places_text(&mut out, writes, scans);
    out.finish()
}

/// Returns the text of what is missing.
fn missing_text(alloc: Global, missing: &Missing) -> Result<Vec<u8>, AllocError>
    ensures { IfOk result (λ out. out.items ≡ missing_line missing.now) }
{
    let mut out = Draft::new(alloc);
    missing_line(&mut out, missing);
    out.finish()
}

/// Returns the text of a certification.
pub(crate) fn text_of(alloc: Global, certification: &Certification) -> Result<Vec<u8>, AllocError>
    ensures { IfOk result (λ out. out.items ≡ text_of (seen_certification certification.now)) }
{
    match certification {
        Certification::Certified(found) => {
            let scans = in_order(alloc, found.points.as_slice())?;
            certified_text(alloc, found.writes.as_slice(), scans.as_slice())
        }
        Certification::Missing(missing) => missing_text(alloc, missing),
    }
}

/// Returns `text`, and behind it the verdict on the run of `history`.
pub(crate) fn with_verdict<K: Kind>(
    alloc: Global,
    history: &Record<K>,
    text: Vec<u8>,
) -> Result<Vec<u8>, AllocError>
    ensures { IfOk result (λ out. (j : Failing)
        × IsRunJudgement most_configurations history.now j
        × (out.items ≡ text.items ++ verdict_text (history_of history.now) j)) }
{
    let failing = judge_record(alloc, history, MOST_CONFIGURATIONS)?;
    let mut out = Draft::of(text);
    push_verdict(&mut out, history, failing);
    out.finish()
}

/// Returns what a record is certified by, a line for each operation in the order of places; or what
/// is missing, in one line, and then whether the run is linearizable all the same.
///
/// # Errors
///
/// `AllocError` where memory runs out.
pub fn certification_text<K: Kind>(
    alloc: Global,
    history: &Record<K>,
) -> Result<Vec<u8>, AllocError>
    ensures { IfOk result (λ out. IsCertificateText history.now out.items) }
{
    let certification = certify(alloc, history)?;
    let text = text_of(alloc, &certification)?;
    match certification {
        Certification::Certified(_) => Ok(text),
        Certification::Missing(_) => with_verdict(alloc, history, text),
    }
}
