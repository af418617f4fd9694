//! `history_text`: the record of a live run as text, its items as a schedule and then the report of
//! its end.
ghost use Rattle.std.specs.Prelude.{◌≡◌, ◌++◌, IfOk, length};
ghost use Rattle.snap_text.specs.Drafted.{Adds};
ghost use Rattle.snap_report.specs.RunReport.{report_at};
ghost use Rattle.snap_live_output.specs.LiveOutput.{history_text};

use snap_record::Record;
use snap_report::report;
use snap_sched::print;
use snap_text::Draft;
use snap_words::Kind;
use std::alloc::{AllocError, Global};

/// Appends the report of the position after all items of a record.
fn push_report<K: Kind>(out: &mut Draft, record: &Record<K>)
    ensures { Adds out.old out.new (report_at record.now (length record.now.items)) }
{
    let position = record.items().len();
    report(out, record.machine(), record.events(), position, position);
}

/// Returns a record as the text of a schedule, and the report of its end.
///
/// # Errors
///
/// `AllocError` where memory runs out.
pub fn history_text<K: Kind>(alloc: Global, record: &Record<K>) -> Result<Vec<u8>, AllocError>
    ensures { IfOk result (λ out. out.items ≡ history_text record.now) }
{
    let schedule = record.schedule()?;
    let mut out = Draft::of(print(alloc, &schedule)?);
    push_report(&mut out, record);
    out.finish()
}
