//! What `why` prints of the point of a scan: the item, or, if memory never held what the scan
//! answered, whether the run up to the answer is linearizable.
ghost use Rattle.std.specs.Prelude.{◌≡◌, ◌≤◌, IfOk, codes, length};
ghost use Rattle.snap_judge.specs.declared.judgements.Failing.{Failing};
ghost use Rattle.snap_run_judge.specs.RunJudgement.{IsRunJudgement, most_configurations};
ghost use Rattle.snap_runs.specs.Run.{run_over};
ghost use Rattle.snap_why.specs.Answer.{IsPointText, goto_line, no_point_lines};

use crate::answer::push_goto_line;
use crate::why::record_of_first;
use snap_asm_program::Program;
use snap_record::Record;
use snap_run_judge::{MOST_CONFIGURATIONS, judge_record, push_verdict};
use snap_sched::Schedule;
use snap_text::Draft;
use snap_words::Kind;
use std::alloc::{AllocError, Global};

/// Returns the line of a point.
fn point_line(alloc: Global, point: u64) -> Result<Vec<u8>, AllocError>
    ensures { IfOk result (λ text. text.items ≡ goto_line (codes "point") point) }
{
    let mut text = Draft::new(alloc);
    push_goto_line(&mut text, b"point", point);
    text.finish()
}

/// Returns that a scan has no point, and the verdict on the run of a record, which ends with its
/// answer.
fn no_point_lines<K: Kind>(alloc: Global, record: &Record<K>) -> Result<Vec<u8>, AllocError>
    ensures { IfOk result (λ text. (j : Failing)
        × IsRunJudgement most_configurations record.now j
        × (text.items ≡ no_point_lines record.now j)) }
{
    let failing = judge_record(alloc, record, MOST_CONFIGURATIONS)?;
    let mut text = Draft::new(alloc);
    text.push(b"point: none, memory never held this from the call to the answer\n");
    text.push(b"up to this answer: ");
    push_verdict(&mut text, record, failing);
    text.finish()
}

/// Returns the text on the point of a scan, which an item answers. If there is none, the run up to
/// that item is judged.
pub(crate) fn point_text<K: Kind>(
    alloc: Global,
    program: &Program,
    schedule: &Schedule,
    point: Option<u64>,
    item: u64,
) -> Result<Vec<u8>, AllocError>
    requires kind { program.now.kind ≡ K.TAG }
    requires few { item ≤ length schedule.now.items }
    ensures { IfOk result (λ text.
        IsPointText (run_over program.now schedule.now) item point text.items) }
{
    let Some(point) = point else {
        let record = record_of_first::<K>(alloc, program, schedule, item)?;
        return no_point_lines(alloc, &record);
    };
    point_line(alloc, point)
}
