//! `conduct_judge`: a whole run that judges: it reads an input from a byte source and writes the
//! judgement, and nothing else, to a byte sink.
ghost use Rattle.std.specs.Prelude.{◌≡◌, false};
ghost use Rattle.snap_program.specs.WholeRun.{ConductsJudge};

use crate::whole_texts::{deliver, read_all};
use snap_faults::ProgramFault;
use snap_judge_task::{Linearizability, judge_input};
use snap_streams::{ByteSink, ByteSource};
use snap_tasks::JudgeRequest;
use std::alloc::Global;

/// Reads the input from `source`, judges it, writes the judgement to `sink` and nothing else, and
/// returns the word for it. The input is kept in `kept`, even if it is refused.
///
/// # Errors
///
/// The reason why the input is refused, a fault of a device, or `Memory` where memory runs out.
pub fn conduct_judge<R: ByteSource, W: ByteSink>(
    alloc: Global,
    request: &JudgeRequest,
    source: &mut R,
    sink: &mut W,
    kept: &mut Vec<u8>,
) -> Result<Linearizability, ProgramFault>
    requires source { (R.state source.old).failed ≡ false }
    requires sink { (W.state sink.old).failed ≡ false }
    requires goes_on { (W.state sink.old).stalled ≡ false }
    ensures { ConductsJudge request.now kept.new.items result (R.state source.old)
        (R.state source.new) (W.state sink.old) (W.state sink.new) }
{
    *kept = read_all(alloc, source)?;
    let found = judge_input(alloc, request, kept.as_slice())?;
    deliver(found.text, found.word, sink)
}
