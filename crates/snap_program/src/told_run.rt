//! `conduct_telling`: a whole run of a listing under a schedule, which also answers what is told of
//! the calls that the run skipped.
ghost use Rattle.std.specs.Prelude.{◌≡◌, [], Err, IfOk, false};
ghost use Rattle.snap_semantics.specs.Answers.{Answers};
ghost use Rattle.snap_semantics.specs.declared.fault.Fault.TheVariants.{Refused};
ghost use Rattle.snap_semantics.specs.declared.refusal.Refusal.{Refusal};
ghost use Rattle.snap_output.specs.Output.{output_of};
ghost use Rattle.snap_program.specs.Skipped.{run_in, told_in};
ghost use Rattle.snap_program.specs.TaskRun.{ConductsTelling};
ghost use Rattle.snap_tasks.specs.declared.task.Task.TheVariants.{Run};

use crate::skipped::skipped_text;
use crate::whole_run::run_kept;
use crate::whole_texts::{deliver, read_all};
use snap_faults::ProgramFault;
use snap_semantics::{Fault, Refusal};
use snap_streams::{ByteSink, ByteSource};
use snap_tasks::Subject;
use std::alloc::Global;

/// What a run comes to: its output, and the text on the calls that it skipped.
#[derive(Drop)]
pub struct ToldRun {
    pub text: Vec<u8>,
    pub told: Vec<u8>,
}

/// Returns the output for the input that is kept, and the text on the calls that its run skips. If
/// the input is refused, it is still kept.
fn told_run(alloc: Global, subject: Subject, kept: &mut Vec<u8>) -> Result<ToldRun, Fault<Refusal>>
    ensures output { Answers (λ run. run.text.items) result
        (output_of [] (Run subject) kept.old.items) }
    ensures told { IfOk result (λ run. run.told.items ≡ told_in (run_in subject kept.old.items)) }
    ensures kept { (r : Refusal) → result ≡ Err (Refused r) → kept.new.items ≡ kept.old.items }
{
    let told = skipped_text(alloc, subject, kept.as_slice())?;
    let text = run_kept(alloc, subject, kept)?;
    Ok(ToldRun { text, told })
}

/// Reads the input from `source`, writes the output of its run to `sink` and nothing else, and
/// returns the text on the calls that the run skipped. The input is kept in `kept` if it is
/// refused.
///
/// # Errors
///
/// The reason why the input is refused, a fault of a device, or `Memory` where memory runs out.
pub fn conduct_telling<R: ByteSource, W: ByteSink>(
    alloc: Global,
    subject: Subject,
    source: &mut R,
    sink: &mut W,
    kept: &mut Vec<u8>,
) -> Result<Vec<u8>, ProgramFault>
    requires source { (R.state source.old).failed ≡ false }
    requires sink { (W.state sink.old).failed ≡ false }
    requires goes_on { (W.state sink.old).stalled ≡ false }
    ensures { ConductsTelling result subject kept.new.items (R.state source.old)
        (R.state source.new) (W.state sink.old) (W.state sink.new) }
{
    *kept = read_all(alloc, source)?;
    let found = told_run(alloc, subject, kept)?;
    deliver(found.text, found.told, sink)
}
