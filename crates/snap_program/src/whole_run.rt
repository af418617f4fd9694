//! `conduct` and its variants: a whole run of the program, which reads an input from a byte source
//! and writes its output, and nothing else, to a byte sink.
ghost use Rattle.std.specs.Prelude.{◌≡◌, [], Err, false};
ghost use Rattle.snap_semantics.specs.Answers.{Answers};
ghost use Rattle.snap_semantics.specs.declared.fault.Fault.TheVariants.{Refused};
ghost use Rattle.snap_semantics.specs.declared.refusal.Refusal.{Refusal};
ghost use Rattle.snap_output.specs.Output.{AnswersOutput, output_of};
ghost use Rattle.snap_program.specs.TaskRun.{Conducts, ConductsTask};
ghost use Rattle.snap_tasks.specs.declared.task.Task.TheVariants.{Run};

use crate::whole_texts::{deliver, done_of, read_all};
use snap_faults::ProgramFault;
use snap_output::{Output, output, planned_run, run_planned};
use snap_semantics::{Fault, Refusal};
use snap_streams::{ByteSink, ByteSource};
use snap_tasks::{Subject, Task};
use std::alloc::Global;
use std::thread::Threads;

/// Returns the output for the input that is kept, if it is run. The input is freed once its program
/// and its schedule are read.
pub(crate) fn run_kept(
    alloc: Global,
    subject: Subject,
    kept: &mut Vec<u8>,
) -> Result<Vec<u8>, Fault<Refusal>>
    ensures output { Answers (λ out. out.items) result
        (output_of [] (Run subject) kept.old.items) }
    ensures kept { (r : Refusal) → result ≡ Err (Refused r) → kept.new.items ≡ kept.old.items }
{
    let run = planned_run(alloc, subject, kept.as_slice())?;
    // A run needs no text, and no text need be kept of an input that is not refused.
    *kept = Vec::new(alloc);
    Ok(run_planned(alloc, run)?)
}

/// Returns the whole output for the input that is kept, and whether all runs that are surveyed are
/// clean. If the input is refused, it is still kept.
#[tactic(auto, unfolding(snap_output::specs::Output::clean_of))]
fn kept_output(
    rt: &(impl Threads + Sync),
    alloc: Global,
    task: &Task,
    kept: &mut Vec<u8>,
) -> Result<Output, Fault<Refusal>>
    ensures output { AnswersOutput task.now kept.old.items result }
    ensures kept { (r : Refusal) → result ≡ Err (Refused r) → kept.new.items ≡ kept.old.items }
{
    match *task {
        Task::Run(subject) => {
            let text = run_kept(alloc, subject, kept)?;
            Ok(Output { text, clean: true })
        }
        _ => output(rt, alloc, task, kept.as_slice()),
    }
}

/// Reads the input from `source`, and then writes its whole output to `sink` and nothing else.
///
/// # Errors
///
/// The reason why the input is refused, a fault of a device, or `Memory` where memory runs out.
pub fn conduct<R: ByteSource, W: ByteSink>(
    rt: &(impl Threads + Sync),
    alloc: Global,
    task: &Task,
    source: &mut R,
    sink: &mut W,
) -> Result<(), ProgramFault>
    requires source { (R.state source.old).failed ≡ false }
    requires sink { (W.state sink.old).failed ≡ false }
    requires goes_on { (W.state sink.old).stalled ≡ false }
    ensures { Conducts result task.now (R.state source.old) (R.state source.new) (W.state sink.old)
        (W.state sink.new) }
{
    let mut kept = Vec::new(alloc);
    done_of(conduct_keeping(rt, alloc, task, source, sink, &mut kept))
}

/// Does what `conduct` does, and returns whether all runs that are surveyed are clean, as those of
/// any other task are. The input is kept in `kept`, even if it is refused.
///
/// # Errors
///
/// The reason why the input is refused, a fault of a device, or `Memory` where memory runs out.
pub fn conduct_keeping<R: ByteSource, W: ByteSink>(
    rt: &(impl Threads + Sync),
    alloc: Global,
    task: &Task,
    source: &mut R,
    sink: &mut W,
    kept: &mut Vec<u8>,
) -> Result<bool, ProgramFault>
    requires source { (R.state source.old).failed ≡ false }
    requires sink { (W.state sink.old).failed ≡ false }
    requires goes_on { (W.state sink.old).stalled ≡ false }
    ensures { ConductsTask result task.now kept.new.items (R.state source.old) (R.state source.new)
        (W.state sink.old) (W.state sink.new) }
{
    *kept = read_all(alloc, source)?;
    let found = kept_output(rt, alloc, task, kept)?;
    deliver(found.text, found.clean, sink)
}
