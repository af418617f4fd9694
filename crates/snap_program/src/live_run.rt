//! `conduct_live` and `conduct_live_keeping`: a whole live run, which reads an input from a byte
//! source and writes its history, and nothing else, to a byte sink.
ghost use Rattle.std.specs.Prelude.{◌≡◌, ◌≤◌, false};
ghost use Rattle.snap_words.specs.Shape.{max_items};
ghost use Rattle.snap_program.specs.WholeRun.{ConductsLive, ConductsLiveKeeping};

use crate::whole_texts::{deliver, done_of, read_all};
use snap_faults::ProgramFault;
use snap_live::Gate;
use snap_live_output::live_output;
use snap_streams::{ByteSink, ByteSource};
use snap_tasks::Subject;
use std::alloc::Global;
use std::sync::Wait;
use std::thread::Threads;

/// What is played live: whose scripts, how many turns each process may make, and the gate that is
/// asked before each of them.
#[derive(Clone, Copy)]
pub struct LiveTask<'g, G> {
    pub subject: Subject,
    pub limit: u64,
    pub gate: &'g G,
}

/// Reads the input from `source`, plays its scripts live, each process with at most `limit` turns
/// before each of which `gate` is asked, and then writes the history of that run to `sink` and
/// nothing else.
///
/// # Errors
///
/// The reason why the input is refused or the live run fails, a fault of a device, or `Memory`
/// where memory runs out.
pub fn conduct_live<G: Gate, R: ByteSource, W: ByteSink>(
    rt: &(impl Threads + Wait + Sync),
    alloc: Global,
    subject: Subject,
    limit: u64,
    gate: &G,
    source: &mut R,
    sink: &mut W,
) -> Result<(), ProgramFault>
    requires limit { (1 ≤ limit) × (limit ≤ max_items) }
    requires source { (R.state source.old).failed ≡ false }
    requires sink { (W.state sink.old).failed ≡ false }
    requires goes_on { (W.state sink.old).stalled ≡ false }
    ensures { ConductsLive (G.may_answer gate.now) subject limit result (R.state source.old)
        (R.state source.new) (W.state sink.old) (W.state sink.new) }
{
    let mut kept = Vec::new(alloc);
    let task = LiveTask {
        subject,
        limit,
        gate,
    };
    done_of(conduct_live_keeping(rt, alloc, &task, source, sink, &mut kept))
}

/// Does what `conduct_live` does, and returns the text on the operations in the scripts that call
/// nothing. The input is kept in `kept`, even if it is refused.
///
/// # Errors
///
/// The reason why the input is refused or the live run fails, a fault of a device, or `Memory`
/// where memory runs out.
pub fn conduct_live_keeping<G: Gate, R: ByteSource, W: ByteSink>(
    rt: &(impl Threads + Wait + Sync),
    alloc: Global,
    task: &LiveTask<'_, G>,
    source: &mut R,
    sink: &mut W,
    kept: &mut Vec<u8>,
) -> Result<Vec<u8>, ProgramFault>
    requires limit { (1 ≤ task.now.limit) × (task.now.limit ≤ max_items) }
    requires source { (R.state source.old).failed ≡ false }
    requires sink { (W.state sink.old).failed ≡ false }
    requires goes_on { (W.state sink.old).stalled ≡ false }
    ensures { ConductsLiveKeeping (G.may_answer task.now.gate.now) task.now.subject task.now.limit
        kept.new.items result (R.state source.old) (R.state source.new) (W.state sink.old)
        (W.state sink.new) }
{
    *kept = read_all(alloc, source)?;
    let found = live_output(
        rt,
        alloc,
        task.subject,
        task.limit,
        task.gate,
        kept.as_slice(),
    )?;
    deliver(found.text, found.uncalled, sink)
}
