//! `conduct_model`: a whole run that writes a model: it reads an input from a byte source and
//! writes the model of its listing and scripts, and nothing else, to a byte sink.
ghost use Rattle.std.specs.Prelude.{◌≡◌, false};
ghost use Rattle.snap_program.specs.WholeRun.{ConductsModel};

use crate::output::model_output;
use crate::whole_texts::{deliver, read_all};
use snap_faults::ProgramFault;
use snap_streams::{ByteSink, ByteSource};
use snap_tasks::Subject;
use std::alloc::Global;

/// Reads the input from `source`, and writes the model of its listing and scripts to `sink`, in
/// which at most `crashes` processes crash at any time. The input is kept in `kept`, even if it is
/// refused.
///
/// # Errors
///
/// The reason why the input is refused or has no model, a fault of a device, or `Memory` where
/// memory runs out.
pub fn conduct_model<R: ByteSource, W: ByteSink>(
    alloc: Global,
    subject: Subject,
    crashes: u64,
    source: &mut R,
    sink: &mut W,
    kept: &mut Vec<u8>,
) -> Result<(), ProgramFault>
    requires source { (R.state source.old).failed ≡ false }
    requires sink { (W.state sink.old).failed ≡ false }
    requires goes_on { (W.state sink.old).stalled ≡ false }
    ensures { ConductsModel subject kept.new.items result (R.state source.old)
        (R.state source.new) (W.state sink.old) (W.state sink.new) }
{
    *kept = read_all(alloc, source)?;
    let text = model_output(alloc, subject, crashes, kept.as_slice())?;
    deliver(text, (), sink)
}
