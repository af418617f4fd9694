//! `model_output`: the model of what an input asks to play, or why there is none.
ghost use Rattle.std.specs.Prelude.{◌≡◌};
ghost use Rattle.snap_program.specs.ModelOutput.{AnswersInput};

use snap_faults::ProgramFault;
use snap_live_output::setup_of;
use snap_promela::model_text;
use snap_tasks::Subject;
use std::alloc::Global;

/// Returns the model, in the language of Spin, of the listing and the scripts in `input`, in which
/// at most `crashes` processes crash.
///
/// # Errors
///
/// The reason why `input` is refused, as that of a live run is; `Model` where no model holds its
/// scripts or one of its numbers; `Memory` where memory runs out.
pub fn model_output(
    alloc: Global,
    subject: Subject,
    crashes: u64,
    input: &[u8],
) -> Result<Vec<u8>, ProgramFault>
    ensures { AnswersInput subject input.now result }
{
    let setup = setup_of(alloc, subject, input)?;
    let text = model_text(alloc, setup.program().listing(), setup.scripts(), crashes)?;
    Ok(text)
}
