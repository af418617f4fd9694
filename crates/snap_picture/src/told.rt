//! `told_shapes`: reads a schedule, runs a listing over it, and tells what a picture draws of the
//! run, as lines of text.
ghost use Rattle.std.specs.Prelude.{◌≡◌, IfOk};
ghost use Rattle.snap_runs.specs.Run.{run_over};
ghost use Rattle.snap_semantics.specs.Answers.{Answers};
ghost use Rattle.snap_picture.specs.ShapeLines.{shape_lines, told_of};
ghost use Rattle.snap_picture.specs.Shapes.{shapes};

use crate::drawing::{schedule_of, window_for};
use crate::options::Options;
use crate::refusal::PictureRefusal;
use crate::shape_lines::push_shape_lines;
use crate::shapes;
use crate::window::Window;
use snap_acts::trace;
use snap_asm_program::Program;
use snap_record::record_over;
use snap_sched::Schedule;
use snap_semantics::Fault;
use snap_text::Draft;
use snap_words::{Bits, Kind, KindTag, Multi, Seq};
use std::alloc::{AllocError, Global};

/// Returns what is drawn of a program's run over a schedule, as far as it is in a window.
fn told_text<K: Kind>(
    alloc: Global,
    program: &Program,
    items: &Schedule,
    window: &Window,
) -> Result<Vec<u8>, AllocError>
    requires { program.now.kind ≡ K.TAG }
    ensures { IfOk result (λ out. out.items
        ≡ shape_lines window.now (shapes (run_over program.now items.now))) }
{
    let history = record_over::<K>(alloc, program, items)?;
    let steps = trace::<K>(alloc, program, items)?;
    let shapes = shapes(alloc, &history, steps.as_slice())?;
    let mut out = Draft::new(alloc);
    push_shape_lines(&mut out, window, shapes.as_slice());
    out.finish()
}

/// Returns what is drawn of a program of a kind under a schedule.
#[tactic(auto, unfolding(crate::specs::ShapeLines::told_of))]
fn told_of_kind<K: Kind>(
    alloc: Global,
    program: &Program,
    schedule: &[u8],
    options: &Options,
) -> Result<Vec<u8>, Fault<PictureRefusal>>
    requires { program.now.kind ≡ K.TAG }
    ensures { Answers (λ out. out.items) result
        (told_of program.now schedule.now options.now) }
{
    let items = schedule_of::<K>(alloc, program, schedule)?;
    match window_for(items.items().len(), items.shape(), options) {
        Ok(window) => Ok(told_text::<K>(alloc, program, &items, &window)?),
        Err(refusal) => Err(Fault::Refused(refusal)),
    }
}

/// Returns what a picture draws of a program under a schedule, a line a shape, in items and
/// processes. Nothing is judged for it, and nothing crossed out.
///
/// # Errors
///
/// `Refused` if the schedule is none of the program's, or if there are no such items, or too many;
/// `Memory` where memory runs out.
pub fn told_shapes(
    alloc: Global,
    program: &Program,
    schedule: &[u8],
    options: &Options,
) -> Result<Vec<u8>, Fault<PictureRefusal>>
    ensures { Answers (λ out. out.items) result
        (told_of program.now schedule.now options.now) }
{
    match program.kind() {
        KindTag::Seq => told_of_kind::<Seq>(alloc, program, schedule, options),
        KindTag::Bits => told_of_kind::<Bits>(alloc, program, schedule, options),
        KindTag::Multi => told_of_kind::<Multi>(alloc, program, schedule, options),
    }
}
