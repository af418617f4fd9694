//! `picture`: reads a schedule, runs a listing over it, and draws the run as SVG.
ghost use Rattle.std.specs.Prelude.{◌≡◌, ◌≤◌, IfOk, Option, option_map};
ghost use Rattle.snap_words.specs.Shape.{max_items};
ghost use Rattle.snap_runs.specs.Run.{run_over};
ghost use Rattle.snap_semantics.specs.Answers.{Answers, Gives, refused_as};
ghost use Rattle.snap_semantics.specs.declared.event.Event.{Event};
ghost use Rattle.snap_input.specs.Schedules.{schedule_for};
ghost use Rattle.snap_picture.specs.Crossed.{FailsBy};
ghost use Rattle.snap_picture.specs.Picture.{AnswersPicture, FailsUnder};
ghost use Rattle.snap_picture.specs.Picture.{counts_of, given_or, part_between, part_of};
ghost use Rattle.snap_picture.specs.Picture.{picture_by, picture_of, picture_text};
ghost use Rattle.snap_picture.specs.declared.refusal.PictureRefusal.TheVariants as refusal;

use crate::crossed::{crossed_at, wrong_at};
use crate::frame::{Counts, push_foot, push_head, push_input};
use crate::options::{Look, Options};
use crate::print::push_shapes;
use crate::refusal::PictureRefusal;
use crate::shape::Shape;
use crate::shapes;
use crate::sought::{Sought, count};
use crate::window::Window;
use snap_acts::trace;
use snap_asm_program::Program;
use snap_record::{Record, record_over};
use snap_run_judge::judge_record;
use snap_sched::Schedule;
use snap_semantics::{Event, Fault};
use snap_text::Draft;
use snap_words::{Bits, Kind, KindTag, Multi, Seq};
use std::alloc::{AllocError, Global};

/// The most items that a picture has.
const MOST_ITEMS: u64 = 20_000;

/// What stands around the shapes of a picture: the items that are drawn, the texts of the run's
/// input, and how the picture looks.
#[derive(Clone, Copy)]
struct Frame<'a> {
    window: &'a Window,
    /// The text of the listing, if one is given.
    listing: Option<&'a [u8]>,
    /// The text of the schedule.
    schedule: &'a [u8],
    look: &'a Look<'a>,
}

fn given_or(other: u64, given: Option<u64>) -> u64
    ensures { result ≡ given_or other given }
{
    match given {
        Some(number) => number,
        None => other,
    }
}

/// Returns the items from one to another, if a run has so many.
#[tactic(auto, using(crate::proofs::Parts::is_part))]
fn window_between(
    total: u64,
    first: u64,
    last: u64,
    shape: snap_words::Shape,
    reads: bool,
) -> Result<Window, PictureRefusal>
    requires { total ≤ max_items }
    ensures { Gives (λ w. w) result (part_between total first last shape reads) }
{
    if first == 0 || last < first || total < last {
        return Err(PictureRefusal::NoSuchItems(total));
    }
    let before = first - 1;
    if last - before > MOST_ITEMS {
        return Err(PictureRefusal::TooManyItems(last - before));
    }
    // What `process_count` promises: there is at least one process, and there are few.
    let _processes = shape.process_count();
    match Window::new(before, last, shape, reads) {
        Some(window) => Ok(window),
        None => unreachable!(),
    }
}

/// Returns the items that the options name.
#[tactic(auto, unfolding(crate::specs::Picture::part_of))]
pub(crate) fn window_for(
    total: u64,
    shape: snap_words::Shape,
    options: &Options,
) -> Result<Window, PictureRefusal>
    requires { total ≤ max_items }
    ensures { Gives (λ w. w) result (part_of total shape options.now) }
{
    window_between(
        total,
        given_or(1, options.from),
        given_or(total, options.to),
        shape,
        options.reads,
    )
}

/// Returns the counts that the title of a picture has.
#[tactic(auto, unfolding(crate::specs::Picture::counts_of))]
fn counts_of<K: Kind>(history: &Record<K>, shapes: &[Shape]) -> Counts
    ensures { result ≡ counts_of history.now shapes.now }
{
    let machine = history.machine();
    Counts {
        kind: machine.program().kind(),
        words: machine.shape().w(),
        items: history.items().len(),
        scans: count(Sought::Scan, shapes),
        without_point: count(Sought::NoPoint, shapes),
        updates: count(Sought::Update, shapes),
    }
}

/// Returns the picture of a run of which `shapes` are drawn, with the operation crossed out that
/// ended with the event `wrong`, if there is one.
#[tactic(auto, unfolding(crate::specs::Picture::picture_by))]
fn picture_by<K: Kind>(
    alloc: Global,
    history: &Record<K>,
    shapes: &[Shape],
    frame: &Frame<'_>,
    wrong: Option<&Event>,
) -> Result<Vec<u8>, AllocError>
    ensures { IfOk result (λ out. out.items ≡ picture_by history.now shapes.now
        frame.now.window.now (option_map (λ t. t.now) frame.now.listing) frame.now.schedule.now
        frame.now.look.now.style.now frame.now.look.now.legend.now
        (option_map (λ e. e.now) wrong.entry)) }
{
    let crossed = crossed_at(alloc, wrong, shapes)?;
    let counts = counts_of(history, shapes);
    let mut out = Draft::new(alloc);
    push_head(&mut out, frame.window, &counts, frame.look.style);
    push_input(&mut out, frame.listing, frame.schedule);
    push_shapes(&mut out, frame.window, shapes);
    push_shapes(&mut out, frame.window, crossed.as_slice());
    push_foot(&mut out, frame.window, frame.look.legend);
    out.finish()
}

/// Returns the picture of a program's run over a schedule. The run is judged for the picture, with
/// at most `most` configurations.
fn picture_text<K: Kind>(
    alloc: Global,
    program: &Program,
    items: &Schedule,
    frame: &Frame<'_>,
    most: usize,
) -> Result<Vec<u8>, AllocError>
    requires { program.now.kind ≡ K.TAG }
    ensures { let run = run_over program.now items.now in
        IfOk result (λ out. (wrong : Option Event) × FailsBy most run wrong
        × (out.items ≡ picture_text run frame.now.window.now
        (option_map (λ t. t.now) frame.now.listing) frame.now.schedule.now
        frame.now.look.now.style.now frame.now.look.now.legend.now wrong)) }
{
    let history = record_over::<K>(alloc, program, items)?;
    let steps = trace::<K>(alloc, program, items)?;
    let shapes = shapes(alloc, &history, steps.as_slice())?;
    let failing = judge_record(alloc, &history, most)?;
    picture_by(
        alloc,
        &history,
        shapes.as_slice(),
        frame,
        wrong_at(&history, failing),
    )
}

/// Reads a schedule whose shape fits the kind of a program.
pub(crate) fn schedule_of<K: Kind>(
    alloc: Global,
    program: &Program,
    text: &[u8],
) -> Result<Schedule, Fault<PictureRefusal>>
    requires { program.now.kind ≡ K.TAG }
    ensures { Answers (λ s. s) result
        (refused_as refusal.Input (schedule_for program.now text.now)) }
{
    match snap_input::schedule_for::<K>(alloc, program, text) {
        Ok(schedule) => Ok(schedule),
        Err(Fault::Memory) => Err(Fault::Memory),
        Err(Fault::Refused(refusal)) => Err(Fault::Refused(PictureRefusal::Input(refusal))),
    }
}

/// Returns the picture of a program of a kind under a schedule.
#[tactic(auto, unfolding(crate::specs::Picture::picture_of))]
fn picture_of_kind<K: Kind>(
    alloc: Global,
    program: &Program,
    listing: Option<&[u8]>,
    schedule: &[u8],
    options: &Options,
    look: &Look<'_>,
) -> Result<Vec<u8>, Fault<PictureRefusal>>
    requires { program.now.kind ≡ K.TAG }
    ensures { AnswersPicture (FailsUnder options.now.most program.now schedule.now) result
        (λ wrong. picture_of program.now (option_map (λ t. t.now) listing.entry) schedule.now
        options.now look.now.style.now look.now.legend.now wrong) }
{
    let items = schedule_of::<K>(alloc, program, schedule)?;
    match window_for(items.items().len(), items.shape(), options) {
        Ok(window) => {
            let frame = Frame {
                window: &window,
                listing,
                schedule,
                look,
            };
            Ok(picture_text::<K>(alloc, program, &items, &frame, options.most)?)
        }
        Err(refusal) => Err(Fault::Refused(refusal)),
    }
}

/// Returns the picture of `program` under `schedule`, as SVG. The texts of its listing, if one is
/// given, and of the schedule are in it. If the run is judged not to be linearizable, the operation
/// is crossed out whose end no order of the operations explains; the judgement keeps at most as
/// many configurations as the options say.
///
/// # Errors
///
/// `Refused` with the reason why `schedule` is refused or the items are not drawn; `Memory` where
/// memory runs out.
pub fn picture(
    alloc: Global,
    program: &Program,
    listing: Option<&[u8]>,
    schedule: &[u8],
    options: &Options,
    look: &Look<'_>,
) -> Result<Vec<u8>, Fault<PictureRefusal>>
    ensures { AnswersPicture (FailsUnder options.now.most program.now schedule.now) result
        (λ wrong. picture_of program.now (option_map (λ t. t.now) listing.entry) schedule.now
        options.now look.now.style.now look.now.legend.now wrong) }
{
    match program.kind() {
        KindTag::Seq => { picture_of_kind::<Seq>(alloc, program, listing, schedule, options, look) }
        KindTag::Bits => {
            picture_of_kind::<Bits>(alloc, program, listing, schedule, options, look)
        }
        KindTag::Multi => {
            picture_of_kind::<Multi>(alloc, program, listing, schedule, options, look)
        }
    }
}
