//! `draw`: the picture of a command line, of the texts of the files that it names; or why there is
//! none.
ghost use Rattle.std.specs.Prelude.{◌≡◌, Ok, option_map};
ghost use Rattle.snapdraw.specs.Drawing.{Comes, FailsInTexts, IsDrawing, IsDrawnBy, bytes_of};
ghost use Rattle.snapdraw.specs.Drawing.{drawn_texts, listing_in, options_of, picture_in};
ghost use Rattle.snap_named_files.specs.Texts.{OfShipped, view_texts};
ghost use Rattle.snap_picture.specs.Picture.{FailsUnder};
ghost use Rattle.snap_shipped.specs.Shipped.{shipped};

use crate::arguments::Drawing;
use snap_asm_program::Program;
use snap_faults::ProgramFault;
use snap_input::program_of;
use snap_named_files::Texts;
use snap_picture::{Look, Options, PictureRefusal, picture};
use snap_run_judge::MOST_CONFIGURATIONS;
use snap_semantics::Fault;
use snap_words::KindTag;
use std::alloc::Global;

/// Returns the items that are drawn, of a run that is judged as long as the program judges one.
fn options_of(drawing: &Drawing<'_>) -> Options
    ensures { result ≡ options_of drawing.now }
{
    Options {
        from: drawing.from,
        to: drawing.to,
        reads: drawing.reads,
        most: MOST_CONFIGURATIONS,
    }
}

/// Returns the program of the listing of a text.
fn program_in(alloc: Global, text: &[u8]) -> Result<Program, ProgramFault>
    ensures { Comes (λ p. p) result (listing_in text.now) }
{
    match program_of(alloc, text) {
        Ok(program) => Ok(program),
        Err(Fault::Memory) => Err(ProgramFault::Memory),
        Err(Fault::Refused(refusal)) => Err(ProgramFault::Refused(refusal)),
    }
}

/// Returns the picture of a program under the schedule of a text.
fn picture_in(
    alloc: Global,
    program: &Program,
    listing: Option<&[u8]>,
    schedule: &[u8],
    options: &Options,
    look: &Look<'_>,
) -> Result<Vec<u8>, ProgramFault>
    ensures { IsDrawnBy (FailsUnder options.now.most program.now schedule.now)
        (picture_in program.now (option_map (λ t. t.now) listing.entry) schedule.now options.now
        look.now.style.now look.now.legend.now) (bytes_of result) }
{
    match picture(alloc, program, listing, schedule, options, look) {
        Ok(text) => Ok(text),
        Err(Fault::Memory) => Err(ProgramFault::Memory),
        Err(Fault::Refused(PictureRefusal::Input(refusal))) => Err(ProgramFault::Refused(refusal)),
        Err(Fault::Refused(PictureRefusal::NoSuchItems(total))) => {
            Err(ProgramFault::NoSuchItems(total))
        }
        Err(Fault::Refused(PictureRefusal::TooManyItems(count))) => {
            Err(ProgramFault::TooManyItems(count))
        }
    }
}

/// Returns the picture of the listing of one text, under the schedule of another.
fn draw_texts(
    alloc: Global,
    listing: &[u8],
    schedule: &[u8],
    options: &Options,
    look: &Look<'_>,
) -> Result<Vec<u8>, ProgramFault>
    ensures { IsDrawnBy (FailsInTexts options.now.most listing.now schedule.now)
        (drawn_texts listing.now schedule.now options.now look.now.style.now look.now.legend.now)
        (bytes_of result) }
{
    let program = program_in(alloc, listing)?;
    picture_in(alloc, &program, Some(listing), schedule, options, look)
}

/// Returns the program of the listing that is shipped for a kind.
fn shipped_program(alloc: Global, kind: KindTag) -> Result<Program, ProgramFault>
    ensures { Comes (λ p. p) result (Ok (shipped kind)) }
{
    match snap_input::shipped(alloc, kind) {
        Ok(program) => Ok(program),
        Err(_) => Err(ProgramFault::Memory),
    }
}

/// Returns the picture of the listing that is shipped for a kind, under the schedule of a text.
fn draw_shipped(
    alloc: Global,
    kind: KindTag,
    schedule: &[u8],
    options: &Options,
    look: &Look<'_>,
) -> Result<Vec<u8>, ProgramFault>
    ensures { IsDrawing (OfShipped kind schedule.now) options.now look.now.style.now
        look.now.legend.now (bytes_of result) }
{
    let program = shipped_program(alloc, kind)?;
    picture_in(alloc, &program, None, schedule, options, look)
}

/// Returns the picture of a command line, of `texts`.
pub(crate) fn draw(
    alloc: Global,
    texts: &Texts,
    drawing: &Drawing<'_>,
    look: &Look<'_>,
) -> Result<Vec<u8>, ProgramFault>
    ensures { IsDrawing (view_texts texts.now) (options_of drawing.now) look.now.style.now
        look.now.legend.now (bytes_of result) }
{
    let options = options_of(drawing);
    match texts {
        Texts::Files(listing, schedule) => draw_texts(
            alloc,
            listing.as_slice(),
            schedule.as_slice(),
            &options,
            look,
        ),
        Texts::Shipped(kind, schedule) => {
            draw_shipped(alloc, *kind, schedule.as_slice(), &options, look)
        }
    }
}
