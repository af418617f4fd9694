//! `answer`: what snapdraw does for its command line, over any files, sink and device for messages,
//! and its status.
ghost use Rattle.std.specs.Prelude.{◌≡◌, Ok, false, option_map};
ghost use Rattle.snap_faults.specs.Told.{SaysWhy, exit_status, success};
ghost use Rattle.snapdraw.specs.Answer.{AnswersDrawing, AnswersLine, Draws, Writes, called};
ghost use Rattle.snapdraw.specs.Drawing.{options_of};
ghost use Rattle.snap_named_files.specs.Explained.{explained};
ghost use Rattle.snap_named_files.specs.Named.{names_of, view_named};
ghost use Rattle.snap_named_files.specs.Texts.{view_texts};

use crate::arguments::Drawing;
use crate::drawing::draw;
use snap_faults::{ProgramFault, tell};
use snap_named_files::{Texts, explained, names_of, read_texts};
use snap_options::{Invocation, Unasked, answer_unasked};
use snap_picture::Look;
use snap_streams::{ByteSink, FileSource, write_all};
use std::alloc::Global;

/// What the program is called.
const PROGRAM: &str = "snapdraw";

/// Writes a text.
fn write_text<W: ByteSink>(text: &[u8], sink: &mut W) -> Result<(), ProgramFault>
    requires { (W.state sink.old).failed ≡ false }
    ensures { Writes result (Ok text.now) (W.state sink.old) (W.state sink.new) }
{
    match write_all(sink, text) {
        Ok(()) => Ok(()),
        Err(unsent) => Err(ProgramFault::Write(unsent.count)),
    }
}

/// Draws, and writes what is drawn and nothing else.
fn draw_and_write<W: ByteSink>(
    alloc: Global,
    texts: &Texts,
    drawing: &Drawing<'_>,
    look: &Look<'_>,
    sink: &mut W,
) -> Result<(), ProgramFault>
    requires { (W.state sink.old).failed ≡ false }
    ensures { Draws (view_texts texts.now) (options_of drawing.now) look.now.style.now
        look.now.legend.now result (W.state sink.old) (W.state sink.new) }
{
    let text = draw(alloc, texts, drawing, look)?;
    write_text(text.as_slice(), sink)
}

/// Returns the status of a picture, and says its fault if there is one, with what explains it if
/// that is wanted.
fn finish<E: ByteSink>(
    alloc: Global,
    asked: &Invocation<Drawing<'_>>,
    texts: Option<&Texts>,
    done: &Result<(), ProgramFault>,
    errors: &mut E,
) -> u8
    requires { (E.state errors.old).failed ≡ false }
    ensures status { result ≡ exit_status success done.now }
    ensures says { SaysWhy (names_of called (view_named asked.now.request.named))
        (explained asked.now.explains (option_map (λ t. view_texts t.now) texts.entry)) done.now
        (E.state errors.old) (E.state errors.new) }
{
    match done {
        Ok(()) => 0,
        Err(fault) => {
            let names = names_of(PROGRAM, &asked.request.named);
            let more = explained(alloc, asked.explains, texts, fault);
            tell(alloc, &names, fault, &more, errors)
        }
    }
}

/// Draws a picture, says why if nothing, or not all, is drawn, and returns the status.
fn draw_asked<F: FileSource, W: ByteSink, E: ByteSink>(
    alloc: Global,
    asked: &Invocation<Drawing<'_>>,
    look: &Look<'_>,
    files: &F,
    sink: &mut W,
    errors: &mut E,
) -> u8
    requires sink { (W.state sink.old).failed ≡ false }
    requires errors { (E.state errors.old).failed ≡ false }
    ensures { AnswersDrawing (F.found files.now) look.now.style.now look.now.legend.now asked.now
        result (W.state sink.old) (W.state sink.new) (E.state errors.old) (E.state errors.new) }
{
    match read_texts(alloc, files, &asked.request.named) {
        Ok(texts) => {
            let done = draw_and_write(alloc, &texts, &asked.request, look, sink);
            finish(alloc, asked, Some(&texts), &done, errors)
        }
        Err(fault) => finish(alloc, asked, None, &Err(fault), errors),
    }
}

/// Does what a command line is for, and returns the status.
pub(crate) fn answer<F: FileSource, W: ByteSink, E: ByteSink>(
    alloc: Global,
    line: &Result<Invocation<Drawing<'_>>, Unasked>,
    look: &Look<'_>,
    files: &F,
    sink: &mut W,
    errors: &mut E,
) -> u8
    requires sink { (W.state sink.old).failed ≡ false }
    requires errors { (E.state errors.old).failed ≡ false }
    ensures { AnswersLine (F.found files.now) look.now.style.now look.now.legend.now line.now result
        (W.state sink.old) (W.state sink.new) (E.state errors.old) (E.state errors.new) }
{
    match line {
        Ok(asked) => draw_asked(alloc, asked, look, files, sink, errors),
        Err(unasked) => answer_unasked(alloc, PROGRAM, unasked, sink, errors),
    }
}
