//! `answer`: what snapdb does for its command line, over any files, console and device for
//! messages, and its status.
ghost use Rattle.std.specs.Prelude.{◌≡◌, None, false, option_map};
ghost use Rattle.snap_faults.specs.Told.{SaysWhy, exit_status, success};
ghost use Rattle.snap_named_files.specs.Explained.{explained};
ghost use Rattle.snap_named_files.specs.Named.{names_of, view_named};
ghost use Rattle.snap_named_files.specs.Texts.{OfFiles, OfShipped, view_texts};
ghost use Rattle.snapdb.specs.Answer.{AnswersLine, AnswersSession, AnswersUnasked, Shown, called};
ghost use Rattle.snapdb.specs.Talk.{TalksIn};

use crate::about::talk_about;
use snap_faults::{Names, ProgramFault, complain, tell};
use snap_input::{program_of, shipped};
use snap_named_files::{Named, Texts, explained, names_of, read_texts};
use snap_options::{Invocation, Unasked, say_unread};
use snap_prompt::Shows;
use snap_streams::{ByteSink, Console, FileSource, Folder, say};
use snap_words::KindTag;
use std::alloc::Global;

/// What the program is called.
const PROGRAM: &str = "snapdb";

/// Talks about the listing of one text, under the schedule of another.
fn talk_over<C: Console, S: Folder + Copy>(
    alloc: Global,
    listing: &[u8],
    schedule: &[u8],
    shows: Shows,
    console: &mut C,
    folder: &mut S,
) -> Result<(), ProgramFault>
    requires { C.failure console.old ≡ None }
    ensures { TalksIn (OfFiles listing.now schedule.now) result (record {
      shows = shows;
      left = C.left console.old;
      shown = C.shown console.old;
      shown_after = C.shown console.new;
      kept = S.kept folder.old;
      kept_after = S.kept folder.new;
      failed = C.failure console.new;
    }) }
{
    match program_of(alloc, listing) {
        Ok(program) => talk_about(alloc, &program, schedule, shows, console, folder),
        Err(fault) => Err(ProgramFault::from(fault)),
    }
}

/// Talks about the listing that is shipped for a kind, under the schedule of a text.
fn talk_over_shipped<C: Console, S: Folder + Copy>(
    alloc: Global,
    kind: KindTag,
    schedule: &[u8],
    shows: Shows,
    console: &mut C,
    folder: &mut S,
) -> Result<(), ProgramFault>
    requires { C.failure console.old ≡ None }
    ensures { TalksIn (OfShipped kind schedule.now) result (record {
      shows = shows;
      left = C.left console.old;
      shown = C.shown console.old;
      shown_after = C.shown console.new;
      kept = S.kept folder.old;
      kept_after = S.kept folder.new;
      failed = C.failure console.new;
    }) }
{
    match shipped(alloc, kind) {
        Ok(program) => talk_about(alloc, &program, schedule, shows, console, folder),
        Err(_) => Err(ProgramFault::Memory),
    }
}

/// Talks about `texts`.
fn talk<C: Console, S: Folder + Copy>(
    alloc: Global,
    texts: &Texts,
    shows: Shows,
    console: &mut C,
    folder: &mut S,
) -> Result<(), ProgramFault>
    requires { C.failure console.old ≡ None }
    ensures { TalksIn (view_texts texts.now) result (record {
      shows = shows;
      left = C.left console.old;
      shown = C.shown console.old;
      shown_after = C.shown console.new;
      kept = S.kept folder.old;
      kept_after = S.kept folder.new;
      failed = C.failure console.new;
    }) }
{
    match texts {
        Texts::Files(listing, schedule) => talk_over(
            alloc,
            listing.as_slice(),
            schedule.as_slice(),
            shows,
            console,
            folder,
        ),
        Texts::Shipped(kind, schedule) => {
            talk_over_shipped(alloc, *kind, schedule.as_slice(), shows, console, folder)
        }
    }
}

/// Returns the status of a session, and says its fault if there is one, with what explains it if
/// that is wanted.
fn finish<E: ByteSink>(
    alloc: Global,
    asked: &Invocation<Named<'_>>,
    texts: Option<&Texts>,
    done: &Result<(), ProgramFault>,
    errors: &mut E,
) -> u8
    requires { (E.state errors.old).failed ≡ false }
    ensures status { result ≡ exit_status success done.now }
    ensures says { SaysWhy (names_of called (view_named asked.now.request))
        (explained asked.now.explains (option_map (λ t. view_texts t.now) texts.entry)) done.now
        (E.state errors.old) (E.state errors.new) }
{
    match done {
        Ok(()) => 0,
        Err(fault) => {
            let names = names_of(PROGRAM, &asked.request);
            let more = explained(alloc, asked.explains, texts, fault);
            tell(alloc, &names, fault, &more, errors)
        }
    }
}

/// Opens a session, says why if there is no dialog, or no whole one, and returns the status.
fn open<F: FileSource + Folder + Copy, C: Console, E: ByteSink>(
    alloc: Global,
    asked: &Invocation<Named<'_>>,
    shows: Shows,
    files: &mut F,
    console: &mut C,
    errors: &mut E,
) -> u8
    requires console { C.failure console.old ≡ None }
    requires errors { (E.state errors.old).failed ≡ false }
    ensures { AnswersSession (F.found files.old) asked.now result (record {
      shows = shows;
      left = C.left console.old;
      shown = C.shown console.old;
      shown_after = C.shown console.new;
      kept = F.kept files.old;
      kept_after = F.kept files.new;
      failed = C.failure console.new;
    }) (E.state errors.old) (E.state errors.new) }
{
    match read_texts(alloc, &*files, &asked.request) {
        Ok(texts) => {
            let done = talk(alloc, &texts, shows, console, files);
            finish(alloc, asked, Some(&texts), &done, errors)
        }
        Err(fault) => finish(alloc, asked, None, &Err(fault), errors),
    }
}

/// Shows help, or the version, says if that fails, and returns the status.
fn help<C: Console, E: ByteSink>(alloc: Global, text: &[u8], console: &mut C, errors: &mut E) -> u8
    requires console { C.failure console.old ≡ None }
    requires errors { (E.state errors.old).failed ≡ false }
    ensures { Shown text.now result (C.shown console.old) (C.shown console.new)
        (E.state errors.old) (E.state errors.new) }
{
    match console.say(text) {
        Ok(()) => 0,
        Err(_) => {
            complain(
                alloc,
                &Names::of_program(PROGRAM),
                &ProgramFault::Show,
                errors,
            );
            3
        }
    }
}

/// Shows the help or the version, or says what is wrong with a command line, and returns the status.
fn answer_unasked<C: Console, E: ByteSink>(
    alloc: Global,
    unasked: &Unasked,
    console: &mut C,
    errors: &mut E,
) -> u8
    requires console { C.failure console.old ≡ None }
    requires errors { (E.state errors.old).failed ≡ false }
    ensures { AnswersUnasked unasked.now result (C.shown console.old) (C.shown console.new)
        (E.state errors.old) (E.state errors.new) }
{
    match unasked {
        Unasked::Help(text) => help(alloc, text.as_bytes(), console, errors),
        Unasked::Wrong(text) => {
            say(text.as_bytes(), errors);
            2
        }
        Unasked::Unread(unread) => say_unread(*unread, errors),
    }
}

/// Does what a command line is for, and returns the status. `shows` says what is shown beside the
/// answers.
pub(crate) fn answer<F: FileSource + Folder + Copy, C: Console, E: ByteSink>(
    alloc: Global,
    line: &Result<Invocation<Named<'_>>, Unasked>,
    shows: Shows,
    files: &mut F,
    console: &mut C,
    errors: &mut E,
) -> u8
    requires console { C.failure console.old ≡ None }
    requires errors { (E.state errors.old).failed ≡ false }
    ensures { AnswersLine (F.found files.old) line.now result (record {
      shows = shows;
      left = C.left console.old;
      shown = C.shown console.old;
      shown_after = C.shown console.new;
      kept = F.kept files.old;
      kept_after = F.kept files.new;
      failed = C.failure console.new;
    }) (E.state errors.old) (E.state errors.new) }
{
    match line {
        Ok(asked) => open(alloc, asked, shows, files, console, errors),
        Err(unasked) => answer_unasked(alloc, unasked, console, errors),
    }
}
