//! `answer`: what snaphunt does for its command line, over any files, sink and device for messages,
//! and its status.
ghost use Rattle.std.specs.Prelude.{◌≡◌, ◌<◌, ◌^◌, Ok, Err, IfOk, false};
ghost use Rattle.snap_faults.specs.Names.{view_names};
ghost use Rattle.snap_faults.specs.Told.{SaysWhy, exit_status};
ghost use Rattle.snaphunt.specs.Answer.{AnswersLine, AnswersSearch, HuntsIn, Prints, explained};
ghost use Rattle.snaphunt.specs.Answer.{hunted_status, names_of};
ghost use Rattle.snaphunt.specs.Search.{IsSearch, view_listed};

use crate::arguments::{Listed, Search};
use crate::searching::{hunted_text, text_of};
use snap_explanation::{Layout, explanation};
use snap_faults::{Names, ProgramFault, tell};
use snap_hunt::Watcher;
use snap_hunt_output::{HuntRequest, Hunted, hunt_listing};
use snap_options::{Invocation, Unasked, answer_unasked};
use snap_semantics::Refusal;
use snap_streams::{ByteSink, FileSource, write_all};
use std::alloc::{AllocError, Global};
use std::thread::Threads;

/// What the program is called.
const PROGRAM: &str = "snaphunt";

/// What a hunt is done with: the leave to start threads, where memory comes from, and the files
/// that are there.
#[derive(Clone, Copy)]
pub(crate) struct Resources<'r, T, F> {
    pub(crate) threads: &'r T,
    pub(crate) alloc: Global,
    pub(crate) files: &'r F,
}

/// Returns what the program is called, and the file of the listing, unless it is shipped.
fn names_of<'a>(listed: &Listed<'a>) -> Names<'a>
    ensures { view_names result ≡ names_of (view_listed listed.now) }
{
    match *listed {
        Listed::File(name) => Names {
            program: PROGRAM,
            listing: Some(name),
            schedule: None,
        },
        Listed::Shipped(_) => Names::of_program(PROGRAM),
    }
}

/// Returns the status of the result of a hunt: 0 if no run fails, and 4 if one does.
fn hunted_status(hunted: &Hunted) -> u8
    ensures { result ≡ hunted_status hunted.now }
{
    match hunted {
        Hunted::NoneFails => 0,
        Hunted::Fails { .. } => 4,
    }
}

/// Prints the result of a hunt.
fn print<W: ByteSink>(
    alloc: Global,
    asked: &HuntRequest,
    hunted: Hunted,
    sink: &mut W,
) -> Result<Hunted, ProgramFault>
    requires { (W.state sink.old).failed ≡ false }
    ensures { Prints asked.now (Ok hunted) result (W.state sink.old) (W.state sink.new) }
{
    let Ok(text) = hunted_text(alloc, asked, &hunted) else {
        return Err(ProgramFault::Memory);
    };
    match write_all(sink, text.as_slice()) {
        Ok(()) => Ok(hunted),
        Err(unsent) => Err(ProgramFault::Write(unsent.count)),
    }
}

/// Hunts in the runs of the listing that a text spells, and prints the result and nothing else.
#[tactic(auto, using(crate::proofs::Searches::nothing_came))]
fn hunt_in<W: Watcher, S: ByteSink>(
    threads: &(impl Threads + Sync),
    alloc: Global,
    listing: &[u8],
    asked: &HuntRequest,
    watcher: &mut W,
    sink: &mut S,
) -> Result<Hunted, ProgramFault>
    requires runs { asked.now.runs < 2 ^ 63 }
    requires sink { (S.state sink.old).failed ≡ false }
    ensures { HuntsIn listing.now asked.now result (S.state sink.old) (S.state sink.new) }
{
    match hunt_listing(threads, alloc, listing, asked, watcher) {
        Ok(hunted) => print(alloc, asked, hunted, sink),
        Err(fault) => Err(fault),
    }
}

/// Returns the text behind the line of a fault, if refusals are explained.
fn explained(
    alloc: Global,
    explains: bool,
    listing: &[u8],
    fault: &ProgramFault,
) -> Result<Vec<u8>, AllocError>
    ensures { IfOk result (λ more. more.items ≡ explained explains listing.now fault.now) }
{
    match fault {
        ProgramFault::Refused(Refusal::Words(_)) => Ok(Vec::new(alloc)),
        ProgramFault::Refused(refusal) if explains => {
            explanation(alloc, Layout::Listing, listing, refusal)
        }
        ProgramFault::TooLong(_) if explains => {
            explanation(alloc, Layout::Listing, listing, &Refusal::InputTooLong)
        }
        _ => Ok(Vec::new(alloc)),
    }
}

/// Returns the status of a whole hunt, and says its fault if there is one, with what explains it if
/// that is wanted.
fn finish<E: ByteSink>(
    alloc: Global,
    asked: &Invocation<Search<'_>>,
    listing: &[u8],
    done: &Result<Hunted, ProgramFault>,
    errors: &mut E,
) -> u8
    requires { (E.state errors.old).failed ≡ false }
    ensures status { result ≡ exit_status hunted_status done.now }
    ensures says { SaysWhy (names_of (view_listed asked.now.request.listed))
        (explained asked.now.explains listing.now) done.now (E.state errors.old)
        (E.state errors.new) }
{
    match done {
        Ok(hunted) => hunted_status(hunted),
        Err(fault) => {
            let names = names_of(&asked.request.listed);
            let more = explained(alloc, asked.explains, listing, fault);
            tell(alloc, &names, fault, &more, errors)
        }
    }
}

/// Hunts, says why if nothing, or not all, was printed, and returns the status.
fn hunt<F: FileSource, W: Watcher, S: ByteSink, E: ByteSink>(
    resources: &Resources<'_, impl Threads + Sync, F>,
    asked: &Invocation<Search<'_>>,
    watcher: &mut W,
    sink: &mut S,
    errors: &mut E,
) -> u8
    requires search { IsSearch asked.now.request }
    requires sink { (S.state sink.old).failed ≡ false }
    requires errors { (E.state errors.old).failed ≡ false }
    ensures { AnswersSearch (F.found resources.now.files.now) asked.now result (S.state sink.old)
        (S.state sink.new) (E.state errors.old) (E.state errors.new) }
{
    match text_of(resources.alloc, resources.files, &asked.request.listed) {
        Ok(listing) => {
            let done = hunt_in(
                resources.threads,
                resources.alloc,
                listing.as_slice(),
                &asked.request.asked,
                watcher,
                sink,
            );
            finish(resources.alloc, asked, listing.as_slice(), &done, errors)
        }
        Err(fault) => finish(resources.alloc, asked, b"", &Err(fault), errors),
    }
}

/// Does what a command line is for, and returns the status.
pub(crate) fn answer<F: FileSource, W: Watcher, S: ByteSink, E: ByteSink>(
    resources: &Resources<'_, impl Threads + Sync, F>,
    line: &Result<Invocation<Search<'_>>, Unasked>,
    watcher: &mut W,
    sink: &mut S,
    errors: &mut E,
) -> u8
    requires line { IfOk line.now (λ asked. IsSearch asked.request) }
    requires sink { (S.state sink.old).failed ≡ false }
    requires errors { (E.state errors.old).failed ≡ false }
    ensures { AnswersLine (F.found resources.now.files.now) line.now result (S.state sink.old)
        (S.state sink.new) (E.state errors.old) (E.state errors.new) }
{
    match line {
        Ok(asked) => hunt(resources, asked, watcher, sink, errors),
        Err(unasked) => answer_unasked(resources.alloc, PROGRAM, unasked, sink, errors),
    }
}
