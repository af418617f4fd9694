//! `asked_of`: what a page in a browser wants by its names, a task or a judgement, and the listing
//! that is to be run.
ghost use Rattle.std.specs.Prelude.{◌≡◌, IfSome, IsUtf8, None};
ghost use Rattle.snap_page.specs.Page.{asked_for, asked_of, options_for, subject_of};

use snap_tasks::{Options, Request, Subject, Task, kind_of, request_of};

/// What a page wants.
#[derive(Clone, Copy)]
pub enum PageRequest {
    /// A task of the program.
    Do(Task),
    /// Whether the run of a listing under a schedule is linearizable.
    Judge(Subject),
}

/// Returns bytes as text, if they are valid UTF-8.
fn text_of(bytes: &[u8]) -> Option<&str>
    ensures text { IfSome result (λ text. text.now ≡ bytes.now) }
    ensures no_text { result ≡ None → ¬ (IsUtf8 bytes.now) }
{
    match str::from_utf8(bytes) {
        Ok(text) => Some(text),
        Err(_) => None,
    }
}

/// Returns the listing of this name: the one that is shipped for a kind, or, if there is no name,
/// the first part of the input.
#[tactic(auto, using(crate::proofs::Names::no_subject))]
fn subject_of(shipped: &[u8]) -> Option<Subject>
    ensures { result ≡ subject_of shipped.now }
{
    if shipped.is_empty() {
        return Some(Subject::FirstPart);
    }
    let name = text_of(shipped)?;
    Some(Subject::Shipped(kind_of(name)?))
}

/// Returns options of which a page reads the listing alone: the others belong to requests that a
/// page does not take.
fn options_for(subject: Subject) -> Options
    ensures value { result ≡ options_for subject }
{
    Options {
        subject,
        limit: 1,
        history: false,
        most: 1,
        crashes: 0,
    }
}

/// Returns what the name of a subcommand asks for, of this listing. A page cannot run `live`, since
/// it has one thread, and writes no model.
#[tactic(auto, using(crate::proofs::Names::no_task))]
fn asked_for(subcommand: &[u8], subject: Subject) -> Option<PageRequest>
    ensures { result ≡ asked_for subcommand.now subject }
{
    let name = text_of(subcommand)?;
    match request_of(name, &options_for(subject))? {
        Request::Do(task) => Some(PageRequest::Do(task)),
        Request::Judge(_) => Some(PageRequest::Judge(subject)),
        Request::Live(_, _) | Request::Model(_, _) => None,
    }
}

/// Returns what the names of a page mean: the subcommand, and the kind whose listing is shipped.
pub fn asked_of(subcommand: &[u8], shipped: &[u8]) -> Option<PageRequest>
    ensures { result ≡ asked_of subcommand.now shipped.now }
{
    let subject = subject_of(shipped)?;
    asked_for(subcommand, subject)
}
