//! `Request`: what a subcommand asks the program for: a `Task`, a live run, a judgement or a model.
//! `request_of` finds the request by the subcommand's name and its `Options`.
ghost use Rattle.std.specs.Prelude.{◌≡◌, IfSome};
ghost use Rattle.snap_tasks.specs.Request.{AreOptions, HasLimit, request_of, kind_of, source_of};

use crate::judge_request::{JudgeRequest, JudgeSource};
use crate::subject::Subject;
use crate::task::Task;
use snap_words::KindTag;

/// What a command line asks for.
#[derive(Clone, Copy, PartialEq, Eq)]
pub enum Request {
    Do(Task),
    /// A live run, and the most turns that a process makes in it.
    Live(Subject, u64),
    /// Whether a run or a history is linearizable.
    Judge(JudgeRequest),
    /// A model of a listing and scripts for a model checker, and the most processes that crash in
    /// it.
    Model(Subject, u64),
}

/// What the options of a subcommand say.
#[derive(Clone, Copy, PartialEq, Eq)]
pub struct Options {
    /// The listing, for a subcommand that runs one.
    pub subject: Subject,
    /// The most turns of a process, for a subcommand that plays scripts.
    pub limit: u64,
    /// Whether the input is a history, for a judgement.
    pub history: bool,
    /// The most configurations that a search keeps, for a judgement.
    pub most: u64,
    /// The most processes that crash, for a model.
    pub crashes: u64,
}

/// Returns the kind of registers that `name` means; `None` where it means none.
pub fn kind_of(name: &str) -> Option<KindTag>
    ensures { result ≡ kind_of name.now }
{
    match name {
        "seq" => Some(KindTag::Seq),
        "bit" => Some(KindTag::Bits),
        "multi" => Some(KindTag::Multi),
        _ => None,
    }
}

/// Returns what is judged.
fn source_of(options: &Options) -> JudgeSource
    ensures { result ≡ source_of options.now }
{
    if options.history {
        JudgeSource::History
    } else {
        JudgeSource::Run(options.subject)
    }
}

/// Returns what the subcommand `name` asks for, with these options; `None` where there is no such
/// subcommand.
pub fn request_of(name: &str, options: &Options) -> Option<Request>
    requires { AreOptions options.now }
    ensures named { result ≡ request_of name.now options.now }
    ensures limit { IfSome result HasLimit }
{
    let subject = options.subject;
    match name {
        "check" => Some(Request::Do(Task::Check)),
        "lint" => Some(Request::Do(Task::Lint)),
        "assemble" => Some(Request::Do(Task::Assemble)),
        "list" => Some(Request::Do(Task::List)),
        "upgrade" => Some(Request::Do(Task::Upgrade)),
        "run" => Some(Request::Do(Task::Run(subject))),
        "trace" => Some(Request::Do(Task::Trace(subject))),
        "debug" => Some(Request::Do(Task::Debug(subject))),
        "audit" => Some(Request::Do(Task::Audit(subject))),
        "certify" => Some(Request::Do(Task::Certify(subject))),
        "batch" => Some(Request::Do(Task::Batch(subject))),
        "survey" => Some(Request::Do(Task::Survey(subject))),
        "live" => Some(Request::Live(subject, options.limit)),
        "judge" => Some(Request::Judge(JudgeRequest {
            source: source_of(options),
            most: options.most,
        })),
        "promela" => Some(Request::Model(subject, options.crashes)),
        _ => None,
    }
}
