//! `answer`: what snaplab does for its command line, over any source, sink and device for messages,
//! and its status.
ghost use Rattle.std.specs.Prelude.{◌≡◌, false, IfOk};
ghost use Rattle.snap_program.specs.Invocations.{HasLimits};
ghost use Rattle.snap_faults.specs.FaultText.{fault_line};
ghost use Rattle.snap_faults.specs.Faults.{fault_status};
ghost use Rattle.snap_faults.specs.Names.{view_names};
ghost use Rattle.snap_faults.specs.Told.{TellsMore};
ghost use Rattle.snap_tasks.specs.Request.{HasLimit};
ghost use Rattle.snap_tasks.specs.declared.request.Request.TheVariants.{Live};
ghost use Rattle.snap_program.specs.Answer.{AnswersJudge, AnswersLine, AnswersLively};
ghost use Rattle.snap_program.specs.Answer.{AnswersModelled, AnswersRequest};
ghost use Rattle.snap_program.specs.Answer.{AnswersTask, AnswersTelling, AnswersTold};
ghost use Rattle.snap_program.specs.Answer.{SaysTerminal, explained, snaplab};
ghost use Rattle.snap_program.specs.Answer.{task_status, word_status};

use crate::arguments::Order;
use crate::judge_run::conduct_judge;
use crate::live_run::{LiveTask, conduct_live_keeping};
use crate::model_run::conduct_model;
use crate::told_run::conduct_telling;
use crate::whole_run::conduct_keeping;
use snap_explanation::{
    explanation, history_explanation, layout_of, model_explanation, turn_limit_explanation,
};
use snap_faults::{Names, ProgramFault, tell};
use snap_judge_task::Linearizability;
use snap_live::NoGate;
use snap_options::{Invocation, Unasked, answer_unasked};
use snap_semantics::LiveRefusal;
use snap_streams::{ByteSink, ByteSource, say};
use snap_tasks::{JudgeRequest, Request, Subject, Task};
use std::alloc::{AllocError, Global};
use std::sync::Wait;
use std::thread::Threads;

/// What the program is called.
const PROGRAM: &str = "snaplab";

/// The status of a strict survey where a run is not clean.
const NOT_CLEAN: u8 = 4;

/// The status where what was judged is not linearizable.
const NOT_LINEARIZABLE: u8 = 4;

/// The status where that is undecided.
const UNDECIDED: u8 = 5;

/// What is said where the input is read from a terminal.
const TERMINAL: &[u8] = b"reading from the terminal; end with Ctrl-D\n";

/// What a request is done with: the leave to start threads and to wait for them, where memory comes
/// from, and what is asked for.
#[derive(Clone, Copy)]
struct Session<'s, T> {
    rt: &'s T,
    alloc: Global,
    asked: &'s Invocation<Order>,
}

/// Returns what the program is called; its command line names no files.
fn names() -> Names<'static>
    ensures { view_names result ≡ snaplab }
{
    Names::of_program(PROGRAM)
}

/// Returns the line that snaplab says for `fault`.
///
/// # Errors
///
/// `AllocError` where memory runs out.
pub fn fault_line(alloc: Global, fault: &ProgramFault) -> Result<Vec<u8>, AllocError>
    ensures { IfOk result (λ line. line.items ≡ fault_line snaplab fault.now) }
{
    snap_faults::fault_line(alloc, &names(), fault)
}

/// Returns the text behind the line of a fault, if refusals are explained.
fn explained(
    alloc: Global,
    asked: &Invocation<Order>,
    input: &[u8],
    fault: &ProgramFault,
) -> Result<Vec<u8>, AllocError>
    ensures { IfOk result (λ more. more.items ≡ explained asked.now input.now fault.now) }
{
    match fault {
        ProgramFault::Refused(refusal) if asked.explains => {
            explanation(alloc, layout_of(&asked.request.request), input, refusal)
        }
        ProgramFault::History(refusal) if asked.explains => {
            history_explanation(alloc, input, refusal)
        }
        ProgramFault::Live(LiveRefusal::TurnLimit(process)) if asked.explains => {
            turn_limit_explanation(alloc, *process)
        }
        ProgramFault::Model(refusal) if asked.explains => {
            Vec::from_slice(alloc, model_explanation(refusal))
        }
        _ => Ok(Vec::new(alloc)),
    }
}

/// Says why nothing, or not all, was written, explains it if that is wanted and there is memory for
/// it, and returns the status.
fn explain<T, E: ByteSink>(
    session: &Session<'_, T>,
    input: &[u8],
    fault: &ProgramFault,
    errors: &mut E,
) -> u8
    requires { (E.state errors.old).failed ≡ false }
    ensures status { result ≡ fault_status fault.now }
    ensures says { TellsMore snaplab fault.now (explained session.now.asked.now input.now fault.now)
        (E.state errors.old) (E.state errors.new) }
{
    let more = explained(session.alloc, session.asked, input, fault);
    tell(session.alloc, &names(), fault, &more, errors)
}

/// Returns the status of a task, all of whose output was written.
fn task_status(strict: bool, clean: bool) -> u8
    ensures { result ≡ task_status strict clean }
{
    if strict && !clean { NOT_CLEAN } else { 0 }
}

/// Does a task, says why if it is not done, and returns the status, which tells of a strict survey
/// whether all runs are clean.
fn do_task<R: ByteSource, W: ByteSink, E: ByteSink>(
    session: &Session<'_, impl Threads + Sync>,
    task: &Task,
    source: &mut R,
    sink: &mut W,
    errors: &mut E,
) -> u8
    requires source { (R.state source.old).failed ≡ false }
    requires sink { (W.state sink.old).failed ≡ false }
    requires goes_on { (W.state sink.old).stalled ≡ false }
    requires errors { (E.state errors.old).failed ≡ false }
    ensures { AnswersTask task.now session.now.asked.now result (R.state source.old)
        (R.state source.new) (W.state sink.old) (W.state sink.new)
        (E.state errors.old) (E.state errors.new) }
{
    let mut input = Vec::new(session.alloc);
    match conduct_keeping(session.rt, session.alloc, task, source, sink, &mut input) {
        Ok(clean) => task_status(session.asked.request.strict, clean),
        Err(fault) => explain(session, input.as_slice(), &fault, errors),
    }
}

/// Runs a listing under a schedule, says why if that is not done, and which calls were skipped if
/// it is, and returns the status.
fn run_telling<T, R: ByteSource, W: ByteSink, E: ByteSink>(
    session: &Session<'_, T>,
    subject: Subject,
    source: &mut R,
    sink: &mut W,
    errors: &mut E,
) -> u8
    requires source { (R.state source.old).failed ≡ false }
    requires sink { (W.state sink.old).failed ≡ false }
    requires goes_on { (W.state sink.old).stalled ≡ false }
    requires errors { (E.state errors.old).failed ≡ false }
    ensures { AnswersTelling subject session.now.asked.now result (R.state source.old)
        (R.state source.new) (W.state sink.old) (W.state sink.new)
        (E.state errors.old) (E.state errors.new) }
{
    let mut input = Vec::new(session.alloc);
    match conduct_telling(session.alloc, subject, source, sink, &mut input) {
        Ok(told) => {
            say(told.as_slice(), errors);
            0
        }
        Err(fault) => explain(session, input.as_slice(), &fault, errors),
    }
}

/// Does a task, and if `tells`, tells of the calls that a run under a schedule skipped.
fn do_told<R: ByteSource, W: ByteSink, E: ByteSink>(
    session: &Session<'_, impl Threads + Sync>,
    tells: bool,
    task: &Task,
    source: &mut R,
    sink: &mut W,
    errors: &mut E,
) -> u8
    requires source { (R.state source.old).failed ≡ false }
    requires sink { (W.state sink.old).failed ≡ false }
    requires goes_on { (W.state sink.old).stalled ≡ false }
    requires errors { (E.state errors.old).failed ≡ false }
    ensures { AnswersTold tells task.now session.now.asked.now result (R.state source.old)
        (R.state source.new) (W.state sink.old) (W.state sink.new)
        (E.state errors.old) (E.state errors.new) }
{
    match *task {
        Task::Run(subject) if tells => run_telling(session, subject, source, sink, errors),
        _ => do_task(session, task, source, sink, errors),
    }
}

/// Plays live, says why if that is not done, and which operations call nothing if it is, and
/// returns the status.
fn play_live<R: ByteSource, W: ByteSink, E: ByteSink>(
    session: &Session<'_, impl Threads + Wait + Sync>,
    subject: Subject,
    limit: u64,
    source: &mut R,
    sink: &mut W,
    errors: &mut E,
) -> u8
    requires limit { HasLimit (Live subject limit) }
    requires source { (R.state source.old).failed ≡ false }
    requires sink { (W.state sink.old).failed ≡ false }
    requires goes_on { (W.state sink.old).stalled ≡ false }
    requires errors { (E.state errors.old).failed ≡ false }
    ensures { AnswersLively subject limit session.now.asked.now result (R.state source.old)
        (R.state source.new) (W.state sink.old) (W.state sink.new)
        (E.state errors.old) (E.state errors.new) }
{
    let mut input = Vec::new(session.alloc);
    let task = LiveTask {
        subject,
        limit,
        gate: &NoGate,
    };
    match conduct_live_keeping(session.rt, session.alloc, &task, source, sink, &mut input) {
        Ok(uncalled) => {
            say(uncalled.as_slice(), errors);
            0
        }
        Err(fault) => explain(session, input.as_slice(), &fault, errors),
    }
}

/// Returns the status for what was judged.
fn word_status(word: Linearizability) -> u8
    ensures { result ≡ word_status word }
{
    match word {
        Linearizability::Linearizable => 0,
        Linearizability::NotLinearizable => NOT_LINEARIZABLE,
        Linearizability::Undecided => UNDECIDED,
    }
}

/// Judges, says why if it is not done, and returns the status, which tells whether what was judged
/// is linearizable.
fn judge_asked<T, R: ByteSource, W: ByteSink, E: ByteSink>(
    session: &Session<'_, T>,
    request: &JudgeRequest,
    source: &mut R,
    sink: &mut W,
    errors: &mut E,
) -> u8
    requires source { (R.state source.old).failed ≡ false }
    requires sink { (W.state sink.old).failed ≡ false }
    requires goes_on { (W.state sink.old).stalled ≡ false }
    requires errors { (E.state errors.old).failed ≡ false }
    ensures { AnswersJudge request.now session.now.asked.now result (R.state source.old)
        (R.state source.new) (W.state sink.old) (W.state sink.new)
        (E.state errors.old) (E.state errors.new) }
{
    let mut input = Vec::new(session.alloc);
    match conduct_judge(session.alloc, request, source, sink, &mut input) {
        Ok(word) => word_status(word),
        Err(fault) => explain(session, input.as_slice(), &fault, errors),
    }
}

/// Writes a model, says why if that is not done, and returns the status.
fn write_model<T, R: ByteSource, W: ByteSink, E: ByteSink>(
    session: &Session<'_, T>,
    subject: Subject,
    crashes: u64,
    source: &mut R,
    sink: &mut W,
    errors: &mut E,
) -> u8
    requires source { (R.state source.old).failed ≡ false }
    requires sink { (W.state sink.old).failed ≡ false }
    requires goes_on { (W.state sink.old).stalled ≡ false }
    requires errors { (E.state errors.old).failed ≡ false }
    ensures { AnswersModelled subject session.now.asked.now result (R.state source.old)
        (R.state source.new) (W.state sink.old) (W.state sink.new)
        (E.state errors.old) (E.state errors.new) }
{
    let mut input = Vec::new(session.alloc);
    match conduct_model(session.alloc, subject, crashes, source, sink, &mut input) {
        Ok(()) => 0,
        Err(fault) => explain(session, input.as_slice(), &fault, errors),
    }
}

/// Does what the request is for, and returns the status.
fn do_asked<R: ByteSource, W: ByteSink, E: ByteSink>(
    session: &Session<'_, impl Threads + Wait + Sync>,
    source: &mut R,
    sink: &mut W,
    errors: &mut E,
) -> u8
    requires limit { HasLimit session.now.asked.now.request.request }
    requires source { (R.state source.old).failed ≡ false }
    requires sink { (W.state sink.old).failed ≡ false }
    requires goes_on { (W.state sink.old).stalled ≡ false }
    requires errors { (E.state errors.old).failed ≡ false }
    ensures { AnswersRequest session.now.asked.now.request.request session.now.asked.now result
        (R.state source.old) (R.state source.new) (W.state sink.old) (W.state sink.new)
        (E.state errors.old) (E.state errors.new) }
{
    match session.asked.request.request {
        Request::Do(task) => {
            do_told(session, session.asked.explains, &task, source, sink, errors)
        }
        Request::Live(subject, limit) => play_live(session, subject, limit, source, sink, errors),
        Request::Judge(request) => judge_asked(session, &request, source, sink, errors),
        Request::Model(subject, crashes) => {
            write_model(session, subject, crashes, source, sink, errors)
        }
    }
}

/// Says that the input is read from a terminal, if the command line has a request for one.
pub fn say_terminal<E: ByteSink>(line: &Result<Invocation<Order>, Unasked>, errors: &mut E)
    requires { (E.state errors.old).failed ≡ false }
    ensures { SaysTerminal line.now (E.state errors.old) (E.state errors.new) }
{
    match line {
        Ok(_) => say(TERMINAL, errors),
        Err(_) => {}
    }
}

/// Does what a command line is for, and returns the status. `rt` is the leave to start threads and
/// to wait for them.
pub fn answer<R: ByteSource, W: ByteSink, E: ByteSink>(
    rt: &(impl Threads + Wait + Sync),
    alloc: Global,
    line: &Result<Invocation<Order>, Unasked>,
    source: &mut R,
    sink: &mut W,
    errors: &mut E,
) -> u8
    requires limits { IfOk line.now HasLimits }
    requires source { (R.state source.old).failed ≡ false }
    requires sink { (W.state sink.old).failed ≡ false }
    requires goes_on { (W.state sink.old).stalled ≡ false }
    requires errors { (E.state errors.old).failed ≡ false }
    ensures { AnswersLine line.now result (R.state source.old) (R.state source.new)
        (W.state sink.old) (W.state sink.new)
        (E.state errors.old) (E.state errors.new) }
{
    match line {
        Ok(asked) => do_asked(&Session { rt, alloc, asked }, source, sink, errors),
        Err(unasked) => answer_unasked(alloc, PROGRAM, unasked, sink, errors),
    }
}
