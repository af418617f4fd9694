//! A scene of calls that may want memory: a debugger session, command by command, which stays as it
//! was when memory is refused.
use crate::inputs::{BORROWED, COMMANDS, single};
use crate::scene_trouble::SceneTrouble;
use crate::trials::{tell, tried, wants_memory};
use snap_debug::{Command, Reply, Session, fault_line, read_commands};
use snap_semantics::{CommandRefusal, Fault};
use snap_words::Seq;
use std::alloc::Global;

/// Returns a session over a scan that borrows its view.
fn open(alloc: Global) -> Result<Session<Seq>, SceneTrouble> {
    let program = single(alloc)?;
    let schedule = snap_sched::read(alloc, BORROWED)?;
    Ok(Session::open(alloc, &program, &schedule)?)
}

/// Writes what a command is answered.
fn tell_answer(
    rt: &HostRuntime,
    answer: Result<Reply, Fault<CommandRefusal>>,
) -> Result<(), SceneTrouble> {
    match answer {
        Ok(reply) => tell(rt, reply.as_slice()),
        Err(Fault::Memory) => Err(SceneTrouble::Memory),
        Err(fault) => {
            let line = tried!(rt, fault_line(rt.alloc(), &fault));
            tell(rt, line.as_slice())
        }
    }
}

/// Whether a session has the position and the report that it had.
fn check_unchanged(
    session: &Session<Seq>,
    position: u64,
    report: &[u8],
) -> Result<(), SceneTrouble> {
    if session.position() == position && session.report()?.as_slice() == report {
        Ok(())
    } else {
        Err(SceneTrouble::Changed)
    }
}

/// Gives a session a command; if it wants memory, once more, provided that the session is as it
/// was.
fn command(
    rt: &HostRuntime,
    session: &mut Session<Seq>,
    command: &Command,
) -> Result<(), SceneTrouble> {
    let position = session.position();
    let report = tried!(rt, session.report());
    match session.command(command) {
        Err(Fault::Memory) => {
            check_unchanged(session, position, report.as_slice())?;
            wants_memory(rt, SceneTrouble::Memory)?;
            tell_answer(rt, session.command(command))
        }
        answer => tell_answer(rt, answer),
    }
}

/// Plays commands forward to each write of a register, and back again.
pub fn play(rt: &HostRuntime) -> Result<(), SceneTrouble> {
    let mut session = open(rt.alloc())?;
    let commands = read_commands(rt.alloc(), COMMANDS)?;
    for asked in &commands {
        command(rt, &mut session, asked)?;
    }
    let report = tried!(rt, session.report());
    tell(rt, report.as_slice())
}
