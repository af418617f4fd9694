//! Tests of the debugger: commands read and refused, and sessions that go back and forth.
ghost use Rattle.std.specs.Prelude.{◌≡◌, IfOk};
ghost use Rattle.snap_words.specs.declared.kind.KindTag.TheVariants as kind;

use crate::texts::{BORROWING, COLLECTED, COLLECTING};
use snap_asm::{Program, assemble, load, program};
use snap_debug::{Command, CommandRefusal, DebugFault, Reply, Session, fault_line, read_commands};
use snap_sched::read;
use snap_words::{KindTag, Seq};
use std::alloc::{AllocError, Global};
use std::process::Abort;
use std::test::Fail;

/// Commands over a borrowed view.
const COMMANDS: &[u8] = b"watch r 2\nrun\nrun\nrun\nrrun\nback 1\ngoto 0\ngoto 65\n";

/// The replies to the commands.
const REPLIES: &[u8] = b"marks 1\nposition 24 of 64\nposition 54 of 64\nposition 64 of 64\n\
position 54 of 64\nposition 53 of 64\nposition 0 of 64\nrefused: G5 NoSuchPosition\n";

/// The lines of process 1 at the end of the schedule: its view is borrowed of the second update.
const BORROWER: &[u8] = b"position 64 of 64\nprocess 1 idle\n  j = 2\n  c = 0\n  moved = 0 2\n  \
a 1 = 0 seq 0 view 0 0\n  a 2 = 5 seq 1 view 0 0\n  b 1 = 0 seq 0 view 0 0\n  \
b 2 = 6 seq 2 view 0 5\n  s = 0 5\n";

/// Returns the program of listing U.
fn program_of_u(rt: &impl Abort, alloc: Global) -> Result<Program, Fail>
    ensures { IfOk result (λ p. p.kind ≡ kind.Seq) }
{
    let program = program(alloc, &snap_single::listing(alloc)?)?;
    assert!(rt; program.kind() == KindTag::Seq);
    Ok(program)
}

/// Returns the program of the listing that collects once.
fn program_of_collecting(rt: &impl Abort, alloc: Global) -> Result<Program, Fail>
    ensures { IfOk result (λ p. p.kind ≡ kind.Seq) }
{
    let image = assemble(alloc, COLLECTING)?;
    let program = load(alloc, image.as_slice())?;
    assert!(rt; program.kind() == KindTag::Seq);
    Ok(program)
}

/// Appends the reply to a command, or the line that refuses it.
fn push_reply(
    alloc: Global,
    text: &mut Vec<u8>,
    session: &mut Session<Seq>,
    command: &Command,
) -> Result<(), AllocError> {
    let answered: Result<Reply, DebugFault> = session.command(command);
    match answered {
        Ok(reply) => text.extend_from_slice(reply.as_slice())?,
        Err(fault) => text.extend_from_slice(fault_line(alloc, &fault)?.as_slice())?,
    }
    Ok(())
}

/// Returns the replies to commands, refused ones among them.
fn replies(alloc: Global, session: &mut Session<Seq>, commands: &[u8]) -> Result<Vec<u8>, Fail> {
    let mut text = Vec::new(alloc);
    for command in &read_commands(alloc, commands)? {
        push_reply(alloc, &mut text, session, command)?;
    }
    Ok(text)
}

/// Returns a session of U over a schedule.
fn session(rt: &impl Abort, alloc: Global, schedule: &[u8]) -> Result<Session<Seq>, Fail> {
    let program = program_of_u(rt, alloc)?;
    let schedule = read(alloc, schedule)?;
    Ok(Session::open(alloc, &program, &schedule)?)
}

/// Checks the replies to commands over a schedule of U.
fn check(
    rt: &impl Abort,
    alloc: Global,
    schedule: &[u8],
    commands: &[u8],
    want: &[u8],
) -> Result<(), Fail> {
    let mut session = session(rt, alloc, schedule)?;
    assert_eq!(rt; replies(alloc, &mut session, commands)?.as_slice(), want);
    Ok(())
}

#[test]
fn a_session_goes_forth_and_back(rt: HostRuntime) -> Result<(), Fail> {
    let mut session = session(&rt, rt.alloc(), BORROWING)?;
    assert_eq!(rt; session.position(), 0);
    let text = replies(rt.alloc(), &mut session, COMMANDS)?;
    assert_eq!(rt; text.as_slice(), REPLIES);
    assert_eq!(rt; session.position(), 0);
    assert!(rt;
        session
            .report()?
            .as_slice()
            .starts_with(b"report at 0 of 64\nvalues 0 0\n")
    );
    Ok(())
}

#[test]
fn a_break_stops_at_its_line(rt: HostRuntime) -> Result<(), Fail> {
    let commands = b"break 1 23\nrun\n".as_slice();
    check(
        &rt,
        rt.alloc(),
        BORROWING,
        commands,
        b"marks 1\nposition 62 of 64\n",
    )?;
    check(&rt, rt.alloc(), BORROWING, b"goto 64\nshow 1\n", BORROWER)
}

#[test]
fn commands_are_refused_in_a_session(rt: HostRuntime) -> Result<(), Fail> {
    let schedule = b"shape 2 2\n1 scan\n".as_slice();
    let commands = b"break 3 10\nbreak 1 20\nwatch q 1 1\ngoto 2\n".as_slice();
    let want = b"refused: G3 NoSuchProcess\nrefused: G2 NoSuchLine\n\
refused: G4 NoSuchRegister\nrefused: G5 NoSuchPosition\n"
        .as_slice();
    check(&rt, rt.alloc(), schedule, commands, want)?;
    check(
        &rt,
        rt.alloc(),
        schedule,
        b"step 9\nstep 9\n",
        b"position 1 of 1\nposition 1 of 1\n",
    )
}

#[test]
fn a_session_tells_where_it_is(rt: HostRuntime) -> Result<(), Fail> {
    let alloc = rt.alloc();
    let program = program_of_collecting(&rt, alloc)?;
    let schedule = read(alloc, COLLECTED)?;
    let mut session = Session::<Seq>::open(alloc, &program, &schedule)?;
    let text = replies(alloc, &mut session, b"run\nwhere\nevents\nshow r 1\n")?;
    assert_eq!(rt;
        text.as_slice(),
        b"position 9 of 9\nposition 9 of 9\nlast 1 finished\nprocess 1 idle\nprocess 2 idle\n\
events 2\nevent 1 1 update 1 7\nevent 9 1 done\nr 1 = 7 seq 1 view 0 0\n"
            .as_slice()
    );
    Ok(())
}

/// Returns whether a text has `count` commands, or is refused for line `line`.
fn is_read_or_refused(alloc: Global, text: &[u8], count: usize, line: u64) -> bool {
    match read_commands(alloc, text) {
        Ok(commands) => commands.len() == count || commands.len() == count.saturating_add(1),
        Err(fault) => fault == DebugFault::Refused(CommandRefusal::BadCommand(line)),
    }
}

/// Returns how many lines end in a text.
fn line_ends(text: &[u8]) -> usize {
    text.iter().filter(|&&byte| byte == b'\n').count()
}

#[test]
fn each_cut_of_commands_is_read_or_refused_for_its_last_line(rt: HostRuntime) {
    for len in 0..COMMANDS.len() {
        let cut = &COMMANDS[..len];
        let ends = line_ends(cut);
        let last = (ends as u64).saturating_add(1);
        assert!(rt; is_read_or_refused(rt.alloc(), cut, ends, last), "{len}");
    }
}

#[test]
fn texts_that_are_no_commands_are_refused(rt: HostRuntime) -> Result<(), Fail> {
    match read_commands(rt.alloc(), b"hello\n") {
        Ok(_) => assert!(rt; false),
        Err(fault) => {
            let line = fault_line(rt.alloc(), &fault)?;
            assert_eq!(rt; line.as_slice(), b"refused: G1 BadCommand 1\n".as_slice());
        }
    }
    Ok(())
}
