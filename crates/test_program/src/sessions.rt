//! Tests of debugger sessions over runs of a snapshot listing; more of them are among the examples.
use snap_asm::load_listing;
use snap_asm_program::Program;
use snap_debug::{Session, push_refusal_line, read_commands};
use snap_sched::{Schedule, read};
use snap_semantics::{CommandRefusal, Fault};
use snap_text::Draft;
use snap_words::{KindTag, Seq};
use std::alloc::Global;
use std::process::Abort;
use std::test::Fail;

/// A scan that borrows its view, between two updates.
const BORROWING: &[u8] = b"shape 2 2\n\
1 scan\n\
1*6\n\
2 update 2 5\n\
2*17\n\
1*12\n\
2 update 2 6\n\
2*17\n\
1*9\n";

/// An update, all alone, which scans first.
const UPDATE: &[u8] = b"shape 1 1\n1 update 1 7\n1*13\n";

/// Returns the program of the listing.
fn program(alloc: Global) -> Result<Program, Fail> {
    Ok(load_listing(alloc, snap_single::listing(alloc)?.into_listing())?)
}

/// Returns a session of the listing over a schedule.
fn session(rt: &impl Abort, alloc: Global, schedule: &[u8]) -> Result<Session<Seq>, Fail> {
    let program = program(alloc)?;
    assert!(rt; program.kind() == KindTag::Seq);
    let schedule: Schedule = read(alloc, schedule)?;
    Ok(Session::open(alloc, &program, &schedule)?)
}

/// Returns the replies to commands, refused ones among them.
fn replies(alloc: Global, session: &mut Session<Seq>, commands: &[u8]) -> Result<Vec<u8>, Fail> {
    let mut text = Draft::new(alloc);
    for command in &read_commands(alloc, commands)? {
        match session.command(command) {
            Ok(reply) => text.push(reply.as_slice()),
            Err(Fault::Refused(refusal)) => push_refusal_line(&mut text, &refusal),
            Err(Fault::Memory) => return Err(Fail::from(Fault::<CommandRefusal>::Memory)),
        }
    }
    Ok(text.finish()?)
}

/// Checks the replies to commands over a schedule.
fn check(
    rt: &impl Abort,
    alloc: Global,
    schedule: &[u8],
    commands: &[u8],
    wanted: &[u8],
) -> Result<(), Fail> {
    let mut session = session(rt, alloc, schedule)?;
    assert_eq!(rt; session.position(), 0);
    assert_eq!(rt; replies(alloc, &mut session, commands)?.as_slice(), wanted);
    Ok(())
}

#[test]
fn a_watch_stops_at_each_write_and_back_again(rt: HostRuntime) -> Result<(), Fail> {
    check(
        &rt,
        rt.alloc(),
        BORROWING,
        b"watch r 2\nrun\nrun\nrun\nrrun\nback 1\ngoto 0\ngoto 65\n",
        b"marks 1\n\
position 24 of 64\n\
position 54 of 64\n\
position 64 of 64\n\
position 54 of 64\n\
position 53 of 64\n\
position 0 of 64\n\
refused: G5 NoSuchPosition\n",
    )
}

#[test]
fn a_report_is_of_the_position(rt: HostRuntime) -> Result<(), Fail> {
    let mut session = session(&rt, rt.alloc(), UPDATE)?;
    let _reply = replies(rt.alloc(), &mut session, b"goto 1\n")?;
    assert_eq!(rt; session.position(), 1);
    assert_eq!(rt;
        session.report()?.as_slice(),
        b"report at 1 of 14\n\
values 0\n\
r 1 = 0 seq 0 view 0\n\
process 1 update 1 7 at 30\n  \
j = 0\n  \
c = 0\n  \
moved = 0\n  \
a 1 = 0 seq 0 view 0\n  \
b 1 = 0 seq 0 view 0\n  \
s = 0\n\
event 1 1 update 1 7\n"
            .as_slice()
    );
    Ok(())
}
