//! The code that docs/design/library.md shows: a listing is read and run, the run is audited and
//! judged, and a session goes through it.
ghost use Rattle.std.specs.Prelude.{◌≡◌, IfOk};
ghost use Rattle.snap_words.specs.Shape.{IsOneOf};
ghost use Rattle.snap_words.specs.declared.kind.KindTag.TheVariants as kind;

use snap_asm::{Program, assemble, load};
use snap_audit::{audit, verdict_line};
use snap_debug::{Session, fault_line, read_commands};
use snap_machine::{Item, Machine, Outcome};
use snap_program::{
    Fault, JudgeRequest, JudgeSource, Linearizability, Std, Subject, conduct_judge,
};
use snap_record::{Record, record_over};
use snap_sched::{Schedule, read};
use snap_words::{Kind, KindTag, Seq, Shape};
use std::alloc::{AllocError, Global};
use std::process::Abort;
use std::test::Fail;

/// A listing whose scan collects the words once, and answers what it saw.
const CARELESS: &[u8] = b"\
    kind seq\n\
    scalar j c\n\
    row\n\
    words a\n\
    view s\n\
    scan 1\n\
    update 10\n\
    1: let j = 1\n\
    2: get a[j] = r[j]\n\
    3: next j n goto 2\n\
    4: view s = data(a)\n\
    5: return s\n\
    10: let c = c + 1\n\
    11: put r[me] = (arg, c, s)\n\
    12: finish\n";

/// Process 1 reads two of three words. Processes 2 and 3 write theirs, one after the other, before
/// it reads the third.
const TORN: &[u8] = b"\
    shape 3 3\n\
    1 scan\n\
    1*5\n\
    2 update 2 5\n\
    2*3\n\
    3 update 3 6\n\
    3*3\n\
    1*4\n";

/// The same in one input, as the program reads it.
const INPUT: &[u8] = b"kind seq\nscalar j c\nrow\nwords a\nview s\nscan 1\nupdate 10\n\
1: let j = 1\n2: get a[j] = r[j]\n3: next j n goto 2\n4: view s = data(a)\n5: return s\n\
10: let c = c + 1\n11: put r[me] = (arg, c, s)\n12: finish\n%\n\
shape 3 3\n1 scan\n1*5\n2 update 2 5\n2*3\n3 update 3 6\n3*3\n1*4\n";

/// The program of a listing.
fn program(alloc: Global, text: &[u8]) -> Result<Program, Fail> {
    let image = assemble(alloc, text)?;
    Ok(load(alloc, image.as_slice())?)
}

/// The record of a listing over a schedule, or nothing where its registers are of another kind.
fn record(
    alloc: Global,
    program: &Program,
    schedule: &Schedule,
) -> Result<Option<Record<Seq>>, Fail> {
    if program.kind() != KindTag::Seq {
        return Ok(None);
    }
    Ok(Some(record_over(alloc, program, schedule)?))
}

/// What an audit says of the scans of a record.
fn audit_lines(alloc: Global, record: &Record<Seq>) -> Result<Vec<u8>, Fail> {
    let mut text = Vec::new(alloc);
    for verdict in &audit(alloc, record)? {
        text.extend_from_slice(verdict_line(alloc, verdict)?.as_slice())?;
    }
    Ok(text)
}

/// What a debugger replies to commands over a schedule.
fn replies(
    alloc: Global,
    program: &Program,
    schedule: &Schedule,
    commands: &[u8],
) -> Result<Vec<u8>, Fail>
    requires { program.now.kind ≡ kind.Seq }
{
    let mut session = Session::<Seq>::open(alloc, program, schedule)?;
    let mut text = Vec::new(alloc);
    for command in &read_commands(alloc, commands)? {
        match session.command(command) {
            Ok(reply) => text.extend_from_slice(reply.as_slice())?,
            Err(fault) => text.extend_from_slice(fault_line(alloc, &fault)?.as_slice())?,
        }
    }
    Ok(text)
}

/// Whether the run of a listing under a schedule is linearizable, and what is said of it.
fn judgement(alloc: Global, input: &[u8]) -> Result<(Linearizability, Vec<u8>), Fault> {
    let request = JudgeRequest {
        source: JudgeSource::Run(Subject::FirstPart),
        most: 100_000,
    };
    let mut source = Std::new(input);
    let mut sink = Std::new(Vec::new(alloc));
    let mut kept = Vec::new(alloc);
    let word = conduct_judge(alloc, &request, &mut source, &mut sink, &mut kept)?;
    Ok((word, sink.into_inner()))
}

/// What a step of a process would come to. The machine is as it was.
fn tried_step<K: Kind>(machine: &mut Machine<K>, i: u32) -> Result<Outcome, AllocError>
    requires { IsOneOf machine.old.shape.n i }
    ensures { machine.new ≡ machine.old }
{
    let (outcome, undo) = machine.apply_undo(Item::Step(i))?;
    machine.revert(undo);
    Ok(outcome)
}

/// The program of that listing.
fn careless(rt: &impl Abort, alloc: Global) -> Result<Program, Fail>
    ensures { IfOk result (λ p. p.kind ≡ kind.Seq) }
{
    let program = program(alloc, CARELESS)?;
    assert!(rt; program.kind() == KindTag::Seq);
    Ok(program)
}

#[test]
fn a_scan_that_collects_once_has_no_point(rt: HostRuntime) -> Result<(), Fail> {
    let program = program(rt.alloc(), CARELESS)?;
    let schedule = read(rt.alloc(), TORN)?;
    let Some(record) = record(rt.alloc(), &program, &schedule)? else {
        panic!(rt; "another kind")
    };
    assert_eq!(rt;
        audit_lines(rt.alloc(), &record)?.as_slice(),
        b"scan 1 call 1 answer 18 point none collects 0\n".as_slice()
    );
    Ok(())
}

#[test]
fn a_session_shows_where_the_words_change(rt: HostRuntime) -> Result<(), Fail> {
    let program = careless(&rt, rt.alloc())?;
    let schedule = read(rt.alloc(), TORN)?;
    let commands = b"watch r 3\nrun\nvalues\nback 1\nvalues\nrun\nrun\nwhere\n".as_slice();
    let text = replies(rt.alloc(), &program, &schedule, commands)?;
    assert_eq!(rt;
        text.as_slice(),
        b"marks 1\nposition 13 of 18\nvalues 0 5 6\nposition 12 of 18\nvalues 0 5 0\n\
position 13 of 18\nposition 18 of 18\nposition 18 of 18\nlast 1 answered 0 0 6\n\
process 1 idle\nprocess 2 idle\nprocess 3 idle\n"
            .as_slice()
    );
    Ok(())
}

#[test]
fn its_run_is_not_linearizable(rt: HostRuntime) -> Result<(), Fail> {
    let (word, _text) = judgement(rt.alloc(), INPUT)?;
    assert!(rt; word == Linearizability::NotLinearizable);
    Ok(())
}

#[test]
fn a_step_is_tried(rt: HostRuntime) -> Result<(), Fail> {
    let program = careless(&rt, rt.alloc())?;
    let mut machine = Machine::<Seq>::new(rt.alloc(), &program, Shape::new(1, 1)?)?;
    assert!(rt; machine.shape().n() == 1);
    let outcome = tried_step(&mut machine, 1)?;
    assert!(rt; matches!(&outcome, Outcome::Skipped(_)));
    Ok(())
}
