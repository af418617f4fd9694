//! Tests of whole runs of the program on devices in memory, which give or take a few bytes a call,
//! or fail.
use crate::devices_of_memory::{Narrow, Trickle};
use snap_program::{ProgramFault, Std, Subject, Task, conduct};
use std::test::Fail;

/// A listing and a schedule.
const INPUT: &[u8; 198] = b"kind seq\nscalar j c\nrow\nwords a\nview s\nscan 10\nupdate 10\n\
10: let j = 1\n11: get a[j] = r[j]\n12: next j n goto 11\n13: let c = c + 1\n\
14: put r[me] = (arg, c, s)\n15: finish\n%\nshape 2 2\n1 update 1 7\n1*8\n";

const OUTPUT: &[u8; 314] = b"> run\nposition 9 of 9\nreport at 9 of 9\n\
values 7 0\nr 1 = 7 seq 1 view 0 0\nr 2 = 0 seq 0 view 0 0\n\
process 1 idle\n  j = 1\n  c = 1\n  a 1 = 0 seq 0 view 0 0\n  a 2 = 0 seq 0 view 0 0\n  s = 0 0\n\
process 2 idle\n  j = 0\n  c = 0\n  a 1 = 0 seq 0 view 0 0\n  a 2 = 0 seq 0 view 0 0\n  s = 0 0\n\
event 1 1 update 1 7\nevent 9 1 done\n";

const RUN: Task = Task::Run(Subject::FirstPart);

#[test]
fn writes_what_std_takes(rt: HostRuntime) -> Result<(), Fail> {
    let mut source = Std::new(INPUT.as_slice());
    let mut sink = Std::new(Vec::new(rt.alloc()));
    conduct(&rt, rt.alloc(), &RUN, &mut source, &mut sink)?;
    assert_eq!(rt; sink.into_inner().as_slice(), OUTPUT.as_slice());
    Ok(())
}

#[test]
fn one_byte_a_call_changes_nothing(rt: HostRuntime) -> Result<(), Fail> {
    let mut source = Trickle::new(INPUT.as_slice(), 1000);
    let mut sink = Narrow::new(rt.alloc(), 1, 1000);
    conduct(&rt, rt.alloc(), &RUN, &mut source, &mut sink)?;
    assert_eq!(rt; sink.taken.as_slice(), OUTPUT.as_slice());
    Ok(())
}

#[test]
fn reader_fails_at_each_call(rt: HostRuntime) {
    for calls in 0..199 {
        let mut source = Trickle::new(INPUT.as_slice(), calls);
        let mut sink = Narrow::new(rt.alloc(), 1, 1000);
        let done = conduct(&rt, rt.alloc(), &RUN, &mut source, &mut sink);
        assert_eq!(rt; done, Err(ProgramFault::Read), "at {calls}");
        assert_eq!(rt; sink.taken.len(), 0, "at {calls}");
    }
}

#[test]
fn writer_fails_at_each_call(rt: HostRuntime) {
    for calls in 0..314 {
        let mut source = Trickle::new(INPUT.as_slice(), 1000);
        let mut sink = Narrow::new(rt.alloc(), 1, calls);
        let done = conduct(&rt, rt.alloc(), &RUN, &mut source, &mut sink);
        assert_eq!(rt; done, Err(ProgramFault::Write(calls)), "at {calls}");
        assert_eq!(rt;
            sink.taken.as_slice(),
            &OUTPUT[..calls as usize],
            "at {calls}"
        );
    }
}

#[test]
fn writer_takes_five_or_none(rt: HostRuntime) {
    let mut source = Trickle::new(INPUT.as_slice(), 1000);
    let mut sink = Narrow::new(rt.alloc(), 5, 1);
    assert_eq!(rt;
        conduct(&rt, rt.alloc(), &RUN, &mut source, &mut sink),
        Err(ProgramFault::Write(5))
    );
    assert_eq!(rt; sink.taken.as_slice(), b"> run".as_slice());
    let mut source = Trickle::new(INPUT.as_slice(), 1000);
    let mut sink = Narrow::new(rt.alloc(), 0, 1000);
    assert_eq!(rt;
        conduct(&rt, rt.alloc(), &RUN, &mut source, &mut sink),
        Err(ProgramFault::Write(0))
    );
}
