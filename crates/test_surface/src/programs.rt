//! Tests of the program as a library: texts to a text, and whole runs between devices.
ghost use Rattle.std.specs.Prelude.{◌≡◌, [], false, Some};

use crate::texts::{COLLECTED, COLLECTING};
use snap_live::NoGate;
use snap_program::{
    Failed, Fault, Refusal, Sink, Source, Std, Subject, Task, conduct, conduct_live, fault_line,
    perform,
};
use snap_words::KindTag;
use std::alloc::Global;
use std::sync::Wait;
use std::test::Fail;
use std::thread::Threads;

/// A listing and a schedule.
const INPUT: &[u8] = b"kind seq\nscalar j c\nrow\nwords a\nview s\nscan 10\nupdate 10\n\
10: let j = 1\n11: get a[j] = r[j]\n12: next j n goto 11\n13: let c = c + 1\n\
14: put r[me] = (arg, c, s)\n15: finish\n%\nshape 2 2\n1 update 1 7\n1*8\n";

/// The output for the input.
const OUTPUT: &[u8] = b"> run\nposition 9 of 9\nreport at 9 of 9\n\
values 7 0\nr 1 = 7 seq 1 view 0 0\nr 2 = 0 seq 0 view 0 0\n\
process 1 idle\n  j = 1\n  c = 1\n  a 1 = 0 seq 0 view 0 0\n  a 2 = 0 seq 0 view 0 0\n  s = 0 0\n\
process 2 idle\n  j = 0\n  c = 0\n  a 1 = 0 seq 0 view 0 0\n  a 2 = 0 seq 0 view 0 0\n  s = 0 0\n\
event 1 1 update 1 7\nevent 9 1 done\n";

/// The run of the listing in front of the schedule.
const RUN: Task = Task::Run(Subject::FirstPart);

/// Returns what is written for an input.
fn written<R: AllocGlobal + Threads + Sync>(
    rt: &R,
    task: &Task,
    input: &[u8],
) -> Result<Vec<u8>, Fault> {
    let mut source = Std::new(input);
    let mut sink = Std::new(Vec::new(rt.alloc()));
    conduct(rt, rt.alloc(), task, &mut source, &mut sink)?;
    Ok(sink.into_inner())
}

/// Returns what a live run of the shipped listing U writes.
fn written_live<R: AllocGlobal + Threads + Wait + Sync>(
    rt: &R,
    scripts: &[u8],
) -> Result<Vec<u8>, Fault> {
    let subject = Subject::Shipped(KindTag::Seq);
    let mut source = Std::new(scripts);
    let mut sink = Std::new(Vec::new(rt.alloc()));
    conduct_live(
        rt,
        rt.alloc(),
        subject,
        1000,
        &NoGate,
        &mut source,
        &mut sink,
    )?;
    Ok(sink.into_inner())
}

/// Returns the line that says why nothing is written for an input, or nothing if something is.
fn refusal<R: AllocGlobal + Threads + Sync>(
    rt: &R,
    task: &Task,
    input: &[u8],
) -> Result<Vec<u8>, Fail> {
    match written(rt, task, input) {
        Ok(_) => Ok(Vec::new(rt.alloc())),
        Err(fault) => Ok(fault_line(rt.alloc(), &fault)?),
    }
}

/// A source that fails at its first call.
#[derive(Drop)]
struct Broken {
    failed: bool,
}

impl Source for Broken {
    ghost state = { λ s. record { left = Some []; failed = s.failed } };

    fn read(&mut self, _buffer: &mut [u8]) -> Result<usize, Failed> {
        self.failed = true;
        Err(Failed)
    }
}

/// A sink that takes a number of bytes at its first call, and then fails.
#[derive(Drop)]
struct Small {
    taken: Vec<u8>,
    room: usize,
    failed: bool,
    stalled: bool,
}

impl Small {
    fn new(alloc: Global, room: usize) -> Small
        ensures well { result.failed ≡ false }
        ensures goes_on { result.stalled ≡ false }
    {
        Small {
            taken: Vec::new(alloc),
            room,
            failed: false,
            stalled: false,
        }
    }
}

impl Sink for Small {
    ghost state = { λ s. record {
      taken = Some s.taken.items;
      failed = s.failed;
      stalled = s.stalled;
    } };

    fn write(&mut self, bytes: &[u8]) -> Result<usize, Failed> {
        let count = self.room.min(bytes.len());
        if !self.taken.is_empty() || self.taken.extend_from_slice(&bytes[..count]).is_err() {
            self.failed = true;
            return Err(Failed);
        }
        self.stalled = count == 0;
        Ok(count)
    }
}

#[test]
fn texts_are_performed(rt: HostRuntime) -> Result<(), Fail> {
    let text = perform(rt.alloc(), COLLECTING, COLLECTED, b"run\n")?;
    assert_eq!(rt; text.as_slice(), OUTPUT);
    Ok(())
}

#[test]
fn a_whole_run_writes_its_output(rt: HostRuntime) -> Result<(), Fail> {
    assert_eq!(rt; written(&rt, &RUN, INPUT)?.as_slice(), OUTPUT);
    Ok(())
}

#[test]
fn inputs_are_refused_by_name(rt: HostRuntime) -> Result<(), Fail> {
    let line = refusal(&rt, &RUN, COLLECTING)?;
    assert_eq!(rt; line.as_slice(), b"refused: P2 WrongParts 1\n".as_slice());
    let parts = written(&rt, &RUN, COLLECTING).err();
    assert!(rt; parts == Some(Fault::Refused(Refusal::WrongParts(1))));
    let shipped = Task::Run(Subject::Shipped(KindTag::Seq));
    let line = refusal(&rt, &shipped, b"shape 2 3\n")?;
    assert_eq!(rt; line.as_slice(), b"refused: W1 BadShape\n".as_slice());
    Ok(())
}

#[test]
fn a_device_that_fails_is_told(rt: HostRuntime) {
    let mut sink = Small::new(rt.alloc(), 5);
    let done = conduct(&rt, rt.alloc(), &RUN, &mut Std::new(INPUT), &mut sink);
    assert!(rt; done == Err(Fault::Write(5)));
    assert_eq!(rt; sink.taken.as_slice(), b"> run".as_slice());
    let mut sink = Small::new(rt.alloc(), 5);
    let mut source = Broken { failed: false };
    let done = conduct(&rt, rt.alloc(), &RUN, &mut source, &mut sink);
    assert!(rt; done == Err(Fault::Read));
    assert_eq!(rt; sink.taken.len(), 0);
}

#[test]
fn a_live_run_writes_its_history_and_its_report(rt: HostRuntime) -> Result<(), Fail> {
    let text = written_live(&rt, b"shape 1 1\n1 update 1 7\n1 scan\n")?;
    let want = b"shape 1 1\n1 update 1 7\n1*13\n1 scan\n1*9\nreport at 24 of 24\nvalues 7\n";
    assert!(rt; text.as_slice().starts_with(want.as_slice()));
    Ok(())
}
