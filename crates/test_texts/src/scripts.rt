//! Tests of scripts: which texts are read, and why the others are refused.
use snap_sched::{ScheduleFault, Script, Scripts, read_scripts};
use snap_semantics::Op;
use snap_semantics::ScheduleRefusal::{self, BadItem, BadShape, NoSuchProcess};
use std::alloc::{AllocError, Global};
use std::test::Fail;

/// A text, and why it is refused.
type Case = (&'static [u8], ScheduleRefusal);

/// Returns whether a text is refused with `want`.
fn is_refused(alloc: Global, text: &[u8], want: ScheduleRefusal) -> bool {
    match read_scripts(alloc, text) {
        Ok(_) => false,
        Err(fault) => fault == ScheduleFault::Refused(want),
    }
}

/// Texts with steps, or with crashes as schedules have them.
const OF_SCHEDULES: [Case; 7] = [
    (b"", BadShape),
    (b"shape 65 1", BadShape),
    (b"shape 2 2\n1", BadItem(2)),
    (b"shape 2 2\n1*2", BadItem(2)),
    (b"shape 2 2\n1 scan\n1 crash", BadItem(3)),
    (b"shape 2 2\n3 scan", NoSuchProcess(2)),
    (b"shape 2 2\n\n3 crash 5", NoSuchProcess(3)),
];

#[test]
fn refuses_steps_and_crashes_of_schedules(rt: HostRuntime) {
    for (text, want) in OF_SCHEDULES {
        assert!(rt; is_refused(rt.alloc(), text, want), "{want}");
    }
}

/// Crashes at no turn, and a second one.
const CRASHES: [Case; 3] = [
    (b"shape 2 2\n1 crash 0", BadItem(2)),
    (b"shape 2 2\n3 crash 1000001", BadItem(2)),
    (b"shape 2 2\n2 crash 9\n1 scan\n2 crash 9", BadItem(4)),
];

#[test]
fn refuses_turns_out_of_range_and_second_crashes(rt: HostRuntime) {
    for (text, want) in CRASHES {
        assert!(rt; is_refused(rt.alloc(), text, want), "{want}");
    }
}

/// Returns whether a script has the operations `ops` and the crash `crash`.
fn is_script(script: &Script, ops: &[Op], crash: Option<u64>) -> bool {
    script.operations() == ops && script.crash() == crash
}

/// Returns whether the scripts are those of the text below.
fn are_read(scripts: &Scripts) -> bool {
    let [first, second, third] = scripts.scripts() else {
        return false;
    };
    scripts.shape().n() == 3
        && scripts.shape().w() == 2
        && is_script(
            first,
            &[Op::Update { word: 1, value: 7 }, Op::Scan],
            Some(20),
        )
        && is_script(second, &[], None)
        && is_script(third, &[Op::Scan], Some(1_000_000))
}

#[test]
fn reads_scripts_in_order(rt: HostRuntime) -> Result<(), Fail> {
    let text = b"shape 3 2 # three\n1 update 1 7\n1 crash 20\n\n3 scan\n1 scan\n3 crash 1000000";
    let scripts = read_scripts(rt.alloc(), text)?;
    assert!(rt; are_read(&scripts));
    Ok(())
}
