//! Tests of schedules and scripts: read, printed and refused.
use snap_sched::{
    Item, MAX_ITEMS, Op, SchedFault, Schedule, ScheduleRefusal, Script, Scripts, Segment, print,
    read, read_scripts,
};
use std::alloc::Global;
use std::process::Abort;
use std::test::Fail;

/// Returns why a text is no schedule; `None` if it is one.
fn refusal(alloc: Global, text: &[u8]) -> Result<Option<ScheduleRefusal>, Fail> {
    match read(alloc, text) {
        Ok(_) => Ok(None),
        Err(SchedFault::Refused(refusal)) => Ok(Some(refusal)),
        Err(fault) => Err(Fail::from(fault)),
    }
}

/// Checks that a text is a schedule, and is printed as `want`.
fn check_printed(rt: &impl Abort, alloc: Global, text: &[u8], want: &[u8]) -> Result<(), Fail> {
    let schedule = read(alloc, text)?;
    assert_eq!(rt; print(alloc, &schedule)?.as_slice(), want);
    Ok(())
}

/// Returns whether a schedule is four steps of process 2.
fn has_four_steps(schedule: &Schedule) -> bool {
    let first = schedule.items().segments().next();
    matches!(
        first,
        Some(Segment::Steps {
            process: 2,
            count: 4
        })
    ) && schedule.items().len() == 4
}

#[test]
fn a_schedule_is_read_and_printed(rt: HostRuntime) -> Result<(), Fail> {
    let alloc = rt.alloc();
    let loose = b"shape 2 2 # two\n 2 * 3\n2".as_slice();
    check_printed(&rt, alloc, loose, b"shape 2 2\n2*4\n")?;
    check_printed(&rt, alloc, b"shape 1 1", b"shape 1 1\n")?;
    check_printed(&rt, alloc, b"shape 64 64\n", b"shape 64 64\n")?;
    let schedule = read(alloc, loose)?;
    assert!(rt; schedule.shape().n() == 2 && has_four_steps(&schedule));
    Ok(())
}

#[test]
fn texts_that_are_no_schedules_are_refused(rt: HostRuntime) -> Result<(), Fail> {
    let alloc = rt.alloc();
    assert!(rt; refusal(alloc, b"shape 0 1")? == Some(ScheduleRefusal::BadShape));
    assert!(rt; refusal(alloc, b"shape 65 1")? == Some(ScheduleRefusal::BadShape));
    assert!(rt; refusal(alloc, b"shape 2 2\n2*0")? == Some(ScheduleRefusal::BadItem(2)));
    let many = b"shape 3 3\n3*1000001".as_slice();
    assert!(rt; refusal(alloc, many)? == Some(ScheduleRefusal::TooManyItems(2)));
    assert!(rt; refusal(alloc, b"shape 3 3\n3*1000000")?.is_none());
    assert!(rt; MAX_ITEMS == 1_000_000);
    assert!(rt; refusal(alloc, b"shape 3 3\n4")? == Some(ScheduleRefusal::NoSuchProcess(2)));
    Ok(())
}

/// Returns whether a script is a scan alone, and has this crash.
fn is_scan(script: &Script, crash: Option<u64>) -> bool {
    matches!(script.operations(), [Op::Scan]) && script.crash() == crash
}

#[test]
fn scripts_have_operations_and_crashes(rt: HostRuntime) -> Result<(), Fail> {
    let text = b"shape 2 2\n1 scan\n2 crash 3\n2 scan\n".as_slice();
    let scripts: Scripts = read_scripts(rt.alloc(), text)?;
    assert!(rt; scripts.shape().w() == 2);
    match scripts.scripts() {
        [first, second] => assert!(rt; is_scan(first, None) && is_scan(second, Some(3))),
        _ => assert!(rt; false),
    }
    let steps = read_scripts(rt.alloc(), b"shape 2 2\n1\n").err();
    assert!(rt; steps == Some(SchedFault::Refused(ScheduleRefusal::BadItem(2))));
    Ok(())
}

#[test]
fn items_are_calls_steps_and_crashes(rt: HostRuntime) {
    let call = Item::Call(1, Op::Update { word: 1, value: 7 });
    assert!(rt; call != Item::Step(1) && Item::Crash(1) != Item::Step(1));
}
