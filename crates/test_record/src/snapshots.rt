//! Tests of listings U, B and M: their runs under schedules, reported and audited.
use snap_audit::audit_text;
use snap_record::Record;
use snap_report::report;
use snap_text::Draft;
use snap_words::{Bits, Kind, Multi, Seq};
use std::alloc::{AllocError, Global};
use std::process::Abort;
use std::test::Fail;

#[test]
fn single_reads(rt: HostRuntime) -> Result<(), Fail> {
    let listing = snap_single::listing(rt.alloc())?.into_listing();
    assert_eq!(rt; listing.lines().len(), 18);
    assert_eq!(rt; listing.update(), 30);
    Ok(())
}

#[test]
fn bounded_reads(rt: HostRuntime) -> Result<(), Fail> {
    let listing = snap_bounded::listing(rt.alloc())?.into_listing();
    assert_eq!(rt; listing.lines().len(), 26);
    assert_eq!(rt; listing.update(), 40);
    Ok(())
}

#[test]
fn multi_reads(rt: HostRuntime) -> Result<(), Fail> {
    let listing = snap_multi::listing(rt.alloc())?.into_listing();
    assert_eq!(rt; listing.lines().len(), 37);
    assert_eq!(rt; listing.update(), 50);
    Ok(())
}

/// Schedules of U, and what an audit says of their scans.
const SINGLE: [(&[u8], &[u8]); 4] = [
    (
        b"shape 1 1\n1 scan\n1*9\n",
        b"scan 1 call 1 answer 10 point 1 collects 1\n",
    ),
    (b"shape 1 1\n1 update 1 7\n1*13\n", b""),
    (
        b"shape 2 2\n1 scan\n1*6\n2 update 2 5\n2*17\n1*8\n1*4\n2 update 2 6\n2*17\n1*9\n",
        b"scan 1 call 1 answer 64 point 24 collects 2\n",
    ),
    (
        b"shape 2 2\n1 scan\n1*13\n",
        b"scan 1 call 1 answer 14 point 1 collects 1\n",
    ),
];

#[test]
fn single_runs(rt: HostRuntime) -> Result<(), Fail> {
    for (text, verdicts) in SINGLE {
        let schedule = snap_sched::read(rt.alloc(), text)?;
        assert!(rt; Seq::fits(schedule.shape()));
        let record = snap_single::run(rt.alloc(), &schedule)?;
        assert_eq!(rt; audit_text(rt.alloc(), &record)?.as_slice(), verdicts);
    }
    Ok(())
}

/// What is reported at the end of an update of U, alone.
const UPDATED: &[u8] = b"report at 14 of 14\n\
values 7\n\
r 1 = 7 seq 1 view 0\n\
process 1 idle\n  j = 1\n  c = 1\n  moved = 0\n  a 1 = 0 seq 0 view 0\n  \
b 1 = 0 seq 0 view 0\n  s = 0\n\
event 1 1 update 1 7\n\
event 14 1 done\n";

/// Returns the report of all items of a record.
fn report_of(alloc: Global, record: &Record<Seq>) -> Result<Vec<u8>, AllocError> {
    let mut text = Draft::new(alloc);
    let position = record.items().len();
    report(
        &mut text,
        record.machine(),
        record.events(),
        position,
        position,
    );
    text.finish()
}

/// Checks that the values after `t` items are `wanted` alone.
fn check_value(rt: &impl Abort, record: &Record<Seq>, t: u64, wanted: u64) -> Result<(), Fail> {
    match record.values_after(t)? {
        Some(values) => assert_eq!(rt; values.as_slice(), [wanted].as_slice()),
        None => assert!(rt; false),
    }
    Ok(())
}

#[test]
fn an_update_alone_writes_its_value(rt: HostRuntime) -> Result<(), Fail> {
    let schedule = snap_sched::read(rt.alloc(), b"shape 1 1\n1 update 1 7\n1*13\n")?;
    assert!(rt; Seq::fits(schedule.shape()));
    let record = snap_single::run(rt.alloc(), &schedule)?;
    check_value(&rt, &record, 12, 0)?;
    check_value(&rt, &record, 13, 7)?;
    assert_eq!(rt; report_of(rt.alloc(), &record)?.as_slice(), UPDATED);
    Ok(())
}

/// Schedules of B, and what an audit says of their scans.
const BOUNDED: [(&[u8], &[u8]); 2] = [
    (
        b"shape 1 1\n1 scan\n1*13\n",
        b"scan 1 call 1 answer 14 point 1 collects 1\n",
    ),
    (
        b"shape 3 3\n2 update 2 1\n2*43\n3 update 3 1\n3*43\n\
2 update 2 2\n2*41\n3 update 3 2\n3*41\n1 scan\n1*24\n2\n3\n1*33\n",
        b"scan 1 call 173 answer 232 point 199 collects 2\n",
    ),
];

#[test]
fn bounded_runs(rt: HostRuntime) -> Result<(), Fail> {
    for (text, verdicts) in BOUNDED {
        let schedule = snap_sched::read(rt.alloc(), text)?;
        assert!(rt; Bits::fits(schedule.shape()));
        let record = snap_bounded::run(rt.alloc(), &schedule)?;
        assert_eq!(rt; audit_text(rt.alloc(), &record)?.as_slice(), verdicts);
    }
    Ok(())
}

/// Schedules of M, and what an audit says of their scans.
const MULTI: [(&[u8], &[u8]); 5] = [
    (
        b"shape 1 1\n1 scan\n1*21\n",
        b"scan 1 call 1 answer 22 point 1 collects 1\n",
    ),
    (
        b"shape 2 3\n2 update 3 7\n2*52\n2 update 1 8\n2*52\n2 update 3 9\n2*52\n1 scan\n1*40\n",
        b"scan 1 call 160 answer 200 point 160 collects 1\n",
    ),
    (
        b"shape 3 2\n3 update 2 1\n3*56\n1 scan\n1*21\n\
2 update 1 5\n2*56\n3 update 2 8\n3*56\n3 update 2 9\n3*56\n1*59\n",
        b"scan 1 call 58 answer 309 point 249 collects 2\n",
    ),
    (
        b"shape 2 1\n2 update 1 5\n2*38\n1 update 1 3\n1*40\n\
1 scan\n1*13\n2\n1*26\n2\n2 update 1 6\n2*3\n1*43\n",
        b"scan 1 call 81 answer 169 point 95 collects 3\n",
    ),
    (
        b"shape 2 1\n2 update 1 5\n2*38\n1 update 1 3\n1*40\n\
1 scan\n1*13\n2\n1*26\n2\n2 update 1 6\n2*3\n1*28\n2*36\n1*19\n",
        b"scan 1 call 81 answer 209 point 95 collects 3\n",
    ),
];

#[test]
fn multi_runs(rt: HostRuntime) -> Result<(), Fail> {
    for (text, verdicts) in MULTI {
        let schedule = snap_sched::read(rt.alloc(), text)?;
        assert!(rt; Multi::fits(schedule.shape()));
        let record = snap_multi::run(rt.alloc(), &schedule)?;
        assert_eq!(rt; audit_text(rt.alloc(), &record)?.as_slice(), verdicts);
    }
    Ok(())
}
