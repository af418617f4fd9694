//! Tests of batches: the report of each schedule, in order.
use snap_asm::program;
use snap_batch::{Report, batch};
use snap_sched::{Schedule, read};
use std::alloc::Global;
use std::test::Fail;

/// A scan and an update of U by its one process.
const SCAN: &[u8] = b"shape 1 1\n1 scan\n1*9\n";

const UPDATE: &[u8] = b"shape 1 1\n1 update 1 7\n1*13\n";

/// The reports of their ends.
const SCANNED: &[u8] = b"report at 10 of 10\nvalues 0\nr 1 = 0 seq 0 view 0\n\
process 1 idle\n  j = 1\n  c = 0\n  moved = 0\n  a 1 = 0 seq 0 view 0\n  \
b 1 = 0 seq 0 view 0\n  s = 0\nevent 1 1 scan\nevent 10 1 answer 0\n";

const UPDATED: &[u8] = b"report at 14 of 14\nvalues 7\nr 1 = 7 seq 1 view 0\n\
process 1 idle\n  j = 1\n  c = 1\n  moved = 0\n  a 1 = 0 seq 0 view 0\n  \
b 1 = 0 seq 0 view 0\n  s = 0\nevent 1 1 update 1 7\nevent 14 1 done\n";

/// Returns the schedules of `texts`.
fn schedules(alloc: Global, texts: &[&[u8]]) -> Result<Vec<Schedule>, Fail> {
    let mut schedules = Vec::new(alloc);
    for &text in texts {
        schedules.push(read(alloc, text)?)?;
    }
    Ok(schedules)
}

/// Returns whether three reports are of a scan, an update and a scan.
fn are_reports(reports: &[Report]) -> bool {
    match reports {
        [first, second, third] => {
            first.as_slice() == SCANNED
                && second.as_slice() == UPDATED
                && third.as_slice() == SCANNED
        }
        _ => false,
    }
}

#[test]
fn reports_come_in_the_order_of_schedules(rt: HostRuntime) -> Result<(), Fail> {
    let program = program(rt.alloc(), &snap_single::listing(rt.alloc())?)?;
    let schedules = schedules(rt.alloc(), &[SCAN, UPDATE, SCAN])?;
    let reports = batch(&rt, rt.alloc(), &program, schedules.as_slice())?;
    assert!(rt; are_reports(reports.as_slice()));
    let none = batch(&rt, rt.alloc(), &program, &[])?;
    assert_eq!(rt; none.len(), 0);
    Ok(())
}
