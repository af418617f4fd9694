//! Tests of batches in threads: the report of each of many schedules of a listing.
use snap_batch::batch;
use snap_program::shipped;
use snap_report::Report;
use snap_sched::{Schedule, ScheduleFault, read};
use snap_words::KindTag;
use std::alloc::Global;
use std::test::Fail;

/// A scan of U by its one process, and an update.
const SCAN: &[u8; 21] = b"shape 1 1\n1 scan\n1*9\n";

const UPDATE: &[u8; 28] = b"shape 1 1\n1 update 1 7\n1*13\n";

/// The reports of their ends.
const SCANNED: &[u8; 181] = b"report at 10 of 10\nvalues 0\nr 1 = 0 seq 0 view 0\n\
process 1 idle\n  j = 1\n  c = 0\n  moved = 0\n  a 1 = 0 seq 0 view 0\n  \
b 1 = 0 seq 0 view 0\n  s = 0\nevent 1 1 scan\nevent 10 1 answer 0\n";

const UPDATED: &[u8; 183] = b"report at 14 of 14\nvalues 7\nr 1 = 7 seq 1 view 0\n\
process 1 idle\n  j = 1\n  c = 1\n  moved = 0\n  a 1 = 0 seq 0 view 0\n  \
b 1 = 0 seq 0 view 0\n  s = 0\nevent 1 1 update 1 7\nevent 14 1 done\n";

/// Returns `count` schedules, scans and updates by turns.
fn by_turns(alloc: Global, count: usize) -> Result<Vec<Schedule>, ScheduleFault> {
    let mut schedules = Vec::new(alloc);
    for place in 0..count {
        let text = if place % 2 == 0 {
            SCAN.as_slice()
        } else {
            UPDATE
        };
        schedules.push(read(alloc, text)?)?;
    }
    Ok(schedules)
}

/// Returns whether the reports are those of scans and updates by turns.
fn are_by_turns(reports: &[Report]) -> bool {
    for place in 0..reports.len() {
        let wanted = if place % 2 == 0 {
            SCANNED.as_slice()
        } else {
            UPDATED
        };
        if reports[place].as_slice() != wanted {
            return false;
        }
    }
    true
}

#[test]
fn each_report_is_its_schedules(rt: HostRuntime) -> Result<(), Fail> {
    let program = shipped(rt.alloc(), KindTag::Seq)?;
    for count in [0, 1, 2100] {
        let schedules = by_turns(rt.alloc(), count)?;
        let reports = batch(&rt, rt.alloc(), &program, schedules.as_slice())?;
        assert_eq!(rt; reports.len(), count);
        assert!(rt; are_by_turns(reports.as_slice()), "{count}");
    }
    Ok(())
}
