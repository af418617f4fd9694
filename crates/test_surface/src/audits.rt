//! Tests of audits: where scans have their points, and the text on them.
use crate::texts::BORROWING;
use snap_asm::program;
use snap_audit::{Verdict, audit, verdict_line};
use snap_record::{Record, record_over};
use snap_words::{KindTag, Seq};
use std::alloc::Global;
use std::process::Abort;
use std::test::Fail;

/// Returns the record of U over a schedule.
fn record(rt: &impl Abort, alloc: Global, text: &[u8]) -> Result<Record<Seq>, Fail> {
    let program = program(alloc, &snap_single::listing(alloc)?)?;
    assert!(rt; program.kind() == KindTag::Seq);
    let schedule = snap_sched::read(alloc, text)?;
    Ok(record_over(alloc, &program, &schedule)?)
}

#[test]
fn a_borrowed_view_has_a_point(rt: HostRuntime) -> Result<(), Fail> {
    let record = record(&rt, rt.alloc(), BORROWING)?;
    let verdicts = audit(rt.alloc(), &record)?;
    let want = Verdict {
        process: 1,
        call: 1,
        answer: 64,
        point: Some(24),
        collects: 2,
    };
    match verdicts.as_slice() {
        [verdict] => {
            assert!(rt; *verdict == want);
            assert_eq!(rt;
                verdict_line(rt.alloc(), verdict)?.as_slice(),
                b"scan 1 call 1 answer 64 point 24 collects 2\n".as_slice()
            );
        }
        _ => assert!(rt; false),
    }
    Ok(())
}
