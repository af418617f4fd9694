//! Tests of listing M: its runs, audited.
use snap_audit::audit_text;
use snap_listing::print;
use snap_multi::{listing, run};
use snap_sched::read;
use snap_words::{Kind, Multi};
use std::test::Fail;

/// Schedules, and what an audit says of their scans. In the last one a view is borrowed at the
/// third move of a process.
const AUDITS: [(&[u8], &[u8]); 4] = [
    (
        b"shape 1 1\n1 scan\n1*21\n",
        b"scan 1 call 1 answer 22 point 1 collects 1\n",
    ),
    (
        b"shape 2 3\n2 update 3 7\n2*52\n2 update 1 8\n2*52\n2 update 3 9\n2*52\n1 scan\n1*40\n",
        b"scan 1 call 160 answer 200 point 160 collects 1\n",
    ),
    (
        b"shape 3 2\n3 update 2 1\n3*56\n1 scan\n1*21\n2 update 1 5\n2*56\n3 update 2 8\n3*56\n\
3 update 2 9\n3*56\n1*59\n",
        b"scan 1 call 58 answer 309 point 249 collects 2\n",
    ),
    (
        b"shape 2 1\n2 update 1 5\n2*38\n1 update 1 3\n1*40\n1 scan\n1*13\n2\n1*26\n2\n\
2 update 1 6\n2*3\n1*28\n2*36\n1*19\n",
        b"scan 1 call 81 answer 209 point 95 collects 3\n",
    ),
];

#[test]
fn its_scans_have_points(rt: HostRuntime) -> Result<(), Fail> {
    for (text, verdicts) in AUDITS {
        let schedule = read(rt.alloc(), text)?;
        assert!(rt; Multi::fits(schedule.shape()));
        let record = run(rt.alloc(), &schedule)?;
        assert_eq!(rt; audit_text(rt.alloc(), &record)?.as_slice(), verdicts);
    }
    Ok(())
}

#[test]
fn it_prints_as_a_text(rt: HostRuntime) -> Result<(), Fail> {
    let text = print(rt.alloc(), &listing(rt.alloc())?)?;
    assert!(rt;
        text.as_slice()
            .starts_with(b"kind multi\nscalar j k x\nrow moved g h d tog\n")
    );
    assert!(rt;
        text.as_slice()
            .ends_with(b"57: put r[word] = (arg, me, tog[word])\n58: finish\n")
    );
    Ok(())
}
