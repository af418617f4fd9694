//! Tests of listing U: its runs, audited.
use snap_audit::audit_text;
use snap_listing::print;
use snap_sched::read;
use snap_single::{listing, run};
use snap_words::{Kind, Seq};
use std::test::Fail;

/// Schedules, and what an audit says of their scans.
const AUDITS: [(&[u8], &[u8]); 6] = [
    (
        b"shape 1 1\n1 scan\n1*9\n",
        b"scan 1 call 1 answer 10 point 1 collects 1\n",
    ),
    (b"shape 1 1\n1 update 1 7\n1*13\n", b""),
    (
        b"shape 2 2\n1 scan\n1*13\n",
        b"scan 1 call 1 answer 14 point 1 collects 1\n",
    ),
    (
        b"shape 2 2\n2 update 2 5\n2*16\n2 crash\n2\n1 scan\n1*13\n",
        b"scan 1 call 20 answer 33 point 20 collects 1\n",
    ),
    (
        b"shape 2 2\n2 update 2 5\n2*15\n2 crash\n2\n1 scan\n1*13\n",
        b"scan 1 call 19 answer 32 point 19 collects 1\n",
    ),
    (
        b"shape 64 64\n1 scan\n1*261\n",
        b"scan 1 call 1 answer 262 point 1 collects 1\n",
    ),
];

#[test]
fn its_scans_have_points(rt: HostRuntime) -> Result<(), Fail> {
    for (text, verdicts) in AUDITS {
        let schedule = read(rt.alloc(), text)?;
        assert!(rt; Seq::fits(schedule.shape()));
        let record = run(rt.alloc(), &schedule)?;
        assert_eq!(rt; audit_text(rt.alloc(), &record)?.as_slice(), verdicts);
    }
    Ok(())
}

#[test]
fn it_prints_as_a_text(rt: HostRuntime) -> Result<(), Fail> {
    let text = print(rt.alloc(), &listing(rt.alloc())?)?;
    assert!(rt;
        text.as_slice()
            .starts_with(b"kind seq\nscalar j c\nrow moved\n")
    );
    assert!(rt;
        text.as_slice()
            .ends_with(b"32: put r[me] = (arg, c, s)\n33: finish\n")
    );
    Ok(())
}
