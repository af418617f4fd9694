//! Tests of listing B: its runs, audited.
use snap_audit::audit_text;
use snap_bounded::{listing, run};
use snap_listing::print;
use snap_sched::read;
use snap_words::{Bits, Kind};
use std::test::Fail;

/// Schedules, and what an audit says of their scans. In the last one a test fails by a toggle
/// alone.
const AUDITS: [(&[u8], &[u8]); 2] = [
    (
        b"shape 1 1\n1 scan\n1*13\n",
        b"scan 1 call 1 answer 14 point 1 collects 1\n",
    ),
    (
        b"shape 3 3\n2 update 2 1\n2*43\n3 update 3 1\n3*43\n2 update 2 2\n2*41\n\
3 update 3 2\n3*41\n1 scan\n1*24\n2\n3\n1*33\n",
        b"scan 1 call 173 answer 232 point 199 collects 2\n",
    ),
];

#[test]
fn its_scans_have_points(rt: HostRuntime) -> Result<(), Fail> {
    for (text, verdicts) in AUDITS {
        let schedule = read(rt.alloc(), text)?;
        assert!(rt; Bits::fits(schedule.shape()));
        let record = run(rt.alloc(), &schedule)?;
        assert_eq!(rt; audit_text(rt.alloc(), &record)?.as_slice(), verdicts);
    }
    Ok(())
}

#[test]
fn it_prints_as_a_text(rt: HostRuntime) -> Result<(), Fail> {
    let text = print(rt.alloc(), &listing(rt.alloc())?)?;
    assert!(rt;
        text.as_slice()
            .starts_with(b"kind bit\nscalar j x t\nrow moved g f\n")
    );
    assert!(rt;
        text.as_slice()
            .ends_with(b"46: put r[me] = (arg, f, t, s)\n47: finish\n")
    );
    Ok(())
}
