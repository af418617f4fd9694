//! Tests of listings and schedules that are cut at every byte: what is left is read, or is refused
//! by name at its end.
use snap_listing::ListingFault;
use snap_sched::ScheduleFault;
use snap_semantics::{ListingRefusal, ScheduleRefusal};
use snap_shipped::{text_b, text_m, text_u};
use snap_text::line_count;
use std::alloc::Global;
use std::process::Abort;
use std::test::Fail;

/// A schedule of three processes.
const SCHEDULE: &[u8] = b"\
    shape 3 3 # three of them\n\
    2 update 2 1\n\
    2*43\n\
    3 update 3 1\n\
    3*43\n\
    2 update 2 2\n\
    2*41\n\
    3 update 3 2\n\
    3*41\n\
    1 scan\n\
    1*24\n\
    2\n\
    3\n\
    1*33\n\
    2 crash\n\
";

/// Returns whether a listing that was cut is read, or is refused for its last line, the one that is
/// missing behind it, or a line that it leads to.
fn is_listing_or_refused(alloc: Global, text: &[u8]) -> bool {
    let last = line_count(text);
    let Err(fault) = snap_listing::read(alloc, text) else {
        return true;
    };
    let ListingFault::Refused(refusal) = fault else {
        return false;
    };
    match refusal {
        ListingRefusal::NoSuchLine(_) => true,
        ListingRefusal::BadHeader(line) => line == last || line == last.saturating_add(1),
        ListingRefusal::BadLine(line)
        | ListingRefusal::UnknownName(line)
        | ListingRefusal::WrongKind(line) => line == last,
        _ => false,
    }
}

/// Returns whether a schedule that was cut is read, or is refused for its last line.
fn is_schedule_or_refused(alloc: Global, text: &[u8]) -> bool {
    let last = line_count(text);
    let Err(fault) = snap_sched::read(alloc, text) else {
        return true;
    };
    let ScheduleFault::Refused(refusal) = fault else {
        return false;
    };
    match refusal {
        ScheduleRefusal::BadShape => last <= 1,
        ScheduleRefusal::BadItem(line) => line == last,
        _ => false,
    }
}

/// Checks that each cut of a listing is read, or is refused for its end.
fn check_listing_cuts(rt: &impl Abort, alloc: Global, text: &[u8]) {
    for len in 0..text.len() {
        assert!(rt; is_listing_or_refused(alloc, &text[..len]), "{len}");
    }
}

#[test]
fn reads_each_cut_of_a_listing_or_refuses_its_end(rt: HostRuntime) -> Result<(), Fail> {
    for text in [text_u(), text_b(), text_m()] {
        check_listing_cuts(&rt, rt.alloc(), text);
        let _whole = snap_listing::read(rt.alloc(), text)?;
    }
    Ok(())
}

#[test]
fn reads_each_cut_of_a_schedule_or_refuses_its_end(rt: HostRuntime) -> Result<(), Fail> {
    for len in 0..SCHEDULE.len() {
        assert!(rt;
            is_schedule_or_refused(rt.alloc(), &SCHEDULE[..len]),
            "{len}"
        );
    }
    let _whole = snap_sched::read(rt.alloc(), SCHEDULE)?;
    Ok(())
}
