//! Tests of schedules: which texts are read, why the others are refused, and what is printed.
use snap_sched::{Schedule, ScheduleFault, print, read};
use snap_semantics::ScheduleRefusal::{self, BadItem, BadShape, NoSuchProcess, TooManyItems};
use std::alloc::{AllocError, Global};
use std::test::Fail;

/// A text, and why it is refused.
type Case = (&'static [u8], ScheduleRefusal);

/// Returns whether a text is refused with `want`.
fn is_refused(alloc: Global, text: &[u8], want: ScheduleRefusal) -> bool {
    match read(alloc, text) {
        Ok(_) => false,
        Err(fault) => fault == ScheduleFault::Refused(want),
    }
}

/// Texts whose shape, or an item, has no form.
const NO_FORM: [Case; 8] = [
    (b"", BadShape),
    (b"$", BadShape),
    (b"shape 0 1", BadShape),
    (b"shape 65 1", BadShape),
    (b"shape 2 2\n2*0", BadItem(2)),
    (b"shape 2 2\n2\n2 crash 1", BadItem(3)),
    (b"shape 3 3\n\n# 4\n007", BadItem(4)),
    (b"shape 3 3\n1*18446744073709551616", BadItem(2)),
];

#[test]
fn refuses_what_fits_no_form(rt: HostRuntime) {
    for (text, want) in NO_FORM {
        assert!(rt; is_refused(rt.alloc(), text, want), "{want}");
    }
}

/// Items that are too many, or of processes that there are not.
const NO_ITEMS: [Case; 8] = [
    (b"shape 3 3\n1*18446744073709551615", TooManyItems(2)),
    (b"shape 3 3\n3*1000001", TooManyItems(2)),
    (b"shape 3 3\n3*1000000\n1 scan\n", TooManyItems(3)),
    (b"shape 3 3\n3*1000000\n1 crash\n", TooManyItems(3)),
    (b"shape 3 3\n4 crash", NoSuchProcess(2)),
    (b"shape 3 3\n4", NoSuchProcess(2)),
    (b"shape 3 3\n0", NoSuchProcess(2)),
    (b"shape 2 2\n9*99999999999999", NoSuchProcess(2)),
];

#[test]
fn refuses_too_many_items_and_missing_processes(rt: HostRuntime) {
    for (text, want) in NO_ITEMS {
        assert!(rt; is_refused(rt.alloc(), text, want), "{want}");
    }
}

/// Returns whether a schedule is printed as `want`.
fn prints_as(alloc: Global, schedule: &Schedule, want: &[u8]) -> Result<bool, AllocError> {
    let text = print(alloc, schedule)?;
    Ok(text.as_slice() == want)
}

/// Returns whether a text has this many items, and is printed again as `want`.
fn reads_as(alloc: Global, text: &[u8], len: u64, want: &[u8]) -> Result<bool, ScheduleFault> {
    let schedule = read(alloc, text)?;
    Ok(schedule.items().len() == len && prints_as(alloc, &schedule, want)?)
}

#[test]
fn prints_greatest_runs(rt: HostRuntime) -> Result<(), Fail> {
    for (text, len, want) in [
        (b"shape 1 1".as_slice(), 0, b"shape 1 1\n".as_slice()),
        (b"shape 64 64".as_slice(), 0, b"shape 64 64\n".as_slice()),
        (
            b"shape 2 2 # two\n 2 * 3\n2\n".as_slice(),
            4,
            b"shape 2 2\n2*4\n".as_slice(),
        ),
        (
            b"shape 2 2\n2\n2\n2 crash\n2\n1 crash".as_slice(),
            5,
            b"shape 2 2\n2*2\n2 crash\n2\n1 crash\n".as_slice(),
        ),
        (
            b"\r\n\tshape 16 3\r\n1\n2\n1*1\n\n\
16 update 3 18446744073709551615\n16 scan\n16"
                .as_slice(),
            6,
            b"shape 16 3\n1\n2\n1\n16 update 3 18446744073709551615\n16 scan\n16\n".as_slice(),
        ),
    ] {
        assert!(rt; reads_as(rt.alloc(), text, len, want)?, "{len}");
    }
    Ok(())
}

/// Appends the shape of three processes and one word, and this often a step of process 1 and one of
/// process 2.
fn push_steps(text: &mut Vec<u8>, often: u64) -> Result<(), AllocError> {
    text.extend_from_slice(b"shape 3 1\n")?;
    for _ in 0..often {
        text.extend_from_slice(b"1\n2\n")?;
    }
    Ok(())
}

/// Returns whether a text has this many items.
fn has_items(alloc: Global, text: &[u8], len: u64) -> Result<bool, ScheduleFault> {
    let schedule = read(alloc, text)?;
    Ok(schedule.items().len() == len)
}

#[test]
fn long_texts(rt: HostRuntime) -> Result<(), Fail> {
    let mut text = Vec::new(rt.alloc());
    push_steps(&mut text, 50_000)?;
    assert!(rt; has_items(rt.alloc(), text.as_slice(), 100_000)?);
    Ok(())
}

/// Makes a bad line and blank ones, `len` bytes in all.
fn push_blanks(text: &mut Vec<u8>, len: usize) -> Result<(), AllocError> {
    text.extend_from_slice(b"$\n")?;
    text.resize(len, b'\n')?;
    Ok(())
}

#[test]
fn longest_texts(rt: HostRuntime) -> Result<(), Fail> {
    let mut blank = Vec::new(rt.alloc());
    push_blanks(&mut blank, 4_194_304)?;
    assert!(rt; is_refused(rt.alloc(), blank.as_slice(), ScheduleRefusal::BadShape));
    blank.push(b'\n')?;
    assert!(rt; is_refused(rt.alloc(), blank.as_slice(), ScheduleRefusal::TooLong));
    Ok(())
}
