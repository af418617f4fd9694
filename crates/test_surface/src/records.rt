//! Tests of records: items, events, values and double collects, and the printed texts.
ghost use Rattle.std.specs.Prelude.{◌≡◌, IsTrue, ◌↔◌, IfOk};
ghost use Rattle.snap_words.specs.Shape.{IsOneOf};
ghost use Rattle.snap_words.specs.declared.kind.KindTag.TheVariants as kind;

use crate::texts::{COLLECTED, COLLECTING};
use snap_asm::{Program, assemble, load, program};
use snap_record::{
    Event, Happening, Item, MAX_ITEMS, Op, Outcome, Record, RecordFault, event_line, head_line,
    outcome_text, process_lines, record_over, register_line, report_at, values_line,
};
use snap_words::{Address, Bank, KindTag, Seq, Shape};
use std::alloc::Global;
use std::process::Abort;
use std::test::Fail;

/// What is reported at the end of an update.
const REPORT: &[u8] = b"report at 9 of 9\nvalues 7 0\nr 1 = 7 seq 1 view 0 0\n\
r 2 = 0 seq 0 view 0 0\nprocess 1 idle\n  j = 1\n  c = 1\n  a 1 = 0 seq 0 view 0 0\n  \
a 2 = 0 seq 0 view 0 0\n  s = 0 0\nprocess 2 idle\n  j = 0\n  c = 0\n  \
a 1 = 0 seq 0 view 0 0\n  a 2 = 0 seq 0 view 0 0\n  s = 0 0\n\
event 1 1 update 1 7\nevent 9 1 done\n";

/// The lines of process 2 in the report.
const SECOND: &[u8] = b"process 2 idle\n  j = 0\n  c = 0\n  a 1 = 0 seq 0 view 0 0\n  \
a 2 = 0 seq 0 view 0 0\n  s = 0 0\n";

/// Returns the program of listing U.
fn program_of_u(rt: &impl Abort, alloc: Global) -> Result<Program, Fail>
    ensures { IfOk result (λ p. p.kind ≡ kind.Seq) }
{
    let program = program(alloc, &snap_single::listing(alloc)?)?;
    assert!(rt; program.kind() == KindTag::Seq);
    Ok(program)
}

/// Returns the record of the update.
fn collected(rt: &impl Abort, alloc: Global) -> Result<Record<Seq>, Fail> {
    let image = assemble(alloc, COLLECTING)?;
    let program = load(alloc, image.as_slice())?;
    assert!(rt; program.kind() == KindTag::Seq);
    let schedule = snap_sched::read(alloc, COLLECTED)?;
    Ok(record_over(alloc, &program, &schedule)?)
}

/// Returns whether there is a process of this number.
fn has(record: &Record<Seq>, i: u32) -> bool
    ensures { IsTrue result ↔ IsOneOf «record».now.shape.n i }
{
    0 < i && u64::from(i) <= record.machine().shape().n()
}

/// Makes a step.
fn step(rt: &impl Abort, record: &mut Record<Seq>, i: u32) -> Result<Outcome, RecordFault> {
    assert!(rt; has(record, i));
    record.apply(Item::Step(i))
}

/// Does `count` steps of a process.
fn steps(rt: &impl Abort, record: &mut Record<Seq>, i: u32, count: u64) -> Result<(), Fail> {
    for _ in 0..count {
        let _outcome = step(rt, record, i)?;
    }
    Ok(())
}

/// Does a call.
fn call(rt: &impl Abort, record: &mut Record<Seq>, i: u32, op: Op) -> Result<(), Fail> {
    assert!(rt; has(record, i));
    match record.apply(Item::Call(i, op))? {
        Outcome::Called => {}
        other => assert!(rt; false, "{other:?}"),
    }
    Ok(())
}

/// Checks that the values after `t` items are `want`.
fn check_values(rt: &impl Abort, record: &Record<Seq>, t: u64, want: &[u64]) -> Result<(), Fail> {
    match record.values_after(t)? {
        Some(values) => assert_eq!(rt; values.as_slice(), want),
        None => assert!(rt; false),
    }
    Ok(())
}

/// Lets process 2 update its word while process 1 scans.
fn update_between(
    rt: &impl Abort,
    record: &mut Record<Seq>,
    value: u64,
    count: u64,
) -> Result<(), Fail> {
    call(rt, record, 2, Op::Update { word: 2, value })?;
    steps(rt, record, 2, 17)?;
    steps(rt, record, 1, count)
}

/// Makes a scan that borrows its view, between two updates.
fn borrowing(rt: &impl Abort, alloc: Global) -> Result<Record<Seq>, Fail> {
    let program = program_of_u(rt, alloc)?;
    let mut record = Record::new(alloc, &program, Shape::new(2, 2)?)?;
    call(rt, &mut record, 1, Op::Scan)?;
    steps(rt, &mut record, 1, 6)?;
    update_between(rt, &mut record, 5, 12)?;
    update_between(rt, &mut record, 6, 9)?;
    Ok(record)
}

/// Returns whether an event is the answer of a scan of process 1 with these values.
fn is_answer(event: &Event, item: u64, want: &[u64]) -> bool {
    match &event.what {
        Happening::Answer(view) => {
            event.item == item && event.process == 1 && view.as_slice() == want
        }
        _ => false,
    }
}

#[test]
fn a_record_has_its_items_events_and_values(rt: HostRuntime) -> Result<(), Fail> {
    let record = borrowing(&rt, rt.alloc())?;
    assert_eq!(rt; record.items().len(), 64);
    assert!(rt; record.items().item(8) == Some(Item::Call(2, Op::Update { word: 2, value: 5 })));
    assert_eq!(rt; record.events().len(), 6);
    assert!(rt;
        record
            .events()
            .iter()
            .any(|event| is_answer(event, 64, &[0, 5]))
    );
    check_values(&rt, &record, 23, &[0, 0])?;
    check_values(&rt, &record, 24, &[0, 5])?;
    check_values(&rt, &record, 54, &[0, 6])?;
    assert!(rt; record.values_after(65)?.is_none());
    Ok(())
}

#[test]
fn a_record_has_the_double_collects_of_its_scans(rt: HostRuntime) -> Result<(), Fail> {
    let record = borrowing(&rt, rt.alloc())?;
    assert!(rt; record.collects_of(1) == Some(2));
    assert!(rt; record.collects_of(8).is_none());
    assert!(rt; record.collects_of(0).is_none());
    Ok(())
}

#[test]
fn a_record_reports_its_last_position(rt: HostRuntime) -> Result<(), Fail> {
    let record = collected(&rt, rt.alloc())?;
    assert_eq!(rt; record.report()?.as_slice(), REPORT);
    let report = report_at(rt.alloc(), record.machine(), record.events(), 9, 9)?;
    assert_eq!(rt; report.as_slice(), REPORT);
    Ok(())
}

#[test]
fn parts_of_a_report_are_printed_alone(rt: HostRuntime) -> Result<(), Fail> {
    let alloc = rt.alloc();
    let record = collected(&rt, alloc)?;
    let machine = record.machine();
    assert_eq!(rt;
        values_line(alloc, machine)?.as_slice(),
        b"values 7 0\n".as_slice()
    );
    let word = Address {
        bank: Bank::R,
        i: 1,
        j: 0,
    };
    assert_eq!(rt;
        register_line(alloc, machine, word)?.as_slice(),
        b"r 1 = 7 seq 1 view 0 0\n".as_slice()
    );
    assert!(rt; has(&record, 2));
    assert_eq!(rt;
        head_line(alloc, machine, 2)?.as_slice(),
        b"process 2 idle\n".as_slice()
    );
    assert_eq!(rt; process_lines(alloc, machine, 2)?.as_slice(), SECOND);
    Ok(())
}

#[test]
fn events_and_outcomes_are_printed(rt: HostRuntime) -> Result<(), Fail> {
    let alloc = rt.alloc();
    let record = collected(&rt, alloc)?;
    match record.events().last() {
        Some(event) => {
            assert_eq!(rt;
                event_line(alloc, event)?.as_slice(),
                b"event 9 1 done\n".as_slice()
            );
        }
        None => assert!(rt; false),
    }
    assert_eq!(rt;
        outcome_text(alloc, &Outcome::Stepped)?.as_slice(),
        b"stepped".as_slice()
    );
    Ok(())
}

#[test]
fn a_full_record_takes_no_item(rt: HostRuntime) -> Result<(), Fail> {
    let program = program_of_u(&rt, rt.alloc())?;
    let mut record = Record::new(rt.alloc(), &program, Shape::new(1, 1)?)?;
    steps(&rt, &mut record, 1, MAX_ITEMS)?;
    assert!(rt; matches!(&step(&rt, &mut record, 1), Err(RecordFault::Full)));
    assert_eq!(rt; record.items().len(), MAX_ITEMS);
    Ok(())
}
