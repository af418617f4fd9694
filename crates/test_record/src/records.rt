//! Tests of records of runs of listing U: their audits, values and double collects, and a million
//! items.
ghost use Rattle.std.specs.Prelude.{◌≡◌, IsTrue, ◌↔◌};
ghost use Rattle.snap_words.specs.Shape.{IsOneOf};
ghost use Rattle.snap_semantics.specs.Table.{who};

use snap_asm::{Program, assemble, load};
use snap_audit::{audit, push_verdict_line};
use snap_record::{MAX_ITEMS, Record, RecordFault};
use snap_semantics::{Item, Op, Outcome, Reason};
use snap_shipped::text_u;
use snap_text::Draft;
use snap_words::{KindTag, Seq, Shape};
use std::alloc::Global;
use std::process::Abort;
use std::test::Fail;

/// Returns the program of the listing.
fn program(alloc: Global) -> Result<Program, Fail> {
    let image = assemble(alloc, text_u())?;
    Ok(load(alloc, image.as_slice())?)
}

/// Returns a record of the listing with `count` processes, before the first item.
fn new_record(rt: &impl Abort, alloc: Global, count: u64) -> Result<Record<Seq>, Fail> {
    let program = program(alloc)?;
    assert!(rt; program.kind() == KindTag::Seq);
    Ok(Record::new(alloc, &program, Shape::new(count, count)?)?)
}

/// Returns the process of an item.
fn process(item: Item) -> u32
    ensures { result ≡ who item }
{
    match item {
        Item::Step(i) => i,
        Item::Call(i, _) => i,
        Item::Crash(i) => i,
    }
}

/// Returns whether there is a process of this number.
fn has(record: &Record<Seq>, i: u32) -> bool
    ensures { IsTrue result ↔ IsOneOf «record».now.shape.n i }
{
    0 < i && u64::from(i) <= record.machine().shape().n()
}

/// Does an item.
fn apply(rt: &impl Abort, record: &mut Record<Seq>, item: Item) -> Result<Outcome, RecordFault> {
    assert!(rt; has(record, process(item)));
    record.apply(item)
}

/// Does `count` steps of a process.
fn step(rt: &impl Abort, record: &mut Record<Seq>, i: u32, count: u64) -> Result<(), Fail> {
    for _ in 0..count {
        let _outcome = apply(rt, record, Item::Step(i))?;
    }
    Ok(())
}

/// Does a call.
fn call(rt: &impl Abort, record: &mut Record<Seq>, i: u32, op: Op) -> Result<(), Fail> {
    match apply(rt, record, Item::Call(i, op))? {
        Outcome::Called => {}
        other => assert!(rt; false, "{other:?}"),
    }
    Ok(())
}

/// Checks that the audit of a record is `wanted`.
fn check_audit(
    rt: &impl Abort,
    alloc: Global,
    record: &Record<Seq>,
    wanted: &[u8],
) -> Result<(), Fail> {
    let mut text = Draft::new(alloc);
    for verdict in &audit(alloc, record)? {
        push_verdict_line(&mut text, verdict);
    }
    assert_eq!(rt; text.text()?, wanted);
    Ok(())
}

/// Lets process 2 update its word to a value, while process 1 scans.
fn update_between(
    rt: &impl Abort,
    record: &mut Record<Seq>,
    value: u64,
    steps: u64,
) -> Result<(), Fail> {
    call(rt, record, 2, Op::Update { word: 2, value })?;
    step(rt, record, 2, 17)?;
    step(rt, record, 1, steps)
}

/// Lets process 1 scan, while process 2 updates its word twice.
fn scan_that_borrows(rt: &impl Abort, record: &mut Record<Seq>) -> Result<(), Fail> {
    call(rt, record, 1, Op::Scan)?;
    step(rt, record, 1, 6)?;
    update_between(rt, record, 5, 12)?;
    update_between(rt, record, 6, 9)
}

/// Checks that the values after `t` items are `wanted`.
fn check_values(rt: &impl Abort, record: &Record<Seq>, t: u64, wanted: &[u64]) -> Result<(), Fail> {
    match record.values_after(t)? {
        Some(values) => assert_eq!(rt; values.as_slice(), wanted),
        None => assert!(rt; false),
    }
    Ok(())
}

#[test]
fn a_borrowed_view_has_a_point(rt: HostRuntime) -> Result<(), Fail> {
    let mut record = new_record(&rt, rt.alloc(), 2)?;
    scan_that_borrows(&rt, &mut record)?;
    check_audit(
        &rt,
        rt.alloc(),
        &record,
        b"scan 1 call 1 answer 64 point 24 collects 2\n",
    )?;
    check_values(&rt, &record, 24, &[0, 5])?;
    assert!(rt; record.values_after(65)?.is_none());
    Ok(())
}

#[test]
fn a_scan_has_its_double_collects(rt: HostRuntime) -> Result<(), Fail> {
    let mut record = new_record(&rt, rt.alloc(), 2)?;
    scan_that_borrows(&rt, &mut record)?;
    // The scan is called at item 1; item 2 is a step, and item 8 calls an update.
    assert!(rt; record.collects_of(1) == Some(2));
    assert!(rt; record.collects_of(2).is_none());
    assert!(rt; record.collects_of(8).is_none());
    // A scan that has not ended yet.
    call(&rt, &mut record, 2, Op::Scan)?;
    assert!(rt; record.collects_of(65) == Some(0));
    Ok(())
}

/// Does items of a process that is idle.
fn skip(rt: &impl Abort, record: &mut Record<Seq>, count: u64) -> Result<(), Fail> {
    for _ in 0..count {
        match apply(rt, record, Item::Step(1))? {
            Outcome::Skipped(Reason::Idle) => {}
            other => assert!(rt; false, "{other:?}"),
        }
    }
    Ok(())
}

#[test]
fn a_million_items_are_kept(rt: HostRuntime) -> Result<(), Fail> {
    let mut record = new_record(&rt, rt.alloc(), 1)?;
    skip(&rt, &mut record, MAX_ITEMS)?;
    assert_eq!(rt; record.items().len(), MAX_ITEMS);
    match apply(&rt, &mut record, Item::Step(1)) {
        Err(RecordFault::Full) => {}
        other => assert!(rt; false, "{other:?}"),
    }
    assert_eq!(rt; record.items().len(), MAX_ITEMS);
    check_values(&rt, &record, 1_000_000, &[0])?;
    assert!(rt; record.values_after(1_000_001)?.is_none());
    Ok(())
}
