//! Tests of machines: items applied, taken back and skipped, and what is read of a machine.
ghost use Rattle.std.specs.Prelude.{◌≡◌, IsTrue, ◌↔◌};
ghost use Rattle.snap_words.specs.Shape.{IsOneOf};

use crate::texts::COLLECTING;
use snap_asm::{assemble, load};
use snap_listing::print;
use snap_machine::{
    Address, Bank, Cause, Contents, Item, Local, Machine, Name, Op, Outcome, Reason, RegisterFault,
    Shape, Status, Undo, View,
};
use snap_words::{Bits, Field, Kind, KindTag, Seq};
use std::alloc::{AllocError, Global};
use std::process::Abort;
use std::test::Fail;

const UPDATE: Op = Op::Update { word: 1, value: 7 };

/// A listing of kind bit that traps where it writes a bit.
const NO_BIT: &[u8] = b"kind bit\nscalar x\nrow m\nwords\nview s\nscan 1\nupdate 1\n\
1: put q[me,me] = 2\n2: finish\n";

/// Returns whether there is a process of this number.
fn has<K: Kind>(machine: &Machine<K>, i: u32) -> bool
    ensures { IsTrue result ↔ IsOneOf «machine».now.shape.n i }
{
    0 < i && u64::from(i) <= machine.shape().n()
}

/// Returns a machine of a listing of kind seq.
fn seq_machine(
    rt: &impl Abort,
    alloc: Global,
    text: &[u8],
    shape: Shape,
) -> Result<Machine<Seq>, Fail> {
    let image = assemble(alloc, text)?;
    let program = load(alloc, image.as_slice())?;
    assert!(rt; program.kind() == KindTag::Seq);
    Ok(Machine::<Seq>::new(alloc, &program, shape)?)
}

/// Returns a machine of listing U.
fn machine_of_u(rt: &impl Abort, alloc: Global, shape: Shape) -> Result<Machine<Seq>, Fail> {
    let text = print(alloc, &snap_single::listing(alloc)?)?;
    seq_machine(rt, alloc, text.as_slice(), shape)
}

/// Makes a step of a process.
fn step<K: Kind>(rt: &impl Abort, machine: &mut Machine<K>, i: u32) -> Result<Outcome, Fail> {
    assert!(rt; has(machine, i));
    Ok(machine.apply(Item::Step(i))?)
}

/// Does `count` steps of a process.
fn steps<K: Kind>(
    rt: &impl Abort,
    machine: &mut Machine<K>,
    i: u32,
    count: u64,
) -> Result<(), Fail> {
    for _ in 0..count {
        let _outcome = step(rt, machine, i)?;
    }
    Ok(())
}

/// Makes a call of a process..
fn call<K: Kind>(
    rt: &impl Abort,
    machine: &mut Machine<K>,
    i: u32,
    op: Op,
) -> Result<Outcome, Fail> {
    assert!(rt; has(machine, i));
    Ok(machine.apply(Item::Call(i, op))?)
}

/// Returns what a step of a process comes to, and the values after it, and takes the step back.
fn try_step(machine: &mut Machine<Seq>, i: u32) -> Result<(Outcome, View), AllocError>
    requires { IsOneOf machine.old.shape.n i }
{
    let (outcome, undo): (Outcome, Undo<Seq>) = machine.apply_undo(Item::Step(i))?;
    let values = machine.values()?;
    machine.revert(undo);
    Ok((outcome, values))
}

/// Makes a crash of a process.
fn crash(rt: &impl Abort, machine: &mut Machine<Seq>, i: u32) -> Result<Outcome, Fail> {
    assert!(rt; has(machine, i));
    Ok(machine.apply(Item::Crash(i))?)
}

/// Checks that the values are `want`.
fn check_values(rt: &impl Abort, machine: &Machine<Seq>, want: &[u64]) -> Result<(), Fail> {
    assert_eq!(rt; machine.values()?.as_slice(), want);
    Ok(())
}

/// Checks that the word of process 1 has this datum and this sequence number.
fn check_word(rt: &impl Abort, machine: &Machine<Seq>, datum: u64, seq: u64) -> Result<(), Fail> {
    let address = Address {
        bank: Bank::R,
        i: 1,
        j: 0,
    };
    match machine.register(address)? {
        Contents::Word(word) => {
            assert!(rt; Seq::field(word, Field::Datum) == Some(datum));
            assert!(rt; Seq::field(word, Field::Seq) == Some(seq));
        }
        _ => assert!(rt; false),
    }
    Ok(())
}

/// Checks that the scalar of this name is `want` in process 1.
fn check_scalar<K: Kind>(rt: &impl Abort, machine: &Machine<K>, name: Name, want: u64) {
    assert!(rt; has(machine, 1));
    match machine.local(1, name) {
        Some(Local::Number(number)) => assert_eq!(rt; number, want),
        _ => assert!(rt; false),
    }
}

#[test]
fn a_copy_ends_as_its_machine(rt: HostRuntime) -> Result<(), Fail> {
    let mut machine = machine_of_u(&rt, rt.alloc(), Shape::new(1, 1)?)?;
    assert!(rt; matches!(&call(&rt, &mut machine, 1, UPDATE)?, Outcome::Called));
    steps(&rt, &mut machine, 1, 11)?;
    let mut copy = machine.copy()?;
    check_values(&rt, &machine, &[0])?;
    steps(&rt, &mut copy, 1, 1)?;
    check_values(&rt, &copy, &[7])?;
    assert!(rt; matches!(&step(&rt, &mut copy, 1)?, Outcome::Finished));
    steps(&rt, &mut machine, 1, 1)?;
    assert!(rt; matches!(&step(&rt, &mut machine, 1)?, Outcome::Finished));
    check_word(&rt, &machine, 7, 1)?;
    check_word(&rt, &copy, 7, 1)?;
    check_scalar(&rt, &machine, Name::of(b"c"), 1);
    Ok(())
}

/// Checks that a step of process 1 writes its value, and is taken back.
fn check_undo(rt: &impl Abort, machine: &mut Machine<Seq>) -> Result<(), Fail> {
    assert!(rt; has(machine, 1));
    let (outcome, values) = try_step(machine, 1)?;
    assert!(rt; matches!(&outcome, Outcome::Stepped));
    assert_eq!(rt; values.as_slice(), [7].as_slice());
    check_values(rt, machine, &[0])
}

#[test]
fn a_write_is_taken_back(rt: HostRuntime) -> Result<(), Fail> {
    let mut machine = machine_of_u(&rt, rt.alloc(), Shape::new(1, 1)?)?;
    let _called = call(&rt, &mut machine, 1, UPDATE)?;
    steps(&rt, &mut machine, 1, 11)?;
    check_undo(&rt, &mut machine)
}

/// Checks that process 1 is at this line of an update, with this link, or at none.
fn check_place(rt: &impl Abort, machine: &Machine<Seq>, line: Option<u64>, link: Option<u64>) {
    assert!(rt; has(machine, 1));
    assert_eq!(rt; machine.line(1), line);
    assert_eq!(rt; machine.link(1), link);
    assert!(rt; machine.operation(1).is_some() == line.is_some());
    assert!(rt; matches!(machine.status(1), Status::Busy(_)) == line.is_some());
}

#[test]
fn a_process_is_at_a_line_with_a_link(rt: HostRuntime) -> Result<(), Fail> {
    let mut machine = machine_of_u(&rt, rt.alloc(), Shape::new(1, 1)?)?;
    assert!(rt; machine.program().has_line(30) && machine.shape().n() == 1);
    check_place(&rt, &machine, None, None);
    let _called = call(&rt, &mut machine, 1, UPDATE)?;
    check_place(&rt, &machine, Some(30), None);
    steps(&rt, &mut machine, 1, 1)?;
    check_place(&rt, &machine, Some(10), Some(31));
    Ok(())
}

#[test]
fn items_of_no_effect_are_skipped(rt: HostRuntime) -> Result<(), Fail> {
    let mut machine = machine_of_u(&rt, rt.alloc(), Shape::new(2, 2)?)?;
    let idle = step(&rt, &mut machine, 1)?;
    assert!(rt; matches!(&idle, Outcome::Skipped(Reason::Idle)));
    let other = call(&rt, &mut machine, 1, Op::Update { word: 2, value: 5 })?;
    assert!(rt; matches!(&other, Outcome::Skipped(Reason::NotOwner)));
    let none = call(&rt, &mut machine, 1, Op::Update { word: 3, value: 5 })?;
    assert!(rt; matches!(&none, Outcome::Skipped(Reason::NoSuchWord)));
    let _called = call(&rt, &mut machine, 1, Op::Scan)?;
    let busy = call(&rt, &mut machine, 1, Op::Scan)?;
    assert!(rt; matches!(&busy, Outcome::Skipped(Reason::Busy)));
    Ok(())
}

#[test]
fn a_crashed_process_is_skipped(rt: HostRuntime) -> Result<(), Fail> {
    let mut machine = machine_of_u(&rt, rt.alloc(), Shape::new(2, 2)?)?;
    let _called = call(&rt, &mut machine, 2, Op::Update { word: 2, value: 5 })?;
    steps(&rt, &mut machine, 2, 16)?;
    assert!(rt; matches!(&crash(&rt, &mut machine, 2)?, Outcome::Crashed));
    let item_19 = step(&rt, &mut machine, 2)?;
    assert!(rt; matches!(&item_19, Outcome::Skipped(Reason::Crashed)));
    check_values(&rt, &machine, &[0, 5])
}

#[test]
fn a_number_that_is_no_bit_traps_in_a_scan(rt: HostRuntime) -> Result<(), Fail> {
    let image = assemble(rt.alloc(), NO_BIT)?;
    let program = load(rt.alloc(), image.as_slice())?;
    assert!(rt; program.kind() == KindTag::Bits);
    let mut machine = Machine::<Bits>::new(rt.alloc(), &program, Shape::new(2, 2)?)?;
    let _called = call(&rt, &mut machine, 1, Op::Scan)?;
    let trapped = step(&rt, &mut machine, 1)?;
    assert!(rt; matches!(&trapped, Outcome::Trapped(Cause::NotABit)));
    let skipped = step(&rt, &mut machine, 1)?;
    assert!(rt; matches!(&skipped, Outcome::Skipped(Reason::Trapped)));
    Ok(())
}

#[test]
fn there_are_no_other_registers_and_locals(rt: HostRuntime) -> Result<(), Fail> {
    let machine = seq_machine(&rt, rt.alloc(), COLLECTING, Shape::new(2, 2)?)?;
    let address = Address {
        bank: Bank::R,
        i: 1,
        j: 1,
    };
    assert!(rt; machine.register(address).err() == Some(RegisterFault::Index));
    assert!(rt; has(&machine, 1));
    assert!(rt; machine.local(1, Name::of(b"z")).is_none());
    assert!(rt; matches!(machine.local(1, Name::of(b"a")), Some(Local::Words(_))));
    Ok(())
}
