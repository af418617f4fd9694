//! Tests of `Machine`: lines of each kind that trap, with their causes, and small runs, each item
//! of which is also taken back.
ghost use Rattle.std.specs.Prelude.{◌≡◌, IsTrue, ◌↔◌};
ghost use Rattle.snap_words.specs.Shape.{IsOneOf};
ghost use Rattle.snap_semantics.specs.Table.{who};

mod marked;

use marked::Marked;
use snap_asm::{Program, assemble, load};
use snap_machine::{Contents, Local, Machine};
use snap_semantics::{Cause, Item, Op, Outcome, Reason, Sort};
use snap_shipped::text_u;
use snap_words::{Address, Bank, Bits, Kind, KindTag, Multi, Seq, Shape};
use std::alloc::{AllocError, Global};
use std::process::Abort;
use std::test::Fail;

const SEQ: &[u8] = b"kind seq\n";

const BITS: &[u8] = b"kind bit\n";

const MULTI: &[u8] = b"kind multi\n";

const NAMES: &[u8] = b"scalar x\nrow m\nwords a\nview s\nscan 1\nupdate 1\n";

const UPDATE: Op = Op::Update { word: 1, value: 5 };

const SCAN: Op = Op::Scan;

/// A step of process 1.
const STEP: Item = Item::Step(1);

/// A crash of process 1.
const CRASH: Item = Item::Crash(1);

/// A word has one index alone.
const LONE: Address = Address {
    bank: Bank::R,
    i: 2,
    j: 1,
};

/// What process 1 of 2 is asked for, the steps that go well, and why the next traps.
type Way = (Op, u64, Cause);

// The first line traps, or the second one where the name ends in 2; of a scan, or of an update.
const BAD_END: Way = (SCAN, 0, Cause::BadEnd);

const INDEX: Way = (SCAN, 0, Cause::Index);

const INDEX_2: Way = (SCAN, 1, Cause::Index);

const NESTED_2: Way = (SCAN, 1, Cause::Nested);

const NOT_A_BIT: Way = (SCAN, 0, Cause::NotABit);

const OFF_END: Way = (SCAN, 0, Cause::OffEnd);

const OFF_END_2: Way = (SCAN, 1, Cause::OffEnd);

const OVERFLOW_2: Way = (SCAN, 1, Cause::Overflow);

const OWNER: Way = (SCAN, 0, Cause::Owner);

const PUT_BAD_END: Way = (UPDATE, 0, Cause::BadEnd);

const PUT_BAD_END_2: Way = (UPDATE, 1, Cause::BadEnd);

const PUT_INDEX: Way = (UPDATE, 0, Cause::Index);

const PUT_NOT_A_BIT: Way = (UPDATE, 0, Cause::NotABit);

const PUT_NOT_A_BIT_2: Way = (UPDATE, 1, Cause::NotABit);

const PUT_OFF_END: Way = (UPDATE, 0, Cause::OffEnd);

const PUT_OVERFLOW_2: Way = (UPDATE, 1, Cause::Overflow);

const PUT_OWNER: Way = (UPDATE, 0, Cause::Owner);

/// The lines of a listing, and how they trap.
type Trap = (&'static [u8], Way);

/// Lines of kind seq.
const SEQ_TRAPS: &[Trap] = &[
    (b"1: let x = m[0]\n2: finish\n", INDEX),
    (b"1: let x = m[3]\n2: finish\n", INDEX),
    (b"1: let x = seq(a[3])\n2: finish\n", INDEX),
    (
        b"1: let x = 18446744073709551615\n2: let x = x + 1\n3: finish\n",
        OVERFLOW_2,
    ),
    (b"1: let x = m[9] + m[9]\n", INDEX),
    (b"1: let x = 1\n", OFF_END),
    (b"1: let m[0] = 1\n2: finish\n", INDEX),
    (
        b"1: let x = 18446744073709551615\n2: let m[9] = x + x\n3: finish\n",
        INDEX_2,
    ),
    (
        b"1: let x = 18446744073709551615\n2: let m[1] = x + x\n3: finish\n",
        OVERFLOW_2,
    ),
    (b"1: let m[1] = 1\n", OFF_END),
    (b"1: get a[3] = r[1]\n2: finish\n", INDEX),
    (b"1: get a[1] = r[0]\n2: finish\n", INDEX),
    (b"1: get a[1] = r[1]\n", OFF_END),
    (b"1: put r[3] = (arg, 0, s)\n2: finish\n", PUT_INDEX),
    (b"1: put r[2] = (m[9], 0, s)\n2: finish\n", PUT_INDEX),
    (
        b"1: let x = 18446744073709551615\n2: put r[1] = (x + x, m[9], s)\n3: finish\n",
        PUT_OVERFLOW_2,
    ),
    (b"1: put r[2] = (arg, 0, s)\n2: finish\n", PUT_OWNER),
    (b"1: put r[2] = (arg, 0, s)\n", PUT_OWNER),
    (b"1: put r[1] = (arg, 0, s)\n", PUT_OFF_END),
    (b"1: view s = data(a)\n", OFF_END),
    (b"1: view s = view(a[3])\n2: return s\n", INDEX),
    (b"1: view s = view(a[1])\n", OFF_END),
    (b"1: each n: m[@] = m[0]\n2: finish\n", INDEX),
    (b"1: each n: m[@] = 1 where m[3] = 1\n2: finish\n", INDEX),
    (b"1: each n: m[@] = m[3] where 1 = 2\n2: finish\n", INDEX),
    (
        b"1: let x = 18446744073709551615\n2: each n: m[@] = x + 1 where m[3] = 1\n3: finish\n",
        OVERFLOW_2,
    ),
    (b"1: each n: m[@] = 1\n", OFF_END),
    (b"1: first x n: m[3] = 1 goto 2\n2: finish\n", INDEX),
    (b"1: first x n: m[@] = 1 goto 1\n", OFF_END),
    (b"1: let x = 2\n2: next x n goto 1\n", OFF_END_2),
    (b"1: if m[3] = 1 goto 1\n", INDEX),
    (b"1: if 1 = 1 or m[3] = 1 goto 1\n", INDEX),
    (b"1: if 1 = 2 goto 1\n", OFF_END),
    (b"1: if all n: m[3] = 1 goto 1\n", INDEX),
    (b"1: if all n: 1 = 2 goto 1\n", OFF_END),
    (b"1: call 2\n2: call 1\n3: finish\n", NESTED_2),
    (b"1: call 1\n", OFF_END),
    (b"1: return s\n", PUT_BAD_END),
    (b"1: finish\n", BAD_END),
    (b"1: call 2\n2: finish\n", PUT_BAD_END_2),
];

/// Lines with bits: places come first, then what is no bit, then the owner, then the end of the
/// lines.
const BIT_TRAPS: &[Trap] = &[
    (b"1: bit x = q[0,1]\n2: finish\n", INDEX),
    (b"1: bit x = q[1,3]\n2: finish\n", INDEX),
    (b"1: bit x = q[2,2]\n", OFF_END),
    (b"1: let x = hand(a[3],1)\n2: finish\n", INDEX),
    (b"1: let x = hand(a[1],0)\n2: finish\n", INDEX),
    (b"1: let x = hand(a[1],3)\n2: finish\n", INDEX),
    (b"1: let x = hand(a[2],2)\n", OFF_END),
    (b"1: put q[3,1] = 2\n2: finish\n", INDEX),
    (b"1: put q[1,3] = m[9]\n2: finish\n", INDEX),
    (b"1: put q[2,1] = 2\n2: finish\n", NOT_A_BIT),
    (b"1: put q[2,1] = 1\n", OWNER),
    (b"1: put q[1,2] = 1\n", OFF_END),
    (b"1: put r[3] = (arg, m, 2, s)\n2: finish\n", PUT_INDEX),
    (b"1: put r[2] = (arg, m, m[9], s)\n2: finish\n", PUT_INDEX),
    (b"1: put r[2] = (arg, m, 2, s)\n2: finish\n", PUT_NOT_A_BIT),
    (
        b"1: let m[2] = 2\n2: put r[2] = (arg, m, 0, s)\n3: finish\n",
        PUT_NOT_A_BIT_2,
    ),
    (b"1: put r[2] = (arg, m, 1, s)\n", PUT_OWNER),
    (b"1: put r[1] = (arg, m, 1, s)\n", PUT_OFF_END),
];

/// Lines of kind multi, in whose banks a process has registers of its own beside the words.
const MULTI_TRAPS: &[Trap] = &[
    (b"1: bit x = p[3,1]\n2: finish\n", INDEX),
    (b"1: put p[2,3] = 2\n2: finish\n", INDEX),
    (b"1: put p[2,1] = 2\n2: finish\n", NOT_A_BIT),
    (b"1: put p[2,1] = 0\n", OWNER),
    (b"1: put p[1,2] = 0\n", OFF_END),
    (b"1: put q[2,1] = 0\n", OWNER),
    (b"1: look s = v[0]\n2: finish\n", INDEX),
    (b"1: look s = v[2]\n", OFF_END),
    (b"1: put v[3] = s\n2: finish\n", INDEX),
    (b"1: put v[2] = s\n", OWNER),
    (b"1: put v[1] = s\n", OFF_END),
    (b"1: put r[3] = (arg, me, 2)\n2: finish\n", PUT_INDEX),
    (b"1: put r[2] = (arg, m[9], 2)\n2: finish\n", PUT_INDEX),
    (b"1: put r[2] = (arg, me, 2)\n", PUT_NOT_A_BIT),
    (b"1: put r[2] = (arg, me, 1)\n", PUT_OFF_END),
];

/// An update puts a word, a bit of each bank and a view; a scan reads them.
const ROUND: &[u8] = b"kind multi\n\
scalar x\n\
row m\n\
words a\n\
view s\n\
scan 10\n\
update 30\n\
10: look s = v[me]\n\
11: bit x = q[1,2]\n\
12: get a[1] = r[2]\n\
13: view s = data(a)\n\
14: return s\n\
30: put r[word] = (arg, me, 1)\n\
31: put q[me,2] = 1\n\
32: put p[me,1] = 1\n\
33: get a[2] = r[2]\n\
34: view s = data(a)\n\
35: put v[me] = s\n\
36: finish\n";

/// Returns a text of three parts.
fn text_of(alloc: Global, kind: &[u8], names: &[u8], lines: &[u8]) -> Result<Vec<u8>, AllocError> {
    let mut text = Vec::new(alloc);
    text.extend_from_slice(kind)?;
    text.extend_from_slice(names)?;
    text.extend_from_slice(lines)?;
    Ok(text)
}

/// Returns the program of a text.
fn program_of(alloc: Global, text: &[u8]) -> Result<Program, Fail> {
    let image = assemble(alloc, text)?;
    Ok(load(alloc, image.as_slice())?)
}

/// Returns a machine of `count` processes and words over `text`, which is a listing of this kind.
fn machine_of<K: Kind>(
    rt: &impl Abort,
    alloc: Global,
    kind: KindTag,
    count: u64,
    text: &[u8],
) -> Result<Machine<K>, Fail>
    requires { kind ≡ K.TAG }
{
    let program = program_of(alloc, text)?;
    assert!(rt; program.kind() == kind);
    Ok(Machine::new(alloc, &program, Shape::new(count, count)?)?)
}

/// Returns whether there is a process of this number.
fn has<K: Kind>(machine: &Machine<K>, i: u32) -> bool
    ensures { IsTrue result ↔ IsOneOf machine.now.shape.n i }
{
    0 < i && u64::from(i) <= machine.shape().n()
}

/// Does an item, takes it back, and does it again, so that whatever is expected of a machine here
/// is expected of one that went back.
fn does<K: Kind>(machine: &mut Machine<K>, item: Item) -> Result<Outcome, Fail>
    requires { IsOneOf machine.old.shape.n (who item) }
{
    let (_outcome, undo) = machine.apply_undo(item)?;
    machine.revert(undo);
    Ok(machine.apply(item)?)
}

/// Returns a call of process 1.
fn call(op: Op) -> Item
    ensures { who result ≡ 1 }
{
    Item::Call(1, op)
}

/// Returns whether two outcomes are the same, and no answers.
fn is_same(one: &Outcome, other: &Outcome) -> bool {
    match (one, other) {
        (Outcome::Called, Outcome::Called)
        | (Outcome::Stepped, Outcome::Stepped)
        | (Outcome::Finished, Outcome::Finished)
        | (Outcome::Crashed, Outcome::Crashed) => true,
        (Outcome::Trapped(one), Outcome::Trapped(other)) => one == other,
        (Outcome::Skipped(one), Outcome::Skipped(other)) => one == other,
        _ => false,
    }
}

/// Checks that an item of process 1 has this outcome.
fn comes_to<K: Kind>(
    rt: &impl Abort,
    machine: &mut Machine<K>,
    item: Item,
    want: &Outcome,
) -> Result<(), Fail>
    requires { who item ≡ 1 }
{
    assert!(rt; has(machine, 1));
    let found = does(machine, item)?;
    assert!(rt; is_same(&found, want), "{found:?}");
    Ok(())
}

/// Checks that an item of process 1 is skipped for this reason.
fn is_skipped<K: Kind>(
    rt: &impl Abort,
    machine: &mut Machine<K>,
    item: Item,
    reason: Reason,
) -> Result<(), Fail>
    requires { who item ≡ 1 }
{
    comes_to(rt, machine, item, &Outcome::Skipped(reason))
}

/// Checks that `steps` steps of process 1 go well.
fn goes_on<K: Kind>(rt: &impl Abort, machine: &mut Machine<K>, steps: u64) -> Result<(), Fail> {
    for _ in 0..steps {
        comes_to(rt, machine, STEP, &Outcome::Stepped)?;
    }
    Ok(())
}

/// Checks the values of the words.
fn values_are<K: Kind>(rt: &impl Abort, machine: &Machine<K>, values: &[u64]) -> Result<(), Fail> {
    let found = machine.values()?;
    assert_eq!(rt; found.as_slice(), values);
    Ok(())
}

/// Checks that process 1 traps in this way, and then stays trapped.
fn check_trap<K: Kind>(rt: &impl Abort, machine: &mut Machine<K>, way: Way) -> Result<(), Fail> {
    let (op, steps, cause) = way;
    comes_to(rt, machine, call(op), &Outcome::Called)?;
    goes_on(rt, machine, steps)?;
    comes_to(rt, machine, STEP, &Outcome::Trapped(cause))?;
    is_skipped(rt, machine, STEP, Reason::Trapped)
}

/// Checks that each line traps as the table says.
fn check_traps<K: Kind>(
    rt: &impl Abort,
    alloc: Global,
    kind: KindTag,
    line: &[u8],
    traps: &[Trap],
) -> Result<(), Fail>
    requires { kind ≡ K.TAG }
{
    for (lines, way) in traps {
        let text = text_of(alloc, line, NAMES, lines)?;
        let mut machine = machine_of::<K>(rt, alloc, kind, 2, text.as_slice())?;
        check_trap(rt, &mut machine, *way)?;
    }
    Ok(())
}

#[test]
fn seq_lines_trap(rt: HostRuntime) -> Result<(), Fail> {
    check_traps::<Seq>(&rt, rt.alloc(), KindTag::Seq, SEQ, SEQ_TRAPS)
}

#[test]
fn bit_lines_trap(rt: HostRuntime) -> Result<(), Fail> {
    check_traps::<Bits>(&rt, rt.alloc(), KindTag::Bits, BITS, BIT_TRAPS)
}

#[test]
fn multi_lines_trap(rt: HostRuntime) -> Result<(), Fail> {
    check_traps::<Multi>(&rt, rt.alloc(), KindTag::Multi, MULTI, MULTI_TRAPS)?;
    check_traps::<Marked>(&rt, rt.alloc(), KindTag::Multi, MULTI, MULTI_TRAPS)
}

/// Makes an update of word 2 by process 1.
fn update_round<K: Kind>(rt: &impl Abort, machine: &mut Machine<K>) -> Result<(), Fail> {
    comes_to(
        rt,
        machine,
        call(Op::Update { word: 2, value: 7 }),
        &Outcome::Called,
    )?;
    goes_on(rt, machine, 6)?;
    comes_to(rt, machine, STEP, &Outcome::Finished)
}

/// Checks what the update leaves.
fn check_round<K: Kind>(rt: &impl Abort, machine: &Machine<K>) -> Result<(), Fail> {
    check_registers(rt, machine)?;
    assert!(rt; !has_register(machine, LONE));
    values_are(rt, machine, &[0, 7])
}

/// Checks the bits and the view that the update puts.
fn check_registers<K: Kind>(rt: &impl Abort, machine: &Machine<K>) -> Result<(), Fail> {
    for (bank, j) in [(Bank::Q, 2), (Bank::P, 1)] {
        let bit = machine.register(Address { bank, i: 1, j })?;
        assert!(rt; matches!(bit, Contents::Bit(1)));
    }
    let view = machine.register(Address {
        bank: Bank::V,
        i: 1,
        j: 0,
    })?;
    match view {
        Contents::View(view) => assert_eq!(rt; view.as_slice(), [0, 7].as_slice()),
        _ => assert!(rt; false),
    }
    Ok(())
}

/// Returns whether there is such a register.
fn has_register<K: Kind>(machine: &Machine<K>, address: Address) -> bool {
    machine.register(address).is_ok()
}

/// Makes a scan by process 1 after that update.
fn scan_round<K: Kind>(rt: &impl Abort, machine: &mut Machine<K>) -> Result<(), Fail> {
    comes_to(rt, machine, call(SCAN), &Outcome::Called)?;
    goes_on(rt, machine, 4)?;
    assert!(rt; has(machine, 1));
    match does(machine, STEP)? {
        Outcome::Answered(view) => assert_eq!(rt; view.as_slice(), [7, 7].as_slice()),
        other => assert!(rt; false, "{other:?}"),
    }
    assert!(rt; has(machine, 1));
    assert!(rt;
        matches!(
            machine.local_at(1, Sort::Scalar, 0),
            Some((_, Local::Number(1)))
        )
    );
    Ok(())
}

/// Makes an update by process 1, and its scan in a copy after it.
fn go_round<K: Kind>(rt: &impl Abort, alloc: Global, kind: KindTag) -> Result<(), Fail>
    requires { kind ≡ K.TAG }
{
    let mut machine = machine_of::<K>(rt, alloc, kind, 2, ROUND)?;
    update_round(rt, &mut machine)?;
    check_round(rt, &machine)?;
    let mut copy = machine.copy()?;
    scan_round(rt, &mut copy)
}

#[test]
fn kinds_go_round_alike(rt: HostRuntime) -> Result<(), Fail> {
    go_round::<Multi>(&rt, rt.alloc(), KindTag::Multi)?;
    go_round::<Marked>(&rt, rt.alloc(), KindTag::Multi)
}

/// Makes an update of this word.
fn update_of(word: u64) -> Op {
    Op::Update { word, value: 5 }
}

/// Checks process 1 when it is idle, then called for what is not its own, then busy.
fn check_skips<K: Kind>(rt: &impl Abort, machine: &mut Machine<K>) -> Result<(), Fail> {
    is_skipped(rt, machine, STEP, Reason::Idle)?;
    is_skipped(rt, machine, call(update_of(2)), Reason::NotOwner)?;
    is_skipped(rt, machine, call(update_of(3)), Reason::NoSuchWord)?;
    is_skipped(rt, machine, call(update_of(0)), Reason::NoSuchWord)?;
    comes_to(rt, machine, call(SCAN), &Outcome::Called)?;
    is_skipped(rt, machine, call(SCAN), Reason::Busy)
}

#[test]
fn skips(rt: HostRuntime) -> Result<(), Fail> {
    let text = text_of(rt.alloc(), SEQ, NAMES, b"1: finish\n")?;
    let mut machine = machine_of::<Seq>(&rt, rt.alloc(), KindTag::Seq, 2, text.as_slice())?;
    check_skips(&rt, &mut machine)
}

/// Checks that a machine before the put of an update, and its copy, each go on to the end of the
/// update.
fn go_on_apart(
    rt: &impl Abort,
    machine: &mut Machine<Seq>,
    copy: &mut Machine<Seq>,
) -> Result<(), Fail> {
    goes_on(rt, machine, 1)?;
    values_are(rt, machine, &[7])?;
    values_are(rt, copy, &[0])?;
    comes_to(rt, machine, STEP, &Outcome::Finished)?;
    goes_on(rt, copy, 1)?;
    comes_to(rt, copy, STEP, &Outcome::Finished)?;
    values_are(rt, copy, &[7])
}

#[test]
fn copies_go_on_alike(rt: HostRuntime) -> Result<(), Fail> {
    let mut machine = machine_of::<Seq>(&rt, rt.alloc(), KindTag::Seq, 1, text_u())?;
    comes_to(
        &rt,
        &mut machine,
        call(Op::Update { word: 1, value: 7 }),
        &Outcome::Called,
    )?;
    goes_on(&rt, &mut machine, 11)?;
    let mut copy = machine.copy()?;
    go_on_apart(&rt, &mut machine, &mut copy)
}

/// Checks that process 1 crashes, and that no item of it does anything more.
fn crashes<K: Kind>(rt: &impl Abort, machine: &mut Machine<K>) -> Result<(), Fail> {
    comes_to(rt, machine, CRASH, &Outcome::Crashed)?;
    is_skipped(rt, machine, STEP, Reason::Crashed)?;
    is_skipped(rt, machine, call(SCAN), Reason::Crashed)?;
    is_skipped(rt, machine, CRASH, Reason::Crashed)
}

/// Makes an update by process 1 that crashes after `steps` steps, at this line and with this link.
fn crash_update(
    rt: &impl Abort,
    alloc: Global,
    steps: u64,
    line: u64,
    link: Option<u64>,
) -> Result<Machine<Seq>, Fail> {
    let mut machine = machine_of::<Seq>(rt, alloc, KindTag::Seq, 1, text_u())?;
    comes_to(rt, &mut machine, call(UPDATE), &Outcome::Called)?;
    goes_on(rt, &mut machine, steps)?;
    crashes(rt, &mut machine)?;
    assert!(rt; has(&machine, 1));
    assert_eq!(rt; machine.line(1), Some(line));
    assert_eq!(rt; machine.operation(1), Some(UPDATE));
    assert_eq!(rt; machine.link(1), link);
    Ok(machine)
}

#[test]
fn crashed_updates_stop(rt: HostRuntime) -> Result<(), Fail> {
    let inside = crash_update(&rt, rt.alloc(), 3, 12, Some(31))?;
    values_are(&rt, &inside, &[0])?;
    let before = crash_update(&rt, rt.alloc(), 11, 32, None)?;
    values_are(&rt, &before, &[0])?;
    let behind = crash_update(&rt, rt.alloc(), 12, 33, None)?;
    values_are(&rt, &behind, &[5])
}

#[test]
fn an_idle_process_crashes(rt: HostRuntime) -> Result<(), Fail> {
    let mut machine = machine_of::<Seq>(&rt, rt.alloc(), KindTag::Seq, 1, text_u())?;
    crashes(&rt, &mut machine)?;
    assert!(rt; has(&machine, 1));
    assert_eq!(rt; machine.line(1), None);
    assert_eq!(rt; machine.operation(1), None);
    Ok(())
}

#[test]
fn a_trapped_process_does_not_crash(rt: HostRuntime) -> Result<(), Fail> {
    let text = text_of(rt.alloc(), SEQ, NAMES, b"1: let x = 1\n")?;
    let mut machine = machine_of::<Seq>(&rt, rt.alloc(), KindTag::Seq, 2, text.as_slice())?;
    comes_to(&rt, &mut machine, call(SCAN), &Outcome::Called)?;
    comes_to(&rt, &mut machine, STEP, &Outcome::Trapped(Cause::OffEnd))?;
    is_skipped(&rt, &mut machine, CRASH, Reason::Trapped)
}
