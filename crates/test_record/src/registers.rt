//! Tests of the registers of each kind: what is put is there, and what a process may not put is
//! refused.
ghost use Rattle.std.specs.Prelude.{◌≡◌, length};

use crate::any_words::parts;
use snap_regs::{RegisterFault, Registers};
use snap_semantics::BitBank;
use snap_words::{Bits, Field, Kind, Multi, Seq, Shape, View};
use std::alloc::{AllocError, Global};
use std::test::Fail;

/// Returns whether the datum of word `k` is this.
fn has_datum<K: Kind>(registers: &Registers<K>, k: u64, datum: u64) -> bool {
    match registers.word(k) {
        Ok(word) => K::field(word, Field::Datum) == Some(datum),
        Err(_) => false,
    }
}

/// Returns whether there are two words, with these data.
fn has_data<K: Kind>(registers: &Registers<K>, first: u64, second: u64) -> bool {
    has_datum(registers, 1, first)
        && has_datum(registers, 2, second)
        && registers.word(3).err() == Some(RegisterFault::Index)
}

/// Puts a word of kind seq at place 2 by a process, and returns the result.
fn put_seq(
    alloc: Global,
    registers: &mut Registers<Seq>,
    who: u32,
) -> Result<Result<(), RegisterFault>, Fail>
    requires { registers.old.shape ≡ record { n = 2; w = 2 } }
    ensures { registers.new.shape ≡ registers.old.shape }
{
    let word = Seq::build(registers.shape(), parts(alloc, 1, 1)?)?;
    Ok(registers.put_word(who, 2, word))
}

/// Returns whether registers of kind seq have no bits.
fn has_no_bits(registers: &mut Registers<Seq>) -> bool {
    registers.bit(BitBank::Q, 1, 1) == Err(RegisterFault::Index)
        && registers.put_bit(1, BitBank::Q, 1, 1, 1) == Err(RegisterFault::Index)
}

#[test]
fn seq(rt: HostRuntime) -> Result<(), Fail> {
    let mut registers = Registers::<Seq>::new(rt.alloc(), Shape::new(2, 2)?)?;
    assert!(rt; put_seq(rt.alloc(), &mut registers, 2)? == Ok(()));
    assert!(rt; put_seq(rt.alloc(), &mut registers, 1)? == Err(RegisterFault::Owner));
    assert!(rt; has_data(&registers, 0, 7));
    assert!(rt; has_no_bits(&mut registers));
    Ok(())
}

/// Returns whether bits are put, and refused if they are no bits, another's to write or not there.
fn puts_bits(registers: &mut Registers<Bits>) -> bool {
    registers.put_bit(1, BitBank::Q, 1, 2, 1) == Ok(())
        && registers.put_bit(1, BitBank::Q, 2, 1, 2) == Err(RegisterFault::NotABit)
        && registers.put_bit(1, BitBank::Q, 2, 1, 1) == Err(RegisterFault::Owner)
        && registers.put_bit(1, BitBank::Q, 1, 3, 2) == Err(RegisterFault::Index)
}

/// Returns whether the bits that were put are there, and kind bits has no bank P and no views.
fn has_bits(registers: &Registers<Bits>) -> bool {
    registers.bit(BitBank::Q, 1, 2) == Ok(1)
        && registers.bit(BitBank::Q, 2, 1) == Ok(0)
        && registers.bit(BitBank::P, 1, 2) == Err(RegisterFault::Index)
        && registers.view(1).err() == Some(RegisterFault::Index)
}

#[test]
fn bits(rt: HostRuntime) -> Result<(), Fail> {
    let mut registers = Registers::<Bits>::new(rt.alloc(), Shape::new(2, 2)?)?;
    assert!(rt; has_data(&registers, 0, 0));
    assert!(rt; puts_bits(&mut registers));
    assert!(rt; has_bits(&registers));
    Ok(())
}

/// Returns whether of the bits of 64 processes the first one of the last row is 1, and those next
/// to it are 0.
fn has_one_of_many(registers: &Registers<Multi>) -> bool {
    registers.bit(BitBank::Q, 64, 1) == Ok(1)
        && registers.bit(BitBank::Q, 63, 64) == Ok(0)
        && registers.bit(BitBank::Q, 64, 2) == Ok(0)
        && registers.bit(BitBank::Q, 1, 64) == Ok(0)
        && registers.bit(BitBank::Q, 64, 64) == Ok(0)
        && registers.bit(BitBank::P, 64, 1) == Ok(0)
        && registers.bit(BitBank::Q, 64, 65) == Err(RegisterFault::Index)
}

#[test]
fn many_bits(rt: HostRuntime) -> Result<(), Fail> {
    let mut registers = Registers::<Multi>::new(rt.alloc(), Shape::new(64, 1)?)?;
    assert!(rt; registers.put_bit(64, BitBank::Q, 64, 1, 1) == Ok(()));
    assert!(rt; has_one_of_many(&registers));
    Ok(())
}

/// Puts a word of kind multi at place 2 by process 1, and returns the result.
fn put_multi(
    alloc: Global,
    registers: &mut Registers<Multi>,
) -> Result<Result<(), RegisterFault>, Fail>
    requires { registers.old.shape ≡ record { n = 1; w = 2 } }
    ensures { registers.new.shape ≡ registers.old.shape }
{
    let word = Multi::build(registers.shape(), parts(alloc, 1, 1)?)?;
    Ok(registers.put_word(1, 2, word))
}

/// Puts view 1 by a process, and returns the result.
fn put_view(
    alloc: Global,
    registers: &mut Registers<Multi>,
    who: u32,
) -> Result<Result<(), RegisterFault>, AllocError>
    requires { registers.old.shape ≡ record { n = 1; w = 2 } }
    ensures { registers.new.shape ≡ registers.old.shape }
{
    let view = View::of(vec![in alloc; 3, 4]?);
    Ok(registers.put_view(who, 1, view))
}

/// Returns whether view 1 has the values `want`.
fn has_view<K: Kind>(registers: &Registers<K>, want: &[u64]) -> bool {
    match registers.view(1) {
        Ok(view) => view.as_slice() == want,
        Err(_) => false,
    }
}

/// Returns whether everything that was put is there.
fn has_all(registers: &Registers<Multi>) -> bool {
    has_data(registers, 0, 7)
        && registers.bit(BitBank::P, 1, 1) == Ok(1)
        && registers.bit(BitBank::Q, 1, 1) == Ok(0)
        && has_view(registers, &[3, 4])
        && registers.shape().w() == 2
}

/// Returns whether a copy has everything too.
fn copy_has_all(alloc: Global, registers: &Registers<Multi>) -> Result<bool, AllocError> {
    let copy = registers.copy(alloc)?;
    Ok(has_all(&copy))
}

#[test]
fn multi(rt: HostRuntime) -> Result<(), Fail> {
    let mut registers = Registers::<Multi>::new(rt.alloc(), Shape::new(1, 2)?)?;
    assert!(rt; put_multi(rt.alloc(), &mut registers)? == Ok(()));
    assert!(rt; put_view(rt.alloc(), &mut registers, 2)? == Err(RegisterFault::Owner));
    assert!(rt; put_view(rt.alloc(), &mut registers, 1)? == Ok(()));
    assert!(rt; registers.put_bit(1, BitBank::P, 1, 1, 1) == Ok(()));
    assert!(rt; has_all(&registers));
    assert!(rt; copy_has_all(rt.alloc(), &registers)?);
    Ok(())
}
