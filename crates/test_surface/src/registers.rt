//! Tests of registers: what is put is there, and what may not be put is refused.
ghost use Rattle.std.specs.Prelude.{◌≡◌};

use snap_regs::{Address, Bank, BitBank, RegisterFault, Registers};
use snap_words::{Field, Kind, Multi, Parts, Shape, View};
use std::alloc::Global;
use std::test::Fail;

/// Puts a word at place 2 by process 1, and returns the result.
fn put_word(
    alloc: Global,
    registers: &mut Registers<Multi>,
) -> Result<Result<(), RegisterFault>, Fail>
    requires { registers.old.shape ≡ record { n = 1; w = 2 } }
    ensures { registers.new.shape ≡ registers.old.shape }
{
    let given = Parts {
        datum: 7,
        seq: 0,
        id: 1,
        toggle: 1,
        handshakes: View::of(vec![in alloc; 0]?),
        view: View::of(vec![in alloc; 0, 0]?),
    };
    let word = Multi::build(registers.shape(), given)?;
    Ok(registers.put_word(1, 2, word))
}

/// Puts view 1 by a process, and returns the result.
fn put_view(
    alloc: Global,
    registers: &mut Registers<Multi>,
    who: u32,
) -> Result<Result<(), RegisterFault>, Fail>
    requires { registers.old.shape ≡ record { n = 1; w = 2 } }
    ensures { registers.new.shape ≡ registers.old.shape }
{
    let view = View::of(vec![in alloc; 3, 4]?);
    Ok(registers.put_view(who, 1, view))
}

/// Returns whether bits are refused if they do not exist, if they are no bits, and if they are
/// another's, in this order.
fn refuses_bits(registers: &mut Registers<Multi>) -> bool {
    registers.put_bit(2, BitBank::P, 1, 2, 2) == Err(RegisterFault::Index)
        && registers.put_bit(2, BitBank::P, 1, 1, 2) == Err(RegisterFault::NotABit)
        && registers.put_bit(2, BitBank::P, 1, 1, 1) == Err(RegisterFault::Owner)
}

/// Returns whether all that was put is there.
fn has_all(registers: &Registers<Multi>) -> Result<bool, Fail> {
    let word = registers.word(2)?;
    let view = registers.view(1)?;
    Ok(
        Multi::field(word, Field::Datum) == Some(7)
            && registers.bit(BitBank::P, 1, 1)? == 1
            && registers.bit(BitBank::Q, 1, 1)? == 0
            && view.as_slice() == [3, 4].as_slice(),
    )
}

#[test]
fn what_is_put_is_there(rt: HostRuntime) -> Result<(), Fail> {
    let mut registers = Registers::<Multi>::new(rt.alloc(), Shape::new(1, 2)?)?;
    assert!(rt; put_word(rt.alloc(), &mut registers)? == Ok(()));
    assert!(rt; put_view(rt.alloc(), &mut registers, 2)? == Err(RegisterFault::Owner));
    assert!(rt; put_view(rt.alloc(), &mut registers, 1)? == Ok(()));
    assert!(rt; refuses_bits(&mut registers));
    assert!(rt; registers.put_bit(1, BitBank::P, 1, 1, 1) == Ok(()));
    assert!(rt; has_all(&registers)?);
    Ok(())
}

#[test]
fn addresses_name_banks(rt: HostRuntime) {
    let address = Address {
        bank: Bank::V,
        i: 1,
        j: 0,
    };
    assert!(rt; Multi::may_write(1, address) && !Multi::may_write(2, address));
}
