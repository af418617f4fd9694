//! The operand at which a line traps that writes a register.
ghost use Rattle.std.specs.Prelude.{◌≡◌, take};
ghost use Rattle.snap_words.specs.Shape.{IsOneOf};
ghost use Rattle.snap_words.specs.declared.address.Bank.TheVariants as bank;
ghost use Rattle.snap_semantics.specs.Readers.{local_value};
ghost use Rattle.snap_semantics.specs.Rules.{or_else};
ghost use Rattle.snap_semantics.specs.Value.{index_value};
ghost use Rattle.snap_why.specs.Troubles.{bit_trouble, bits_trouble, context_of};
ghost use Rattle.snap_why.specs.Troubles.{expr_number, owner_trouble, place_trouble};
ghost use Rattle.snap_why.specs.Troubles.{put_bit_trouble, row_in, tuple_trouble};

use crate::numbers::{index_number, negated, row_of, term_number};
use crate::operands::{expr_trouble, first_of, place_trouble};
use crate::taker::Taker;
use crate::trouble::Trouble;
use snap_machine::Machine;
use snap_semantics::{BitBank, Expr, Index, Name, Tuple};
use snap_words::{Address, Bank, Kind};

/// Returns a number that is no bit.
fn bit_trouble(number: u64) -> Option<Trouble>
    ensures { result ≡ bit_trouble number }
{
    if number <= 1 {
        None
    } else {
        Some(Trouble::NoBit(number))
    }
}

/// Returns the first of the numbers that is no bit.
fn bits_trouble(numbers: &[u64]) -> Option<Trouble>
    ensures { result ≡ bits_trouble numbers.now }
{
    for number in numbers {
        let found = bit_trouble(*number);
        if found.is_some() {
            return found;
        }
    }
    None
}

/// Returns an expression whose number is no bit.
fn expr_bit_trouble<K: Kind>(machine: &Machine<K>, taker: Taker, expr: &Expr) -> Option<Trouble>
    requires { IsOneOf machine.now.shape.n taker.process }
    ensures { result ≡ bit_trouble
        (expr_number (context_of machine.now.shape machine.now.state taker) expr.now) }
{
    match expr {
        Expr::Term(term) => bit_trouble(term_number(machine, taker, term)),
        Expr::Sum(left, right) => {
            let x = term_number(machine, taker, left);
            bit_trouble(x.saturating_add(term_number(machine, taker, right)))
        }
        Expr::Not(term) => bit_trouble(negated(term_number(machine, taker, term))),
    }
}

/// Returns the toggle of a word, and its handshake bits in a row.
fn handshakes_trouble<K: Kind>(
    machine: &Machine<K>,
    taker: Taker,
    handshakes: Name,
    toggle: &Expr,
) -> Option<Trouble>
    requires { IsOneOf machine.now.shape.n taker.process }
    ensures { let c = context_of machine.now.shape machine.now.state taker in result
        ≡ or_else (bit_trouble (expr_number c toggle.now))
        (bits_trouble (take c.shape.n (row_in (local_value c.locals handshakes)))) }
{
    let row = row_of(machine, taker.process, handshakes);
    let count = (machine.shape().n() as usize).min(row.len());
    let first = expr_bit_trouble(machine, taker, toggle);
    first_of(first, bits_trouble(&row[..count]))
}

/// Returns the trouble of the numbers of a tuple, or of the bits of a word that is made of them.
fn tuple_trouble<K: Kind>(machine: &Machine<K>, taker: Taker, tuple: &Tuple) -> Option<Trouble>
    requires { IsOneOf machine.now.shape.n taker.process }
    ensures { result ≡ tuple_trouble (context_of machine.now.shape machine.now.state taker)
        tuple.now }
{
    match tuple {
        Tuple::Seq(datum, seq, _) => {
            let first = expr_trouble(machine, taker, datum);
            first_of(first, expr_trouble(machine, taker, seq))
        }
        Tuple::Bits(datum, handshakes, toggle, _) => {
            let first = expr_trouble(machine, taker, datum);
            let second = expr_trouble(machine, taker, toggle);
            let bits = handshakes_trouble(machine, taker, *handshakes, toggle);
            first_of(first, first_of(second, bits))
        }
        Tuple::Multi(datum, id, toggle) => {
            let first = expr_trouble(machine, taker, datum);
            let second = expr_trouble(machine, taker, id);
            let third = expr_trouble(machine, taker, toggle);
            let bit = expr_bit_trouble(machine, taker, toggle);
            first_of(first, first_of(second, first_of(third, bit)))
        }
    }
}

/// Returns a register of another process.
fn owner_trouble<K: Kind>(
    machine: &Machine<K>,
    taker: Taker,
    bank: Bank,
    i: u64,
    j: u64,
) -> Option<Trouble>
    ensures { result ≡ owner_trouble machine.now.source.kind (context_of machine.now.shape
        machine.now.state taker) bank i j }
{
    // What `program` promises: the program is of the kind of the machine.
    let _program = machine.program();
    if K::may_write(taker.process, Address { bank, i, j }) {
        None
    } else {
        Some(Trouble::NotOwn(bank, i, j))
    }
}

/// Returns a word that is put, and its register.
pub(crate) fn put_trouble<K: Kind>(
    machine: &Machine<K>,
    taker: Taker,
    index: &Index,
    tuple: &Tuple,
) -> Option<Trouble>
    requires { IsOneOf machine.now.shape.n taker.process }
    ensures { let c = context_of machine.now.shape machine.now.state taker in result
        ≡ or_else (place_trouble c index.now machine.now.shape.w)
        (or_else (tuple_trouble c tuple.now)
        (owner_trouble machine.now.source.kind c bank.R (index_value c index.now) 0)) }
{
    let place = place_trouble(machine, taker, index, machine.shape().w());
    let parts = tuple_trouble(machine, taker, tuple);
    let i = index_number(machine, taker, index);
    let owner = owner_trouble(machine, taker, Bank::R, i, 0);
    first_of(place, first_of(parts, owner))
}

/// Returns a bit that is put, and its register.
pub(crate) fn put_bit_trouble<K: Kind>(
    machine: &Machine<K>,
    taker: Taker,
    bank: BitBank,
    first: &Index,
    second: &Index,
    expr: &Expr,
) -> Option<Trouble>
    requires { IsOneOf machine.now.shape.n taker.process }
    ensures { result ≡ put_bit_trouble machine.now.source.kind (context_of machine.now.shape
        machine.now.state taker) bank first.now second.now expr.now }
{
    let count = machine.shape().n();
    let i = index_number(machine, taker, first);
    let j = index_number(machine, taker, second);
    let bit = expr_bit_trouble(machine, taker, expr);
    let owner = owner_trouble(machine, taker, bank.bank(), i, j);
    let value = first_of(expr_trouble(machine, taker, expr), first_of(bit, owner));
    let place = place_trouble(machine, taker, second, count);
    first_of(
        place_trouble(machine, taker, first, count),
        first_of(place, value),
    )
}

/// Returns a view that is put, and its register.
pub(crate) fn put_view_trouble<K: Kind>(
    machine: &Machine<K>,
    taker: Taker,
    index: &Index,
) -> Option<Trouble>
    requires { IsOneOf machine.now.shape.n taker.process }
    ensures { let c = context_of machine.now.shape machine.now.state taker in result
        ≡ or_else (place_trouble c index.now machine.now.shape.n)
        (owner_trouble machine.now.source.kind c bank.V (index_value c index.now) 0) }
{
    let place = place_trouble(machine, taker, index, machine.shape().n());
    let i = index_number(machine, taker, index);
    first_of(place, owner_trouble(machine, taker, Bank::V, i, 0))
}
