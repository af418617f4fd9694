//! `line_trouble`: the operand at which a line traps, the first in the order in which the line
//! takes them.
ghost use Rattle.std.specs.Prelude.{◌≡◌, ◌<◌};
ghost use Rattle.snap_words.specs.Shape.{IsOneOf, places};
ghost use Rattle.snap_semantics.specs.Rules.{or_else};
ghost use Rattle.snap_semantics.specs.Table.{range_end};
ghost use Rattle.snap_why.specs.Troubles.{context_of, expr_trouble, line_trouble};
ghost use Rattle.snap_why.specs.Troubles.{place_trouble, sum_trouble};
ghost use Rattle.snap_why.specs.Troubles.{term_number, term_trouble};

use crate::conditions::{condition_trouble, conditions_trouble, values_trouble};
use crate::numbers::{index_number, term_number};
use crate::puts::{put_bit_trouble, put_trouble, put_view_trouble};
use crate::taker::Taker;
use crate::trouble::Trouble;
use snap_machine::{Machine, places, range_end};
use snap_semantics::{Expr, Index, Instr, Term};
use snap_words::Kind;

/// Returns the trouble of an index that is none of `count` places.
pub(crate) fn place_trouble<K: Kind>(
    machine: &Machine<K>,
    taker: Taker,
    index: &Index,
    count: u64,
) -> Option<Trouble>
    requires { IsOneOf machine.now.shape.n taker.process }
    ensures { result ≡ place_trouble
        (context_of machine.now.shape machine.now.state taker) index.now count }
{
    let value = index_number(machine, taker, index);
    if 0 < value && value <= count {
        None
    } else {
        Some(Trouble::NoPlace(*index, value, count))
    }
}

/// Returns the first of two troubles, if there is one.
pub(crate) fn first_of(first: Option<Trouble>, second: Option<Trouble>) -> Option<Trouble>
    ensures { result ≡ or_else first second }
{
    match first {
        Some(trouble) => Some(trouble),
        None => second,
    }
}

/// Returns an operand that traps.
pub(crate) fn term_trouble<K: Kind>(
    machine: &Machine<K>,
    taker: Taker,
    term: &Term,
) -> Option<Trouble>
    requires { IsOneOf machine.now.shape.n taker.process }
    ensures { result
        ≡ term_trouble (context_of machine.now.shape machine.now.state taker) term.now }
{
    let shape = machine.shape();
    match term {
        Term::Index(_) => None,
        Term::Arg => None,
        Term::Row(_, index) => place_trouble(machine, taker, index, places(shape)),
        Term::Field(_, _, index) => place_trouble(machine, taker, index, places(shape)),
        Term::Handshake(_, index, handshake) => {
            let word = place_trouble(machine, taker, index, places(shape));
            first_of(word, place_trouble(machine, taker, handshake, shape.n()))
        }
    }
}

/// Returns the trouble of two numbers whose sum is above 2^64 - 1.
fn sum_trouble(left: u64, right: u64) -> Option<Trouble>
    ensures { result ≡ sum_trouble left right }
{
    match left.checked_add(right) {
        Some(_) => None,
        None => Some(Trouble::LargeSum(left, right)),
    }
}

/// Returns a sum that traps.
fn sum_of<K: Kind>(machine: &Machine<K>, taker: Taker, left: &Term, right: &Term) -> Option<Trouble>
    requires { IsOneOf machine.now.shape.n taker.process }
    ensures { let c = context_of machine.now.shape machine.now.state taker in result
        ≡ or_else (term_trouble c left.now) (or_else (term_trouble c right.now)
        (sum_trouble (term_number c left.now) (term_number c right.now))) }
{
    let x = term_number(machine, taker, left);
    let y = term_number(machine, taker, right);
    let second = first_of(term_trouble(machine, taker, right), sum_trouble(x, y));
    first_of(term_trouble(machine, taker, left), second)
}

/// Returns an expression that traps.
pub(crate) fn expr_trouble<K: Kind>(
    machine: &Machine<K>,
    taker: Taker,
    expr: &Expr,
) -> Option<Trouble>
    requires { IsOneOf machine.now.shape.n taker.process }
    ensures { result
        ≡ expr_trouble (context_of machine.now.shape machine.now.state taker) expr.now }
{
    match expr {
        Expr::Term(term) => term_trouble(machine, taker, term),
        Expr::Sum(left, right) => sum_of(machine, taker, left, right),
        Expr::Not(term) => term_trouble(machine, taker, term),
    }
}

/// Returns the operand at which the line of a process traps: the first that is no place, no number
/// of 64 bits, no bit, or no register of the process.
pub fn line_trouble<K: Kind>(machine: &Machine<K>, taker: Taker, instr: &Instr) -> Option<Trouble>
    requires { IsOneOf machine.now.shape.n taker.process }
    ensures { result
        ≡ line_trouble machine.now.source.kind machine.now.shape machine.now.state taker instr.now }
{
    let shape = machine.shape();
    match instr {
        Instr::Let(_, expr) => expr_trouble(machine, taker, expr),
        Instr::LetPlace(_, index, expr) => {
            let place = place_trouble(machine, taker, index, places(shape));
            first_of(place, expr_trouble(machine, taker, expr))
        }
        Instr::Get(_, index, word) => {
            let place = place_trouble(machine, taker, index, places(shape));
            first_of(place, place_trouble(machine, taker, word, shape.w()))
        }
        Instr::Bit(_, _, i, j) => {
            let first = place_trouble(machine, taker, i, shape.n());
            first_of(first, place_trouble(machine, taker, j, shape.n()))
        }
        Instr::Look(_, index) => place_trouble(machine, taker, index, shape.n()),
        Instr::Put(index, tuple) => put_trouble(machine, taker, index, tuple),
        Instr::PutBit(bank, i, j, expr) => put_bit_trouble(machine, taker, *bank, i, j, expr),
        Instr::PutView(index, _) => put_view_trouble(machine, taker, index),
        Instr::ViewOf(_, _, index) => place_trouble(machine, taker, index, places(shape)),
        Instr::Each(range, _, expr, condition) => {
            values_trouble(machine, taker, expr, condition, range_end(shape, *range))
        }
        Instr::First(_, range, condition, _) => {
            conditions_trouble(machine, taker, condition, range_end(shape, *range))
        }
        Instr::If(condition, _) => condition_trouble(machine, taker, condition),
        Instr::IfAll(range, condition, _) => {
            conditions_trouble(machine, taker, condition, range_end(shape, *range))
        }
        _ => None,
    }
}
