//! The numbers that the operands of a line have in a machine, to find the operand at which the line
//! traps.
ghost use Rattle.std.specs.Prelude.{◌≡◌, ◌-◌, map, slice_index};
ghost use Rattle.snap_words.specs.Shape.{IsOneOf};
ghost use Rattle.snap_words.specs.Kind.{field_of};
ghost use Rattle.snap_semantics.specs.Readers.{local_value};
ghost use Rattle.snap_semantics.specs.State.{process_at};
ghost use Rattle.snap_semantics.specs.Value.{arg_of, index_value};
ghost use Rattle.snap_why.specs.Troubles.{context_of, negated, row_in, row_number};
ghost use Rattle.snap_why.specs.Troubles.{term_number, word_of, words_in};

use crate::taker::Taker;
use snap_acts::index_value;
use snap_machine::{Local, Machine};
use snap_semantics::{Index, Name, Op, Term};
use snap_words::{Field, Kind, field_of, handshake_of};

/// Returns the value of an index.
pub(crate) fn index_number<K: Kind>(machine: &Machine<K>, taker: Taker, index: &Index) -> u64
    requires { IsOneOf machine.now.shape.n taker.process }
    ensures { result ≡ index_value (context_of machine.now.shape machine.now.state taker)
        index.now }
{
    match index {
        Index::Place => taker.place,
        _ => index_value(machine, taker.process, taker.op, *index),
    }
}

/// Returns the value of an update, and 0 in a scan.
fn arg_of(op: Op) -> u64
    ensures { result ≡ arg_of op }
{
    match op {
        Op::Scan => 0,
        Op::Update { value, .. } => value,
    }
}

/// Returns what a row of a process has.
pub(crate) fn row_of<K: Kind>(machine: &Machine<K>, i: u32, name: Name) -> &[u64]
    requires { IsOneOf machine.now.shape.n i }
    ensures { result.now ≡ row_in (local_value (process_at machine.now.state i).locals name) }
{
    match machine.local(i, name) {
        Some(Local::Row(row)) => row,
        _ => &[],
    }
}

/// Returns what a `words` local of a process has.
fn words_of<K: Kind>(machine: &Machine<K>, i: u32, name: Name) -> &[K::Word]
    requires { IsOneOf machine.now.shape.n i }
    ensures { map K.as_word result.now
        ≡ words_in (local_value (process_at machine.now.state i).locals name) }
{
    match machine.local(i, name) {
        Some(Local::Words(words)) => words,
        _ => &[],
    }
}

/// Returns the place of a number, counted from 0.
fn place_of(number: u64) -> usize
    ensures { result ≡ number - 1 }
{
    number.saturating_sub(1) as usize
}

/// Returns what a row of a process has at a place.
fn row_number<K: Kind>(machine: &Machine<K>, i: u32, name: Name, place: u64) -> u64
    requires { IsOneOf machine.now.shape.n i }
    ensures { result ≡ row_number (process_at machine.now.state i).locals name place }
{
    let row = row_of(machine, i, name);
    let k = place_of(place);
    if k < row.len() { row[k] } else { 0 }
}

/// Returns a field of what a `words` local of a process has at a place.
fn field_number<K: Kind>(machine: &Machine<K>, i: u32, of: Field, name: Name, place: u64) -> u64
    requires { IsOneOf machine.now.shape.n i }
    ensures { result ≡ field_of of (word_of (process_at machine.now.state i).locals name place) }
{
    let words = words_of(machine, i, name);
    let k = place_of(place);
    if k < words.len() {
        field_of::<K>(&words[k], of)
    } else {
        0
    }
}

/// Returns a handshake bit of what a `words` local of a process has at a place.
fn handshake_number<K: Kind>(
    machine: &Machine<K>,
    i: u32,
    name: Name,
    place: u64,
    handshake: u64,
) -> u64
    requires { IsOneOf machine.now.shape.n i }
    ensures { result ≡ slice_index (word_of (process_at machine.now.state i).locals name
        place).handshakes (handshake - 1) }
{
    let words = words_of(machine, i, name);
    let k = place_of(place);
    if k < words.len() {
        handshake_of::<K>(&words[k], place_of(handshake))
    } else {
        0
    }
}

/// Returns the number of an operand.
pub(crate) fn term_number<K: Kind>(machine: &Machine<K>, taker: Taker, term: &Term) -> u64
    requires { IsOneOf machine.now.shape.n taker.process }
    ensures { result ≡ term_number (context_of machine.now.shape machine.now.state taker) term.now }
{
    match term {
        Term::Index(index) => index_number(machine, taker, index),
        Term::Arg => arg_of(taker.op),
        Term::Row(name, index) => {
            let place = index_number(machine, taker, index);
            row_number(machine, taker.process, *name, place)
        }
        Term::Field(field, name, index) => {
            let place = index_number(machine, taker, index);
            field_number(machine, taker.process, *field, *name, place)
        }
        Term::Handshake(name, index, handshake) => {
            let place = index_number(machine, taker, index);
            let bit = index_number(machine, taker, handshake);
            handshake_number(machine, taker.process, *name, place, bit)
        }
    }
}

/// Returns 1 if `number` is 0, and 0 otherwise.
pub(crate) fn negated(number: u64) -> u64
    ensures { result ≡ negated number }
{
    if number == 0 { 1 } else { 0 }
}
