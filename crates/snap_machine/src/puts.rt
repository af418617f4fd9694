//! `TupleValues`: the values that a `put` line writes to a register, and the check that bits are 0
//! or 1.
ghost use Rattle.std.specs.Prelude.{◌≡◌, ◌&&◌, true, false, Ok, MatchResult, take};
ghost use Rattle.std.specs.List.{list_all};
ghost use Rattle.snap_words.specs.Kind.{has_bits, is_bit, is_sized, kept};
ghost use Rattle.snap_semantics.specs.Table.{tuple_word};
ghost use Rattle.snap_semantics.specs.declared.process.Cause.TheVariants.{NotABit};
ghost use Rattle.snap_asm_program.specs.NamedLines.{named_tuple};
ghost use Rattle.snap_machine.specs.TupleValues.{given_word, given_in, as_word_in};
ghost use Rattle.snap_machine.specs.Lines.{IfAnswered};
ghost use Rattle.snap_machine.specs.SeenProcesses.{seen_context};

use crate::lines::Halt;
use crate::locals::{copy_of, row, view};
use crate::slot_process::SlotProcess;
use crate::step_context::StepContext;
use crate::value::expr_value;
use snap_asm_program::SlotTuple;
use snap_semantics::Cause;
use snap_words::{AnyWord, Kind, Shape, View};
use std::alloc::Global;

/// The values of a tuple, before they are copied into a word.
#[derive(Clone, Copy)]
pub struct TupleValues<'a> {
    pub datum: u64,
    pub seq: u64,
    pub id: u64,
    pub toggle: u64,
    pub handshakes: &'a [u64],
    pub view: Option<&'a View>,
}

/// Returns the values of a tuple.
///
/// # Errors
///
/// The cause of the trap, where a part of the tuple has no value.
pub fn given_of<'a, K: Kind>(
    context: &StepContext<'_>,
    process: &'a SlotProcess<K>,
    tuple: &SlotTuple,
) -> Result<TupleValues<'a>, Cause>
    ensures { given_in result
        ≡ tuple_word (seen_context K.as_word context.now process.now)
        (named_tuple context.now.program.now tuple.now) }
{
    match tuple {
        SlotTuple::Seq(datum, seq, slot) => Ok(TupleValues {
            datum: expr_value(context, process, datum)?,
            seq: expr_value(context, process, seq)?,
            id: 0,
            toggle: 0,
            handshakes: &[],
            view: view(context.program.views(), process.views.as_slice(), *slot),
        }),
        SlotTuple::Bits(datum, handshakes, toggle, slot) => {
            let handshakes = row(context.program.rows(), process.rows.as_slice(), *handshakes);
            Ok(TupleValues {
                datum: expr_value(context, process, datum)?,
                seq: 0,
                id: 0,
                toggle: expr_value(context, process, toggle)?,
                handshakes: first_numbers(handshakes, context.shape.n()),
                view: view(context.program.views(), process.views.as_slice(), *slot),
            })
        }
        SlotTuple::Multi(datum, id, toggle) => Ok(TupleValues {
            datum: expr_value(context, process, datum)?,
            seq: 0,
            id: expr_value(context, process, id)?,
            toggle: expr_value(context, process, toggle)?,
            handshakes: &[],
            view: None,
        }),
    }
}

/// Returns the first numbers, or all where there are fewer.
fn first_numbers(numbers: &[u64], count: u64) -> &[u64]
    ensures { result.now ≡ take count numbers.now }
{
    &numbers[..(count as usize).min(numbers.len())]
}

/// Checks that the toggle and the handshake bits are bits.
///
/// # Errors
///
/// `NotABit` where one of them is not.
pub fn check_bits(given: &TupleValues<'_>) -> Result<(), Cause>
    ensures { let test = is_bit given.now.toggle && list_all is_bit given.now.handshakes.now in
        MatchResult result (λ _. test ≡ true) (λ e. (e ≡ NotABit) × (test ≡ false)) }
{
    if given.toggle <= 1 && are_bits(given.handshakes) {
        Ok(())
    } else {
        Err(Cause::NotABit)
    }
}

/// Returns whether each number is 0 or 1.
fn are_bits(numbers: &[u64]) -> bool
    ensures { result ≡ list_all is_bit numbers.now }
{
    numbers.iter().all(|&x| x <= 1)
}

/// Checks that `bit` is 0 or 1.
///
/// # Errors
///
/// `NotABit` where it is not.
pub fn check_bit(bit: u64) -> Result<(), Cause>
    ensures { MatchResult result (λ _. is_bit bit ≡ true) (λ e. (e ≡ NotABit) ×
        (is_bit bit ≡ false)) }
{
    if bit <= 1 {
        Ok(())
    } else {
        Err(Cause::NotABit)
    }
}

/// Returns the word of the values of a tuple.
///
/// # Errors
///
/// `Trap` with `NotABit` where a bit is not 0 or 1; `NoMemory` where memory runs out.
pub fn built<K: Kind>(alloc: Global, shape: Shape, given: &TupleValues<'_>) -> Result<K::Word, Halt>
    requires sized { is_sized K.TAG shape (given_word given.now) ≡ true }
    requires bits { has_bits K.TAG (given_word given.now) ≡ true }
    requires kept { kept K.TAG (given_word given.now) ≡ given_word given.now }
    ensures { IfAnswered result (λ r. as_word_in K.as_word r ≡ Ok (given_word given.now)) }
{
    let as_word = AnyWord {
        datum: given.datum,
        seq: given.seq,
        id: given.id,
        toggle: given.toggle,
        handshakes: View::of(Vec::from_slice(alloc, given.handshakes)?),
        view: copy_of(alloc, given.view)?,
    };
    match K::build(shape, as_word) {
        Ok(word) => Ok(word),
        Err(_) => Err(Halt::Trap(Cause::NotABit)),
    }
}
