//! What the register or local that a line is about to write has before: the `SlotPlace` of an
//! `Undo`.
ghost use Rattle.std.specs.Prelude.{◌≡◌, [], false, IfOk, map, slice_get, slice_index};
ghost use Rattle.snap_words.specs.Shape.{is_place};
ghost use Rattle.snap_semantics.specs.State.{value_at};
ghost use Rattle.snap_asm_program.specs.NamedLines.{name_at};
ghost use Rattle.snap_regs.specs.Access.{is_bit_place, is_view_place};
ghost use Rattle.snap_machine.specs.SeenPlaces.{seen_place};
ghost use Rattle.snap_machine.specs.Written.{
  bit_before,
  local_view_before,
  local_word_before,
  number_before,
  row_before,
  scalar_before,
  view_before,
  word_before,
  word_there,
  writes_local,
  written,
};
ghost use Rattle.snap_machine.specs.SeenProcesses.{seen_context, seen_locals};

use crate::locals::{copy_of, row, scalar, view, words};
use crate::slot_process::SlotProcess;
use crate::step_context::StepContext;
use crate::undo::SlotPlace;
use crate::value::{index_value, local_place};
use snap_asm_program::{Program, SlotInstr};
use snap_regs::Registers;
use snap_semantics::{BitBank, Cause};
use snap_words::Kind;
use std::alloc::{AllocError, Global};

/// Returns the scalar of a slot.
fn scalar_before<K: Kind>(
    context: &StepContext<'_>,
    process: &SlotProcess<K>,
    slot: usize,
) -> SlotPlace<K>
    ensures { seen_place K.as_word result
        ≡ scalar_before context.now.program.now (seen_context K.as_word context.now process.now)
        slot }
{
    SlotPlace::Scalar(
        slot,
        scalar(context.program.scalars(), process.scalars.as_slice(), slot),
    )
}

/// Returns the number at a place of a row, 0 past its end.
fn number_at(row: &[u64], place: usize) -> u64
    ensures { result ≡ slice_index row.now place }
{
    if place < row.len() { row[place] } else { 0 }
}

/// Returns a number of a row, if the row has this place.
fn number_before<K: Kind>(
    program: &Program,
    process: &SlotProcess<K>,
    slot: usize,
    place: Result<usize, Cause>,
) -> SlotPlace<K>
    ensures { seen_place K.as_word result
        ≡ number_before slot (value_at (name_at program.now.rows slot)
        (seen_locals K.as_word program.now process.now).rows []) place }
{
    match place {
        Ok(place) => {
            let row = row(program.rows(), process.rows.as_slice(), slot);
            SlotPlace::Number(slot, place, number_at(row, place))
        }
        Err(_) => SlotPlace::Nowhere,
    }
}

/// Returns the row of a slot.
fn row_before<K: Kind>(
    context: &StepContext<'_>,
    process: &SlotProcess<K>,
    slot: usize,
) -> Result<SlotPlace<K>, AllocError>
    ensures { IfOk result (λ p. seen_place K.as_word p
        ≡ row_before context.now.program.now (seen_context K.as_word context.now process.now)
        slot) }
{
    let row = row(context.program.rows(), process.rows.as_slice(), slot);
    Ok(SlotPlace::Row(slot, Vec::from_slice(context.alloc, row)?))
}

/// Returns the word at a place of a `words` local, if the local has this place.
fn word_there<K: Kind>(
    alloc: Global,
    words: &[K::Word],
    slot: usize,
    place: usize,
) -> Result<SlotPlace<K>, AllocError>
    ensures { IfOk result (λ p. seen_place K.as_word p
        ≡ word_there slot place (slice_get (map K.as_word words.now) place)) }
{
    match words.get(place) {
        Some(word) => Ok(SlotPlace::LocalWord(slot, place, K::copy(alloc, word)?)),
        None => Ok(SlotPlace::Nowhere),
    }
}

/// Returns a word of a `words` local, if the local has this place.
fn local_word_before<K: Kind>(
    alloc: Global,
    program: &Program,
    process: &SlotProcess<K>,
    slot: usize,
    place: Result<usize, Cause>,
) -> Result<SlotPlace<K>, AllocError>
    ensures { IfOk result (λ p. seen_place K.as_word p
        ≡ local_word_before slot (value_at (name_at program.now.words slot)
        (seen_locals K.as_word program.now process.now).words []) place) }
{
    match place {
        Ok(place) => {
            let words = words::<K>(program.words(), process.words.as_slice(), slot);
            word_there::<K>(alloc, words, slot, place)
        }
        Err(_) => Ok(SlotPlace::Nowhere),
    }
}

/// Returns the view of a slot.
fn local_view_before<K: Kind>(
    context: &StepContext<'_>,
    process: &SlotProcess<K>,
    slot: usize,
) -> Result<SlotPlace<K>, AllocError>
    ensures { IfOk result (λ p. seen_place K.as_word p
        ≡ local_view_before context.now.program.now (seen_context K.as_word context.now process.now)
        slot) }
{
    let view = view(context.program.views(), process.views.as_slice(), slot);
    Ok(SlotPlace::LocalView(slot, copy_of(context.alloc, view)?))
}

/// Returns word `k` of the registers, if there is one.
fn word_before<K: Kind>(
    alloc: Global,
    registers: &Registers<K>,
    k: u64,
) -> Result<SlotPlace<K>, AllocError>
    ensures { IfOk result (λ p. seen_place K.as_word p ≡ word_before registers.now.memory k
        (is_place registers.now.shape.w k)) }
{
    match registers.word(k) {
        Ok(word) => Ok(SlotPlace::WordRegister(k, K::copy(alloc, word)?)),
        Err(_) => Ok(SlotPlace::Nowhere),
    }
}

/// Returns bit `j` of row `i` of the registers, if there is one.
fn bit_before<K: Kind>(registers: &Registers<K>, bits: BitBank, i: u64, j: u64) -> SlotPlace<K>
    ensures { seen_place K.as_word result ≡ bit_before registers.now.memory bits i j
        (is_bit_place K.TAG registers.now.shape bits i j) }
{
    match registers.bit(bits, i, j) {
        Ok(bit) => SlotPlace::BitRegister(bits, i, j, bit == 1),
        Err(_) => SlotPlace::Nowhere,
    }
}

/// Returns view `i` of the registers, if there is one.
fn view_before<K: Kind>(
    alloc: Global,
    registers: &Registers<K>,
    i: u64,
) -> Result<SlotPlace<K>, AllocError>
    ensures { IfOk result (λ p. seen_place K.as_word p ≡ view_before registers.now.memory i
        (is_view_place K.TAG registers.now.shape i)) }
{
    match registers.view(i) {
        Ok(view) => Ok(SlotPlace::ViewRegister(i, view.copy(alloc)?)),
        Err(_) => Ok(SlotPlace::Nowhere),
    }
}

/// Returns the contents of the place that a line writes in a register.
fn register_before<K: Kind>(
    context: &StepContext<'_>,
    registers: &Registers<K>,
    process: &SlotProcess<K>,
    instr: &SlotInstr,
) -> Result<SlotPlace<K>, AllocError>
    requires kind { context.now.program.now.kind ≡ K.TAG }
    requires shape { registers.now.shape ≡ context.now.shape }
    requires local { writes_local instr.now ≡ false }
    ensures { IfOk result (λ p. seen_place K.as_word p
        ≡ written context.now.program.now (seen_context K.as_word context.now process.now)
        registers.now.memory instr.now) }
{
    match instr {
        SlotInstr::Put(at, _) => {
            word_before(context.alloc, registers, index_value(context, process, at))
        }
        SlotInstr::PutBit(bits, row, column, _) => Ok(bit_before(
            registers,
            *bits,
            index_value(context, process, row),
            index_value(context, process, column),
        )),
        SlotInstr::PutView(at, _) => {
            view_before(context.alloc, registers, index_value(context, process, at))
        }
        _ => Ok(SlotPlace::Nowhere),
    }
}

/// Returns the contents of the place that a line writes.
pub(crate) fn place_before<K: Kind>(
    context: &StepContext<'_>,
    registers: &Registers<K>,
    process: &SlotProcess<K>,
    instr: &SlotInstr,
) -> Result<SlotPlace<K>, AllocError>
    requires kind { context.now.program.now.kind ≡ K.TAG }
    requires shape { registers.now.shape ≡ context.now.shape }
    ensures { IfOk result (λ p. seen_place K.as_word p
        ≡ written context.now.program.now (seen_context K.as_word context.now process.now)
        registers.now.memory instr.now) }
{
    match instr {
        SlotInstr::Let(slot, _)
        | SlotInstr::Bit(slot, _, _, _)
        | SlotInstr::First(slot, _, _, _)
        | SlotInstr::Next(slot, _, _) => Ok(scalar_before(context, process, *slot)),
        SlotInstr::LetPlace(slot, at, _) => {
            let place = local_place(context, process, at);
            Ok(number_before(context.program, process, *slot, place))
        }
        SlotInstr::Get(slot, to, _) => {
            let place = local_place(context, process, to);
            local_word_before(context.alloc, context.program, process, *slot, place)
        }
        SlotInstr::Look(slot, _) | SlotInstr::ViewData(slot, _) | SlotInstr::ViewOf(slot, _, _) => {
            local_view_before(context, process, *slot)
        }
        SlotInstr::Each(_, slot, _, _) => row_before(context, process, *slot),
        _ => register_before(context, registers, process, instr),
    }
}
