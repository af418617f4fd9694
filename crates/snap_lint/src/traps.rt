//! `may_trap`: whether a line may trap in a `Mode`: it runs off the end, calls within a call, ends
//! the wrong operation, or writes another process's register.
ghost use Rattle.std.specs.Prelude.{◌≡◌};
ghost use Rattle.snap_lint.specs.Warnings.{
  has_owners,
  is_in_update,
  is_own,
  is_own_word,
  is_shared,
  may_end_badly,
  may_nest,
  may_trap,
  may_write_others,
};

use crate::concern::Concern;
use crate::flow::may_run_off;
use crate::mode::{Mode, Way};
use snap_listing_core::Listing;
use snap_semantics::{Index, Instr, Line};
use snap_words::{Bank, KindTag};

/// Returns whether an instruction may call within a call.
fn may_nest(mode: Mode, instr: &Instr) -> bool
    ensures { result ≡ may_nest mode instr.now }
{
    matches!(instr, Instr::Call(_)) && mode.way() == Way::Within
}

/// Returns whether an instruction may end an operation that it cannot end.
fn may_end_badly(mode: Mode, instr: &Instr) -> bool
    ensures { result ≡ may_end_badly mode instr.now }
{
    match instr {
        Instr::Return(_) => mode == Mode::Update,
        Instr::Finish => mode != Mode::Update,
        _ => false,
    }
}

/// Returns whether every process may write the registers of a bank.
fn is_shared(kind: KindTag, bank: Bank) -> bool
    ensures { result ≡ is_shared kind bank }
{
    kind == KindTag::Multi && bank == Bank::R
}

/// Returns whether a process is asked for updates of its own word alone.
fn has_owners(kind: KindTag) -> bool
    ensures { result ≡ has_owners kind }
{
    match kind {
        KindTag::Seq | KindTag::Bits => true,
        KindTag::Multi => false,
    }
}

/// Returns whether a process is in an update, outside its calls or within one.
fn is_in_update(mode: Mode) -> bool
    ensures { result ≡ is_in_update mode }
{
    match mode {
        Mode::Update | Mode::UpdateCall => true,
        Mode::Scan | Mode::ScanCall => false,
    }
}

/// Returns whether an index is the word of an update, which is its process's own.
fn is_own_word(kind: KindTag, mode: Mode, index: &Index) -> bool
    ensures { result ≡ is_own_word kind mode index.now }
{
    has_owners(kind) && is_in_update(mode) && matches!(index, Index::Word)
}

/// Returns whether a register is its process's to write, as its first index is written.
fn is_own(kind: KindTag, mode: Mode, bank: Bank, index: &Index) -> bool
    ensures { result ≡ is_own kind mode bank index.now }
{
    is_shared(kind, bank) || matches!(index, Index::Me) || is_own_word(kind, mode, index)
}

/// Returns whether an instruction writes a register that may be another process's.
fn may_write_others(kind: KindTag, mode: Mode, instr: &Instr) -> bool
    ensures { result ≡ may_write_others kind mode instr.now }
{
    match instr {
        Instr::Put(index, _) => !is_own(kind, mode, Bank::R, index),
        Instr::PutBit(bits, index, _, _) => !is_own(kind, mode, bits.bank(), index),
        Instr::PutView(index, _) => !is_own(kind, mode, Bank::V, index),
        _ => false,
    }
}

/// Returns whether a line may trap for this concern in `mode`.
pub fn may_trap(listing: &Listing, concern: Concern, mode: Mode, line: &Line) -> bool
    ensures { result ≡ may_trap listing.now concern mode line.now }
{
    match concern {
        Concern::OffEnd => may_run_off(listing, mode.way(), line),
        Concern::Nested => may_nest(mode, &line.instr),
        Concern::BadEnd => may_end_badly(mode, &line.instr),
        Concern::Owner => may_write_others(listing.kind(), mode, &line.instr),
        _ => false,
    }
}
