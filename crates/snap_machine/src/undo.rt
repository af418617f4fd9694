//! `Undo`: what an item overwrote: the status of its process, and the register or local that it
//! wrote with the contents before; and `WritePlace`, which register or local that is.
ghost use Rattle.std.specs.Prelude.{◌≡◌};
ghost use Rattle.snap_semantics.specs.Table.{bank_of};
ghost use Rattle.snap_machine.specs.WritePlace.{lone, write_place_of};

use snap_semantics::{BitBank, Sort, Status};
use snap_words::{Address, Bank, Kind, View};
use std::marker::Model;

/// Where an item writes besides the status of its process: in a register, in a local of its
/// process, or in one of the places of a `words` local. Slots and places are counted from 0.
#[derive(Clone, Copy, PartialEq, Eq)]
pub enum WritePlace {
    Nowhere,
    Register(Address),
    Local(Sort, usize),
    WordsPlace(usize, usize),
}

/// A place that an item writes, with its contents before: a register by its indices, counted from
/// 1; or a local of the process by its slot, whole or one of its places, all counted from 0.
#[derive(Drop)]
pub(crate) enum SlotPlace<K: Kind> {
    Nowhere,
    WordRegister(u64, K::Word),
    BitRegister(BitBank, u64, u64, bool),
    ViewRegister(u64, View),
    Scalar(usize, u64),
    Number(usize, usize, u64),
    Row(usize, Vec<u64>),
    LocalWord(usize, usize, K::Word),
    LocalView(usize, View),
}

/// What an item overwrote: the status of its process, and the contents of the place that it wrote.
#[derive(Drop)]
pub struct Undo<K: Kind> {
    pub(crate) process: u32,
    pub(crate) status: Status,
    pub(crate) place: SlotPlace<K>,
}

impl<K: Kind> Model for Undo<K> {
    ghost use Rattle.snap_machine.specs.SeenPlaces.{seen_place};
    ghost use Rattle.snap_machine.specs.Undo.{Overwritten};

    ghost Value = { Overwritten };

    ghost view = { λ u. record {
      process = u.process;
      status = u.status;
      place = seen_place K.as_word u.place;
    } };
}

impl<K: Kind> Undo<K> {
    /// Returns the place that the item wrote.
    pub fn write_place(&self) -> WritePlace
        ensures { result ≡ write_place_of self.now.place }
    {
        match &self.place {
            SlotPlace::Nowhere => WritePlace::Nowhere,
            SlotPlace::WordRegister(k, _) => lone(Bank::R, *k),
            SlotPlace::BitRegister(bits, i, j, _) => WritePlace::Register(Address {
                bank: bank_of(*bits),
                i: *i,
                j: *j,
            }),
            SlotPlace::ViewRegister(i, _) => lone(Bank::V, *i),
            SlotPlace::Scalar(slot, _) => WritePlace::Local(Sort::Scalar, *slot),
            SlotPlace::Number(slot, _, _) => WritePlace::Local(Sort::Row, *slot),
            SlotPlace::Row(slot, _) => WritePlace::Local(Sort::Row, *slot),
            SlotPlace::LocalWord(slot, place, _) => WritePlace::WordsPlace(*slot, *place),
            SlotPlace::LocalView(slot, _) => WritePlace::Local(Sort::View, *slot),
        }
    }
}

/// Returns the register of a bank whose registers have one index.
fn lone(bank: Bank, i: u64) -> WritePlace
    ensures { result ≡ lone bank i }
{
    WritePlace::Register(Address { bank, i, j: 0 })
}

/// Returns the bank of registers that a bank of bits is.
fn bank_of(bits: BitBank) -> Bank
    ensures { result ≡ bank_of bits }
{
    match bits {
        BitBank::Q => Bank::Q,
        BitBank::P => Bank::P,
    }
}
