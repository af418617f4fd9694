//! The kind of registers `Bits`, with its words:
//! single-writer words with handshake bits and a toggle.
ghost use Rattle.std.specs.Prelude.{◌≡◌, ◌&&◌, true};
ghost use Rattle.std.specs.List.{list_all};
ghost use Rattle.snap_words.specs.Kind.{is_bit};

use crate::address::{Address, Bank};
use crate::any_word::AnyWord;
use crate::handshakes::Handshakes;
use crate::kind::{Field, KindTag};
use crate::kinds::Kind;
use crate::shape::{Shape, WordFault};
use crate::view::View;
use std::alloc::{AllocError, Global};

/// The kind of single-writer words with handshake bits and a toggle.
pub struct Bits;

/// A word of kind bits.
#[derive(Drop)]
pub struct BitsWord {
    datum: u64,
    toggle: u64,
    handshakes: Handshakes,
    view: View,
    ghost bits: { (is_bit toggle && list_all is_bit handshakes) ≡ true },
}

impl Kind for Bits {
    ghost use Rattle.std.specs.Prelude.{refl};
    ghost use Rattle.snap_words.specs.KindLaws.{bits_equal};
    ghost use Rattle.snap_words.specs.KindWords.{bits_as_word};
    ghost use Rattle.snap_words.specs.declared.kind.KindTag.TheVariants as tag;

    type Word = BitsWord;

    ghost TAG = { tag.Bits };

    const TAG: KindTag = KindTag::Bits;

    ghost as_word = { bits_as_word };

    fn fits(shape: Shape) -> bool {
        shape.w() == shape.n()
    }

    fn initial(alloc: Global, shape: Shape) -> Result<BitsWord, AllocError> {
        Ok(BitsWord {
            datum: 0,
            toggle: 0,
            handshakes: Handshakes::zeros(shape.process_count()),
            view: View::zeros(alloc, shape.w())?,
        })
    }

    fn field(word: &BitsWord, field: Field) -> Option<u64> {
        match field {
            Field::Datum => Some(word.datum),
            Field::Toggle => Some(word.toggle),
            Field::Seq | Field::Id => None,
        }
    }

    fn handshake(word: &BitsWord, i: u32) -> Option<u64> {
        if i == 0 {
            return None;
        }
        word.handshakes.get(i - 1)
    }

    fn handshake_count(word: &BitsWord) -> u32 {
        word.handshakes.count()
    }

    fn view(word: &BitsWord) -> Option<&View> {
        Some(&word.view)
    }

    fn build(shape: Shape, given: AnyWord) -> Result<BitsWord, WordFault> {
        if given.toggle <= 1 && given.handshakes.has_bits() {
            Ok(BitsWord {
                datum: given.datum,
                toggle: given.toggle,
                handshakes: Handshakes::of(shape.process_count(), given.handshakes.as_slice()),
                view: given.view,
            })
        } else {
            Err(WordFault::NotABit)
        }
    }

    fn copy(alloc: Global, word: &BitsWord) -> Result<BitsWord, AllocError> {
        Ok(BitsWord {
            datum: word.datum,
            toggle: word.toggle,
            handshakes: word.handshakes.copy(),
            view: word.view.copy(alloc)?,
        })
    }

    fn may_write(who: u32, address: Address) -> bool {
        address.i == u64::from(who)
    }

    fn has_bank(bank: Bank) -> bool {
        match bank {
            Bank::R | Bank::Q => true,
            Bank::P | Bank::V => false,
        }
    }

    ghost equal = { bits_equal };

    ghost keeps = { λ x. refl };

    ghost has_only_bits = { λ x. x.bits };
}
