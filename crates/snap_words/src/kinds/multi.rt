//! The kind of registers `Multi`, with its words:
//! multi-writer words with a writer's id and a toggle.
ghost use Rattle.std.specs.Prelude.{◌≡◌, true};
ghost use Rattle.snap_words.specs.Kind.{is_bit};

use crate::address::{Address, Bank};
use crate::any_word::AnyWord;
use crate::kind::{Field, KindTag};
use crate::kinds::Kind;
use crate::shape::{Shape, WordFault};
use crate::view::View;
use std::alloc::{AllocError, Global};

/// The kind of multi-writer words with a writer and a toggle.
pub struct Multi;

/// A word of kind multi.
#[derive(Drop)]
pub struct MultiWord {
    datum: u64,
    id: u64,
    toggle: u64,
    ghost bits: { is_bit toggle ≡ true },
}

impl Kind for Multi {
    ghost use Rattle.std.specs.Prelude.{refl};
    ghost use Rattle.snap_words.specs.KindLaws.{multi_equal, multi_has_bits};
    ghost use Rattle.snap_words.specs.KindWords.{multi_as_word};
    ghost use Rattle.snap_words.specs.declared.kind.KindTag.TheVariants as tag;

    type Word = MultiWord;

    ghost TAG = { tag.Multi };

    const TAG: KindTag = KindTag::Multi;

    ghost as_word = { multi_as_word };

    fn fits(_shape: Shape) -> bool {
        true
    }

    fn initial(_alloc: Global, _shape: Shape) -> Result<MultiWord, AllocError> {
        Ok(MultiWord {
            datum: 0,
            id: 0,
            toggle: 0,
        })
    }

    fn field(word: &MultiWord, field: Field) -> Option<u64> {
        match field {
            Field::Datum => Some(word.datum),
            Field::Id => Some(word.id),
            Field::Toggle => Some(word.toggle),
            Field::Seq => None,
        }
    }

    fn handshake(_word: &MultiWord, _i: u32) -> Option<u64> {
        None
    }

    fn handshake_count(_word: &MultiWord) -> u32 {
        0
    }

    fn view(_word: &MultiWord) -> Option<&View> {
        None
    }

    fn build(_shape: Shape, given: AnyWord) -> Result<MultiWord, WordFault> {
        if given.toggle <= 1 {
            Ok(MultiWord {
                datum: given.datum,
                id: given.id,
                toggle: given.toggle,
            })
        } else {
            Err(WordFault::NotABit)
        }
    }

    fn copy(_alloc: Global, word: &MultiWord) -> Result<MultiWord, AllocError> {
        Ok(MultiWord {
            datum: word.datum,
            id: word.id,
            toggle: word.toggle,
        })
    }

    fn may_write(who: u32, address: Address) -> bool {
        match address.bank {
            Bank::R => true,
            Bank::Q | Bank::P | Bank::V => address.i == u64::from(who),
        }
    }

    fn has_bank(_bank: Bank) -> bool {
        true
    }

    ghost equal = { multi_equal };

    ghost keeps = { λ x. refl };

    ghost has_only_bits = { multi_has_bits };
}
