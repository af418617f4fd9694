//! The kind of registers `Seq`, with its words: single-writer words with a sequence number.
use crate::address::{Address, Bank};
use crate::any_word::AnyWord;
use crate::kind::{Field, KindTag};
use crate::kinds::Kind;
use crate::shape::{Shape, WordFault};
use crate::view::View;
use std::alloc::{AllocError, Global};

/// The kind of single-writer words with a sequence number.
pub struct Seq;

/// A word of kind seq.
#[derive(Drop)]
pub struct SeqWord {
    datum: u64,
    seq: u64,
    view: View,
}

impl Kind for Seq {
    ghost use Rattle.std.specs.Prelude.{refl};
    ghost use Rattle.snap_words.specs.KindLaws.{seq_equal};
    ghost use Rattle.snap_words.specs.KindWords.{seq_as_word};
    ghost use Rattle.snap_words.specs.declared.kind.KindTag.TheVariants as tag;

    type Word = SeqWord;

    ghost TAG = { tag.Seq };

    const TAG: KindTag = KindTag::Seq;

    ghost as_word = { seq_as_word };

    fn fits(shape: Shape) -> bool {
        shape.w() == shape.n()
    }

    fn initial(alloc: Global, shape: Shape) -> Result<SeqWord, AllocError> {
        Ok(SeqWord {
            datum: 0,
            seq: 0,
            view: View::zeros(alloc, shape.w())?,
        })
    }

    fn field(word: &SeqWord, field: Field) -> Option<u64> {
        match field {
            Field::Datum => Some(word.datum),
            Field::Seq => Some(word.seq),
            Field::Id | Field::Toggle => None,
        }
    }

    fn handshake(_word: &SeqWord, _i: u32) -> Option<u64> {
        None
    }

    fn handshake_count(_word: &SeqWord) -> u32 {
        0
    }

    fn view(word: &SeqWord) -> Option<&View> {
        Some(&word.view)
    }

    fn build(_shape: Shape, given: AnyWord) -> Result<SeqWord, WordFault> {
        Ok(SeqWord {
            datum: given.datum,
            seq: given.seq,
            view: given.view,
        })
    }

    fn copy(alloc: Global, word: &SeqWord) -> Result<SeqWord, AllocError> {
        Ok(SeqWord {
            datum: word.datum,
            seq: word.seq,
            view: word.view.copy(alloc)?,
        })
    }

    fn may_write(who: u32, address: Address) -> bool {
        address.i == u64::from(who)
    }

    fn has_bank(bank: Bank) -> bool {
        bank == Bank::R
    }

    ghost equal = { seq_equal };

    ghost keeps = { λ x. refl };

    ghost has_only_bits = { λ x. refl };
}
