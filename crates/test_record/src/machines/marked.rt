//! `Marked`: a kind of registers that the tests of machines have of their own, as kind multi, with
//! the toggle kept as a `bool`.
ghost use Rattle.std.specs.Prelude.{◌≡◌};

use snap_words::{Address, AnyWord, Bank, Field, Kind, KindTag, Shape, View, WordFault};
use std::alloc::{AllocError, Global};

/// The kind.
pub struct Marked;

/// A word of the kind.
#[derive(Drop)]
pub struct MarkedWord {
    datum: u64,
    id: u64,
    mark: bool,
}

impl Kind for Marked {
    ghost use Rattle.std.specs.Prelude.{[], true, false, ◌&&◌, nat_eq, refl, if◌then◌else◌};
    ghost use Rattle.std.proofs.Common.{ap, sym, ◌∙◌};
    ghost use Rattle.snap_words.specs.Kind.{is_bit};
    ghost use Rattle.snap_words.specs.Word.{Word};
    ghost use Rattle.snap_words.specs.declared.kind.KindTag.TheVariants as tag;
    ghost use Rattle.test_record.specs.declared.machines.marked.MarkedWord.{MarkedWord};

    type Word = MarkedWord;

    ghost TAG = { tag.Multi };

    const TAG: KindTag = KindTag::Multi;

    ghost as_word = { λ x. record {
      datum = x.datum;
      seq = 0;
      id = x.id;
      toggle = if x.mark then 1
          else 0;
      handshakes = [];
      view = [];
    } };

    fn fits(_shape: Shape) -> bool {
        true
    }

    fn initial(_alloc: Global, _shape: Shape) -> Result<MarkedWord, AllocError> {
        Ok(MarkedWord {
            datum: 0,
            id: 0,
            mark: false,
        })
    }

    fn field(word: &MarkedWord, field: Field) -> Option<u64> {
        match field {
            Field::Datum => Some(word.datum),
            Field::Id => Some(word.id),
            Field::Toggle => Some(if word.mark { 1 } else { 0 }),
            Field::Seq => None,
        }
    }

    fn handshake(_word: &MarkedWord, _i: u32) -> Option<u64> {
        None
    }

    fn handshake_count(_word: &MarkedWord) -> u32 {
        0
    }

    fn view(_word: &MarkedWord) -> Option<&View> {
        None
    }

    fn build(_shape: Shape, given: AnyWord) -> Result<MarkedWord, WordFault> {
        match given.toggle {
            0 => Ok(MarkedWord {
                datum: given.datum,
                id: given.id,
                mark: false,
            }),
            1 => Ok(MarkedWord {
                datum: given.datum,
                id: given.id,
                mark: true,
            }),
            _ => Err(WordFault::NotABit),
        }
    }

    fn copy(_alloc: Global, word: &MarkedWord) -> Result<MarkedWord, AllocError> {
        Ok(MarkedWord {
            datum: word.datum,
            id: word.id,
            mark: word.mark,
        })
    }

    fn may_write(who: u32, address: Address) -> bool {
        match address.bank {
            Bank::R => true,
            Bank::Q | Bank::P | Bank::V => address.i == u64::from(who),
        }
    }

    fn has_bank(_bank: Bank) -> bool {
        true
    }

    ghost equal = { λ x y e.
        let back : Word → MarkedWord = λ p. record {
          datum = p.datum;
          id = p.id;
          mark = nat_eq
              p.toggle 1;
        } in
        let again : (w : MarkedWord) →
        back (record {
          datum = w.datum;
          seq = 0;
          id = w.id;
          toggle = if w.mark then 1 else 0;
          handshakes = [];
          view = [];
        }) ≡ w = λ w.
        elim w.mark as (λ b. (let v : MarkedWord = record {
          datum = w.datum;
          id = w.id;
          mark = nat_eq (if b then 1 else 0) 1;
        } in v) ≡ record { datum = w.datum; id = w.id; mark = b }) [
          | true ↦ refl
          | false ↦ refl
        ] in
        sym (again x) ∙ ap back e ∙ again y };

    ghost keeps = { λ x. refl };

    ghost has_only_bits = { λ x. elim x.mark as (λ b. (is_bit (if b then 1 else 0) && true)
        ≡ true) [
          | true ↦ refl
          | false ↦ refl
        ] };
}
