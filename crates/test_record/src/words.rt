//! Tests of each method of the trait `Kind`, for kinds seq, bit and multi, and of the fields of
//! their words.
ghost use Rattle.std.specs.Prelude.{◌≡◌, true};
ghost use Rattle.snap_words.specs.Kind.{is_sized};
ghost use Rattle.snap_words.specs.AnyWord.{word_of_any};

use crate::any_words::{parts, parts_of_many};
use snap_words::{
    Address, AnyWord, Bank, Bits, BitsWord, Field, Kind, KindTag, Multi, Seq, Shape, View,
    WordFault, field_of, handshake_of, same_handshakes, view_of,
};
use std::alloc::{AllocError, Global};
use std::test::Fail;

/// What a word is to have: its datum, sequence number, writer and toggle, its second handshake bit,
/// its handshake bits and its view.
#[derive(Clone, Copy)]
struct WantedWord {
    datum: Option<u64>,
    seq: Option<u64>,
    id: Option<u64>,
    toggle: Option<u64>,
    handshake: Option<u64>,
    handshakes: &'static [u64],
    view: Option<&'static [u64]>,
}

/// Returns whether the values are `want`, or there are none if none are wanted.
fn is_row(row: Option<&View>, want: Option<&[u64]>) -> bool {
    match (row, want) {
        (Some(row), Some(want)) => row.as_slice() == want,
        (None, None) => true,
        _ => false,
    }
}

/// Returns whether a word has these handshake bits, and no more of them.
fn has_handshakes<K: Kind>(word: &K::Word, want: &[u64]) -> bool {
    for (place, handshake) in want.iter().enumerate() {
        if handshake_of::<K>(word, place) != *handshake {
            return false;
        }
    }
    K::handshake_count(word) as usize == want.len() && handshake_of::<K>(word, want.len()) == 0
}

/// Returns whether the fields of a word and its second handshake bit are as wanted.
fn has_fields<K: Kind>(word: &K::Word, want: &WantedWord) -> bool {
    K::field(word, Field::Datum) == want.datum
        && K::field(word, Field::Seq) == want.seq
        && K::field(word, Field::Id) == want.id
        && K::field(word, Field::Toggle) == want.toggle
        && K::handshake(word, 2) == want.handshake
}

/// Returns whether a word is as wanted.
fn is_word<K: Kind>(word: &K::Word, want: &WantedWord) -> bool {
    has_fields::<K>(word, want)
        && has_handshakes::<K>(word, want.handshakes)
        && is_row(K::view(word), want.view)
}

/// Returns whether the copy of a word is as wanted.
fn copies_as<K: Kind>(
    alloc: Global,
    word: &K::Word,
    want: &WantedWord,
) -> Result<bool, AllocError> {
    let copy = K::copy(alloc, word)?;
    Ok(is_word::<K>(&copy, want) && same_handshakes::<K>(&copy, word))
}

/// Returns whether a word of any kind is built as one of the kind, and its copy is as wanted.
fn builds_as<K: Kind>(
    alloc: Global,
    shape: Shape,
    given: AnyWord,
    want: &WantedWord,
) -> Result<bool, AllocError>
    requires { is_sized K.TAG shape (word_of_any given) ≡ true }
{
    match K::build(shape, given) {
        Ok(word) => copies_as::<K>(alloc, &word, want),
        Err(_) => Ok(false),
    }
}

/// Returns whether a word of any kind is refused by the kind.
fn is_refused<K: Kind>(shape: Shape, given: AnyWord) -> bool
    requires { is_sized K.TAG shape (word_of_any given) ≡ true }
{
    match K::build(shape, given) {
        Ok(_) => false,
        Err(fault) => fault == WordFault::NotABit,
    }
}

/// Returns whether a word that nobody has written is as wanted.
fn begins_as<K: Kind>(alloc: Global, shape: Shape, want: &WantedWord) -> Result<bool, AllocError> {
    let word = K::initial(alloc, shape)?;
    Ok(is_word::<K>(&word, want))
}

/// Returns whether the banks R, Q, P and V are there as the arguments say.
fn has_banks<K: Kind>(r: bool, q: bool, p: bool, v: bool) -> bool {
    K::has_bank(Bank::R) == r
        && K::has_bank(Bank::Q) == q
        && K::has_bank(Bank::P) == p
        && K::has_bank(Bank::V) == v
}

/// Returns whether process 1 may write a word of process 2.
fn writes_words<K: Kind>() -> bool {
    let word = Address {
        bank: Bank::R,
        i: 2,
        j: 0,
    };
    K::may_write(1, word)
}

/// Returns whether process 1 may write a bit of its own.
fn writes_bits<K: Kind>() -> bool {
    let bit = Address {
        bank: Bank::Q,
        i: 1,
        j: 2,
    };
    K::may_write(1, bit)
}

/// Returns whether there are registers of two processes and this many words.
fn fits_words<K: Kind>(w: u64) -> bool {
    match Shape::new(2, w) {
        Ok(shape) => K::fits(shape),
        Err(_) => false,
    }
}

#[test]
fn kinds(rt: HostRuntime) {
    assert!(rt;
        Seq::TAG == KindTag::Seq && Bits::TAG == KindTag::Bits && Multi::TAG == KindTag::Multi
    );
    assert!(rt; fits_words::<Seq>(2) && !fits_words::<Seq>(3));
    assert!(rt; fits_words::<Bits>(2) && !fits_words::<Bits>(3));
    assert!(rt; fits_words::<Multi>(3));
    assert!(rt; has_banks::<Seq>(true, false, false, false));
    assert!(rt; has_banks::<Bits>(true, true, false, false));
    assert!(rt; has_banks::<Multi>(true, true, true, true));
    assert!(rt; !writes_words::<Seq>() && writes_bits::<Seq>());
    assert!(rt; !writes_words::<Bits>() && writes_bits::<Bits>());
    assert!(rt; writes_words::<Multi>() && writes_bits::<Multi>());
}

#[test]
fn seq(rt: HostRuntime) -> Result<(), Fail> {
    let shape = Shape::new(2, 2)?;
    let built = WantedWord {
        datum: Some(7),
        seq: Some(8),
        id: None,
        toggle: None,
        handshake: None,
        handshakes: &[],
        view: Some(&[5, 6]),
    };
    assert!(rt; builds_as::<Seq>(rt.alloc(), shape, parts(rt.alloc(), 2, 2)?, &built)?);
    let new = WantedWord {
        datum: Some(0),
        seq: Some(0),
        view: Some(&[0, 0]),
        ..built
    };
    assert!(rt; begins_as::<Seq>(rt.alloc(), shape, &new)?);
    Ok(())
}

#[test]
fn bits(rt: HostRuntime) -> Result<(), Fail> {
    let shape = Shape::new(2, 2)?;
    let built = WantedWord {
        datum: Some(7),
        seq: None,
        id: None,
        toggle: Some(1),
        handshake: Some(1),
        handshakes: &[0, 1],
        view: Some(&[5, 6]),
    };
    assert!(rt; builds_as::<Bits>(rt.alloc(), shape, parts(rt.alloc(), 1, 1)?, &built)?);
    assert!(rt; is_refused::<Bits>(shape, parts(rt.alloc(), 2, 1)?));
    assert!(rt; is_refused::<Bits>(shape, parts(rt.alloc(), 1, 2)?));
    let new = WantedWord {
        datum: Some(0),
        toggle: Some(0),
        handshake: Some(0),
        handshakes: &[0, 0],
        view: Some(&[0, 0]),
        ..built
    };
    assert!(rt; begins_as::<Bits>(rt.alloc(), shape, &new)?);
    Ok(())
}

/// Returns whether the last of 64 handshake bits is 1, the others are 0, and there are no more.
fn has_last_of_many(word: &BitsWord) -> bool {
    Bits::handshake_count(word) == 64
        && Bits::handshake(word, 1) == Some(0)
        && Bits::handshake(word, 63) == Some(0)
        && Bits::handshake(word, 64) == Some(1)
        && Bits::handshake(word, 65).is_none()
        && Bits::handshake(word, 0).is_none()
}

#[test]
fn many_handshakes(rt: HostRuntime) -> Result<(), Fail> {
    let shape = Shape::new(64, 2)?;
    let word = Bits::build(shape, parts_of_many(rt.alloc())?)?;
    assert!(rt; has_last_of_many(&word));
    let copy = Bits::copy(rt.alloc(), &word)?;
    assert!(rt; has_last_of_many(&copy) && same_handshakes::<Bits>(&word, &copy));
    Ok(())
}

#[test]
fn multi(rt: HostRuntime) -> Result<(), Fail> {
    let shape = Shape::new(2, 3)?;
    let built = WantedWord {
        datum: Some(7),
        seq: None,
        id: Some(9),
        toggle: Some(1),
        handshake: None,
        handshakes: &[],
        view: None,
    };
    assert!(rt; builds_as::<Multi>(rt.alloc(), shape, parts(rt.alloc(), 1, 2)?, &built)?);
    assert!(rt; is_refused::<Multi>(shape, parts(rt.alloc(), 2, 0)?));
    let new = WantedWord {
        datum: Some(0),
        id: Some(0),
        toggle: Some(0),
        ..built
    };
    assert!(rt; begins_as::<Multi>(rt.alloc(), shape, &new)?);
    Ok(())
}

/// Returns whether a new word of two processes and two words has these handshake bits and this
/// view, and the sequence number 0.
fn has_parts<K: Kind>(alloc: Global, handshakes: &[u64], view: &[u64]) -> Result<bool, Fail> {
    let word = K::initial(alloc, Shape::new(2, 2)?)?;
    Ok(
        has_handshakes::<K>(&word, handshakes)
            && view_of::<K>(&word) == view
            && field_of::<K>(&word, Field::Seq) == 0,
    )
}

#[test]
fn what_kinds_lack(rt: HostRuntime) -> Result<(), Fail> {
    assert!(rt; has_parts::<Bits>(rt.alloc(), &[0, 0], &[0, 0])?);
    assert!(rt; has_parts::<Multi>(rt.alloc(), &[], &[])?);
    Ok(())
}
