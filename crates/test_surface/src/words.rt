//! Tests of shapes, of views and of the words of each kind.
ghost use Rattle.std.specs.Prelude.{◌≡◌, IfOk, length, true};
ghost use Rattle.snap_words.specs.Kind.{is_sized};
ghost use Rattle.snap_words.specs.AnyWord.{word_of_any};

use snap_words::{
    Address, Bank, Bits, Field, Kind, KindTag, Multi, Parts, Seq, Shape, View, WordFault,
};
use std::alloc::{AllocError, Global};
use std::test::Fail;

/// Returns the parts of a word for two processes and two words.
fn parts(alloc: Global, toggle: u64) -> Result<Parts, AllocError>
    ensures { IfOk result (λ p. (length p.handshakes ≡ 2) × (length p.view ≡ 2)) }
{
    Ok(Parts {
        datum: 7,
        seq: 8,
        id: 9,
        toggle,
        handshakes: View::of(vec![in alloc; 0, 1]?),
        view: View::of(vec![in alloc; 5, 6]?),
    })
}

/// Returns the fields of a word: its datum, sequence number, writer and toggle, and its second
/// handshake bit.
fn fields<K: Kind>(word: &K::Word) -> [Option<u64>; 5] {
    [
        K::field(word, Field::Datum),
        K::field(word, Field::Seq),
        K::field(word, Field::Id),
        K::field(word, Field::Toggle),
        K::handshake(word, 2),
    ]
}

/// Returns whether the view of a word is `want`, `None` if it has none.
fn has_view<K: Kind>(word: &K::Word, want: Option<&[u64]>) -> bool {
    match (K::view(word), want) {
        (Some(view), Some(want)) => view.as_slice() == want,
        (None, None) => true,
        _ => false,
    }
}

/// Returns whether a word that is built of these parts, and its copy, have these fields.
fn builds<K: Kind>(
    alloc: Global,
    shape: Shape,
    given: Parts,
    want: [Option<u64>; 5],
) -> Result<bool, Fail>
    requires { is_sized K.TAG shape (word_of_any given) ≡ true }
{
    let word = K::build(shape, given)?;
    let copy = K::copy(alloc, &word)?;
    Ok(fields::<K>(&word) == want && fields::<K>(&copy) == want)
}

/// Returns whether the parts are refused, since the toggle is no bit.
fn is_refused<K: Kind>(shape: Shape, given: Parts) -> bool
    requires { is_sized K.TAG shape (word_of_any given) ≡ true }
{
    match K::build(shape, given) {
        Ok(_) => false,
        Err(fault) => fault == WordFault::NotABit,
    }
}

/// Returns whether process 1 may write the word of process 2.
fn writes_any<K: Kind>() -> bool {
    K::may_write(
        1,
        Address {
            bank: Bank::R,
            i: 2,
            j: 0,
        },
    )
}

/// Returns whether a word that nobody has written has this view, and 0 for a datum.
fn begins<K: Kind>(alloc: Global, want: Option<&[u64]>) -> Result<bool, Fail> {
    let word = K::initial(alloc, Shape::new(2, 2)?)?;
    Ok(K::field(&word, Field::Datum) == Some(0) && has_view::<K>(&word, want))
}

#[test]
fn shapes_have_one_to_64_processes_and_words(rt: HostRuntime) -> Result<(), Fail> {
    let shape = Shape::new(64, 1)?;
    assert!(rt; shape.n() == 64 && shape.w() == 1);
    assert!(rt; Shape::new(1, 65).err() == Some(WordFault::BadShape));
    assert!(rt; Shape::new(0, 1).err() == Some(WordFault::BadShape));
    Ok(())
}

#[test]
fn views_are_lists_of_values(rt: HostRuntime) -> Result<(), Fail> {
    let view = View::of(vec![in rt.alloc(); 3, 4]?);
    let copy = view.copy(rt.alloc())?;
    assert_eq!(rt; view.as_slice(), copy.as_slice());
    assert_eq!(rt; copy.as_slice(), [3, 4].as_slice());
    Ok(())
}

#[test]
fn kinds_have_their_words_and_banks(rt: HostRuntime) -> Result<(), Fail> {
    let shape = Shape::new(2, 2)?;
    assert!(rt;
        Seq::TAG == KindTag::Seq && Bits::TAG == KindTag::Bits && Multi::TAG == KindTag::Multi
    );
    assert!(rt; Seq::fits(shape) && Bits::fits(shape) && Multi::fits(Shape::new(2, 3)?));
    assert!(rt; !Seq::fits(Shape::new(2, 3)?));
    assert!(rt; Multi::has_bank(Bank::V) && !Bits::has_bank(Bank::P) && !Seq::has_bank(Bank::Q));
    assert!(rt; writes_any::<Multi>() && !writes_any::<Seq>() && !writes_any::<Bits>());
    assert!(rt; begins::<Seq>(rt.alloc(), Some(&[0, 0]))?);
    assert!(rt; begins::<Bits>(rt.alloc(), Some(&[0, 0]))?);
    assert!(rt; begins::<Multi>(rt.alloc(), None)?);
    Ok(())
}

#[test]
fn words_have_the_parts_of_their_kind(rt: HostRuntime) -> Result<(), Fail> {
    let alloc = rt.alloc();
    let shape = Shape::new(2, 2)?;
    let seq = [Some(7), Some(8), None, None, None];
    assert!(rt; builds::<Seq>(alloc, shape, parts(alloc, 1)?, seq)?);
    let bits = [Some(7), None, None, Some(1), Some(1)];
    assert!(rt; builds::<Bits>(alloc, shape, parts(alloc, 1)?, bits)?);
    let multi = [Some(7), None, Some(9), Some(1), None];
    assert!(rt; builds::<Multi>(alloc, shape, parts(alloc, 1)?, multi)?);
    Ok(())
}

#[test]
fn toggles_are_bits_where_the_kind_has_them(rt: HostRuntime) -> Result<(), Fail> {
    let alloc = rt.alloc();
    let shape = Shape::new(2, 2)?;
    assert!(rt; is_refused::<Bits>(shape, parts(alloc, 2)?));
    assert!(rt; is_refused::<Multi>(shape, parts(alloc, 2)?));
    assert!(rt; !is_refused::<Seq>(shape, parts(alloc, 2)?));
    Ok(())
}
