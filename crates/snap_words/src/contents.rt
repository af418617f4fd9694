//! The fields, the handshake bits and the view of a word,
//! whatever its kind: what the kind lacks is 0 or empty.
ghost use Rattle.std.specs.Prelude.{◌≡◌, bytes_eq, slice_index};
ghost use Rattle.snap_words.specs.Kind.{field_of};

use crate::kind::Field;
use crate::kinds::Kind;

/// Returns a field that is one number, 0 where the kind lacks it.
pub fn field_of<K: Kind>(word: &K::Word, field: Field) -> u64
    ensures { result ≡ field_of field (K.as_word word.now) }
{
    K::field(word, field).unwrap_or(0)
}

/// Returns the handshake bit at `place`, counted from 0; 0 where there is none.
pub fn handshake_of<K: Kind>(word: &K::Word, place: usize) -> u64
    ensures { result ≡ slice_index (K.as_word word.now).handshakes place }
{
    if place < K::handshake_count(word) as usize {
        K::handshake(word, place as u32 + 1).unwrap_or(0)
    } else {
        0
    }
}

/// Returns whether two words have the same handshake bits.
pub fn same_handshakes<K: Kind>(x: &K::Word, y: &K::Word) -> bool
    ensures { result ≡ bytes_eq (K.as_word x.now).handshakes (K.as_word y.now).handshakes }
{
    let count = K::handshake_count(x);
    if K::handshake_count(y) != count {
        return false;
    }
    for place in 0..count as usize {
        if handshake_of::<K>(x, place) != handshake_of::<K>(y, place) {
            return false;
        }
    }
    true
}

/// Returns the view of `word`, empty where the kind lacks it.
pub fn view_of<K: Kind>(word: &K::Word) -> &[u64]
    ensures { result.now ≡ (K.as_word word.now).view }
{
    match K::view(word) {
        Some(view) => view.as_slice(),
        None => &[],
    }
}
