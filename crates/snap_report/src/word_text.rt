//! The printed texts of words, of any kind.
ghost use Rattle.snap_text.specs.Drafted.{Adds};
ghost use Rattle.snap_semantics.specs.Report.{numbers_text, word_text};

use snap_text::Draft;
use snap_words::{Field, Kind, KindTag, field_of, handshake_of, view_of};

/// Appends each handshake bit behind a space.
fn push_handshakes<K: Kind>(out: &mut Draft, word: &K::Word)
    ensures { Adds out.old out.new (numbers_text (K.as_word word.now).handshakes) }
{
    for place in 0..K::handshake_count(word) as usize {
        out.push(b" ");
        out.push_number(handshake_of::<K>(word, place));
    }
}

/// Appends a word.
pub fn word_text<K: Kind>(out: &mut Draft, kind: KindTag, word: &K::Word)
    ensures { Adds out.old out.new (word_text kind (K.as_word word.now)) }
{
    out.push_number(field_of::<K>(word, Field::Datum));
    match kind {
        KindTag::Seq => {
            out.push(b" seq ");
            out.push_number(field_of::<K>(word, Field::Seq));
            out.push(b" view");
            out.push_numbers(view_of::<K>(word));
        }
        KindTag::Bits => {
            out.push(b" hands");
            push_handshakes::<K>(out, word);
            out.push(b" toggle ");
            out.push_number(field_of::<K>(word, Field::Toggle));
            out.push(b" view");
            out.push_numbers(view_of::<K>(word));
        }
        KindTag::Multi => {
            out.push(b" id ");
            out.push_number(field_of::<K>(word, Field::Id));
            out.push(b" toggle ");
            out.push_number(field_of::<K>(word, Field::Toggle));
        }
    }
}
