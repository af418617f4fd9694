//! Says what was expected at a place of a refused input, in words, and what was found there.
ghost use Rattle.std.specs.Prelude.{◌≡◌, map};
ghost use Rattle.snap_text.specs.Drafted.{Adds};
ghost use Rattle.snap_explanation.specs.Grammar.{view_single};
ghost use Rattle.snap_explanation.specs.Steps.{view_wanted};
ghost use Rattle.snap_explanation.specs.Texts.{part_words, words_in, words_of, expected_words};
ghost use Rattle.snap_explanation.specs.Texts.{found_words, expected_line};

use crate::forms::{may_pass, same_part};
use crate::grammar::Single;
use crate::lost::Wanted;
use crate::parts::Part;
use crate::said::push_cut;
use crate::wording::{
    END_OF_LINE, EXPECTED, FOUND, INDEX_OR_PLACE, LINE_END, OR, PART_WORDS, QUOTE, QUOTE_END,
};
use snap_text::Draft;

#[tactic(auto, unfolding(crate::specs::Texts::part_words))]
fn part_words() -> &'static [Single]
    ensures { map view_single result.now ≡ part_words }
{
    PART_WORDS
}

/// Returns the words for a part in a table.
fn words_in(part: Part, table: &'static [Single]) -> &'static [u8]
    ensures { result.now ≡ words_in part (map view_single table.now) }
{
    for row in table {
        if same_part(row.0, part) {
            return row.1;
        }
    }
    b""
}

/// Returns the words for a part, where `@` is an index or not.
fn words_of(places: bool, part: Part) -> &'static [u8]
    ensures { result.now ≡ words_of places part }
{
    if places && same_part(part, Part::Index) {
        INDEX_OR_PLACE
    } else {
        words_in(part, part_words())
    }
}

/// Appends all that may stand next.
fn push_expected(out: &mut Draft, places: bool, wanted: &[Part])
    ensures { Adds out.old out.new (expected_words places wanted.now) }
{
    let mut rest = wanted;
    while let [first, behind @ ..] = rest {
        out.push(words_of(places, *first));
        if !may_pass(*first) {
            return;
        }
        out.push(OR);
        rest = behind;
    }
    out.push(END_OF_LINE);
}

/// Appends what stands at a place.
fn push_found(out: &mut Draft, piece: &[u8])
    ensures { Adds out.old out.new (found_words piece.now) }
{
    out.push(FOUND);
    if piece.is_empty() {
        out.push(END_OF_LINE);
        out.push(LINE_END);
    } else {
        out.push(QUOTE);
        push_cut(out, piece);
        out.push(QUOTE_END);
    }
}

/// Appends what was expected at a place, and what stands there.
#[tactic(auto, unfolding(crate::specs::Texts::expected_line))]
pub fn push_expected_line(out: &mut Draft, wanted: &Wanted, piece: &[u8])
    ensures { Adds out.old out.new (expected_line (view_wanted wanted.now) piece.now) }
{
    out.push(EXPECTED);
    push_expected(out, wanted.places, wanted.parts.as_slice());
    push_found(out, piece);
}
