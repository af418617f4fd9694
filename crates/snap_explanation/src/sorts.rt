//! The names of a listing by their sorts, from the words of its header lines.
ghost use Rattle.std.specs.Prelude.{◌≡◌, None, map, option_map};
ghost use Rattle.snap_semantics.specs.HeaderForms.{kind_of_keyword};
ghost use Rattle.snap_semantics.specs.Rules.{or_else};
ghost use Rattle.snap_semantics.specs.Uses.{is_among, sort_of};
ghost use Rattle.snap_explanation.specs.Misuse.{first_name, some_name};
ghost use Rattle.snap_explanation.specs.Names.{nearest};
ghost use Rattle.snap_explanation.specs.Sorts.{sort_of_keyword, is_sort, names_of, kind_in};
ghost use Rattle.snap_explanation.specs.Sorts.{of_sort};
ghost use Rattle.snap_explanation.specs.Views.{view_names};

use crate::names::is_near;
use snap_listing::{is_reserved, same_word};
use snap_semantics::Sort;
use snap_words::KindTag;

/// The kind of a listing, and the words of its header lines.
#[derive(Clone, Copy)]
pub struct Names<'a> {
    pub kind: KindTag,
    pub words: &'a [&'a [u8]],
}

/// Returns the sort that a header line declares, by its first word.
fn sort_of_keyword(word: &[u8]) -> Option<Sort>
    ensures { result ≡ sort_of_keyword word.now }
{
    if same_word(word, b"scalar") {
        Some(Sort::Scalar)
    } else if same_word(word, b"row") {
        Some(Sort::Row)
    } else if same_word(word, b"words") {
        Some(Sort::Words)
    } else if same_word(word, b"view") {
        Some(Sort::View)
    } else {
        None
    }
}

/// Returns whether there is a sort, and it is `wanted`.
pub fn is_sort(wanted: Sort, found: Option<Sort>) -> bool
    ensures { result ≡ is_sort wanted found }
{
    match found {
        Some(found) => wanted == found,
        None => false,
    }
}

/// Returns the sort of the names behind a reserved word, behind which names of sort `now` stand.
fn sort_behind(now: Option<Sort>, word: &[u8]) -> Option<Sort>
    ensures { result ≡ or_else (sort_of_keyword word.now) now }
{
    match sort_of_keyword(word) {
        Some(sort) => Some(sort),
        None => now,
    }
}

/// Returns whether a name is of a sort, by the words of header lines.
fn is_named(wanted: Sort, name: &[u8], words: &[&[u8]]) -> bool
    ensures { result
        ≡ is_among name.now (names_of wanted None (map (λ w. w.now) words.now)) }
{
    let mut now = None;
    let mut rest = words;
    while let [word, behind @ ..] = rest {
        if is_reserved(word) {
            now = sort_behind(now, word);
        } else if is_sort(wanted, now) && name == *word {
            return true;
        }
        rest = behind;
    }
    false
}

/// Returns the first name of a sort, by the words of header lines.
fn first_of<'a>(wanted: Sort, words: &[&'a [u8]]) -> Option<&'a [u8]>
    ensures { option_map (λ w. w.now) result
        ≡ first_name (names_of wanted None (map (λ w. w.now) words.now)) }
{
    let mut now = None;
    let mut rest = words;
    while let [word, behind @ ..] = rest {
        if is_reserved(word) {
            now = sort_behind(now, word);
        } else if is_sort(wanted, now) {
            return Some(*word);
        }
        rest = behind;
    }
    None
}

/// Returns the first name of a sort that is one letter away, by the words of header lines.
fn nearest_of<'a>(wanted: Sort, name: &[u8], words: &[&'a [u8]]) -> Option<&'a [u8]>
    ensures { option_map (λ w. w.now) result
        ≡ nearest name.now (names_of wanted None (map (λ w. w.now) words.now)) }
{
    let mut now = None;
    let mut rest = words;
    while let [word, behind @ ..] = rest {
        if is_reserved(word) {
            now = sort_behind(now, word);
        } else if is_sort(wanted, now) && is_near(name, word) {
            return Some(*word);
        }
        rest = behind;
    }
    None
}

/// Returns the kind that a word is.
fn kind_of_keyword(word: &[u8]) -> Option<KindTag>
    ensures { result ≡ kind_of_keyword word.now }
{
    if same_word(word, b"seq") {
        Some(KindTag::Seq)
    } else if same_word(word, b"bit") {
        Some(KindTag::Bits)
    } else if same_word(word, b"multi") {
        Some(KindTag::Multi)
    } else {
        None
    }
}

/// Returns the kind that the words of the first header line say.
pub fn kind_in(words: &[&[u8]]) -> Option<KindTag>
    ensures { result ≡ kind_in (map (λ w. w.now) words.now) }
{
    match words {
        [_, word, ..] => kind_of_keyword(word),
        _ => None,
    }
}

/// Returns the sort of a declared name.
pub fn sort_of(names: &Names<'_>, name: &[u8]) -> Option<Sort>
    ensures { result ≡ sort_of (view_names names.now) name.now }
{
    if is_named(Sort::Scalar, name, names.words) {
        Some(Sort::Scalar)
    } else if is_named(Sort::Row, name, names.words) {
        Some(Sort::Row)
    } else if is_named(Sort::Words, name, names.words) {
        Some(Sort::Words)
    } else if is_named(Sort::View, name, names.words) {
        Some(Sort::View)
    } else {
        None
    }
}

/// Returns a name of a sort that is near, or else the first one.
#[tactic(auto, using(crate::proofs::Counts::names_of_sort))]
pub fn some_name<'a>(names: &Names<'a>, wanted: Sort, name: &[u8]) -> Option<&'a [u8]>
    ensures { option_map (λ w. w.now) result
        ≡ some_name name.now (of_sort (view_names names.now) wanted) }
{
    match nearest_of(wanted, name, names.words) {
        Some(near) => Some(near),
        None => first_of(wanted, names.words),
    }
}
