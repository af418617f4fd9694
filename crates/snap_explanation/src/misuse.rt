//! The first token of a numbered line that is not as the kind and the declared names of the listing
//! have it, and the text on it.
ghost use Rattle.std.specs.Prelude.{◌≡◌, Ok, Err, IfOk, IfErr, map, option_map};
ghost use Rattle.snap_text.specs.Tokens.{view_token};
ghost use Rattle.snap_text.specs.Drafted.{Adds};
ghost use Rattle.snap_explanation.specs.Steps.{view_placed_token};
ghost use Rattle.snap_explanation.specs.Misuse.{is_right, step_at, first_wrong, wrong_in_line};
ghost use Rattle.snap_explanation.specs.Misuse.{sort_words, declared_words, usage};
ghost use Rattle.snap_explanation.specs.Misuse.{some_words, name_text, banks_words, fields_words};
ghost use Rattle.snap_explanation.specs.Misuse.{tuple_words, lack_text, misuse_text};
ghost use Rattle.snap_explanation.specs.Names.{tokens_of_placed};
ghost use Rattle.snap_explanation.specs.Views.{view_names, view_use, view_misuse};
ghost use Rattle.snap_explanation.specs.declared.token_uses.Slot.TheVariants.{Value};

use crate::names::letters_of;
use crate::pieces::PlacedToken;
use crate::sorts::{Names, is_sort, some_name, sort_of};
use crate::token_uses::{Slot, Use, slot_after, use_at};
use crate::wording::{
    A_LIST, A_ROW, A_SCALAR, A_VIEW, BELONGS, BIT_BANKS, BIT_FIELDS, BIT_TUPLE, IS, IS_ONE,
    MULTI_BANKS, MULTI_FIELDS, MULTI_TUPLE, NONE_DECLARED, NOT_DECLARED, QUOTE, QUOTE_END, ROW_USE,
    SEQ_BANKS, SEQ_FIELDS, SEQ_TUPLE, VIEW_USE, WHILE, WORDS_USE,
};
use snap_listing::{has_bank, has_field, has_handshakes, has_view, line_form, same_kind};
use snap_semantics::{Instr, Sort};
use snap_text::{Draft, Token};
use snap_words::KindTag;
use std::alloc::{AllocError, Global};

/// A token that is not right, and what it stands for.
#[derive(Clone, Copy)]
pub struct Misuse<'a> {
    pub token: PlacedToken<'a>,
    pub spoken: Use<'a>,
}

/// Returns whether a listing has what a token stands for.
fn is_right(names: &Names<'_>, spoken: Use<'_>) -> bool
    ensures { result ≡ is_right (view_names names.now) (view_use spoken.entry) }
{
    match spoken {
        Use::Named(wanted, word) => is_sort(wanted, sort_of(names, word)),
        Use::Bank(bank) => has_bank(names.kind, bank),
        Use::Field(field) => has_field(names.kind, field),
        Use::Handshake => has_handshakes(names.kind),
        Use::View => has_view(names.kind),
        Use::Tuple(kind) => same_kind(names.kind, kind),
    }
}

/// Returns what the next name is behind a token, or that token if it is not right.
#[tactic(auto, using(crate::proofs::Counts::same_tokens), unfolding(crate::specs::Misuse::step_at))]
fn step_at<'a>(
    names: &Names<'_>,
    instr: &Instr,
    slot: Slot,
    token: PlacedToken<'a>,
    behind: &[PlacedToken<'_>],
) -> Result<Slot, Misuse<'a>>
    ensures right { IfOk result (λ next. step_at (view_names names.now) instr.now slot
        (view_placed_token token.entry) (map view_placed_token behind.now) ≡ Ok next) }
    ensures wrong { IfErr result (λ found. step_at (view_names names.now) instr.now slot
        (view_placed_token token.entry) (map view_placed_token behind.now)
        ≡ Err (view_misuse found)) }
{
    let next = slot_after(slot, &token.token);
    match use_at(instr, slot, &token.token, behind) {
        None => Ok(next),
        Some(spoken) => {
            if is_right(names, spoken) {
                Ok(next)
            } else {
                Err(Misuse { token, spoken })
            }
        }
    }
}

/// Returns the first token of a line with this instruction that is not right.
fn first_wrong<'a>(
    names: &Names<'_>,
    instr: &Instr,
    tokens: &[PlacedToken<'a>],
) -> Option<Misuse<'a>>
    ensures { option_map view_misuse result
        ≡ first_wrong (view_names names.now) instr.now Value (map view_placed_token tokens.now) }
{
    let mut slot = Slot::Value;
    let mut rest = tokens;
    while let [first, behind @ ..] = rest {
        match step_at(names, instr, slot, *first, behind) {
            Ok(next) => slot = next,
            Err(found) => return Some(found),
        }
        rest = behind;
    }
    None
}

/// Returns the tokens without their columns.
fn plain_tokens<'a>(alloc: Global, tokens: &[PlacedToken<'a>]) -> Result<Vec<Token<'a>>, AllocError>
    ensures { IfOk result (λ plain. map view_token plain.items
        ≡ tokens_of_placed (map view_placed_token tokens.now)) }
{
    let mut plain = Vec::new(alloc);
    for token in tokens {
        plain.push(token.token)?;
    }
    Ok(plain)
}

/// Returns the first token of a line that is not right in a listing.
///
/// # Errors
///
/// `AllocError` where memory runs out.
pub fn wrong_in_line<'a>(
    alloc: Global,
    names: &Names<'_>,
    tokens: &[PlacedToken<'a>],
) -> Result<Option<Misuse<'a>>, AllocError>
    ensures { IfOk result (λ found. option_map view_misuse found
        ≡ wrong_in_line (view_names names.now) (map view_placed_token tokens.now)) }
{
    let plain = plain_tokens(alloc, tokens)?;
    match line_form(names.kind, plain.as_slice()) {
        Some(line) => Ok(first_wrong(names, &line.instr, tokens)),
        None => Ok(None),
    }
}

/// Returns what a name of a sort is.
fn sort_words(sort: Sort) -> &'static [u8]
    ensures { result.now ≡ sort_words sort }
{
    match sort {
        Sort::Scalar => A_SCALAR,
        Sort::Row => A_ROW,
        Sort::Words => A_LIST,
        Sort::View => A_VIEW,
    }
}

/// Returns what a name is.
fn declared_words(found: Option<Sort>) -> &'static [u8]
    ensures { result.now ≡ declared_words found }
{
    match found {
        Some(sort) => sort_words(sort),
        None => NOT_DECLARED,
    }
}

/// Returns how names of a sort are used; nothing of a number.
fn usage(found: Option<Sort>) -> &'static [u8]
    ensures { result.now ≡ usage found }
{
    match found {
        Some(Sort::Row) => ROW_USE,
        Some(Sort::Words) => WORDS_USE,
        Some(Sort::View) => VIEW_USE,
        _ => b"",
    }
}

/// Appends that the sort belongs here, and a name of it, if there is one.
fn push_some(out: &mut Draft, name: Option<&[u8]>)
    ensures { Adds out.old out.new (some_words (option_map (λ w. w.now) name.entry)) }
{
    match name {
        Some(name) => {
            out.push(BELONGS);
            out.push(name);
            out.push(IS_ONE);
        }
        None => out.push(NONE_DECLARED),
    }
}

/// Appends the text on a name that is of another sort, or of none.
#[tactic(auto, unfolding(crate::specs::Misuse::name_text))]
fn push_name_text(
    out: &mut Draft,
    names: &Names<'_>,
    word: &[u8],
    wanted: Sort,
    found: Option<Sort>,
)
    ensures { Adds out.old out.new (name_text (view_names names.now) word.now wanted found) }
{
    out.push(QUOTE);
    out.push(word);
    out.push(IS);
    out.push(declared_words(found));
    out.push(WHILE);
    out.push(sort_words(wanted));
    push_some(out, some_name(names, wanted, word));
    out.push(usage(found));
}

/// Returns the registers of a kind, and that there is no other.
fn banks_words(kind: KindTag) -> &'static [u8]
    ensures { result.now ≡ banks_words kind }
{
    match kind {
        KindTag::Seq => SEQ_BANKS,
        KindTag::Bits => BIT_BANKS,
        KindTag::Multi => MULTI_BANKS,
    }
}

/// Returns the fields of the words of a kind, and that they have no other.
fn fields_words(kind: KindTag) -> &'static [u8]
    ensures { result.now ≡ fields_words kind }
{
    match kind {
        KindTag::Seq => SEQ_FIELDS,
        KindTag::Bits => BIT_FIELDS,
        KindTag::Multi => MULTI_FIELDS,
    }
}

/// Returns the parts of a tuple of a kind.
fn tuple_words(kind: KindTag) -> &'static [u8]
    ensures { result.now ≡ tuple_words kind }
{
    match kind {
        KindTag::Seq => SEQ_TUPLE,
        KindTag::Bits => BIT_TUPLE,
        KindTag::Multi => MULTI_TUPLE,
    }
}

/// Appends what a kind has, and that it lacks what a word says.
fn push_lack(out: &mut Draft, have: &[u8], word: &[u8])
    ensures { Adds out.old out.new (lack_text have.now word.now) }
{
    out.push(have);
    out.push(word);
    out.push(QUOTE_END);
}

/// Appends the text on a token that is not right.
pub fn push_misuse(out: &mut Draft, names: &Names<'_>, misuse: &Misuse<'_>)
    ensures { Adds out.old out.new (misuse_text (view_names names.now) (view_misuse misuse.now)) }
{
    let word = letters_of(&misuse.token.token);
    match misuse.spoken {
        Use::Named(wanted, name) => {
            push_name_text(out, names, word, wanted, sort_of(names, name))
        }
        Use::Bank(_) => push_lack(out, banks_words(names.kind), word),
        Use::Tuple(_) => out.push(tuple_words(names.kind)),
        Use::Field(_) | Use::Handshake | Use::View => {
            push_lack(out, fields_words(names.kind), word)
        }
    }
}
