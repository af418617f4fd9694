//! Checks what an operand, a condition or a tuple names and needs: each name is
//! declared and of its sort, and the kind has each bank, field and tuple.
ghost use Rattle.std.specs.Prelude.{◌≡◌};
ghost use Rattle.snap_words.specs.Kind.{has_bank, has_field, has_handshakes, has_view};
ghost use Rattle.snap_semantics.specs.Uses.{is_among, sort_of, same_sort, same_kind};
ghost use Rattle.snap_listing.specs.Checks.{checked_name, checked_kind, checked_index};
ghost use Rattle.snap_listing.specs.Checks.{checked_indexes, checked_place, checked_term};
ghost use Rattle.snap_listing.specs.Checks.{checked_expr, checked_comparison};
ghost use Rattle.snap_listing.specs.Checks.{checked_condition, checked_where, checked_tuple};
ghost use Rattle.snap_listing_core.specs.Fields.{header_source};

use snap_listing_core::Header;
use snap_semantics::{Comparison, Condition, Expr, Index, ListingRefusal, Name, Sort, Term, Tuple};
use snap_words::{Bank, Bits, Field, Kind, KindTag, Multi, Seq};

/// Returns whether one of `names` has these letters.
pub fn is_among(letters: &[u8], names: &[Name]) -> bool
    ensures { result ≡ is_among letters.now names.now }
{
    names.iter().any(|name| letters == name.letters())
}

/// Returns the sort of a declared name.
fn sort_of(header: &Header, name: &Name) -> Option<Sort>
    ensures { result ≡ sort_of (header_source header.now) name.now }
{
    let letters = name.letters();
    if is_among(letters, header.scalars.as_slice()) {
        Some(Sort::Scalar)
    } else if is_among(letters, header.rows.as_slice()) {
        Some(Sort::Row)
    } else if is_among(letters, header.words.as_slice()) {
        Some(Sort::Words)
    } else if is_among(letters, header.views.as_slice()) {
        Some(Sort::View)
    } else {
        None
    }
}

/// Returns whether two sorts are the same.
fn same_sort(one: Sort, other: Sort) -> bool
    ensures { result ≡ same_sort one other }
{
    one == other
}

/// Checks that `name` is declared and of the sort `wanted`.
pub(crate) fn checked_name(
    header: &Header,
    line: u64,
    wanted: Sort,
    name: &Name,
) -> Result<(), ListingRefusal>
    ensures { result ≡ checked_name (header_source header.now) line wanted name.now }
{
    match sort_of(header, name) {
        None => Err(ListingRefusal::UnknownName(line)),
        Some(found) if same_sort(wanted, found) => Ok(()),
        Some(_) => Err(ListingRefusal::WrongKind(line)),
    }
}

/// Returns whether two kinds are the same.
pub fn same_kind(one: KindTag, other: KindTag) -> bool
    ensures { result ≡ same_kind one other }
{
    one == other
}

/// Returns whether a kind has this bank.
pub fn has_bank(kind: KindTag, bank: Bank) -> bool
    ensures { result ≡ has_bank kind bank }
{
    match kind {
        KindTag::Seq => Seq::has_bank(bank),
        KindTag::Bits => Bits::has_bank(bank),
        KindTag::Multi => Multi::has_bank(bank),
    }
}

/// Returns whether the words of a kind have this field.
pub fn has_field(kind: KindTag, field: Field) -> bool
    ensures { result ≡ has_field kind field }
{
    match field {
        Field::Datum => true,
        Field::Seq => kind == KindTag::Seq,
        Field::Id => kind == KindTag::Multi,
        Field::Toggle => kind != KindTag::Seq,
    }
}

/// Returns whether the words of a kind have handshake bits.
pub fn has_handshakes(kind: KindTag) -> bool
    ensures { result ≡ has_handshakes kind }
{
    kind == KindTag::Bits
}

/// Returns whether the words of a kind have a view.
pub fn has_view(kind: KindTag) -> bool
    ensures { result ≡ has_view kind }
{
    kind != KindTag::Multi
}

/// Checks that the kind has what the line needs.
pub(crate) fn checked_kind(line: u64, has: bool) -> Result<(), ListingRefusal>
    ensures { result ≡ checked_kind line has }
{
    if has {
        Ok(())
    } else {
        Err(ListingRefusal::WrongKind(line))
    }
}

/// Checks an index.
pub(crate) fn checked_index(header: &Header, line: u64, index: &Index) -> Result<(), ListingRefusal>
    ensures { result ≡ checked_index (header_source header.now) line index.now }
{
    match index {
        Index::Scalar(scalar) => checked_name(header, line, Sort::Scalar, scalar),
        _ => Ok(()),
    }
}

/// Checks two indexes, the first one first.
pub(crate) fn checked_indexes(
    header: &Header,
    line: u64,
    first: &Index,
    second: &Index,
) -> Result<(), ListingRefusal>
    ensures { result ≡ checked_indexes (header_source header.now) line first.now second.now }
{
    checked_index(header, line, first)?;
    checked_index(header, line, second)
}

/// Checks a local of the sort `wanted`, and the index of a place in it.
pub(crate) fn checked_place(
    header: &Header,
    line: u64,
    wanted: Sort,
    name: &Name,
    index: &Index,
) -> Result<(), ListingRefusal>
    ensures { result ≡ checked_place (header_source header.now) line wanted name.now index.now }
{
    checked_name(header, line, wanted, name)?;
    checked_index(header, line, index)
}

/// Checks a term.
fn checked_term(header: &Header, line: u64, term: &Term) -> Result<(), ListingRefusal>
    ensures { result ≡ checked_term (header_source header.now) line term.now }
{
    match term {
        Term::Index(index) => checked_index(header, line, index),
        Term::Arg => Ok(()),
        Term::Row(row, index) => checked_place(header, line, Sort::Row, row, index),
        Term::Field(field, words, index) => {
            checked_kind(line, has_field(header.kind, *field))?;
            checked_place(header, line, Sort::Words, words, index)
        }
        Term::Handshake(words, index, handshake) => {
            checked_kind(line, has_handshakes(header.kind))?;
            checked_name(header, line, Sort::Words, words)?;
            checked_indexes(header, line, index, handshake)
        }
    }
}

/// Checks an expression.
pub(crate) fn checked_expr(header: &Header, line: u64, expr: &Expr) -> Result<(), ListingRefusal>
    ensures { result ≡ checked_expr (header_source header.now) line expr.now }
{
    match expr {
        Expr::Term(term) => checked_term(header, line, term),
        Expr::Sum(left, right) => {
            checked_term(header, line, left)?;
            checked_term(header, line, right)
        }
        Expr::Not(term) => checked_term(header, line, term),
    }
}

/// Checks a comparison.
fn checked_comparison(
    header: &Header,
    line: u64,
    comparison: &Comparison,
) -> Result<(), ListingRefusal>
    ensures { result ≡ checked_comparison (header_source header.now) line comparison.now }
{
    checked_term(header, line, &comparison.left)?;
    checked_term(header, line, &comparison.right)
}

/// Checks a condition.
pub(crate) fn checked_condition(
    header: &Header,
    line: u64,
    condition: &Condition,
) -> Result<(), ListingRefusal>
    ensures { result ≡ checked_condition (header_source header.now) line condition.now }
{
    match condition {
        Condition::One(first) => checked_comparison(header, line, first),
        Condition::Two(_, first, second) => {
            checked_comparison(header, line, first)?;
            checked_comparison(header, line, second)
        }
        Condition::Three(_, first, second, third) => {
            checked_comparison(header, line, first)?;
            checked_comparison(header, line, second)?;
            checked_comparison(header, line, third)
        }
        Condition::Four(_, first, second, third, fourth) => {
            checked_comparison(header, line, first)?;
            checked_comparison(header, line, second)?;
            checked_comparison(header, line, third)?;
            checked_comparison(header, line, fourth)
        }
    }
}

/// Checks a condition that may be left out.
pub(crate) fn checked_where(
    header: &Header,
    line: u64,
    condition: &Option<Condition>,
) -> Result<(), ListingRefusal>
    ensures { result ≡ checked_where (header_source header.now) line condition.now }
{
    match condition {
        None => Ok(()),
        Some(condition) => checked_condition(header, line, condition),
    }
}

/// Checks a tuple.
pub(crate) fn checked_tuple(header: &Header, line: u64, tuple: &Tuple) -> Result<(), ListingRefusal>
    ensures { result ≡ checked_tuple (header_source header.now) line tuple.now }
{
    match tuple {
        Tuple::Seq(datum, seq, view) => {
            checked_kind(line, same_kind(header.kind, KindTag::Seq))?;
            checked_expr(header, line, datum)?;
            checked_expr(header, line, seq)?;
            checked_name(header, line, Sort::View, view)
        }
        Tuple::Bits(datum, handshakes, toggle, view) => {
            checked_kind(line, same_kind(header.kind, KindTag::Bits))?;
            checked_expr(header, line, datum)?;
            checked_name(header, line, Sort::Row, handshakes)?;
            checked_expr(header, line, toggle)?;
            checked_name(header, line, Sort::View, view)
        }
        Tuple::Multi(datum, id, toggle) => {
            checked_kind(line, same_kind(header.kind, KindTag::Multi))?;
            checked_expr(header, line, datum)?;
            checked_expr(header, line, id)?;
            checked_expr(header, line, toggle)
        }
    }
}
