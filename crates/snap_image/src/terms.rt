//! Reads indices, terms and expressions from an image.
ghost use Rattle.std.specs.Prelude.{◌≡◌, [], ◌∷◌};
ghost use Rattle.snap_image.specs.ImageForms.{allowed, number_index, scalar_index};
ghost use Rattle.snap_image.specs.ImageForms.{index_of_tag, index_in, row_term};
ghost use Rattle.snap_image.specs.ImageForms.{field_term, handshake_term, index_term};
ghost use Rattle.snap_image.specs.ImageForms.{term_of_tag, term_in, plain_expr};
ghost use Rattle.snap_image.specs.ImageForms.{sum_expr, not_expr, expr_in};
ghost use Rattle.snap_semantics.specs.Uses.{FieldUse, HandshakeUse};
ghost use Rattle.snap_listing_core.specs.Fields.{header_source};
ghost use Rattle.snap_image.specs.Reads.{Reads};

use crate::cursor::Cursor;
use crate::image::{ExprTag, TermTag};
use snap_listing::{has_field, has_handshakes};
use snap_listing_core::Header;
use snap_semantics::{Expr, ImageRefusal, Index, ListingRefusal, Term};
use snap_words::Field;

/// Reads a number as an index.
#[tactic(auto, unfolding(crate::specs::ImageForms::number_index))]
fn number_index(cursor: &mut Cursor<'_>) -> Result<Index, ImageRefusal>
    ensures { Reads result cursor.new (number_index cursor.old) }
{
    let number = cursor.long()?;
    Ok(Index::Number(number))
}

/// Reads a scalar as an index.
#[tactic(auto, unfolding(crate::specs::ImageForms::scalar_index))]
fn scalar_index(header: &Header, line: u64, cursor: &mut Cursor<'_>) -> Result<Index, ImageRefusal>
    ensures { Reads result cursor.new (scalar_index (header_source header.now) line cursor.old) }
{
    let scalar = cursor.slot(line, header.scalars.as_slice())?;
    Ok(Index::Scalar(scalar))
}

/// Reads the index with this tag, which stands behind `at` bytes; `@` only in a quantifier.
fn index_of_tag(
    header: &Header,
    line: u64,
    in_quantifier: bool,
    at: u64,
    tag: TermTag,
    cursor: &mut Cursor<'_>,
) -> Result<Index, ImageRefusal>
    ensures { Reads result cursor.new (index_of_tag (header_source header.now) line in_quantifier at
        tag cursor.old) }
{
    match tag {
        TermTag::Number => number_index(cursor),
        TermTag::Processes => Ok(Index::Processes),
        TermTag::Words => Ok(Index::Words),
        TermTag::Me => Ok(Index::Me),
        TermTag::Word => Ok(Index::Word),
        TermTag::Place if in_quantifier => Ok(Index::Place),
        TermTag::Place => Err(ImageRefusal::Invalid(ListingRefusal::BadLine(line))),
        TermTag::Scalar => scalar_index(header, line, cursor),
        TermTag::Arg
        | TermTag::Row
        | TermTag::Seq
        | TermTag::Datum
        | TermTag::Handshake
        | TermTag::Toggle
        | TermTag::Id => Err(ImageRefusal::BadCode(at)),
    }
}

/// Reads an index.
///
/// # Errors
///
/// The first reason why the bytes at the cursor are no index.
#[tactic(auto, unfolding(crate::specs::ImageForms::index_in))]
pub fn index(
    header: &Header,
    line: u64,
    in_quantifier: bool,
    cursor: &mut Cursor<'_>,
) -> Result<Index, ImageRefusal>
    ensures { Reads result cursor.new (index_in (header_source header.now) line in_quantifier
        cursor.old) }
{
    let at = cursor.passed();
    let tag = cursor.code::<TermTag>()?;
    index_of_tag(header, line, in_quantifier, at, tag, cursor)
}

/// Reads a place of a row.
#[tactic(auto, unfolding(crate::specs::ImageForms::row_term))]
fn row_term(
    header: &Header,
    line: u64,
    in_quantifier: bool,
    cursor: &mut Cursor<'_>,
) -> Result<Term, ImageRefusal>
    ensures { Reads result cursor.new (row_term (header_source header.now) line in_quantifier
        cursor.old) }
{
    let row = cursor.slot(line, header.rows.as_slice())?;
    let place = index(header, line, in_quantifier, cursor)?;
    Ok(Term::Row(row, place))
}

/// Checks that the words of the kind have this field.
fn checked_field(header: &Header, line: u64, field: Field) -> Result<(), ImageRefusal>
    ensures { result ≡ allowed (header_source header.now) line (FieldUse field ∷ []) }
{
    if has_field(header.kind, field) {
        Ok(())
    } else {
        Err(ImageRefusal::Invalid(ListingRefusal::WrongKind(line)))
    }
}

/// Checks that the words of the kind have handshake bits.
fn checked_handshakes(header: &Header, line: u64) -> Result<(), ImageRefusal>
    ensures { result ≡ allowed (header_source header.now) line (HandshakeUse ∷ []) }
{
    if has_handshakes(header.kind) {
        Ok(())
    } else {
        Err(ImageRefusal::Invalid(ListingRefusal::WrongKind(line)))
    }
}

/// Reads a field of a word.
#[tactic(auto, unfolding(crate::specs::ImageForms::field_term))]
fn field_term(
    header: &Header,
    line: u64,
    in_quantifier: bool,
    field: Field,
    cursor: &mut Cursor<'_>,
) -> Result<Term, ImageRefusal>
    ensures { Reads result cursor.new (field_term (header_source header.now) line in_quantifier
        field cursor.old) }
{
    checked_field(header, line, field)?;
    let words = cursor.slot(line, header.words.as_slice())?;
    let place = index(header, line, in_quantifier, cursor)?;
    Ok(Term::Field(field, words, place))
}

/// Reads a handshake bit of a word.
#[tactic(auto, unfolding(crate::specs::ImageForms::handshake_term))]
fn handshake_term(
    header: &Header,
    line: u64,
    in_quantifier: bool,
    cursor: &mut Cursor<'_>,
) -> Result<Term, ImageRefusal>
    ensures { Reads result cursor.new (handshake_term (header_source header.now) line in_quantifier
        cursor.old) }
{
    checked_handshakes(header, line)?;
    let words = cursor.slot(line, header.words.as_slice())?;
    let place = index(header, line, in_quantifier, cursor)?;
    let handshake = index(header, line, in_quantifier, cursor)?;
    Ok(Term::Handshake(words, place, handshake))
}

/// Reads an index as a term.
#[tactic(auto, unfolding(crate::specs::ImageForms::index_term))]
fn index_term(
    header: &Header,
    line: u64,
    in_quantifier: bool,
    at: u64,
    tag: TermTag,
    cursor: &mut Cursor<'_>,
) -> Result<Term, ImageRefusal>
    ensures { Reads result cursor.new (index_term (header_source header.now) line in_quantifier at
        tag cursor.old) }
{
    let index = index_of_tag(header, line, in_quantifier, at, tag, cursor)?;
    Ok(Term::Index(index))
}

/// Reads the term with this tag, which stands behind `at` bytes.
fn term_of_tag(
    header: &Header,
    line: u64,
    in_quantifier: bool,
    at: u64,
    tag: TermTag,
    cursor: &mut Cursor<'_>,
) -> Result<Term, ImageRefusal>
    ensures { Reads result cursor.new (term_of_tag (header_source header.now) line in_quantifier at
        tag cursor.old) }
{
    match tag {
        TermTag::Arg => Ok(Term::Arg),
        TermTag::Row => row_term(header, line, in_quantifier, cursor),
        TermTag::Seq => field_term(header, line, in_quantifier, Field::Seq, cursor),
        TermTag::Datum => field_term(header, line, in_quantifier, Field::Datum, cursor),
        TermTag::Handshake => handshake_term(header, line, in_quantifier, cursor),
        TermTag::Toggle => field_term(header, line, in_quantifier, Field::Toggle, cursor),
        TermTag::Id => field_term(header, line, in_quantifier, Field::Id, cursor),
        TermTag::Number
        | TermTag::Processes
        | TermTag::Words
        | TermTag::Me
        | TermTag::Word
        | TermTag::Place
        | TermTag::Scalar => index_term(header, line, in_quantifier, at, tag, cursor),
    }
}

/// Reads a term.
///
/// # Errors
///
/// The first reason why the bytes at the cursor are no term.
#[tactic(auto, unfolding(crate::specs::ImageForms::term_in))]
pub fn term(
    header: &Header,
    line: u64,
    in_quantifier: bool,
    cursor: &mut Cursor<'_>,
) -> Result<Term, ImageRefusal>
    ensures { Reads result cursor.new (term_in (header_source header.now) line in_quantifier
        cursor.old) }
{
    let at = cursor.passed();
    let tag = cursor.code::<TermTag>()?;
    term_of_tag(header, line, in_quantifier, at, tag, cursor)
}

/// Reads a term as an expression.
#[tactic(auto, unfolding(crate::specs::ImageForms::plain_expr))]
fn plain_expr(
    header: &Header,
    line: u64,
    in_quantifier: bool,
    cursor: &mut Cursor<'_>,
) -> Result<Expr, ImageRefusal>
    ensures { Reads result cursor.new (plain_expr (header_source header.now) line in_quantifier
        cursor.old) }
{
    let operand = term(header, line, in_quantifier, cursor)?;
    Ok(Expr::Term(operand))
}

/// Reads a sum.
#[tactic(auto, unfolding(crate::specs::ImageForms::sum_expr))]
fn sum_expr(
    header: &Header,
    line: u64,
    in_quantifier: bool,
    cursor: &mut Cursor<'_>,
) -> Result<Expr, ImageRefusal>
    ensures { Reads result cursor.new (sum_expr (header_source header.now) line in_quantifier
        cursor.old) }
{
    let left = term(header, line, in_quantifier, cursor)?;
    let right = term(header, line, in_quantifier, cursor)?;
    Ok(Expr::Sum(left, right))
}

/// Reads a negation.
#[tactic(auto, unfolding(crate::specs::ImageForms::not_expr))]
fn not_expr(
    header: &Header,
    line: u64,
    in_quantifier: bool,
    cursor: &mut Cursor<'_>,
) -> Result<Expr, ImageRefusal>
    ensures { Reads result cursor.new (not_expr (header_source header.now) line in_quantifier
        cursor.old) }
{
    let operand = term(header, line, in_quantifier, cursor)?;
    Ok(Expr::Not(operand))
}

/// Reads an expression.
///
/// # Errors
///
/// The first reason why the bytes at the cursor are no expression.
#[tactic(auto, unfolding(crate::specs::ImageForms::expr_in))]
pub fn expr(
    header: &Header,
    line: u64,
    in_quantifier: bool,
    cursor: &mut Cursor<'_>,
) -> Result<Expr, ImageRefusal>
    ensures { Reads result cursor.new (expr_in (header_source header.now) line in_quantifier
        cursor.old) }
{
    let tag = cursor.code::<ExprTag>()?;
    match tag {
        ExprTag::Term => plain_expr(header, line, in_quantifier, cursor),
        ExprTag::Sum => sum_expr(header, line, in_quantifier, cursor),
        ExprTag::Not => not_expr(header, line, in_quantifier, cursor),
    }
}
