//! `ImageVersion`, and the tags of terms and expressions (`TermTag`, `ExprTag`); the trait `Coded`
//! of the types whose values have codes in an image, with their codes; and `with_code`, which looks
//! up the value of a byte.
ghost use Rattle.std.specs.Prelude.{◌≡◌};
ghost use Rattle.snap_image.specs.ImageCodes.{Codes, coded, of_code, versions, kinds, terms};
ghost use Rattle.snap_image.specs.ImageCodes.{exprs, relations, joins, ranges};

use snap_semantics::{Join, Range, Relation};
use snap_words::KindTag;

/// The version of an image.
#[derive(Clone, Copy, PartialEq, Eq)]
pub enum ImageVersion {
    /// Without comments, and with line numbers up to 999.
    First,
    /// With a comment, or none, behind each line.
    Second,
}

/// The tag of a term.
#[derive(Clone, Copy, PartialEq, Eq)]
pub enum TermTag {
    Number,
    /// `n`.
    Processes,
    /// `w`.
    Words,
    Me,
    Word,
    Arg,
    /// `@`.
    Place,
    Scalar,
    Row,
    Seq,
    Datum,
    Handshake,
    Toggle,
    Id,
}

/// The tag of an expression.
#[derive(Clone, Copy, PartialEq, Eq)]
pub enum ExprTag {
    Term,
    Sum,
    Not,
}

/// A type whose values have codes.
pub trait Coded: Copy + 'static {
    ghost table: { Codes Self };

    /// Returns all values that have a code.
    fn all() -> &'static [Self]
        ensures { result.now ≡ table.all };

    /// Returns the code of a value.
    fn code(self) -> u8
        ensures { result ≡ table.code self };
}

/// Returns the first of these values with this code.
fn find<T: Coded>(all: &[T], code: u8) -> Option<T>
    ensures { result ≡ coded T.table.code all.now code }
{
    for value in all {
        if value.code() == code {
            return Some(*value);
        }
    }
    None
}

/// Returns the value with this code; `None` where there is none.
pub fn with_code<T: Coded>(code: u8) -> Option<T>
    ensures { result ≡ of_code T.table code }
{
    find(T::all(), code)
}

/// All versions.
const VERSIONS: [ImageVersion; 2] = [ImageVersion::First, ImageVersion::Second];

impl Coded for ImageVersion {
    ghost table = { versions };

    fn all() -> &'static [Self] {
        &VERSIONS
    }

    fn code(self) -> u8 {
        match self {
            ImageVersion::First => 1,
            ImageVersion::Second => 2,
        }
    }
}

/// All kinds.
const KINDS: [KindTag; 3] = [KindTag::Seq, KindTag::Bits, KindTag::Multi];

impl Coded for KindTag {
    ghost table = { kinds };

    fn all() -> &'static [Self] {
        &KINDS
    }

    fn code(self) -> u8 {
        match self {
            KindTag::Seq => 0,
            KindTag::Bits => 1,
            KindTag::Multi => 2,
        }
    }
}

/// All tags of terms.
const TERMS: [TermTag; 14] = [
    TermTag::Number,
    TermTag::Processes,
    TermTag::Words,
    TermTag::Me,
    TermTag::Word,
    TermTag::Arg,
    TermTag::Place,
    TermTag::Scalar,
    TermTag::Row,
    TermTag::Seq,
    TermTag::Datum,
    TermTag::Handshake,
    TermTag::Toggle,
    TermTag::Id,
];

impl Coded for TermTag {
    ghost table = { terms };

    fn all() -> &'static [Self] {
        &TERMS
    }

    fn code(self) -> u8 {
        match self {
            TermTag::Number => 0,
            TermTag::Processes => 1,
            TermTag::Words => 2,
            TermTag::Me => 3,
            TermTag::Word => 4,
            TermTag::Arg => 5,
            TermTag::Place => 6,
            TermTag::Scalar => 7,
            TermTag::Row => 8,
            TermTag::Seq => 9,
            TermTag::Datum => 10,
            TermTag::Handshake => 11,
            TermTag::Toggle => 12,
            TermTag::Id => 13,
        }
    }
}

/// All tags of expressions.
const EXPRS: [ExprTag; 3] = [ExprTag::Term, ExprTag::Sum, ExprTag::Not];

impl Coded for ExprTag {
    ghost table = { exprs };

    fn all() -> &'static [Self] {
        &EXPRS
    }

    fn code(self) -> u8 {
        match self {
            ExprTag::Term => 0,
            ExprTag::Sum => 1,
            ExprTag::Not => 2,
        }
    }
}

/// All relations.
const RELATIONS: [Relation; 3] = [Relation::Equal, Relation::Different, Relation::Less];

impl Coded for Relation {
    ghost table = { relations };

    fn all() -> &'static [Self] {
        &RELATIONS
    }

    fn code(self) -> u8 {
        match self {
            Relation::Equal => 0,
            Relation::Different => 1,
            Relation::Less => 2,
        }
    }
}

/// All joins.
const JOINS: [Join; 2] = [Join::And, Join::Or];

impl Coded for Join {
    ghost table = { joins };

    fn all() -> &'static [Self] {
        &JOINS
    }

    fn code(self) -> u8 {
        match self {
            Join::And => 0,
            Join::Or => 1,
        }
    }
}

/// All ranges.
const RANGES: [Range; 2] = [Range::Processes, Range::Words];

impl Coded for Range {
    ghost table = { ranges };

    fn all() -> &'static [Self] {
        &RANGES
    }

    fn code(self) -> u8 {
        match self {
            Range::Processes => 0,
            Range::Words => 1,
        }
    }
}
