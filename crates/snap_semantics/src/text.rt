//! `Symbol`, a token of a listing or a schedule that is no
//! identifier and no number; and `Sort`, a sort of locals.

/// A symbol: a token that is no identifier and no number.
#[derive(Clone, Copy, PartialEq, Eq)]
pub enum Symbol {
    Colon,
    Equal,
    /// `!=`.
    Different,
    Less,
    Plus,
    Comma,
    OpenParenthesis,
    CloseParenthesis,
    OpenBracket,
    CloseBracket,
    At,
    Star,
}

/// A sort of locals.
#[derive(Clone, Copy, PartialEq, Eq)]
pub enum Sort {
    Scalar,
    Row,
    Words,
    View,
}
