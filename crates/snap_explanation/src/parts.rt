//! `Part`: what a line of an input is to have next, a token or tokens in a row by their rule; and
//! `Class`: a set of tokens.

/// A part of a line.
#[derive(Clone, Copy)]
pub enum Part {
    /// Nothing more.
    End,
    Colon,
    Equal,
    /// `@`.
    Place,
    OpenBracket,
    CloseBracket,
    OpenParenthesis,
    CloseParenthesis,
    Comma,
    Goto,
    /// The bank `r`.
    R,
    /// The bank `v`.
    V,
    Kind,
    Scalar,
    Row,
    Words,
    View,
    Scan,
    Update,
    Shape,
    Number,
    /// The number of a process, at the front of a line.
    Process,
    /// The number of a line to which a line leads.
    Target,
    /// 1 to 9999.
    LineNumber,
    /// 1 to `snap_words::MAX_COUNT`.
    Count,
    /// A number above 0.
    Positive,
    /// 1 to 1,000,000.
    Turn,
    Name,
    /// Identifiers to the end of the line.
    Names,
    Index,
    /// `n` or `w`; `@` is an index behind it.
    Range,
    Relation,
    /// `seq`, `bit` or `multi`.
    KindName,
    Instruction,
    Term,
    /// `[I]` behind a name, or nothing.
    PlaceOption,
    Expr,
    /// `+` and a term, or nothing.
    SumOption,
    Condition,
    /// What stands behind one comparison: `and` or `or` and a second one, or nothing.
    FirstJoin,
    /// `and` behind two comparisons, and a third one, or nothing.
    SecondAnd,
    SecondOr,
    /// `and` behind three comparisons, and a fourth one, or nothing.
    ThirdAnd,
    ThirdOr,
    /// `where` and a condition, or nothing.
    WhereOption,
    /// The register that a `put` writes, and what it writes.
    Written,
    /// `q` or `p`, and `[I,J]`.
    Bit,
    Tuple,
    /// The second part of a tuple, and what stands behind it.
    SecondPart,
    /// What stands behind a name at the front of the second part of a tuple.
    BehindName,
    /// What stands behind the third part of a tuple whose second part is a name.
    BehindThird,
    /// `data(W)` or `view(W[I])`.
    ViewSource,
    /// What stands behind `if`.
    Test,
    /// What a process does in a schedule; nothing more for a step.
    Act,
    /// What a process of a live run does.
    ScriptAct,
    Command,
    /// A register, as a command names it.
    Register,
    /// A register or a process, as a command names it.
    Shown,
}

/// A set of tokens.
#[derive(Clone, Copy)]
pub enum Class {
    Number,
    LineNumber,
    Count,
    Positive,
    Turn,
    /// Identifiers that are not reserved.
    Name,
    Identifier,
    /// `@`, where it is an index.
    Place,
}
