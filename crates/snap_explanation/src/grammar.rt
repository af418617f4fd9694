//! The grammar of lines, as data: each form of a part of a line is its first token, and the parts
//! behind that.
use crate::parts::Part::{
    Act, BehindName, BehindThird, Bit, CloseBracket, CloseParenthesis, Colon, Comma, Command,
    Condition, Equal, Expr, FirstJoin, Goto, Index, Instruction, Kind, KindName, Name, Names,
    Number, OpenBracket, OpenParenthesis, Place, PlaceOption, Positive, Process, R, Range,
    Register, Relation, Row, Scalar, Scan, ScriptAct, SecondAnd, SecondOr, SecondPart, Shape,
    Shown, SumOption, Target, Term, Test, ThirdAnd, ThirdOr, Tuple, Turn, Update, V, View,
    ViewSource, WhereOption, Words, Written,
};
use crate::parts::{Class, Part};

/// A part, the text of the first token of one of its forms, and what is wanted behind that.
pub type TextForm = (Part, &'static [u8], &'static [Part]);

/// A part, and the text of a token that is all of it.
pub type Single = (Part, &'static [u8]);

/// A part, the tokens with which one of its forms begins, and what is wanted behind them.
pub type ClassForm = (Part, Class, &'static [Part]);

/// A part, the part with whose forms it may begin, and what is wanted behind them.
pub type Front = (Part, Part, &'static [Part]);

/// The parts of a line that are one token.
pub const SINGLES: &[Single] = &[
    (Colon, b":"),
    (Equal, b"="),
    (OpenBracket, b"["),
    (CloseBracket, b"]"),
    (OpenParenthesis, b"("),
    (CloseParenthesis, b")"),
    (Comma, b","),
    (Goto, b"goto"),
    (R, b"r"),
    (V, b"v"),
    (Kind, b"kind"),
    (Scalar, b"scalar"),
    (Row, b"row"),
    (Words, b"words"),
    (View, b"view"),
    (Scan, b"scan"),
    (Update, b"update"),
    (Shape, b"shape"),
    (Range, b"n"),
    (Range, b"w"),
    (Relation, b"="),
    (Relation, b"!="),
    (Relation, b"<"),
    (KindName, b"seq"),
    (KindName, b"bit"),
    (KindName, b"multi"),
    (Index, b"n"),
    (Index, b"w"),
    (Index, b"me"),
    (Index, b"word"),
    (Term, b"n"),
    (Term, b"w"),
    (Term, b"me"),
    (Term, b"word"),
    (Term, b"arg"),
    (BehindThird, b")"),
    (Instruction, b"finish"),
    (Act, b"scan"),
    (Act, b"crash"),
    (ScriptAct, b"scan"),
    (Command, b"run"),
    (Command, b"rrun"),
    (Command, b"values"),
    (Command, b"events"),
    (Command, b"where"),
];

const FIELD: &[Part] = &[
    OpenParenthesis,
    Name,
    OpenBracket,
    Index,
    CloseBracket,
    CloseParenthesis,
];

const COMPARED: &[Part] = &[Term, Relation, Term];

/// The forms of values and of comparisons.
pub const VALUES: &[TextForm] = &[
    (Term, b"seq", FIELD),
    (Term, b"data", FIELD),
    (Term, b"toggle", FIELD),
    (Term, b"id", FIELD),
    (
        Term,
        b"hand",
        &[
            OpenParenthesis,
            Name,
            OpenBracket,
            Index,
            CloseBracket,
            Comma,
            Index,
            CloseParenthesis,
        ],
    ),
    (PlaceOption, b"[", &[Index, CloseBracket]),
    (Expr, b"not", &[Term]),
    (SumOption, b"+", &[Term]),
    (FirstJoin, b"and", &[Term, Relation, Term, SecondAnd]),
    (FirstJoin, b"or", &[Term, Relation, Term, SecondOr]),
    (SecondAnd, b"and", &[Term, Relation, Term, ThirdAnd]),
    (SecondOr, b"or", &[Term, Relation, Term, ThirdOr]),
    (ThirdAnd, b"and", COMPARED),
    (ThirdOr, b"or", COMPARED),
    (WhereOption, b"where", &[Condition]),
];

/// The forms of what is read from registers and written to them.
pub const WRITTEN: &[TextForm] = &[
    (
        Written,
        b"r",
        &[OpenBracket, Index, CloseBracket, Equal, Tuple],
    ),
    (
        Written,
        b"v",
        &[OpenBracket, Index, CloseBracket, Equal, Name],
    ),
    (Bit, b"q", &[OpenBracket, Index, Comma, Index, CloseBracket]),
    (Bit, b"p", &[OpenBracket, Index, Comma, Index, CloseBracket]),
    (Tuple, b"(", &[Expr, Comma, SecondPart]),
    (BehindName, b",", &[Expr, BehindThird]),
    (
        BehindName,
        b"[",
        &[
            Index,
            CloseBracket,
            SumOption,
            Comma,
            Expr,
            CloseParenthesis,
        ],
    ),
    (BehindName, b"+", &[Term, Comma, Expr, CloseParenthesis]),
    (BehindThird, b",", &[Name, CloseParenthesis]),
    (
        ViewSource,
        b"data",
        &[OpenParenthesis, Name, CloseParenthesis],
    ),
    (ViewSource, b"view", FIELD),
];

/// The forms of instructions.
pub const INSTRUCTIONS: &[TextForm] = &[
    (Instruction, b"let", &[Name, PlaceOption, Equal, Expr]),
    (Instruction, b"view", &[Name, Equal, ViewSource]),
    (
        Instruction,
        b"get",
        &[
            Name,
            OpenBracket,
            Index,
            CloseBracket,
            Equal,
            R,
            OpenBracket,
            Index,
            CloseBracket,
        ],
    ),
    (Instruction, b"bit", &[Name, Equal, Bit]),
    (
        Instruction,
        b"look",
        &[Name, Equal, V, OpenBracket, Index, CloseBracket],
    ),
    (Instruction, b"put", &[Written]),
    (
        Instruction,
        b"each",
        &[
            Range,
            Colon,
            Name,
            OpenBracket,
            Place,
            CloseBracket,
            Equal,
            Expr,
            WhereOption,
        ],
    ),
    (
        Instruction,
        b"first",
        &[Name, Range, Colon, Condition, Goto, Target],
    ),
    (Instruction, b"next", &[Name, Range, Goto, Target]),
    (Instruction, b"if", &[Test]),
    (Test, b"all", &[Range, Colon, Condition, Goto, Target]),
    (Instruction, b"goto", &[Target]),
    (Instruction, b"call", &[Target]),
    (Instruction, b"return", &[Name]),
];

/// The forms of what a process does, and of commands.
pub const COMMANDS: &[TextForm] = &[
    (Act, b"*", &[Positive]),
    (Act, b"update", &[Number, Number]),
    (ScriptAct, b"update", &[Number, Number]),
    (ScriptAct, b"crash", &[Turn]),
    (Command, b"step", &[Number]),
    (Command, b"back", &[Number]),
    (Command, b"goto", &[Number]),
    (Command, b"break", &[Number, Number]),
    (Command, b"clear", &[Number, Number]),
    (Command, b"watch", &[Register]),
    (Command, b"unwatch", &[Register]),
    (Command, b"show", &[Shown]),
    (Register, b"r", &[Number]),
    (Register, b"v", &[Number]),
    (Register, b"q", &[Number, Number]),
    (Register, b"p", &[Number, Number]),
];

/// The forms that begin with a token of many.
pub const CLASSES: &[ClassForm] = &[
    (Number, Class::Number, &[]),
    (Process, Class::Number, &[]),
    (Target, Class::Number, &[]),
    (Part::LineNumber, Class::LineNumber, &[]),
    (Part::Count, Class::Count, &[]),
    (Positive, Class::Positive, &[]),
    (Turn, Class::Turn, &[]),
    (Shown, Class::Number, &[]),
    (Name, Class::Name, &[]),
    (Names, Class::Identifier, &[Names]),
    (Place, Class::Place, &[]),
    (Index, Class::Number, &[]),
    (Index, Class::Name, &[]),
    (Index, Class::Place, &[]),
    (Term, Class::Number, &[]),
    (Term, Class::Name, &[PlaceOption]),
    (Term, Class::Place, &[]),
    (SecondPart, Class::Name, &[BehindName]),
];

/// The parts that may begin as another one does.
pub const FRONTS: &[Front] = &[
    (Expr, Term, &[SumOption]),
    (Condition, Term, &[Relation, Term, FirstJoin]),
    (
        SecondPart,
        Term,
        &[SumOption, Comma, Expr, CloseParenthesis],
    ),
    (Test, Term, &[Relation, Term, FirstJoin, Goto, Target]),
    (Written, Bit, &[Equal, Expr]),
    (Shown, Register, &[]),
];

/// The parts that may be nothing.
pub const OPTIONS: &[Part] = &[
    Names,
    PlaceOption,
    SumOption,
    FirstJoin,
    SecondAnd,
    SecondOr,
    ThirdAnd,
    ThirdOr,
    WhereOption,
    Act,
];
