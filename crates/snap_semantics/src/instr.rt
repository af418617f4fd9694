//! `Line` and `Instr`: the numbered lines of a listing and their
//! instructions, with all their operands, conditions and tuples.
ghost use Rattle.std.specs.Prelude.{◌≡◌};
ghost use Rattle.snap_semantics.specs.Table.{bank_of};

use crate::name::Name;
use snap_words::{Bank, Field};

/// A number that can stand for a place.
#[derive(Clone, Copy)]
pub enum Index {
    Number(u64),
    /// `n`, the number of processes.
    Processes,
    /// `w`, the number of words.
    Words,
    /// `me`, the process.
    Me,
    /// `word`, the word of the update; 0 in a scan.
    Word,
    /// `@`, the place of a quantifier.
    Place,
    Scalar(Name),
}

/// An operand.
#[derive(Clone, Copy)]
pub enum Term {
    Index(Index),
    /// `arg`, the value of the update; 0 in a scan.
    Arg,
    /// `R[I]`.
    Row(Name, Index),
    /// `seq(W[I])`; likewise `data(W[I])`, `id(W[I])` and `toggle(W[I])`.
    Field(Field, Name, Index),
    /// `handshake(W[I],J)`.
    Handshake(Name, Index, Index),
}

/// What is computed from operands.
#[derive(Clone, Copy)]
pub enum Expr {
    Term(Term),
    Sum(Term, Term),
    /// 1 where the operand is 0, else 0.
    Not(Term),
}

/// How two operands are compared.
#[derive(Clone, Copy, PartialEq, Eq)]
pub enum Relation {
    Equal,
    Different,
    Less,
}

/// Two operands compared.
#[derive(Clone, Copy)]
pub struct Comparison {
    pub left: Term,
    pub relation: Relation,
    pub right: Term,
}

/// How comparisons are joined.
#[derive(Clone, Copy, PartialEq, Eq)]
pub enum Join {
    And,
    Or,
}

/// One to four comparisons, all joined alike.
#[derive(Clone, Copy)]
pub enum Condition {
    One(Comparison),
    Two(Join, Comparison, Comparison),
    Three(Join, Comparison, Comparison, Comparison),
    Four(Join, Comparison, Comparison, Comparison, Comparison),
}

/// The places that a quantifier goes over: 1 to `n`, or 1 to `w`.
#[derive(Clone, Copy, PartialEq, Eq)]
pub enum Range {
    Processes,
    Words,
}

/// A bank of bits.
#[derive(Clone, Copy, PartialEq, Eq)]
pub enum BitBank {
    Q,
    P,
}

impl BitBank {
    /// Returns the bank of registers of these bits.
    pub fn bank(self) -> Bank
        ensures { result ≡ bank_of self }
    {
        match self {
            BitBank::Q => Bank::Q,
            BitBank::P => Bank::P,
        }
    }
}

/// The fields of a word to be written, as the word's kind has them.
#[derive(Clone, Copy)]
pub enum Tuple {
    /// `(data, seq, S)`.
    Seq(Expr, Expr, Name),
    /// `(data, R, toggle, S)`, with the handshake bits in row R.
    Bits(Expr, Name, Expr, Name),
    /// `(data, id, toggle)`.
    Multi(Expr, Expr, Expr),
}

/// What a line does. Names stand for locals: X a scalar, R a row, W a `words` local, S a view.
#[derive(Clone, Copy)]
pub enum Instr {
    /// `let X = E`.
    Let(Name, Expr),
    /// `let R[I] = E`.
    LetPlace(Name, Index, Expr),
    /// `get W[I] = r[J]`.
    Get(Name, Index, Index),
    /// `bit X = q[I,J]`.
    Bit(Name, BitBank, Index, Index),
    /// `look S = v[I]`.
    Look(Name, Index),
    /// `put r[I] = (..)`.
    Put(Index, Tuple),
    /// `put q[I,J] = E`.
    PutBit(BitBank, Index, Index, Expr),
    /// `put v[I] = S`.
    PutView(Index, Name),
    /// `view S = data(W)`.
    ViewData(Name, Name),
    /// `view S = view(W[I])`.
    ViewOf(Name, Name, Index),
    /// `each G: R[@] = E where C`.
    Each(Range, Name, Expr, Option<Condition>),
    /// `first X G: C goto N`.
    First(Name, Range, Condition, u64),
    /// `next X G goto N`.
    Next(Name, Range, u64),
    /// `if C goto N`.
    If(Condition, u64),
    /// `if all G: C goto N`.
    IfAll(Range, Condition, u64),
    /// `goto N`.
    Goto(u64),
    /// `call N`.
    Call(u64),
    /// `return S`.
    Return(Name),
    Finish,
}

/// A numbered line.
#[derive(Clone, Copy)]
pub struct Line {
    pub number: u64,
    pub instr: Instr,
}
