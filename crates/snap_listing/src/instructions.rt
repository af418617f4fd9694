//! What is done with each form of line: an instruction is spelled as tokens, with its tuple, and
//! what it names and needs of the kind is checked; and the header lines are spelled.
ghost use Rattle.std.specs.Prelude.{◌≡◌, [], ◌∷◌, ◌++◌, map, codes};
ghost use Rattle.snap_semantics.specs.declared.instr.Instr.TheVariants as instr;
ghost use Rattle.snap_semantics.specs.declared.instr.Tuple.TheVariants as tuple;
ghost use Rattle.snap_semantics.specs.declared.text.Symbol.TheVariants as symbol;
ghost use Rattle.snap_semantics.specs.Spelling.{spelled_expr, spelled_tuple, bank_keyword};
ghost use Rattle.snap_semantics.specs.Spelling.{spelled_instr, spelled_line, kind_keyword};
ghost use Rattle.snap_semantics.specs.Spelling.{spelled_names, spelled_entry};
ghost use Rattle.snap_semantics.specs.Token.{Identifier, Sign};
ghost use Rattle.snap_semantics.specs.Uses.{instr_uses, checked_uses};
ghost use Rattle.snap_listing_core.specs.Fields.{header_source};
ghost use Rattle.snap_listing.specs.Checks.{checked_access, checked_assignment, checked_instr};
ghost use Rattle.snap_listing.specs.Spelled.{Spells};

use crate::spelling::Spelling;
use crate::uses::{
    checked_condition, checked_expr, checked_index, checked_indexes, checked_kind, checked_name,
    checked_place, checked_tuple, checked_where, has_bank, has_view,
};
use snap_listing_core::Header;
use snap_semantics::{
    BitBank, Condition, Expr, Index, Instr, Line, ListingRefusal, Name, Range, Sort, Symbol, Tuple,
};
use snap_words::{Bank, KindTag};

/// Returns the keyword of a bank of bits.
fn bank_keyword(bank: BitBank) -> &'static [u8]
    ensures { result.now ≡ bank_keyword bank }
{
    match bank {
        BitBank::Q => b"q",
        BitBank::P => b"p",
    }
}

/// Returns the keyword of a kind.
pub fn kind_keyword(kind: KindTag) -> &'static [u8]
    ensures { result.now ≡ kind_keyword kind }
{
    match kind {
        KindTag::Seq => b"seq",
        KindTag::Bits => b"bit",
        KindTag::Multi => b"multi",
    }
}

impl<'a> Spelling<'a> {
    /// Appends the next expression of a tuple, behind a comma.
    fn push_next_expr(&mut self, expr: &'a Expr)
        ensures { Spells self.old self.new (Sign symbol.Comma ∷ spelled_expr expr.now) }
    {
        self.push_sign(Symbol::Comma);
        self.push_expr(expr);
    }

    /// Appends the next name of a tuple, behind a comma.
    fn push_next_name(&mut self, name: &'a Name)
        ensures { Spells self.old self.new (Sign symbol.Comma ∷ Identifier name.now ∷ []) }
    {
        self.push_sign(Symbol::Comma);
        self.push_name(name);
    }

    /// Appends `(E, E, S)`.
    fn push_seq_tuple(&mut self, datum: &'a Expr, seq: &'a Expr, view: &'a Name)
        ensures { Spells self.old self.new (spelled_tuple (tuple.Seq datum.now seq.now view.now)) }
    {
        self.push_sign(Symbol::OpenParenthesis);
        self.push_expr(datum);
        self.push_next_expr(seq);
        self.push_next_name(view);
        self.push_sign(Symbol::CloseParenthesis);
    }

    /// Appends `(E, R, E, S)`.
    fn push_bits_tuple(
        &mut self,
        datum: &'a Expr,
        handshakes: &'a Name,
        toggle: &'a Expr,
        view: &'a Name,
    )
        ensures { Spells self.old self.new
            (spelled_tuple (tuple.Bits datum.now handshakes.now toggle.now view.now)) }
    {
        self.push_sign(Symbol::OpenParenthesis);
        self.push_expr(datum);
        self.push_next_name(handshakes);
        self.push_next_expr(toggle);
        self.push_next_name(view);
        self.push_sign(Symbol::CloseParenthesis);
    }

    /// Appends `(E, E, E)`.
    fn push_multi_tuple(&mut self, datum: &'a Expr, id: &'a Expr, toggle: &'a Expr)
        ensures { Spells self.old self.new
            (spelled_tuple (tuple.Multi datum.now id.now toggle.now)) }
    {
        self.push_sign(Symbol::OpenParenthesis);
        self.push_expr(datum);
        self.push_next_expr(id);
        self.push_next_expr(toggle);
        self.push_sign(Symbol::CloseParenthesis);
    }

    /// Appends a tuple.
    fn push_tuple(&mut self, tuple: &'a Tuple)
        ensures { Spells self.old self.new (spelled_tuple tuple.now) }
    {
        match tuple {
            Tuple::Seq(datum, seq, view) => self.push_seq_tuple(datum, seq, view),
            Tuple::Bits(datum, handshakes, toggle, view) => {
                self.push_bits_tuple(datum, handshakes, toggle, view);
            }
            Tuple::Multi(datum, id, toggle) => self.push_multi_tuple(datum, id, toggle),
        }
    }

    /// Appends `let X = E`.
    fn push_let(&mut self, scalar: &'a Name, value: &'a Expr)
        ensures { Spells self.old self.new (spelled_instr (instr.Let scalar.now value.now)) }
    {
        self.push_identifier(b"let");
        self.push_name(scalar);
        self.push_sign(Symbol::Equal);
        self.push_expr(value);
    }

    /// Appends `let R[I] = E`.
    fn push_let_place(&mut self, row: &'a Name, index: &'a Index, value: &'a Expr)
        ensures { Spells self.old self.new
            (spelled_instr (instr.LetPlace row.now index.now value.now)) }
    {
        self.push_identifier(b"let");
        self.push_place(row, index);
        self.push_sign(Symbol::Equal);
        self.push_expr(value);
    }

    /// Appends `get W[I] = r[J]`.
    fn push_get(&mut self, words: &'a Name, index: &'a Index, register: &'a Index)
        ensures { Spells self.old self.new
            (spelled_instr (instr.Get words.now index.now register.now)) }
    {
        self.push_identifier(b"get");
        self.push_place(words, index);
        self.push_sign(Symbol::Equal);
        self.push_identifier(b"r");
        self.push_bracketed(register);
    }

    /// Appends `bit X = q[I,J]` or `bit X = p[I,J]`.
    fn push_bit(&mut self, scalar: &'a Name, bank: BitBank, first: &'a Index, second: &'a Index)
        ensures { Spells self.old self.new
            (spelled_instr (instr.Bit scalar.now bank first.now second.now)) }
    {
        self.push_identifier(b"bit");
        self.push_name(scalar);
        self.push_sign(Symbol::Equal);
        self.push_identifier(bank_keyword(bank));
        self.push_pair(first, second);
    }

    /// Appends `look S = v[I]`.
    fn push_look(&mut self, view: &'a Name, index: &'a Index)
        ensures { Spells self.old self.new (spelled_instr (instr.Look view.now index.now)) }
    {
        self.push_identifier(b"look");
        self.push_name(view);
        self.push_sign(Symbol::Equal);
        self.push_identifier(b"v");
        self.push_bracketed(index);
    }

    /// Appends `put r[I] = ` and a tuple.
    fn push_put(&mut self, index: &'a Index, tuple: &'a Tuple)
        ensures { Spells self.old self.new (spelled_instr (instr.Put index.now tuple.now)) }
    {
        self.push_identifier(b"put");
        self.push_identifier(b"r");
        self.push_bracketed(index);
        self.push_sign(Symbol::Equal);
        self.push_tuple(tuple);
    }

    /// Appends `put q[I,J] = E` or `put p[I,J] = E`.
    fn push_put_bit(&mut self, bank: BitBank, first: &'a Index, second: &'a Index, value: &'a Expr)
        ensures { Spells self.old self.new
            (spelled_instr (instr.PutBit bank first.now second.now value.now)) }
    {
        self.push_identifier(b"put");
        self.push_identifier(bank_keyword(bank));
        self.push_pair(first, second);
        self.push_sign(Symbol::Equal);
        self.push_expr(value);
    }

    /// Appends `put v[I] = S`.
    fn push_put_view(&mut self, index: &'a Index, view: &'a Name)
        ensures { Spells self.old self.new (spelled_instr (instr.PutView index.now view.now)) }
    {
        self.push_identifier(b"put");
        self.push_identifier(b"v");
        self.push_bracketed(index);
        self.push_sign(Symbol::Equal);
        self.push_name(view);
    }

    /// Appends `view S = data(W)`.
    fn push_view_data(&mut self, view: &'a Name, words: &'a Name)
        ensures { Spells self.old self.new (spelled_instr (instr.ViewData view.now words.now)) }
    {
        self.push_identifier(b"view");
        self.push_name(view);
        self.push_sign(Symbol::Equal);
        self.push_identifier(b"data");
        self.push_sign(Symbol::OpenParenthesis);
        self.push_name(words);
        self.push_sign(Symbol::CloseParenthesis);
    }

    /// Appends `view S = view(W[I])`.
    fn push_view_of(&mut self, view: &'a Name, words: &'a Name, index: &'a Index)
        ensures { Spells self.old self.new
            (spelled_instr (instr.ViewOf view.now words.now index.now)) }
    {
        self.push_identifier(b"view");
        self.push_name(view);
        self.push_sign(Symbol::Equal);
        self.push_identifier(b"view");
        self.push_word_place(words, index);
    }

    /// Appends `each G: R[@] = E where C`.
    fn push_each(
        &mut self,
        range: Range,
        row: &'a Name,
        value: &'a Expr,
        condition: &'a Option<Condition>,
    )
        ensures { Spells self.old self.new
            (spelled_instr (instr.Each range row.now value.now condition.now)) }
    {
        self.push_identifier(b"each");
        self.push_range(range);
        self.push_sign(Symbol::Colon);
        self.push_name(row);
        self.push_sign(Symbol::OpenBracket);
        self.push_sign(Symbol::At);
        self.push_sign(Symbol::CloseBracket);
        self.push_sign(Symbol::Equal);
        self.push_expr(value);
        self.push_where(condition);
    }

    /// Appends `first X G: C goto N`.
    fn push_first(&mut self, scalar: &'a Name, range: Range, condition: &'a Condition, target: u64)
        ensures { Spells self.old self.new
            (spelled_instr (instr.First scalar.now range condition.now target)) }
    {
        self.push_identifier(b"first");
        self.push_name(scalar);
        self.push_range(range);
        self.push_sign(Symbol::Colon);
        self.push_condition(condition);
        self.push_target(target);
    }

    /// Appends `next X G goto N`.
    fn push_next(&mut self, scalar: &'a Name, range: Range, target: u64)
        ensures { Spells self.old self.new (spelled_instr (instr.Next scalar.now range target)) }
    {
        self.push_identifier(b"next");
        self.push_name(scalar);
        self.push_range(range);
        self.push_target(target);
    }

    /// Appends `if C goto N`.
    fn push_if(&mut self, condition: &'a Condition, target: u64)
        ensures { Spells self.old self.new (spelled_instr (instr.If condition.now target)) }
    {
        self.push_identifier(b"if");
        self.push_condition(condition);
        self.push_target(target);
    }

    /// Appends `if all G: C goto N`.
    fn push_if_all(&mut self, range: Range, condition: &'a Condition, target: u64)
        ensures { Spells self.old self.new
            (spelled_instr (instr.IfAll range condition.now target)) }
    {
        self.push_identifier(b"if");
        self.push_identifier(b"all");
        self.push_range(range);
        self.push_sign(Symbol::Colon);
        self.push_condition(condition);
        self.push_target(target);
    }

    /// Appends `call N`.
    fn push_call(&mut self, target: u64)
        ensures { Spells self.old self.new (spelled_instr (instr.Call target)) }
    {
        self.push_identifier(b"call");
        self.push_number(target);
    }

    /// Appends `return S`.
    fn push_return(&mut self, view: &'a Name)
        ensures { Spells self.old self.new (spelled_instr (instr.Return view.now)) }
    {
        self.push_identifier(b"return");
        self.push_name(view);
    }

    /// Appends an instruction.
    fn push_instr(&mut self, instr: &'a Instr)
        ensures { Spells self.old self.new (spelled_instr instr.now) }
    {
        match instr {
            Instr::Let(scalar, value) => self.push_let(scalar, value),
            Instr::LetPlace(row, index, value) => self.push_let_place(row, index, value),
            Instr::Get(words, index, register) => self.push_get(words, index, register),
            Instr::Bit(scalar, bank, first, second) => self.push_bit(scalar, *bank, first, second),
            Instr::Look(view, index) => self.push_look(view, index),
            Instr::Put(index, tuple) => self.push_put(index, tuple),
            Instr::PutBit(bank, first, second, value) => {
                self.push_put_bit(*bank, first, second, value);
            }
            Instr::PutView(index, view) => self.push_put_view(index, view),
            Instr::ViewData(view, words) => self.push_view_data(view, words),
            Instr::ViewOf(view, words, index) => self.push_view_of(view, words, index),
            Instr::Each(range, row, value, condition) => {
                self.push_each(*range, row, value, condition);
            }
            Instr::First(scalar, range, condition, target) => {
                self.push_first(scalar, *range, condition, *target);
            }
            Instr::Next(scalar, range, target) => self.push_next(scalar, *range, *target),
            Instr::If(condition, target) => self.push_if(condition, *target),
            Instr::IfAll(range, condition, target) => {
                self.push_if_all(*range, condition, *target);
            }
            Instr::Goto(target) => self.push_target(*target),
            Instr::Call(target) => self.push_call(*target),
            Instr::Return(view) => self.push_return(view),
            Instr::Finish => self.push_identifier(b"finish"),
        }
    }

    /// Appends a numbered line.
    pub fn push_line(&mut self, line: &'a Line)
        ensures { Spells self.old self.new (spelled_line line.now) }
    {
        self.push_number(line.number);
        self.push_sign(Symbol::Colon);
        self.push_instr(&line.instr);
    }

    /// Appends the line of the kind.
    pub fn push_kind(&mut self, kind: KindTag)
        ensures { Spells self.old self.new (spelled_names (codes "kind") (kind_keyword kind ∷ [])) }
    {
        self.push_identifier(b"kind");
        self.push_identifier(kind_keyword(kind));
    }

    /// Appends a keyword and names.
    pub fn push_names(&mut self, keyword: &'a [u8], names: &'a [Name])
        ensures { Spells self.old self.new (spelled_names keyword.now names.now) }
    {
        self.push_identifier(keyword);
        for name in names {
            self.push_name(name);
        }
    }

    /// Appends a keyword and the number of a line.
    pub fn push_entry(&mut self, keyword: &'a [u8], number: u64)
        ensures { Spells self.old self.new (spelled_entry keyword.now number) }
    {
        self.push_identifier(keyword);
        self.push_number(number);
    }
}

/// Checks an instruction that reads or writes a register, and accepts any other.
fn checked_access(header: &Header, line: u64, instr: &Instr) -> Result<(), ListingRefusal>
    ensures { result ≡ checked_access (header_source header.now) line instr.now }
{
    match instr {
        Instr::Get(words, index, register) => {
            checked_name(header, line, Sort::Words, words)?;
            checked_indexes(header, line, index, register)
        }
        Instr::Bit(scalar, bits, first, second) => {
            checked_name(header, line, Sort::Scalar, scalar)?;
            checked_kind(line, has_bank(header.kind, bits.bank()))?;
            checked_indexes(header, line, first, second)
        }
        Instr::Look(view, register) => {
            checked_name(header, line, Sort::View, view)?;
            checked_kind(line, has_bank(header.kind, Bank::V))?;
            checked_index(header, line, register)
        }
        Instr::Put(register, tuple) => {
            checked_index(header, line, register)?;
            checked_tuple(header, line, tuple)
        }
        Instr::PutBit(bits, first, second, value) => {
            checked_kind(line, has_bank(header.kind, bits.bank()))?;
            checked_indexes(header, line, first, second)?;
            checked_expr(header, line, value)
        }
        Instr::PutView(register, view) => {
            checked_kind(line, has_bank(header.kind, Bank::V))?;
            checked_index(header, line, register)?;
            checked_name(header, line, Sort::View, view)
        }
        _ => Ok(()),
    }
}

/// Checks an instruction that sets a local by locals, and accepts any other.
fn checked_assignment(header: &Header, line: u64, instr: &Instr) -> Result<(), ListingRefusal>
    ensures { result ≡ checked_assignment (header_source header.now) line instr.now }
{
    match instr {
        Instr::Let(scalar, value) => {
            checked_name(header, line, Sort::Scalar, scalar)?;
            checked_expr(header, line, value)
        }
        Instr::LetPlace(row, index, value) => {
            checked_place(header, line, Sort::Row, row, index)?;
            checked_expr(header, line, value)
        }
        Instr::ViewData(view, words) => {
            checked_name(header, line, Sort::View, view)?;
            checked_name(header, line, Sort::Words, words)
        }
        Instr::ViewOf(view, words, index) => {
            checked_name(header, line, Sort::View, view)?;
            checked_kind(line, has_view(header.kind))?;
            checked_place(header, line, Sort::Words, words, index)
        }
        Instr::Each(_, row, value, condition) => {
            checked_name(header, line, Sort::Row, row)?;
            checked_expr(header, line, value)?;
            checked_where(header, line, condition)
        }
        _ => Ok(()),
    }
}

/// Checks an instruction.
fn checked_instr(header: &Header, line: u64, instr: &Instr) -> Result<(), ListingRefusal>
    ensures { result ≡ checked_instr (header_source header.now) line instr.now }
{
    match instr {
        Instr::Get(..)
        | Instr::Bit(..)
        | Instr::Look(..)
        | Instr::Put(..)
        | Instr::PutBit(..)
        | Instr::PutView(..) => checked_access(header, line, instr),
        Instr::Let(..)
        | Instr::LetPlace(..)
        | Instr::ViewData(..)
        | Instr::ViewOf(..)
        | Instr::Each(..) => checked_assignment(header, line, instr),
        Instr::First(scalar, _, condition, _) => {
            checked_name(header, line, Sort::Scalar, scalar)?;
            checked_condition(header, line, condition)
        }
        Instr::Next(scalar, _, _) => checked_name(header, line, Sort::Scalar, scalar),
        Instr::If(condition, _) => checked_condition(header, line, condition),
        Instr::IfAll(_, condition, _) => checked_condition(header, line, condition),
        Instr::Return(view) => checked_name(header, line, Sort::View, view),
        Instr::Goto(_) | Instr::Call(_) | Instr::Finish => Ok(()),
    }
}

/// Checks what an instruction names and needs, from left to right.
///
/// # Errors
///
/// The refusal of the first part that breaks a rule, with the number `line`: `UnknownName` for a
/// name that is not declared, `WrongKind` for a name of another sort or for what the kind lacks.
#[tactic(auto, using(crate::proofs::GivenForms::instr_checks))]
pub fn checked_uses(header: &Header, line: u64, instr: &Instr) -> Result<(), ListingRefusal>
    ensures { result ≡ checked_uses (header_source header.now) line (instr_uses instr.now) }
{
    checked_instr(header, line, instr)
}
