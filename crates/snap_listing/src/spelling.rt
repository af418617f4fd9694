//! `Spelling`: the tokens of a listing's line, as far as it
//! is spelled; spells its indices, terms and conditions.
ghost use Rattle.std.specs.Prelude.{◌≡◌, [], ◌∷◌, ◌++◌, false, true, MatchResult};
ghost use Rattle.snap_semantics.specs.declared.instr.Term.TheVariants as term;
ghost use Rattle.snap_semantics.specs.ListingForms.{join_keyword};
ghost use Rattle.snap_semantics.specs.Spelling.{spelled_index, spelled_place, field_keyword};
ghost use Rattle.snap_semantics.specs.Spelling.{spelled_term, spelled_expr, spelled_relation};
ghost use Rattle.snap_semantics.specs.Spelling.{spelled_comparison, spelled_condition};
ghost use Rattle.snap_semantics.specs.Spelling.{spelled_where, spelled_range, spelled_target};
ghost use Rattle.snap_semantics.specs.Spelling.{spelled_pair, in_brackets, in_parentheses};
ghost use Rattle.snap_semantics.specs.Token.{Identifier, Number, Sign};
ghost use Rattle.snap_text.specs.Tokens.{view_token, view_tokens};
ghost use Rattle.snap_listing.specs.Spelled.{Spells};

use crate::conditions::join_keyword;
use snap_semantics::{
    Comparison, Condition, Expr, Index, Join, Name, Range, Relation, Symbol, Term,
};
use snap_text::Token;
use snap_words::Field;
use std::alloc::{AllocError, Global};

/// The tokens of a line, as far as it is spelled. Once memory ran out for a token, the spelling has
/// failed, and takes no more.
#[derive(Drop)]
pub struct Spelling<'a> {
    tokens: Vec<Token<'a>>,
    failed: bool,
}

/// Returns the keyword of a field.
fn field_keyword(field: Field) -> &'static [u8]
    ensures { result.now ≡ field_keyword field }
{
    match field {
        Field::Datum => b"data",
        Field::Seq => b"seq",
        Field::Id => b"id",
        Field::Toggle => b"toggle",
    }
}

/// Returns the token of an index.
fn index_token(index: &Index) -> Token<'_>
    ensures { view_token result ∷ [] ≡ spelled_index index.now }
{
    match index {
        Index::Number(number) => Token::Number(*number),
        Index::Processes => Token::Identifier(b"n"),
        Index::Words => Token::Identifier(b"w"),
        Index::Me => Token::Identifier(b"me"),
        Index::Word => Token::Identifier(b"word"),
        Index::Place => Token::Sign(Symbol::At),
        Index::Scalar(scalar) => Token::Identifier(scalar.letters()),
    }
}

/// Returns the symbol of a relation.
fn relation_symbol(relation: Relation) -> Symbol
    ensures { Sign result ≡ spelled_relation relation }
{
    match relation {
        Relation::Equal => Symbol::Equal,
        Relation::Different => Symbol::Different,
        Relation::Less => Symbol::Less,
    }
}

/// Returns the keyword of a range.
fn range_keyword(range: Range) -> &'static [u8]
    ensures { Identifier result.now ≡ spelled_range range }
{
    match range {
        Range::Processes => b"n",
        Range::Words => b"w",
    }
}

impl<'a> Spelling<'a> {
    /// Returns an empty spelling.
    pub fn new(alloc: Global) -> Spelling<'a>
        ensures tokens { view_tokens result.tokens.items ≡ [] }
        ensures well { result.failed ≡ false }
    {
        Spelling {
            tokens: Vec::new(alloc),
            failed: false,
        }
    }

    /// Returns the tokens of the line.
    ///
    /// # Errors
    ///
    /// `AllocError` where memory ran out for one of the tokens.
    pub fn tokens(&self) -> Result<&[Token<'a>], AllocError>
        ensures { MatchResult result (λ tokens. (self.now.failed ≡ false)
            × (tokens.now ≡ self.now.tokens.items)) (λ _. self.now.failed ≡ true) }
    {
        if self.failed {
            return Err(AllocError);
        }
        Ok(self.tokens.as_slice())
    }

    /// Appends a token.
    fn push(&mut self, token: Token<'a>)
        ensures { Spells self.old self.new (view_token token.entry ∷ []) }
    {
        if !self.failed {
            self.failed = self.tokens.push(token).is_err();
        }
    }

    /// Appends an identifier.
    pub fn push_identifier(&mut self, word: &'a [u8])
        ensures { Spells self.old self.new (Identifier word.now ∷ []) }
    {
        self.push(Token::Identifier(word));
    }

    /// Appends a number.
    pub fn push_number(&mut self, number: u64)
        ensures { Spells self.old self.new (Number number ∷ []) }
    {
        self.push(Token::Number(number));
    }

    /// Appends a symbol.
    pub fn push_sign(&mut self, symbol: Symbol)
        ensures { Spells self.old self.new (Sign symbol ∷ []) }
    {
        self.push(Token::Sign(symbol));
    }

    /// Appends a name.
    pub fn push_name(&mut self, name: &'a Name)
        ensures { Spells self.old self.new (Identifier name.now ∷ []) }
    {
        self.push_identifier(name.letters());
    }

    /// Appends an index.
    pub fn push_index(&mut self, index: &'a Index)
        ensures { Spells self.old self.new (spelled_index index.now) }
    {
        self.push(index_token(index));
    }

    /// Appends `[I]`.
    pub fn push_bracketed(&mut self, index: &'a Index)
        ensures { Spells self.old self.new (in_brackets (spelled_index index.now)) }
    {
        self.push_sign(Symbol::OpenBracket);
        self.push_index(index);
        self.push_sign(Symbol::CloseBracket);
    }

    /// Appends `[I,J]`.
    pub fn push_pair(&mut self, first: &'a Index, second: &'a Index)
        ensures { Spells self.old self.new (spelled_pair first.now second.now) }
    {
        self.push_sign(Symbol::OpenBracket);
        self.push_index(first);
        self.push_sign(Symbol::Comma);
        self.push_index(second);
        self.push_sign(Symbol::CloseBracket);
    }

    /// Appends a local and `[I]`.
    pub fn push_place(&mut self, name: &'a Name, index: &'a Index)
        ensures { Spells self.old self.new (spelled_place name.now index.now) }
    {
        self.push_name(name);
        self.push_bracketed(index);
    }

    /// Appends `(W[I])`.
    pub fn push_word_place(&mut self, words: &'a Name, index: &'a Index)
        ensures { Spells self.old self.new (in_parentheses (spelled_place words.now index.now)) }
    {
        self.push_sign(Symbol::OpenParenthesis);
        self.push_place(words, index);
        self.push_sign(Symbol::CloseParenthesis);
    }

    /// Appends `handshake(W[I],J)`.
    fn push_handshake(&mut self, words: &'a Name, index: &'a Index, handshake: &'a Index)
        ensures { Spells self.old self.new
            (spelled_term (term.Handshake words.now index.now handshake.now)) }
    {
        self.push_identifier(b"hand");
        self.push_sign(Symbol::OpenParenthesis);
        self.push_place(words, index);
        self.push_sign(Symbol::Comma);
        self.push_index(handshake);
        self.push_sign(Symbol::CloseParenthesis);
    }

    /// Appends a term.
    pub fn push_term(&mut self, term: &'a Term)
        ensures { Spells self.old self.new (spelled_term term.now) }
    {
        match term {
            Term::Index(index) => self.push_index(index),
            Term::Arg => self.push_identifier(b"arg"),
            Term::Row(row, index) => self.push_place(row, index),
            Term::Field(field, words, index) => {
                self.push_identifier(field_keyword(*field));
                self.push_word_place(words, index);
            }
            Term::Handshake(words, index, handshake) => self.push_handshake(
                words, index, handshake,
            ),
        }
    }

    /// Appends an expression.
    pub fn push_expr(&mut self, expr: &'a Expr)
        ensures { Spells self.old self.new (spelled_expr expr.now) }
    {
        match expr {
            Expr::Term(term) => self.push_term(term),
            Expr::Sum(left, right) => {
                self.push_term(left);
                self.push_sign(Symbol::Plus);
                self.push_term(right);
            }
            Expr::Not(term) => {
                self.push_identifier(b"not");
                self.push_term(term);
            }
        }
    }

    /// Appends a comparison.
    fn push_comparison(&mut self, comparison: &'a Comparison)
        ensures { Spells self.old self.new (spelled_comparison comparison.now) }
    {
        self.push_term(&comparison.left);
        self.push_sign(relation_symbol(comparison.relation));
        self.push_term(&comparison.right);
    }

    /// Appends a comparison behind `and` or `or`.
    fn push_joined(&mut self, join: Join, comparison: &'a Comparison)
        ensures { Spells self.old self.new
            (Identifier (join_keyword join) ∷ spelled_comparison comparison.now) }
    {
        self.push_identifier(join_keyword(join));
        self.push_comparison(comparison);
    }

    /// Appends a condition.
    pub fn push_condition(&mut self, condition: &'a Condition)
        ensures { Spells self.old self.new (spelled_condition condition.now) }
    {
        match condition {
            Condition::One(first) => self.push_comparison(first),
            Condition::Two(join, first, second) => {
                self.push_comparison(first);
                self.push_joined(*join, second);
            }
            Condition::Three(join, first, second, third) => {
                self.push_comparison(first);
                self.push_joined(*join, second);
                self.push_joined(*join, third);
            }
            Condition::Four(join, first, second, third, fourth) => {
                self.push_comparison(first);
                self.push_joined(*join, second);
                self.push_joined(*join, third);
                self.push_joined(*join, fourth);
            }
        }
    }

    /// Appends `where C`, or nothing where there is no condition.
    pub fn push_where(&mut self, condition: &'a Option<Condition>)
        ensures { Spells self.old self.new (spelled_where condition.now) }
    {
        match condition {
            None => {}
            Some(condition) => {
                self.push_identifier(b"where");
                self.push_condition(condition);
            }
        }
    }

    /// Appends `n` or `w`.
    pub fn push_range(&mut self, range: Range)
        ensures { Spells self.old self.new (spelled_range range ∷ []) }
    {
        self.push_identifier(range_keyword(range));
    }

    /// Appends `goto N`.
    pub fn push_target(&mut self, target: u64)
        ensures { Spells self.old self.new (spelled_target target) }
    {
        self.push_identifier(b"goto");
        self.push_number(target);
    }
}
