//! Indices, terms, expressions and conditions as expressions of Promela; and the faults of their
//! operands, as lines that trap.
use crate::writer::{Here, Writer};
use snap_semantics::{Comparison, Condition, Expr, Index, Join, Name, Relation, Term};
use snap_words::Field;

/// Returns the operator of a join.
fn join_text(join: Join) -> &'static [u8] {
    match join {
        Join::And => b" && ",
        Join::Or => b" || ",
    }
}

/// The greatest number that every cell holds.
const MOST_HELD: u64 = 255;

/// Returns what stands before the operands of a relation, between them and behind them.
fn relation_texts(relation: Relation) -> (&'static [u8], &'static [u8], &'static [u8]) {
    match relation {
        Relation::Equal => (b"(", b" == ", b")"),
        Relation::Different => (b"(", b" != ", b")"),
        Relation::Less => (b"LESS(", b", ", b")"),
    }
}

/// Returns whether a cell may not hold the value of an expression.
fn may_be_left_out(expr: &Expr) -> bool {
    match expr {
        Expr::Sum(_, _) => true,
        Expr::Term(Term::Index(Index::Number(number))) => *number > MOST_HELD,
        _ => false,
    }
}

impl<'a> Writer<'a> {
    /// Appends an index.
    pub(crate) fn index(&mut self, here: &Here, index: &Index) {
        match index {
            Index::Number(number) => self.value(*number),
            Index::Processes => self.number(self.n),
            Index::Words => self.number(self.w),
            Index::Me => self.number(here.me),
            Index::Word => self.say(b"word"),
            Index::Place => self.number(here.place),
            Index::Scalar(scalar) => self.local(b"X_", scalar),
        }
    }

    /// Appends `[I - 1]`.
    pub(crate) fn place(&mut self, here: &Here, index: &Index) {
        self.say(b"[");
        self.index(here, index);
        self.say(b" - 1]");
    }

    /// Appends a row, or its old values if they are kept aside.
    fn row(&mut self, here: &Here, row: &Name) {
        match here.aside {
            Some(aside) if aside.is(row) => self.say(b"OLD"),
            _ => self.local(b"R_", row),
        }
    }

    /// Appends a place of a `words` local.
    pub(crate) fn word_place(&mut self, here: &Here, words: &Name, index: &Index) {
        self.local(b"W_", words);
        self.place(here, index);
    }

    /// Appends a field of a word.
    fn field(&mut self, field: Field) {
        self.say(match field {
            Field::Datum => b".data",
            Field::Seq => b".seq",
            Field::Id => b".id",
            Field::Toggle => b".toggle",
        });
    }

    /// Appends a term.
    pub(crate) fn term(&mut self, here: &Here, term: &Term) {
        match term {
            Term::Index(index) => self.index(here, index),
            Term::Arg => self.say(b"arg"),
            Term::Row(row, index) => {
                self.row(here, row);
                self.place(here, index);
            }
            Term::Field(field, words, index) => {
                self.word_place(here, words, index);
                self.field(*field);
            }
            Term::Handshake(words, index, handshake) => {
                self.word_place(here, words, index);
                self.say(b".hand");
                self.place(here, handshake);
            }
        }
    }

    /// Appends an expression.
    pub(crate) fn expr(&mut self, here: &Here, expr: &Expr) {
        match expr {
            Expr::Term(term) => self.term(here, term),
            Expr::Sum(left, right) => {
                self.say(b"(");
                self.term(here, left);
                self.say(b" + ");
                self.term(here, right);
                self.say(b")");
            }
            Expr::Not(term) => {
                self.say(b"(");
                self.term(here, term);
                self.say(b" == 0)");
            }
        }
    }

    /// Appends a comparison.
    fn comparison(&mut self, here: &Here, comparison: &Comparison) {
        let (before, between, behind) = relation_texts(comparison.relation);
        self.say(before);
        self.term(here, &comparison.left);
        self.say(between);
        self.term(here, &comparison.right);
        self.say(behind);
    }

    /// Appends a comparison behind others.
    fn joined(&mut self, here: &Here, join: Join, comparison: &Comparison) {
        self.say(join_text(join));
        self.comparison(here, comparison);
    }

    /// Appends a condition, in parentheses.
    pub(crate) fn condition(&mut self, here: &Here, condition: &Condition) {
        self.say(b"(");
        match condition {
            Condition::One(first) => self.comparison(here, first),
            Condition::Two(join, first, second) => {
                self.comparison(here, first);
                self.joined(here, *join, second);
            }
            Condition::Three(join, first, second, third) => {
                self.comparison(here, first);
                self.joined(here, *join, second);
                self.joined(here, *join, third);
            }
            Condition::Four(join, first, second, third, fourth) => {
                self.comparison(here, first);
                self.joined(here, *join, second);
                self.joined(here, *join, third);
                self.joined(here, *join, fourth);
            }
        }
        self.say(b")");
    }

    /// Appends the end of a line that traps.
    fn fault_end(&mut self, here: &Here, cause: &[u8]) {
        let me = here.me;
        let line = here.line;
        self.say(b", ");
        self.say(cause);
        self.fill(b", $, $)\n", &[me, line]);
    }

    /// Traps if a condition of Promela holds that needs no operand.
    pub(crate) fn fault(&mut self, here: &Here, condition: &[u8], cause: &[u8]) {
        self.say(b"    FAULT(");
        self.say(condition);
        self.fault_end(here, cause);
    }

    /// Returns whether an index is one of `count` places, whatever the state.
    fn is_place(&self, here: &Here, index: &Index, count: u64) -> bool {
        let place = match index {
            Index::Number(number) => *number,
            Index::Processes => self.n,
            Index::Words => self.w,
            Index::Me => here.me,
            Index::Place => here.place,
            Index::Word | Index::Scalar(_) => 0,
        };
        1 <= place && place <= count
    }

    /// Appends whether an index is none of `count` places.
    fn outside(&mut self, here: &Here, index: &Index, count: u64) {
        self.say(b"!(1 <= ");
        self.index(here, index);
        self.say(b" && ");
        self.index(here, index);
        self.fill(b" <= $)", &[count]);
    }

    /// Traps if an index is none of `count` places.
    pub(crate) fn index_fault(&mut self, here: &Here, index: &Index, count: u64) {
        if !self.is_place(here, index, count) {
            self.say(b"    FAULT(");
            self.outside(here, index, count);
            self.fault_end(here, b"Index");
        }
    }

    /// Traps if an index is another process's number.
    pub(crate) fn owner_fault(&mut self, here: &Here, index: &Index) {
        let me = here.me;
        self.say(b"    FAULT(");
        self.index(here, index);
        self.fill(b" != $", &[me]);
        self.fault_end(here, b"Owner");
    }

    /// Traps if an expression is no bit.
    pub(crate) fn bit_fault(&mut self, here: &Here, expr: &Expr) {
        self.say(b"    FAULT(NOBIT(");
        self.expr(here, expr);
        self.say(b")");
        self.fault_end(here, b"NotABit");
    }

    /// Appends the faults of a term.
    pub(crate) fn term_faults(&mut self, here: &Here, term: &Term) {
        let places = self.places();
        match term {
            Term::Index(_) | Term::Arg => {}
            Term::Row(_, index) | Term::Field(_, _, index) => {
                self.index_fault(here, index, places);
            }
            Term::Handshake(_, index, handshake) => {
                let n = self.n;
                self.index_fault(here, index, places);
                self.index_fault(here, handshake, n);
            }
        }
    }

    /// Appends a macro of two terms, with what stands before it.
    fn of_two(&mut self, here: &Here, front: &[u8], left: &Term, right: &Term) {
        self.say(front);
        self.term(here, left);
        self.say(b", ");
        self.term(here, right);
        self.say(b")");
    }

    /// Appends the faults of an expression.
    pub(crate) fn expr_faults(&mut self, here: &Here, expr: &Expr) {
        let me = here.me;
        let line = here.line;
        match expr {
            Expr::Term(term) | Expr::Not(term) => self.term_faults(here, term),
            Expr::Sum(left, right) => {
                self.term_faults(here, left);
                self.term_faults(here, right);
                self.of_two(here, b"    FAULT(OVER(", left, right);
                self.fault_end(here, b"Overflow");
                self.of_two(here, b"    KEEP(!BEYOND(", left, right);
                self.fill(b", $, $)\n", &[me, line]);
            }
        }
    }

    /// Appends the faults of an expression whose value is stored, and that a cell holds it.
    pub(crate) fn stored_faults(&mut self, here: &Here, expr: &Expr) {
        self.expr_faults(here, expr);
        self.kept(here, expr);
    }

    /// Checks that a cell holds the value of an expression, which may differ from that of a cell.
    fn kept(&mut self, here: &Here, expr: &Expr) {
        let me = here.me;
        let line = here.line;
        if may_be_left_out(expr) {
            self.say(b"    KEEP(HELD(");
            self.expr(here, expr);
            self.fill(b"), $, $)\n", &[me, line]);
        }
    }

    /// Appends, behind another condition, whether an index is none of `count` places.
    fn or_outside(&mut self, here: &Here, index: &Index, count: u64) {
        if !self.is_place(here, index, count) {
            self.say(b" || ");
            self.outside(here, index, count);
        }
    }

    /// Appends, behind another condition, whether an index of a term is no place.
    fn or_term_outside(&mut self, here: &Here, term: &Term) {
        let places = self.places();
        match term {
            Term::Index(_) | Term::Arg => {}
            Term::Row(_, index) | Term::Field(_, _, index) => {
                self.or_outside(here, index, places);
            }
            Term::Handshake(_, index, handshake) => {
                let n = self.n;
                self.or_outside(here, index, places);
                self.or_outside(here, handshake, n);
            }
        }
    }

    /// Appends, behind another condition, whether an index of a comparison is no place.
    fn or_comparison_outside(&mut self, here: &Here, comparison: &Comparison) {
        self.or_term_outside(here, &comparison.left);
        self.or_term_outside(here, &comparison.right);
    }

    /// Appends, behind another condition, whether an index of a condition is no place.
    pub(crate) fn or_condition_outside(&mut self, here: &Here, condition: &Condition) {
        match condition {
            Condition::One(first) => self.or_comparison_outside(here, first),
            Condition::Two(_, first, second) => {
                self.or_comparison_outside(here, first);
                self.or_comparison_outside(here, second);
            }
            Condition::Three(_, first, second, third) => {
                self.or_comparison_outside(here, first);
                self.or_comparison_outside(here, second);
                self.or_comparison_outside(here, third);
            }
            Condition::Four(_, first, second, third, fourth) => {
                self.or_comparison_outside(here, first);
                self.or_comparison_outside(here, second);
                self.or_comparison_outside(here, third);
                self.or_comparison_outside(here, fourth);
            }
        }
    }

    /// Appends the faults of a condition, whose cause is `Index` alone.
    pub(crate) fn condition_faults(&mut self, here: &Here, condition: &Condition) {
        self.say(b"    FAULT((0");
        self.or_condition_outside(here, condition);
        self.say(b")");
        self.fault_end(here, b"Index");
    }
}
