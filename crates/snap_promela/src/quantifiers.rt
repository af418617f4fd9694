//! The lines that go over all places, and the lines that test.
use crate::writer::{Here, Writer};
use snap_semantics::{Condition, Expr, Name, Range};

impl<'a> Writer<'a> {
    /// Returns how many places a quantifier goes over.
    fn range_end(&self, range: Range) -> u64 {
        match range {
            Range::Processes => self.n,
            Range::Words => self.w,
        }
    }

    /// Appends the faults of the new value of a place.
    fn each_fault(&mut self, here: &Here, value: &Expr, condition: &Option<Condition>) {
        self.stored_faults(here, value);
        if let Some(condition) = condition {
            self.condition_faults(here, condition);
        }
    }

    /// Appends the new value of a place, which is `k` counted from 0, from the old ones.
    fn each_value(
        &mut self,
        here: &Here,
        k: u64,
        row: &Name,
        value: &Expr,
        condition: &Option<Condition>,
    ) {
        self.local(b"R_", row);
        self.fill(b"[$] = ", &[k]);
        match condition {
            None => self.expr(here, value),
            Some(condition) => {
                self.say(b"(");
                self.condition(here, condition);
                self.say(b" -> ");
                self.expr(here, value);
                self.fill(b" : OLD[$])", &[k]);
            }
        }
        self.say(b"; ");
    }

    /// Keeps the old values of a row aside.
    fn keep_old(&mut self, row: &Name) {
        for k in 0..self.places() {
            self.fill(b"OLD[$] = ", &[k]);
            self.local(b"R_", row);
            self.fill(b"[$]; ", &[k]);
        }
    }

    /// Clears what was kept aside.
    fn clear_old(&mut self) {
        for k in 0..self.places() {
            self.fill(b"OLD[$] = 0; ", &[k]);
        }
    }

    /// Appends `each G: R[@] = E where C`.
    pub(crate) fn each_line(
        &mut self,
        here: &Here,
        range: Range,
        row: &Name,
        value: &Expr,
        condition: &Option<Condition>,
    ) {
        let next = self.listing.following(here.line);
        let count = self.range_end(range);
        self.begin(here);
        for k in 0..count {
            let there = here.at(k + 1);
            self.each_fault(&there, value, condition);
        }
        self.effect(here, next);
        self.keep_old(row);
        self.each_values(here, count, row, value, condition);
        self.clear_old();
        self.end(next);
    }

    /// Appends the new values of all places.
    fn each_values(
        &mut self,
        here: &Here,
        count: u64,
        row: &Name,
        value: &Expr,
        condition: &Option<Condition>,
    ) {
        for k in 0..count {
            let there = Here {
                me: here.me,
                line: here.line,
                place: k + 1,
                aside: Some(*row),
            };
            self.each_value(&there, k, row, value, condition);
        }
    }

    /// Appends whether an index of a condition is no place, at any of `count` places.
    fn any_outside(&mut self, here: &Here, count: u64, condition: &Condition) {
        self.say(b"(0");
        for k in 0..count {
            let there = here.at(k + 1);
            self.or_condition_outside(&there, condition);
        }
        self.say(b")");
    }

    /// Appends the condition at all places, joined.
    fn at_all(&mut self, here: &Here, count: u64, condition: &Condition, join: &[u8]) {
        self.say(b"(");
        for k in 0..count {
            if k > 0 {
                self.say(join);
            }
            let there = here.at(k + 1);
            self.condition(&there, condition);
        }
        self.say(b")");
    }

    /// Appends the front of a way out of a test, and the one before it that traps.
    fn test(&mut self, here: &Here, count: u64, condition: &Condition) {
        self.label(here);
        self.option(here);
        self.say(b" && ");
        self.any_outside(here, count, condition);
        self.traps(here, b"Index");
    }

    /// Appends the front of a way out that is open if a condition holds at all places so joined, or
    /// if it does not.
    fn outcome(
        &mut self,
        here: &Here,
        count: u64,
        condition: &Condition,
        join: &[u8],
        sign: &[u8],
    ) {
        self.option(here);
        self.say(b" && !");
        self.any_outside(here, count, condition);
        self.say(sign);
        self.at_all(here, count, condition, join);
        self.steps(here);
    }

    /// Appends a test that leads to `target` or to the next line.
    fn test_line(
        &mut self,
        here: &Here,
        count: u64,
        condition: &Condition,
        join: &[u8],
        target: u64,
    ) {
        let next = self.listing.following(here.line);
        self.test(here, count, condition);
        self.outcome(here, count, condition, join, b" && ");
        self.say(b"skip");
        self.leads(here, Some(target));
        self.outcome(here, count, condition, join, b" && !");
        self.say(b"skip");
        self.leads(here, next);
        self.say(b"  fi;\n");
    }

    /// Appends `if C goto N`.
    pub(crate) fn if_line(&mut self, here: &Here, condition: &Condition, target: u64) {
        self.test_line(here, 1, condition, b" && ", target);
    }

    /// Appends `if all G: C goto N`.
    pub(crate) fn if_all_line(
        &mut self,
        here: &Here,
        range: Range,
        condition: &Condition,
        target: u64,
    ) {
        let count = self.range_end(range);
        self.test_line(here, count, condition, b" && ", target);
    }

    /// Appends the least place at which a condition holds, if there is one.
    fn least(&mut self, here: &Here, count: u64, condition: &Condition) {
        for k in 0..count {
            self.say(b"(");
            let there = here.at(k + 1);
            self.condition(&there, condition);
            self.fill(b" -> $ : ", &[k + 1]);
        }
        self.say(b"0");
        self.repeat(count, b")");
    }

    /// Appends `first X G: C goto N`.
    pub(crate) fn first_line(
        &mut self,
        here: &Here,
        scalar: &Name,
        range: Range,
        condition: &Condition,
        target: u64,
    ) {
        let next = self.listing.following(here.line);
        let count = self.range_end(range);
        self.test(here, count, condition);
        self.outcome(here, count, condition, b" || ", b" && ");
        self.local(b"X_", scalar);
        self.say(b" = ");
        self.least(here, count, condition);
        self.leads(here, Some(target));
        self.outcome(here, count, condition, b" || ", b" && !");
        self.say(b"skip");
        self.leads(here, next);
        self.say(b"  fi;\n");
    }

    /// Appends the front of a way out of `next`.
    fn next_outcome(&mut self, here: &Here, scalar: &Name, range: Range, sign: &[u8]) {
        let count = self.range_end(range);
        self.option(here);
        self.say(sign);
        self.say(b"LESS(");
        self.local(b"X_", scalar);
        self.fill(b", $)", &[count]);
        self.steps(here);
    }

    /// Appends `next X G goto N`.
    pub(crate) fn next_line(&mut self, here: &Here, scalar: &Name, range: Range, target: u64) {
        let next = self.listing.following(here.line);
        self.label(here);
        self.next_outcome(here, scalar, range, b" && ");
        self.local(b"X_", scalar);
        self.say(b"++");
        self.leads(here, Some(target));
        self.next_outcome(here, scalar, range, b" && !");
        if next.is_some() {
            self.local(b"X_", scalar);
            self.say(b" = 1");
        } else {
            self.say(b"skip");
        }
        self.leads(here, next);
        self.say(b"  fi;\n");
    }
}
