//! The lines of a listing, each as a label with its ways out.
use crate::writer::{Here, Writer};
use snap_semantics::{Expr, Index, Instr, Line, Name};

impl<'a> Writer<'a> {
    /// Appends `let X = E`.
    fn let_line(&mut self, here: &Here, scalar: &Name, value: &Expr) {
        let next = self.listing.following(here.line);
        self.begin(here);
        self.stored_faults(here, value);
        self.effect(here, next);
        self.local(b"X_", scalar);
        self.say(b" = ");
        self.expr(here, value);
        self.say(b"; ");
        self.end(next);
    }

    /// Appends `let R[I] = E`.
    fn let_place_line(&mut self, here: &Here, row: &Name, index: &Index, value: &Expr) {
        let next = self.listing.following(here.line);
        let places = self.places();
        self.begin(here);
        self.index_fault(here, index, places);
        self.stored_faults(here, value);
        self.effect(here, next);
        self.local(b"R_", row);
        self.place(here, index);
        self.say(b" = ");
        self.expr(here, value);
        self.say(b"; ");
        self.end(next);
    }

    /// Appends `view S = data(W)`.
    fn view_data_line(&mut self, here: &Here, view: &Name, words: &Name) {
        let next = self.listing.following(here.line);
        self.begin(here);
        self.effect(here, next);
        for k in 0..self.w {
            self.local(b"S_", view);
            self.fill(b"[$] = ", &[k]);
            self.local(b"W_", words);
            self.fill(b"[$].data; ", &[k]);
        }
        self.end(next);
    }

    /// Appends `view S = view(W[I])`.
    fn view_of_line(&mut self, here: &Here, view: &Name, words: &Name, index: &Index) {
        let next = self.listing.following(here.line);
        let places = self.places();
        self.begin(here);
        self.index_fault(here, index, places);
        self.effect(here, next);
        for k in 0..self.w {
            self.local(b"S_", view);
            self.fill(b"[$] = ", &[k]);
            self.word_place(here, words, index);
            self.fill(b".view[$]; ", &[k]);
        }
        self.end(next);
    }

    /// Appends a line that neither tests nor leads elsewhere, or another one.
    fn plain_line(&mut self, here: &Here, instr: &Instr) {
        match instr {
            Instr::Let(scalar, value) => self.let_line(here, scalar, value),
            Instr::LetPlace(row, index, value) => self.let_place_line(here, row, index, value),
            Instr::Get(words, to, from) => self.get_line(here, words, to, from),
            Instr::Bit(scalar, bank, i, j) => self.bit_line(here, scalar, *bank, i, j),
            Instr::Look(view, index) => self.look_line(here, view, index),
            Instr::Put(index, tuple) => self.put_line(here, index, tuple),
            Instr::PutBit(bank, i, j, value) => self.put_bit_line(here, *bank, i, j, value),
            Instr::PutView(index, view) => self.put_view_line(here, index, view),
            Instr::ViewData(view, words) => self.view_data_line(here, view, words),
            Instr::ViewOf(view, words, index) => self.view_of_line(here, view, words, index),
            other => self.control_line(here, other),
        }
    }

    /// Appends a line that goes over all places, tests or leads elsewhere.
    fn control_line(&mut self, here: &Here, instr: &Instr) {
        match instr {
            Instr::Each(range, row, value, condition) => {
                self.each_line(here, *range, row, value, condition);
            }
            Instr::First(scalar, range, condition, target) => {
                self.first_line(here, scalar, *range, condition, *target);
            }
            Instr::Next(scalar, range, target) => self.next_line(here, scalar, *range, *target),
            Instr::If(condition, target) => self.if_line(here, condition, *target),
            Instr::IfAll(range, condition, target) => {
                self.if_all_line(here, *range, condition, *target);
            }
            Instr::Goto(target) => self.goto_line(here, *target),
            Instr::Call(target) => self.call_line(here, *target),
            Instr::Return(view) => self.return_line(here, view),
            Instr::Finish => self.finish_line(here),
            _ => {}
        }
    }

    /// Appends a line, for a process.
    fn line(&mut self, me: u64, line: &Line) {
        let here = Here {
            me,
            line: line.number,
            place: 1,
            aside: None,
        };
        self.plain_line(&here, &line.instr);
    }

    /// Appends all lines, for a process.
    pub(crate) fn lines(&mut self, me: u64) {
        let listing = self.listing;
        for line in listing.lines() {
            self.line(me, line);
        }
    }
}
