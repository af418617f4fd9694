//! The lines that read and write registers.
use crate::writer::{Here, Writer};
use snap_semantics::{BitBank, Expr, Index, Name, Tuple};
use snap_words::KindTag;

/// The word that a line reads, and the place to which it goes.
#[derive(Clone, Copy)]
struct Read<'b> {
    words: &'b Name,
    to: &'b Index,
    from: &'b Index,
}

/// Returns the letter of a bank of bits.
fn bank_text(bank: BitBank) -> &'static [u8] {
    match bank {
        BitBank::Q => b"q",
        BitBank::P => b"p",
    }
}

impl<'a> Writer<'a> {
    /// Copies a part of a register to the word of a local.
    fn read_part(&mut self, here: &Here, read: &Read<'_>, part: &[u8]) {
        self.word_place(here, read.words, read.to);
        self.say(part);
        self.say(b" = r");
        self.place(here, read.from);
        self.say(part);
        self.say(b"; ");
    }

    /// Copies items of a register to the word of a local.
    fn read_items(&mut self, here: &Here, read: &Read<'_>, part: &[u8], count: u64) {
        for k in 0..count {
            self.word_place(here, read.words, read.to);
            self.say(part);
            self.fill(b"[$] = r", &[k]);
            self.place(here, read.from);
            self.say(part);
            self.fill(b"[$]; ", &[k]);
        }
    }

    /// Copies a register to the word of a local.
    fn read_word(&mut self, here: &Here, read: &Read<'_>) {
        let n = self.n;
        let w = self.w;
        self.read_part(here, read, b".data");
        match self.kind() {
            KindTag::Seq => {
                self.read_part(here, read, b".seq");
                self.read_items(here, read, b".view", w);
            }
            KindTag::Bits => {
                self.read_part(here, read, b".toggle");
                self.read_items(here, read, b".hand", n);
                self.read_items(here, read, b".view", w);
            }
            KindTag::Multi => {
                self.read_part(here, read, b".id");
                self.read_part(here, read, b".toggle");
            }
        }
    }

    /// Appends `get W[I] = r[J]`.
    pub(crate) fn get_line<'b>(
        &mut self,
        here: &Here,
        words: &'b Name,
        to: &'b Index,
        from: &'b Index,
    ) {
        let next = self.listing.following(here.line);
        let places = self.places();
        let w = self.w;
        self.begin(here);
        self.index_fault(here, to, places);
        self.index_fault(here, from, w);
        self.effect(here, next);
        let read = Read { words, to, from };
        self.read_word(here, &read);
        self.end(next);
    }

    /// Appends a bit of a bank.
    fn bank_bit(&mut self, here: &Here, bank: BitBank, first: &Index, second: &Index) {
        let n = self.n;
        self.say(bank_text(bank));
        self.say(b"[(");
        self.index(here, first);
        self.fill(b" - 1) * $ + ", &[n]);
        self.index(here, second);
        self.say(b" - 1]");
    }

    /// Appends `bit X = q[I,J]` or `bit X = p[I,J]`.
    pub(crate) fn bit_line(
        &mut self,
        here: &Here,
        scalar: &Name,
        bank: BitBank,
        first: &Index,
        second: &Index,
    ) {
        let next = self.listing.following(here.line);
        let n = self.n;
        self.begin(here);
        self.index_fault(here, first, n);
        self.index_fault(here, second, n);
        self.effect(here, next);
        self.local(b"X_", scalar);
        self.say(b" = ");
        self.bank_bit(here, bank, first, second);
        self.say(b"; ");
        self.end(next);
    }

    /// Appends `look S = v[I]`.
    pub(crate) fn look_line(&mut self, here: &Here, view: &Name, index: &Index) {
        let next = self.listing.following(here.line);
        let n = self.n;
        self.begin(here);
        self.index_fault(here, index, n);
        self.effect(here, next);
        for k in 0..self.w {
            self.local(b"S_", view);
            self.fill(b"[$] = v", &[k]);
            self.place(here, index);
            self.fill(b".view[$]; ", &[k]);
        }
        self.end(next);
    }

    /// Appends the faults of a row that is written as bits, and of a toggle.
    fn row_bit_faults(&mut self, here: &Here, row: &Name) {
        let me = here.me;
        let line = here.line;
        for k in 0..self.n {
            self.say(b"    FAULT(NOBIT(");
            self.local(b"R_", row);
            self.fill(b"[$]), NotABit, $, $)\n", &[k, me, line]);
        }
    }

    /// Appends the faults of a tuple.
    fn tuple_faults(&mut self, here: &Here, tuple: &Tuple) {
        match tuple {
            Tuple::Seq(datum, seq, _) => {
                self.stored_faults(here, datum);
                self.stored_faults(here, seq);
            }
            Tuple::Bits(datum, row, toggle, _) => {
                self.stored_faults(here, datum);
                self.expr_faults(here, toggle);
                self.bit_fault(here, toggle);
                self.row_bit_faults(here, row);
            }
            Tuple::Multi(datum, id, toggle) => {
                self.stored_faults(here, datum);
                self.stored_faults(here, id);
                self.expr_faults(here, toggle);
                self.bit_fault(here, toggle);
            }
        }
    }

    /// Sets a field of a register to the value of an expression.
    fn write_part(&mut self, here: &Here, index: &Index, part: &[u8], value: &Expr) {
        self.say(b"r");
        self.place(here, index);
        self.say(part);
        self.say(b" = ");
        self.expr(here, value);
        self.say(b"; ");
    }

    /// Copies items of a local to a register.
    fn write_items(&mut self, here: &Here, index: &Index, part: &[u8], sort: &[u8], local: &Name) {
        let count = if sort == b"R_".as_slice() {
            self.n
        } else {
            self.w
        };
        for k in 0..count {
            self.say(b"r");
            self.place(here, index);
            self.say(part);
            self.fill(b"[$] = ", &[k]);
            self.local(sort, local);
            self.fill(b"[$]; ", &[k]);
        }
    }

    /// Sets a register to a tuple.
    fn write_word(&mut self, here: &Here, index: &Index, tuple: &Tuple) {
        match tuple {
            Tuple::Seq(datum, seq, view) => {
                self.write_part(here, index, b".data", datum);
                self.write_part(here, index, b".seq", seq);
                self.write_items(here, index, b".view", b"S_", view);
            }
            Tuple::Bits(datum, row, toggle, view) => {
                self.write_part(here, index, b".data", datum);
                self.write_part(here, index, b".toggle", toggle);
                self.write_items(here, index, b".hand", b"R_", row);
                self.write_items(here, index, b".view", b"S_", view);
            }
            Tuple::Multi(datum, id, toggle) => {
                self.write_part(here, index, b".data", datum);
                self.write_part(here, index, b".id", id);
                self.write_part(here, index, b".toggle", toggle);
            }
        }
    }

    /// Appends `put r[I] = ` and a tuple.
    pub(crate) fn put_line(&mut self, here: &Here, index: &Index, tuple: &Tuple) {
        let next = self.listing.following(here.line);
        let w = self.w;
        self.begin(here);
        self.index_fault(here, index, w);
        self.tuple_faults(here, tuple);
        if self.kind() != KindTag::Multi {
            self.owner_fault(here, index);
        }
        self.effect(here, next);
        self.write_word(here, index, tuple);
        self.notes();
        self.end(next);
    }

    /// Appends `put q[I,J] = E` or `put p[I,J] = E`.
    pub(crate) fn put_bit_line(
        &mut self,
        here: &Here,
        bank: BitBank,
        first: &Index,
        second: &Index,
        value: &Expr,
    ) {
        let next = self.listing.following(here.line);
        let n = self.n;
        self.begin(here);
        self.index_fault(here, first, n);
        self.index_fault(here, second, n);
        self.expr_faults(here, value);
        self.bit_fault(here, value);
        self.owner_fault(here, first);
        self.effect(here, next);
        self.bank_bit(here, bank, first, second);
        self.say(b" = ");
        self.expr(here, value);
        self.say(b"; ");
        self.end(next);
    }

    /// Appends `put v[I] = S`.
    pub(crate) fn put_view_line(&mut self, here: &Here, index: &Index, view: &Name) {
        let next = self.listing.following(here.line);
        let n = self.n;
        self.begin(here);
        self.index_fault(here, index, n);
        self.owner_fault(here, index);
        self.effect(here, next);
        for k in 0..self.w {
            self.say(b"v");
            self.place(here, index);
            self.fill(b".view[$] = ", &[k]);
            self.local(b"S_", view);
            self.fill(b"[$]; ", &[k]);
        }
        self.end(next);
    }
}
