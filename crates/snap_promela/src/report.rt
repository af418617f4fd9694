//! What a process of a simulation prints at its end: its state, and after the last one the
//! registers, as a report has them.
use crate::writer::Writer;
use snap_semantics::Name;
use snap_words::KindTag;

/// The words that are printed: those of a local, or the registers.
#[derive(Clone, Copy)]
enum Printed<'b> {
    Local(&'b Name),
    Registers,
}

impl<'a> Writer<'a> {
    /// Appends ` %d` for each of `count` items.
    fn blanks(&mut self, count: u64) {
        for k in 0..count {
            self.say(b" %d");
        }
    }

    /// Appends the items of an array, as arguments.
    fn items(&mut self, sort: &[u8], name: &Name, count: u64) {
        for k in 0..count {
            self.say(b", ");
            self.local(sort, name);
            self.fill(b"[$]", &[k]);
        }
    }

    /// Appends the line of a row or of a view.
    fn print_items(&mut self, me: u64, sort: &[u8], name: &Name, count: u64) {
        self.fill(b"  printf(\"= $   ", &[me]);
        self.say(name.letters());
        self.say(b" =");
        self.blanks(count);
        self.say(b"\\n\"");
        self.items(sort, name, count);
        self.say(b");\n");
    }

    /// Appends a place of words.
    fn printed(&mut self, printed: Printed<'_>, place: u64) {
        match printed {
            Printed::Local(name) => self.local(b", W_", name),
            Printed::Registers => self.say(b", r"),
        }
        self.fill(b"[$]", &[place]);
    }

    /// Appends a part of a word, as an argument.
    fn printed_part(&mut self, printed: Printed<'_>, place: u64, part: &[u8]) {
        self.printed(printed, place);
        self.say(part);
    }

    /// Items of a word, as arguments.
    fn printed_items(&mut self, printed: Printed<'_>, place: u64, part: &[u8], count: u64) {
        for k in 0..count {
            self.printed(printed, place);
            self.say(part);
            self.fill(b"[$]", &[k]);
        }
    }

    /// Appends the end of the line of a word, behind its name and `=`.
    fn word_end(&mut self, printed: Printed<'_>, place: u64) {
        let n = self.n;
        let w = self.w;
        self.say(b" = %d");
        match self.kind() {
            KindTag::Seq => {
                self.say(b" seq %d view");
                self.blanks(w);
                self.say(b"\\n\"");
                self.printed_part(printed, place, b".data");
                self.printed_part(printed, place, b".seq");
                self.printed_items(printed, place, b".view", w);
            }
            KindTag::Bits => {
                self.say(b" hands");
                self.blanks(n);
                self.say(b" toggle %d view");
                self.blanks(w);
                self.say(b"\\n\"");
                self.printed_part(printed, place, b".data");
                self.printed_items(printed, place, b".hand", n);
                self.printed_part(printed, place, b".toggle");
                self.printed_items(printed, place, b".view", w);
            }
            KindTag::Multi => {
                self.say(b" id %d toggle %d\\n\"");
                self.printed_part(printed, place, b".data");
                self.printed_part(printed, place, b".id");
                self.printed_part(printed, place, b".toggle");
            }
        }
        self.say(b");\n");
    }

    /// Appends the lines of a `words` local.
    fn print_words(&mut self, me: u64, name: &Name) {
        for k in 0..self.places() {
            self.fill(b"  printf(\"= $   ", &[me]);
            self.say(name.letters());
            self.fill(b" $", &[k + 1]);
            self.word_end(Printed::Local(name), k);
        }
    }

    /// Appends the lines of the scalars of a process.
    fn print_scalars(&mut self, me: u64) {
        let listing = self.listing;
        for name in listing.scalars() {
            self.fill(b"  printf(\"= $   ", &[me]);
            self.say(name.letters());
            self.local(b" = %d\\n\", X_", name);
            self.say(b");\n");
        }
    }

    /// Appends the lines of the locals of a process.
    fn print_locals(&mut self, me: u64) {
        let listing = self.listing;
        let places = self.places();
        let w = self.w;
        self.print_scalars(me);
        self.print_rows(me, listing.rows(), b"R_", places);
        for name in listing.words() {
            self.print_words(me, name);
        }
        self.print_rows(me, listing.views(), b"S_", w);
    }

    /// Appends the lines of rows or of views.
    fn print_rows(&mut self, me: u64, names: &[Name], sort: &[u8], count: u64) {
        for name in names {
            self.print_items(me, sort, name, count);
        }
    }

    /// Appends the lines of a bank of bits.
    fn print_bank(&mut self, bank: &[u8]) {
        let n = self.n;
        for k in 0..n {
            self.print_bank_row(bank, k + 1, k);
        }
    }

    /// Appends the lines of a row of a bank of bits, behind `before` others.
    fn print_bank_row(&mut self, bank: &[u8], row: u64, before: u64) {
        let n = self.n;
        for j in 0..n {
            self.say(b"  printf(\"= 0 ");
            self.say(bank);
            self.fill(b" $ $ = %d\\n\", ", &[row, j + 1]);
            self.say(bank);
            self.fill(b"[$ * $ + $]);\n", &[before, n, j]);
        }
    }

    /// Appends the lines of the views.
    fn print_views(&mut self) {
        for k in 0..self.n {
            self.fill(b"  printf(\"= 0 v $ =", &[k + 1]);
            let w = self.w;
            self.blanks(w);
            self.say(b"\\n\"");
            self.view_items(k);
            self.say(b");\n");
        }
    }

    /// Appends the items of a view, as arguments.
    fn view_items(&mut self, view: u64) {
        for k in 0..self.w {
            self.fill(b", v[$].view[$]", &[view, k]);
        }
    }

    /// Appends the line of the values.
    fn print_values(&mut self) {
        let w = self.w;
        self.say(b"  printf(\"= 0 values");
        self.blanks(w);
        self.say(b"\\n\"");
        for k in 0..w {
            self.fill(b", r[$].data", &[k]);
        }
        self.say(b");\n");
    }

    /// Appends the lines of the registers.
    fn print_registers(&mut self) {
        self.print_values();
        for k in 0..self.w {
            self.fill(b"  printf(\"= 0 r $", &[k + 1]);
            self.word_end(Printed::Registers, k);
        }
        match self.kind() {
            KindTag::Seq => {}
            KindTag::Bits => self.print_bank(b"q"),
            KindTag::Multi => {
                self.print_bank(b"q");
                self.print_bank(b"p");
                self.print_views();
            }
        }
    }

    /// Appends what a process of a simulation prints at its end.
    pub(crate) fn report(&mut self, me: u64) {
        let n = self.n;
        self.fill(b"; d_step {\n  REPORT($)\n", &[me]);
        self.print_locals(me);
        self.fill(b"  ended++; if :: ended == $ ->\n", &[n]);
        self.print_registers();
        self.say(b"  skip :: else -> skip fi }\n");
    }
}
