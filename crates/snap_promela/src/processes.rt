//! The processes: what each declares, its script, its lines, and its end.
use crate::writer::{Here, Writer};
use snap_semantics::{Name, Op};
use snap_words::KindTag;

impl<'a> Writer<'a> {
    /// Appends a declaration of each of `names`.
    fn declare(&mut self, front: &[u8], names: &[Name], count: Option<u64>) {
        for name in names {
            self.local(front, name);
            match count {
                Some(count) => self.fill(b"[$];", &[count]),
                None => self.say(b";"),
            }
        }
        self.say(b"\n");
    }

    /// Appends what a process declares.
    fn declarations(&mut self, me: u64) {
        let listing = self.listing;
        let places = self.places();
        let w = self.w;
        self.fill(b"active proctype P$() {\n", &[me]);
        self.fill(
            b"  byte done; short link; bit upd; byte word; Cell arg; mtype trap; bit crashed; int turn; byte k; bit ok; Cell OLD[$];\n",
            &[places],
        );
        self.say(b"#ifdef SIMULATION\n  short line;\n#endif\n");
        self.declare(b" Cell X_", listing.scalars(), None);
        self.declare(b" Cell R_", listing.rows(), Some(places));
        self.declare(b" Word W_", listing.words(), Some(places));
        self.declare(b" Cell S_", listing.views(), Some(w));
    }

    /// Returns whether an update is called: its word exists, and the process may write it.
    fn is_called(&self, me: u64, word: u64) -> bool {
        1 <= word && word <= self.w && (self.kind() == KindTag::Multi || word == me)
    }

    /// Appends the front of a call, the next one of its script.
    fn call_front(&mut self, here: &Here, k: u64) {
        self.option(here);
        self.fill(b" && done == $ -> done++; ", &[k]);
        self.counts(here);
    }

    /// Appends a call of a scan.
    fn call_scan(&mut self, here: &Here, k: u64) {
        let me = here.me;
        let entry = self.listing.scan();
        self.call_front(here, k);
        self.fill(
            b"printf(\"@ $ scan\\n\"); NOTE_$ }; goto L$\n",
            &[me, me, entry],
        );
    }

    /// Appends a call of an update, which is skipped where its word cannot be written.
    fn call_update(&mut self, here: &Here, k: u64, word: u64, value: u64) {
        let me = here.me;
        let entry = self.listing.update();
        self.call_front(here, k);
        self.fill(b"printf(\"@ $ update $ $\\n\")", &[me, word, value]);
        if !self.is_called(here.me, word) {
            self.say(b" }; goto Idle\n");
            return;
        }
        self.say(b"; KEEP(HELD(");
        self.value(value);
        self.fill(b"), $, 0) upd = 1; word = $; arg = ", &[me, word]);
        self.value(value);
        self.fill(b" } TRAPPED; goto L$\n", &[entry]);
    }

    /// Appends the calls of a script, and its end.
    fn script(&mut self, here: &Here) {
        let mut k: u64 = 0;
        for operation in self.operations(here.me) {
            match operation {
                Op::Scan => self.call_scan(here, k),
                Op::Update { word, value } => self.call_update(here, k, *word, *value),
            }
            if k < 255 {
                k += 1;
            }
        }
        self.fill(b"  :: done == $ -> goto Stop\n  fi;\n", &[k]);
    }

    /// Appends the code of an idle process.
    fn idle(&mut self, me: u64) {
        let here = Here {
            me,
            line: 0,
            place: 1,
            aside: None,
        };
        let count = self.operations(me).len() as u64;
        self.say(b"Idle: if\n");
        self.fill(b"  STOPS($, 0) CRASHES($, 0)\n", &[me, me]);
        self.scripted_crash(&here, count);
        self.script(&here);
    }

    /// Appends a process.
    fn process(&mut self, me: u64) {
        self.declarations(me);
        self.idle(me);
        self.lines(me);
        self.say(b"Stop: skip\n#ifdef SIMULATION\n");
        self.report(me);
        self.say(b"#endif\n}\n");
    }

    /// Appends all processes.
    pub(crate) fn processes(&mut self) {
        for k in 0..self.n {
            self.process(k + 1);
        }
    }
}
