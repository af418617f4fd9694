//! The monitor: the memory contents since a scan of a process was called, and whether the view that
//! the scan answers is among them.
use crate::writer::Writer;
use snap_sched::Script;
use snap_semantics::{Name, Op};

/// The most values that are kept for a scan.
const MOST_KEPT: u64 = 100;

/// Returns `kept` and two more for each update among `operations`, at most `MOST_KEPT`.
fn with_updates(kept: u64, operations: &[Op]) -> u64 {
    let mut kept = kept;
    for operation in operations {
        if let Op::Update { word: _, value: _ } = operation {
            if kept < MOST_KEPT {
                kept += 2;
            }
        }
    }
    kept
}

impl<'a> Writer<'a> {
    /// Returns the script of a process.
    pub(crate) fn script_of(&self, me: u64) -> Option<&'a Script> {
        if me == 0 {
            return None;
        }
        let scripts = self.scripts.scripts();
        scripts.get((me - 1) as usize)
    }

    /// Returns the operations of a process.
    pub(crate) fn operations(&self, me: u64) -> &'a [Op] {
        match self.script_of(me) {
            Some(script) => script.operations(),
            None => &[],
        }
    }

    /// Returns whether a process is to scan.
    pub(crate) fn scans(&self, me: u64) -> bool {
        self.operations(me)
            .iter()
            .any(|operation| matches!(operation, Op::Scan))
    }

    /// Returns how many values are kept for the scans of a process.
    fn kept_count(&self, me: u64) -> u64 {
        let mut kept = 2;
        for k in 0..self.n {
            if k + 1 != me {
                kept = with_updates(kept, self.operations(k + 1));
            }
        }
        kept
    }

    /// Appends a statement for each word, with the number of the process and that of the word for
    /// each `$`.
    fn each_word(&mut self, me: u64, text: &[u8]) {
        for k in 0..self.w {
            self.fill(text, &[me, k, k]);
        }
    }

    /// Appends what is kept for a process that scans: its variables, and what becomes of them.
    fn monitor_of(&mut self, me: u64) {
        let most = self.kept_count(me);
        self.fill(b"View seen_$[$]; byte count_$;\n", &[me, most, me]);
        self.fill(
            b"#define NOTE_$ ok = 0; k = 0; do :: k < count_$ -> ",
            &[me, me],
        );
        self.say(b"ok = ok || (1");
        self.each_word(me, b" && seen_$[k].view[$] == r[$].data");
        self.say(b"); k++ :: else -> break od; k = 0; if :: ok -> skip :: else -> ");
        self.fill(b"if :: count_$ < $ -> ", &[me, most]);
        self.each_word_kept(me);
        self.fill(
            b"count_$++ :: else -> LEAVES($, 0) fi fi; ok = 0; \n",
            &[me, me],
        );
        self.fill(b"#define EMPTY_$ k = 0; do :: k < count_$ -> ", &[me, me]);
        for k in 0..self.w {
            self.fill(b"seen_$[k].view[$] = 0; ", &[me, k]);
        }
        self.fill(b"k++ :: else -> break od; k = 0; count_$ = 0\n", &[me]);
    }

    /// Keeps the memory contents behind those that are kept already.
    fn each_word_kept(&mut self, me: u64) {
        for k in 0..self.w {
            self.fill(b"seen_$[count_$].view[$] = r[$].data; ", &[me, me, k, k]);
        }
    }

    /// Appends the monitors of all processes that scan.
    pub(crate) fn monitors(&mut self) {
        for k in 0..self.n {
            if self.scans(k + 1) {
                self.monitor_of(k + 1);
            }
        }
    }

    /// Notes a write of a word for each process that is at a scan of its own.
    pub(crate) fn notes(&mut self) {
        for k in 0..self.n {
            if self.scans(k + 1) {
                self.fill(
                    b"if :: count_$ > 0 -> NOTE_$ :: else -> skip fi; ",
                    &[k + 1, k + 1],
                );
            }
        }
    }

    /// Looks for the view that a scan answers.
    pub(crate) fn answer_point(&mut self, me: u64, view: &Name) {
        self.fill(b"ok = 0; k = 0; do :: k < count_$ -> ok = ok || (1", &[me]);
        for k in 0..self.w {
            self.fill(b" && seen_$[k].view[$] == ", &[me, k]);
            self.local(b"S_", view);
            self.fill(b"[$]", &[k]);
        }
        self.say(b"); k++ :: else -> break od; k = 0; ");
        self.fill(b"HASPOINT($, ok) ok = 0; EMPTY_$", &[me, me]);
    }
}
