//! The frame of a line: its label, the ways out of it, and where it goes on; and the lines that
//! call, return and finish.
use crate::writer::{Here, Writer};
use snap_semantics::{Instr, Name};

impl<'a> Writer<'a> {
    /// Returns the turn at which a process crashes by its script, if it does.
    fn crash_turn(&self, me: u64) -> Option<u64> {
        self.script_of(me)?.crash()
    }

    /// Appends the front of a way out of a line, which is open if nothing stops the process.
    pub(crate) fn option(&mut self, here: &Here) {
        self.say(b"  :: d_step { GO");
        if let Some(turn) = self.crash_turn(here.me) {
            self.fill(b" && turn + 1 != $", &[turn]);
        }
    }

    /// Counts a turn, if the script of the process has a crash.
    pub(crate) fn counts(&mut self, here: &Here) {
        if self.crash_turn(here.me).is_some() {
            self.say(b"turn++; ");
        }
    }

    /// Appends what stands behind the conditions of a way out, and notes the step.
    pub(crate) fn steps(&mut self, here: &Here) {
        let me = here.me;
        self.fill(b" -> STEP($) ", &[me]);
        self.counts(here);
    }

    /// Appends a way out that crashes the process at the turn of its script, as long as fewer than
    /// `count` operations were called.
    pub(crate) fn scripted_crash(&mut self, here: &Here, count: u64) {
        let me = here.me;
        let line = here.line;
        if let Some(turn) = self.crash_turn(here.me) {
            self.fill(
                b"  :: d_step { GO && turn + 1 == $ && done < $ -> CRASH($, $) }; goto Stop\n",
                &[turn, count, me, line],
            );
        }
    }

    /// Appends the label of a line, and the ways out that stop the process before it.
    pub(crate) fn label(&mut self, here: &Here) {
        let me = here.me;
        let line = here.line;
        self.fill(b"L$: if\n", &[line]);
        self.fill(b"  STOPS($, $) CRASHES($, $)\n", &[me, line, me, line]);
        self.scripted_crash(here, 255);
    }

    /// Appends the front of a line with one way out.
    pub(crate) fn begin(&mut self, here: &Here) {
        self.label(here);
        self.option(here);
        self.steps(here);
        self.say(b"\n");
    }

    /// Appends what stands before the effect of a line, behind its other faults.
    pub(crate) fn effect(&mut self, here: &Here, next: Option<u64>) {
        if next.is_none() {
            self.fault(here, b"1", b"OffEnd");
        }
        self.say(b"    if :: trap == 0 -> ");
    }

    /// Appends what stands behind the effect of a line with one way out.
    pub(crate) fn end(&mut self, next: Option<u64>) {
        self.say(b"skip :: else -> skip fi }\n    TRAPPED; goto ");
        match next {
            Some(line) => self.fill(b"L$\n  fi;\n", &[line]),
            None => self.say(b"Stop\n  fi;\n"),
        }
    }

    /// Appends the end of a way out that traps.
    pub(crate) fn traps(&mut self, here: &Here, cause: &[u8]) {
        let me = here.me;
        let line = here.line;
        self.steps(here);
        self.say(b"TRAP(");
        self.fill(b"$, ", &[me]);
        self.say(cause);
        self.fill(b", $) }; goto Stop\n", &[line]);
    }

    /// Appends the end of a way out that goes on at line `next`, or traps if there is none.
    pub(crate) fn leads(&mut self, here: &Here, next: Option<u64>) {
        let me = here.me;
        let line = here.line;
        match next {
            Some(line) => self.fill(b" }; goto L$\n", &[line]),
            None => self.fill(b"; TRAP($, OffEnd, $) }; goto Stop\n", &[me, line]),
        }
    }

    /// Appends `goto N`.
    pub(crate) fn goto_line(&mut self, here: &Here, target: u64) {
        self.begin(here);
        self.effect(here, Some(target));
        self.end(Some(target));
    }

    /// Appends `call N`.
    pub(crate) fn call_line(&mut self, here: &Here, target: u64) {
        let next = self.listing.following(here.line);
        self.begin(here);
        self.fault(here, b"link != 0", b"Nested");
        self.effect(here, next);
        if let Some(link) = next {
            self.fill(b"link = $; ", &[link]);
        }
        self.end(match next {
            Some(_) => Some(target),
            None => None,
        });
    }

    /// Appends the way out of a `return` that leads back to `link`, if there is one.
    fn back(&mut self, here: &Here, link: Option<u64>) {
        if let Some(link) = link {
            self.option(here);
            self.fill(b" && link == $", &[link]);
            self.steps(here);
            self.fill(b"link = 0 }; goto L$\n", &[link]);
        }
    }

    /// Appends the ways out of a `return` with a link.
    fn links(&mut self, here: &Here) {
        let listing = self.listing;
        for line in listing.lines() {
            if let Instr::Call(_) = line.instr {
                self.back(here, listing.following(line.number));
            }
        }
    }

    /// Appends the way out of a `return` that answers a scan.
    fn answers(&mut self, here: &Here, view: &Name) {
        let me = here.me;
        self.option(here);
        self.say(b" && link == 0 && !upd");
        self.steps(here);
        self.fill(b"printf(\"! $ answer", &[me]);
        self.repeat(self.w, b" %d");
        self.say(b"\\n\"");
        for k in 0..self.w {
            self.say(b", ");
            self.local(b"S_", view);
            self.fill(b"[$]", &[k]);
        }
        self.say(b"); ");
        self.answer_point(here.me, view);
        self.say(b" }; goto Idle\n");
    }

    /// Appends `return S`.
    pub(crate) fn return_line(&mut self, here: &Here, view: &Name) {
        self.label(here);
        self.links(here);
        self.option(here);
        self.say(b" && link == 0 && upd");
        self.traps(here, b"BadEnd");
        if self.scans(here.me) {
            self.answers(here, view);
        }
        self.say(b"  fi;\n");
    }

    /// Appends `finish`.
    pub(crate) fn finish_line(&mut self, here: &Here) {
        let me = here.me;
        self.label(here);
        self.option(here);
        self.say(b" && (!upd || link != 0)");
        self.traps(here, b"BadEnd");
        self.option(here);
        self.say(b" && upd && link == 0");
        self.steps(here);
        self.fill(b"printf(\"! $ done\\n\"); ", &[me]);
        self.say(b"upd = 0; word = 0; arg = 0 }; goto Idle\n  fi;\n");
    }
}
