//! `Prompt`: a debugger session that is talked to line by line, with the answer to each line.
ghost use Rattle.std.specs.Prelude.{◌≡◌, ◌++◌, IfOk, OnOk, Ok, true};
ghost use Rattle.snap_text.specs.Drafted.{Adds};
ghost use Rattle.snap_runs.specs.Run.{run_over};
ghost use Rattle.snap_streams.specs.Dialog.{Replies};
ghost use Rattle.snap_debug.specs.Replies.{last_of};
ghost use Rattle.snap_debug.specs.Session.{answer, commanded, session_report, state_of, total};
ghost use Rattle.snap_text.specs.Changes.{text_between};
ghost use Rattle.snap_semantics.specs.Report.{position_line};
ghost use Rattle.snap_semantics.specs.ScheduleText.{schedule_text};
ghost use Rattle.snap_semantics.specs.Token.{lines_of};
ghost use Rattle.snap_prompt.specs.Explained.{explained, item_or_position};
ghost use Rattle.snap_prompt.specs.Listed.{list_text, process_of};
ghost use Rattle.snap_prompt.specs.Prompt.{AddsReply, Says, SavesPrompt, added, agreed_to};
ghost use Rattle.snap_prompt.specs.Prompt.{answer_line, asked, at_end_of};
ghost use Rattle.snap_prompt.specs.Prompt.{decided, denied_text, did_text, done, greeting_or_none};
ghost use Rattle.snap_prompt.specs.Prompt.{led, move_or_refusal, next_line};
ghost use Rattle.snap_prompt.specs.Prompt.{opened_prompt, position_or_none, prompt_text};
ghost use Rattle.snap_prompt.specs.Prompt.{question_text, quitted};
ghost use Rattle.snap_prompt.specs.Prompt.{reply_or_refusal, schedule_of_run, wanted};
ghost use Rattle.snap_prompt.specs.Prompt.{with_addition, with_session};
ghost use Rattle.snap_prompt.specs.Said.{IsAdded};
ghost use Rattle.snap_prompt.specs.Changed.{item_text, state_text};

use crate::addition::Addition;
use crate::ask::{Ask, ask_of, is_yes};
use crate::changed::state_text;
use crate::edits::edited;
use crate::explained::push_explained;
use crate::greeting::push_greeting;
use crate::help::push_help;
use crate::hints::{push_refused_addition, push_refused_line, push_refused_steps};
use crate::last_item::{do_command, go_to, push_item};
use crate::listed::push_list;
use crate::meant::{meant, moves};
use crate::question::Question;
use crate::save_form::saving_of;
use crate::saved::push_saved;
use crate::shows::Shows;
use crate::typed::push_typed;
use crate::{Goal, steps_to};
use snap_asm_program::Program;
use snap_debug::{Command, Session};
use snap_listing::LineTexts;
use snap_report::{head_lines, position_line};
use snap_sched::{Schedule, print};
use snap_semantics::{CommandRefusal, Fault};
use snap_streams::{Folder, Respondent};
use snap_text::{Draft, push_changes, push_text};
use snap_words::{Bits, Kind, Multi, Seq};
use std::alloc::{AllocError, Global};
use std::marker::Model;

/// The question before the dialog ends.
const END_QUESTION: &[u8] = b"quit? what was added is lost unless it was saved (y)\n";

/// Appends the text where a line does not say yes to a question.
fn push_denied(out: &mut Draft, question: Question)
    ensures { Adds out.old out.new (denied_text question) }
{
    match question {
        Question::Cut(_) => out.push(b"nothing is cut\n"),
        Question::End => out.push(b"the dialog goes on\n"),
    }
}

/// A session that is talked to, line by line.
pub struct Prompt<K: Kind, S: Folder + Copy> {
    alloc: Global,
    /// Where schedules are saved.
    folder: S,
    session: Session<K>,
    /// The schedule of the session.
    schedule: Schedule,
    /// The lines of its listing.
    texts: LineTexts,
    last: Option<Ask>,
    question: Option<Question>,
    lines: u64,
    /// Whether items were added since the schedule was last saved.
    has_unsaved: bool,
    shows: Shows,
}

impl<K: Kind, S: Folder + Copy> Model for Prompt<K, S> {
    ghost use Rattle.std.specs.Prelude.{◌≡◌, map};
    ghost use Rattle.snap_listing.specs.LineTexts.{written};
    ghost use Rattle.snap_prompt.specs.Prompt.{Prompt, schedule_of_run};

    ghost Value = { Prompt };

    ghost view = { λ p. record {
      session = p.session;
      last = p.last;
      question = p.question;
      lines = p.lines;
      has_unsaved = p.has_unsaved;
      kept = S.kept p.folder;
      shows = p.shows;
    } };

    ghost invariant = { λ p. (p.schedule ≡ schedule_of_run p.session.run)
        × (p.texts ≡ map written p.session.run.source.lines) };
}

impl<K: Kind, S: Folder + Copy> Drop for Prompt<K, S> {
    fn drop(self) {
        let Prompt {
            alloc: _,
            folder: _,
            session: _,
            schedule: _,
            texts: _,
            last: _,
            question: _,
            lines: _,
            has_unsaved: _,
            shows: _,
        } = self;
    }
}

impl<K: Kind, S: Folder + Copy> Prompt<K, S> {
    /// Returns a prompt before the first item of `schedule`. Schedules are saved in `folder`.
    ///
    /// # Errors
    ///
    /// `AllocError` where memory runs out.
    pub fn over(
        alloc: Global,
        program: &Program,
        schedule: Schedule,
        shows: Shows,
        folder: S,
    ) -> Result<Prompt<K, S>, AllocError>
        requires { program.now.kind ≡ K.TAG }
        ensures { IfOk result (λ p. p
            ≡ opened_prompt (run_over program.now schedule) shows (S.kept folder)) }
    {
        let texts = LineTexts::of(alloc, program.listing())?;
        let session = Session::<K>::open(alloc, program, &schedule)?;
        Ok(Prompt {
            alloc,
            folder,
            session,
            schedule,
            texts,
            last: None,
            question: None,
            lines: 0,
            has_unsaved: false,
            shows,
        })
    }

    /// Appends the item at which the session stands, and what changed from a state with this
    /// report.
    fn push_moved(&mut self, out: &mut Draft, before: &[u8]) -> Result<(), AllocError>
        ensures text { let s = self.old.session in OnOk result (Adds out.old out.new
            (item_text s.run s.position ++ text_between (lines_of before.now)
            (lines_of (state_text s.run.source.kind (state_of s))))) }
        ensures same { OnOk result (self.new ≡ self.old) }
    {
        // What `shape` promises: the schedule keeps the rules of schedules.
        let _shape = self.schedule.shape();
        push_item(out, &self.texts, &mut self.session)?;
        let after = state_text(self.alloc, self.session.machine())?;
        push_changes(out, before, after.as_slice());
        Ok(())
    }

    /// Does a command, and adds what is replied.
    fn push_reply(&mut self, out: &mut Draft, command: &Command) -> Result<(), AllocError>
        ensures text { let s = self.old.session in OnOk result (Adds out.old out.new
            (reply_or_refusal s command.now (commanded s command.now))) }
        ensures state { OnOk result
            (self.new ≡ with_session (answer self.old.session command.now).0 self.old) }
    {
        match do_command(&mut self.session, command) {
            Ok(reply) => {
                out.push(reply.as_slice());
                Ok(())
            }
            Err(Fault::Refused(refusal)) => {
                push_refused_line(out, &self.session, &refusal);
                Ok(())
            }
            Err(Fault::Memory) => Err(AllocError),
        }
    }

    /// Does a command that moves, and adds what is replied, the item and what changed.
    #[tactic(auto, unfolding(crate::specs::Changed::moved_text, crate::specs::Changed::changed))]
    fn push_move(&mut self, out: &mut Draft, command: &Command) -> Result<(), AllocError>
        ensures text { let s = self.old.session in OnOk result (Adds out.old out.new
            (move_or_refusal s command.now (commanded s command.now))) }
        ensures state { OnOk result
            (self.new ≡ with_session (answer self.old.session command.now).0 self.old) }
    {
        let before = state_text(self.alloc, self.session.machine())?;
        match do_command(&mut self.session, command) {
            Ok(reply) => {
                out.push(reply.as_slice());
                self.push_moved(out, before.as_slice())
            }
            Err(Fault::Refused(refusal)) => {
                push_refused_line(out, &self.session, &refusal);
                Ok(())
            }
            Err(Fault::Memory) => Err(AllocError),
        }
    }

    /// Does a command, and appends its reply.
    #[tactic(auto, unfolding(crate::specs::Prompt::did_text))]
    fn push_done(&mut self, out: &mut Draft, command: &Command) -> Result<(), AllocError>
        ensures text { OnOk result (Adds out.old out.new (did_text self.old.session command.now)) }
        ensures state { OnOk result
            (self.new ≡ with_session (answer self.old.session command.now).0 self.old) }
    {
        if moves(command) {
            self.push_move(out, command)
        } else {
            self.push_reply(out, command)
        }
    }

    /// Returns the session over another schedule at its end.
    fn reopened(&self, schedule: &Schedule) -> Result<Session<K>, AllocError>
        ensures { IfOk result (λ s. s ≡ at_end_of schedule.now self.now.session) }
    {
        let mut session = self.session.over_again(schedule.copy(self.alloc)?)?;
        go_to(&mut session, schedule.items().len())?;
        Ok(session)
    }

    /// Goes on with another schedule, at its end.
    fn extend(&mut self, schedule: Schedule) -> Result<(), AllocError>
        ensures { OnOk result
            (self.new ≡ with_addition (at_end_of schedule self.old.session) self.old) }
    {
        self.session = self.reopened(&schedule)?;
        self.schedule = schedule;
        self.has_unsaved = true;
        Ok(())
    }

    /// Returns where schedules are saved.
    pub fn folder(&self) -> S
        ensures { S.kept result ≡ self.now.kept }
    {
        self.folder
    }

    /// Appends the text on the end of the schedule, where the state before had the report `before`.
    fn push_end(&mut self, out: &mut Draft, before: &[u8]) -> Result<(), AllocError>
        ensures text { let s = self.old.session in OnOk result (Adds out.old out.new
            (position_line (total s) (total s) ++ item_text s.run s.position
            ++ text_between (lines_of before.now)
            (lines_of (state_text s.run.source.kind (state_of s))))) }
        ensures same { OnOk result (self.new ≡ self.old) }
    {
        let total = self.session.total();
        position_line(out, total, total);
        self.push_moved(out, before)
    }

    /// Adds items behind the position, where the schedule is cut, and appends the text on that.
    #[tactic(auto, unfolding(crate::specs::Prompt::added, crate::specs::Changed::moved_text, crate::specs::Changed::changed))]
    fn push_added(&mut self, out: &mut Draft, addition: Addition) -> Result<(), AllocError>
        ensures text { OnOk result (Adds out.old out.new (added self.old addition).said) }
        ensures state { OnOk result (self.new ≡ (added self.old addition).state) }
        ensures goes_on { OnOk result ((added self.old addition).goes_on ≡ true) }
    {
        let position = self.session.position();
        let before = state_text(self.alloc, self.session.machine())?;
        match edited(self.alloc, &self.schedule, position, self.lines, addition) {
            Ok(schedule) => {
                self.extend(schedule)?;
                self.push_end(out, before.as_slice())
            }
            Err(Fault::Refused(refusal)) => {
                push_refused_addition(out, &self.session, refusal);
                Ok(())
            }
            Err(Fault::Memory) => Err(AllocError),
        }
    }

    /// Appends the question before items are dropped.
    fn push_question(&self, out: &mut Draft)
        ensures { Adds out.old out.new (question_text self.now.session) }
    {
        out.push(b"cut here? ");
        out.push_number(self.session.total() - self.session.position());
        out.push(b" items go (y)\n");
    }

    /// Adds items at the end of the schedule, or asks.
    #[tactic(auto, unfolding(crate::specs::Prompt::wanted))]
    fn push_wanted(&mut self, out: &mut Draft, addition: Addition) -> Result<(), AllocError>
        ensures text { OnOk result (Adds out.old out.new (wanted self.old addition).said) }
        ensures state { OnOk result (self.new ≡ (wanted self.old addition).state) }
        ensures goes_on { OnOk result ((wanted self.old addition).goes_on ≡ true) }
    {
        if self.session.position() == self.session.total() {
            return self.push_added(out, addition);
        }
        self.push_question(out);
        self.question = Some(Question::Cut(addition));
        Ok(())
    }

    /// Adds as many steps of a process as lead it to a goal, or appends why there are none.
    #[tactic(auto, unfolding(crate::specs::Prompt::led))]
    fn push_led(&mut self, out: &mut Draft, process: u64, goal: Goal) -> Result<(), AllocError>
        ensures text { OnOk result (Adds out.old out.new (led self.old process goal).said) }
        ensures state { OnOk result (self.new ≡ (led self.old process goal).state) }
        ensures goes_on { OnOk result ((led self.old process goal).goes_on ≡ true) }
    {
        match steps_to(&self.session, process, goal)? {
            Ok(count) => self.push_wanted(out, Addition::Steps { process, count }),
            Err(why) => {
                push_refused_steps(out, &self.session, self.lines, process, why);
                Ok(())
            }
        }
    }

    /// Ends the dialog, or asks a person who has added items.
    fn push_quit(&mut self, out: &mut Draft) -> Result<bool, AllocError>
        ensures text { OnOk result (Adds out.old out.new (quitted self.old).said) }
        ensures state { OnOk result (self.new ≡ (quitted self.old).state) }
        ensures goes_on { IfOk result (λ more. more ≡ (quitted self.old).goes_on) }
    {
        if self.shows.greets() && self.has_unsaved {
            out.push(END_QUESTION);
            self.question = Some(Question::End);
            return Ok(true);
        }
        Ok(false)
    }

    /// Appends the report of the position.
    fn push_report(&self, out: &mut Draft) -> Result<(), AllocError>
        ensures { OnOk result (Adds out.old out.new (session_report self.now.session)) }
    {
        let report = self.session.report()?;
        out.push(report.as_slice());
        Ok(())
    }

    /// Appends the schedule.
    fn push_schedule(&self, out: &mut Draft) -> Result<(), AllocError>
        ensures { OnOk result (Adds out.old out.new
            (schedule_text (schedule_of_run self.now.session.run))) }
    {
        let text = print(self.alloc, &self.schedule)?;
        out.push(text.as_slice());
        Ok(())
    }

    /// Saves the schedule under a name, and appends the text on that. What is kept is the text that
    /// `save` prints.
    fn push_saving(
        &mut self,
        out: &mut Draft,
        name: &[u8],
        replaces: bool,
    ) -> Result<(), AllocError>
        ensures { OnOk result (SavesPrompt self.old name.now out.old out.new self.new) }
    {
        let text = print(self.alloc, &self.schedule)?;
        let is_saved = push_saved(out, &mut self.folder, name, text.as_slice(), replaces);
        self.has_unsaved = self.has_unsaved && !is_saved;
        Ok(())
    }

    /// Returns the process of the last item, and 1 if there is none.
    fn last_process(&self) -> Result<u64, AllocError>
        ensures { IfOk result (λ i.
            i ≡ process_of (last_of self.now.session.run self.now.session.position)) }
    {
        match self.session.last()? {
            Some((process, _)) => Ok(u64::from(process)),
            None => Ok(1),
        }
    }

    /// Appends the lines around the one at which a process stands.
    fn push_list_of(&self, out: &mut Draft, process: u64)
        ensures { Adds out.old out.new (list_text self.now.session process) }
    {
        push_list(out, &self.texts, &self.session, process);
    }

    /// Appends why an item came out as it did, that of the position if no item is named.
    fn push_why_of(&self, out: &mut Draft, item: Option<u64>) -> Result<(), AllocError>
        ensures { let s = self.now.session in OnOk result (IsAdded
            (explained s (item_or_position s item)) out.old out.new) }
    {
        let item = match item {
            Some(item) => item,
            None => self.session.position(),
        };
        push_explained(
            self.alloc,
            out,
            &self.session,
            &self.schedule,
            &self.texts,
            item,
        )
    }

    /// Does what is meant by a line, and adds what is answered.
    #[tactic(auto, unfolding(crate::specs::Prompt::done))]
    fn push_meant(&mut self, out: &mut Draft, ask: Ask) -> Result<bool, AllocError>
        ensures text { OnOk result (IsAdded (done self.old ask).said out.old out.new) }
        ensures state { OnOk result (self.new ≡ (done self.old ask).state) }
        ensures goes_on { IfOk result (λ more. more ≡ (done self.old ask).goes_on) }
    {
        match ask {
            Ask::Nothing | Ask::Again => {}
            Ask::Quit => return self.push_quit(out),
            Ask::Help => push_help(out),
            Ask::All => head_lines(out, self.session.machine()),
            Ask::Report => self.push_report(out)?,
            Ask::Save => self.push_schedule(out)?,
            Ask::ListLast => {
                let process = self.last_process()?;
                self.push_list_of(out, process);
            }
            Ask::List(process) => self.push_list_of(out, process),
            Ask::Why(item) => self.push_why_of(out, item)?,
            Ask::Add(addition) => self.push_wanted(out, addition)?,
            Ask::Until { process, line } => self.push_led(out, process, Goal::Line(line))?,
            Ask::End { process } => self.push_led(out, process, Goal::End)?,
            Ask::Do(command) => self.push_done(out, &command)?,
        }
        Ok(true)
    }

    /// Does the request of a line, and appends the answer.
    #[tactic(auto, unfolding(crate::specs::Prompt::asked))]
    fn push_asked(
        &mut self,
        out: &mut Draft,
        line: &[u8],
        ask: Result<Ask, CommandRefusal>,
    ) -> Result<bool, AllocError>
        ensures text { OnOk result
            (IsAdded (asked self.old line.now ask).said out.old out.new) }
        ensures state { OnOk result (self.new ≡ (asked self.old line.now ask).state) }
        ensures goes_on { IfOk result (λ more. more ≡ (asked self.old line.now ask).goes_on) }
    {
        match ask {
            Ok(ask) => match meant(self.last, ask) {
                Some(ask) => {
                    self.last = Some(ask);
                    self.push_meant(out, ask)
                }
                None => Ok(true),
            },
            Err(refusal) => {
                push_refused_line(out, &self.session, &refusal);
                push_typed(self.alloc, out, line, &refusal)?;
                Ok(true)
            }
        }
    }

    /// Does what was agreed to.
    fn push_agreed(&mut self, out: &mut Draft, question: Question) -> Result<bool, AllocError>
        ensures text { OnOk result (Adds out.old out.new (agreed_to self.old question).said) }
        ensures state { OnOk result (self.new ≡ (agreed_to self.old question).state) }
        ensures goes_on { IfOk result (λ more. more ≡ (agreed_to self.old question).goes_on) }
    {
        match question {
            Question::Cut(addition) => {
                self.push_added(out, addition)?;
                Ok(true)
            }
            Question::End => Ok(false),
        }
    }

    /// Does what a line says to a question, and adds what is answered.
    fn push_decided(
        &mut self,
        out: &mut Draft,
        question: Question,
        agreed: bool,
    ) -> Result<bool, AllocError>
        ensures text { OnOk result (Adds out.old out.new (decided self.old question agreed).said) }
        ensures state { OnOk result (self.new ≡ (decided self.old question agreed).state) }
        ensures goes_on { IfOk result (λ more. more ≡ (decided self.old question agreed).goes_on) }
    {
        self.question = None;
        if agreed {
            return self.push_agreed(out, question);
        }
        push_denied(out, question);
        Ok(true)
    }

    /// Appends what stands before the first line, if a person is greeted.
    #[tactic(auto, unfolding(crate::specs::Prompt::greeting_or_none))]
    fn push_first(&self, out: &mut Draft)
        ensures { Adds out.old out.new (greeting_or_none self.now) }
    {
        if self.shows.greets() && self.lines == 0 {
            push_greeting(out, &self.session);
        }
    }

    /// Appends the position, if it stands before each line.
    #[tactic(auto, unfolding(crate::specs::Prompt::position_or_none))]
    fn push_position(&self, out: &mut Draft)
        ensures { Adds out.old out.new (position_or_none self.now) }
    {
        if !self.shows.places() {
            return;
        }
        out.push_number(self.session.position());
        out.push(b"/");
        out.push_number(self.session.total());
        out.push(b"> ");
    }

    /// Appends what stands before a line.
    fn push_front(&self, out: &mut Draft)
        ensures { Adds out.old out.new (prompt_text self.now) }
    {
        self.push_first(out);
        self.push_position(out);
    }

    /// Appends an answer to a line, and returns whether the dialog goes on.
    #[tactic(auto, unfolding(crate::specs::Prompt::answer_line))]
    fn push_answered(&mut self, out: &mut Draft, line: &[u8]) -> Result<bool, AllocError>
        ensures { IfOk result (λ more.
            AddsReply self.old line.now out.old out.new self.new more) }
    {
        self.lines = self.lines.saturating_add(1);
        if let Some(question) = self.question {
            let agreed = is_yes(self.alloc, line)?;
            return self.push_decided(out, question, agreed);
        }
        if let Some((name, replaces)) = saving_of(line) {
            self.push_saving(out, name, replaces)?;
            return Ok(true);
        }
        match ask_of(self.alloc, self.lines, line) {
            Ok(ask) => self.push_asked(out, line, Ok(ask)),
            Err(Fault::Refused(refusal)) => self.push_asked(out, line, Err(refusal)),
            Err(Fault::Memory) => Err(AllocError),
        }
    }

    /// Adds what stands before a line to a text.
    fn push_prompt_text(&self, out: &mut Vec<u8>) -> Result<(), AllocError>
        ensures { OnOk result (out.new.items ≡ out.old.items ++ prompt_text self.now) }
    {
        let mut said = Draft::new(self.alloc);
        self.push_front(&mut said);
        push_text(out, said.text()?)
    }

    /// Adds an answer to a line to a text, and tells whether the dialog goes on.
    fn push_answer_text(&mut self, out: &mut Vec<u8>, line: &[u8]) -> Result<bool, AllocError>
        ensures { IfOk result (λ more. Replies Says next_line self.old line.now
            out.old.items out.new.items self.new more) }
    {
        let mut said = Draft::new(self.alloc);
        let more = self.push_answered(&mut said, line)?;
        push_text(out, said.text()?)?;
        Ok(more)
    }
}
// There is one prompt for each kind, since what a session sends to threads is known of each kind.
impl<S: Folder + Copy> Respondent for Prompt<Seq, S> {
    ghost prompt_of = { prompt_text };

    ghost says = { Says };

    ghost next_of = { next_line };

    fn push_prompt(&self, out: &mut Vec<u8>) -> Result<(), AllocError> {
        self.push_prompt_text(out)
    }

    fn push_answer(&mut self, out: &mut Vec<u8>, line: &[u8]) -> Result<bool, AllocError> {
        self.push_answer_text(out, line)
    }
}

impl<S: Folder + Copy> Respondent for Prompt<Bits, S> {
    ghost prompt_of = { prompt_text };

    ghost says = { Says };

    ghost next_of = { next_line };

    fn push_prompt(&self, out: &mut Vec<u8>) -> Result<(), AllocError> {
        self.push_prompt_text(out)
    }

    fn push_answer(&mut self, out: &mut Vec<u8>, line: &[u8]) -> Result<bool, AllocError> {
        self.push_answer_text(out, line)
    }
}

impl<S: Folder + Copy> Respondent for Prompt<Multi, S> {
    ghost prompt_of = { prompt_text };

    ghost says = { Says };

    ghost next_of = { next_line };

    fn push_prompt(&self, out: &mut Vec<u8>) -> Result<(), AllocError> {
        self.push_prompt_text(out)
    }

    fn push_answer(&mut self, out: &mut Vec<u8>, line: &[u8]) -> Result<bool, AllocError> {
        self.push_answer_text(out, line)
    }
}
