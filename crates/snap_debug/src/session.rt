//! A debugger's session over a listing and a schedule.
ghost use Rattle.std.specs.Prelude.{◌≡◌, ◌<◌, ◌≤◌, ◌-◌, IfOk, None, OnErr, OnOk, Some};
ghost use Rattle.std.specs.Prelude.{if◌then◌else◌, length};
ghost use Rattle.snap_semantics.specs.Answers.{Answers};
ghost use Rattle.snap_report.specs.RunReport.{report_at};
ghost use Rattle.snap_runs.specs.Run.{run_over};
ghost use Rattle.snap_debug.specs.Marks.{contents_at, last_stop, next_stop};
ghost use Rattle.snap_debug.specs.Replies.{last_of, machine_of};
ghost use Rattle.snap_debug.specs.Session.{
  Obeys,
  RefusesFirst,
  at_position,
  checked_breakpoint,
  checked_register,
  has_process,
  marks_line,
  opened,
  position_text,
  reopened,
  with_marks,
};
ghost use Rattle.snap_debug.specs.Recording.{IsReversible, start};
ghost use Rattle.snap_debug_commands.specs.declared.command.Command.TheVariants as command;

use crate::marks::Marks;
use crate::recording::Recording;
use crate::reply::{
    Reply, events_reply, marks_reply, position_reply, process_reply, register_reply, values_reply,
    where_reply,
};
use crate::reversible_machine::ReversibleMachine;
use crate::stops::{last_stop, next_stop};
use snap_asm_program::Program;
use snap_debug_commands::{Breakpoint, Command};
use snap_machine::Machine;
use snap_report::{Report, report};
use snap_sched::Schedule;
use snap_semantics::{CommandRefusal, Fault, Outcome, who};
use snap_text::Draft;
use snap_words::{Address, Kind};
use std::alloc::{AllocError, Global};
use std::marker::Model;

/// A schedule with marks, followed as far as was needed, and the machine at a position, which has
/// the last item at hand.
pub struct Session<K: Kind> {
    alloc: Global,
    marks: Marks,
    recording: Recording<K>,
    here: ReversibleMachine<K>,
}

impl<K: Kind> Drop for Session<K> {
    // A drop that is written out is one call: it is proved once, and not again at each drop.
    fn drop(self) {
        let Session {
            alloc: _,
            marks: _,
            recording: _,
            here: _,
        } = self;
    }
}

impl<K: Kind> Model for Session<K> {
    ghost use Rattle.std.specs.Prelude.{◌<◌, ◌≤◌};
    ghost use Rattle.snap_debug.specs.Session.{Session};
    ghost use Rattle.snap_debug.specs.Recording.{IsReversible, start};

    ghost Value = { Session };

    ghost view = { λ s. record {
      run = s.recording.run;
      marks = s.marks;
      position = s.here.current.position;
    } };

    ghost invariant = { λ s. IsReversible s.recording.run s.here
        × (s.here.current.position ≤ s.recording.reached)
        × (0 < s.here.current.position → start s.here < s.here.current.position) };
}

/// Brings a machine to a position that is recorded. If memory runs out, the machine stays where it
/// was.
fn bring_to<K: Kind>(
    alloc: Global,
    here: &mut ReversibleMachine<K>,
    recording: &Recording<K>,
    position: u64,
) -> Result<(), AllocError>
    requires leads { IsReversible recording.now.run here.old }
    requires last { 0 < here.old.current.position → start here.old < here.old.current.position }
    requires reached { position ≤ recording.now.reached }
    ensures leads { IsReversible recording.now.run here.new }
    ensures last { 0 < here.new.current.position → start here.new < here.new.current.position }
    ensures moved { OnOk result (here.new.current.position ≡ position) }
    ensures unchanged { OnErr result (here.new.current.position ≡ here.old.current.position) }
{
    if here.is_near(recording, position) {
        return here.go_to(recording, position);
    }
    *here = ReversibleMachine::to(alloc, recording, position)?;
    Ok(())
}

impl<K: Kind> Session<K> {
    /// Returns a session before the first item of `schedule`, with no marks.
    ///
    /// # Errors
    ///
    /// `AllocError` where memory runs out.
    pub fn open(
        alloc: Global,
        program: &Program,
        schedule: &Schedule,
    ) -> Result<Session<K>, AllocError>
        requires { program.now.kind ≡ K.TAG }
        ensures { IfOk result (λ s. s ≡ opened (run_over program.now schedule.now)) }
    {
        Session::over(alloc, program, schedule.copy(alloc)?)
    }

    /// Returns a session before the first item of `schedule`, with no marks.
    ///
    /// # Errors
    ///
    /// `AllocError` where memory runs out.
    pub fn over(
        alloc: Global,
        program: &Program,
        schedule: Schedule,
    ) -> Result<Session<K>, AllocError>
        requires { program.now.kind ≡ K.TAG }
        ensures { IfOk result (λ s. s ≡ opened (run_over program.now schedule)) }
    {
        let recording = Recording::new(alloc, program, schedule)?;
        let here = ReversibleMachine::to(alloc, &recording, 0)?;
        Ok(Session {
            alloc,
            marks: Marks::new(alloc),
            recording,
            here,
        })
    }

    /// Returns a session of the program over another schedule, before its first item, with the
    /// marks of this session.
    ///
    /// # Errors
    ///
    /// `AllocError` where memory runs out.
    pub fn over_again(&self, schedule: Schedule) -> Result<Session<K>, AllocError>
        ensures { IfOk result (λ s. s ≡ reopened (run_over self.now.run.source schedule) self.now) }
    {
        let mut session = Session::<K>::over(self.alloc, self.program(), schedule)?;
        session.marks = self.marks.copy(self.alloc)?;
        Ok(session)
    }

    /// Returns the position: how many items lie before it.
    pub fn position(&self) -> u64
        ensures position { result ≡ self.now.position }
        ensures within { result ≤ length self.now.run.items }
    {
        self.here.current.position
    }

    /// Returns how many items there are.
    pub fn total(&self) -> u64
        ensures { result ≡ length self.now.run.items }
    {
        self.recording.total()
    }

    /// Returns the program that runs.
    pub fn program(&self) -> &Program
        ensures value { result.now ≡ self.now.run.source }
        ensures kind { self.now.run.source.kind ≡ K.TAG }
    {
        self.here.current.machine.program()
    }

    /// Returns the machine at the position.
    pub fn machine(&self) -> &Machine<K>
        ensures { result.now ≡ machine_of self.now }
    {
        &self.here.current.machine
    }

    /// Goes to a position.
    fn move_to(&mut self, position: u64) -> Result<Reply, AllocError>
        requires { position ≤ length self.old.run.items }
        ensures moved { IfOk result (λ reply. self.new ≡ at_position position self.old) }
        ensures reply { IfOk result (λ reply. reply
            ≡ position_text (at_position position self.old)) }
        ensures unchanged { OnErr result (self.new ≡ self.old) }
    {
        self.recording.reach(position)?;
        let reply = position_reply(self.alloc, position, self.total())?;
        bring_to(self.alloc, &mut self.here, &self.recording, position)?;
        Ok(reply)
    }

    /// Returns the first stop after the position, and the end if there is none.
    fn next_stop(&mut self) -> Result<u64, AllocError>
        ensures stop { let s = self.old in IfOk result (λ t. t ≡ next_stop s.run s.marks s.position
            (length s.run.items - s.position)) }
        ensures within { IfOk result (λ t. t ≤ length self.old.run.items) }
        ensures unchanged { self.new ≡ self.old }
    {
        next_stop(&mut self.recording, &self.here.current, &self.marks)
    }

    /// Goes on by `count` items, at most to the end.
    fn step(&mut self, count: u64) -> Result<Reply, Fault<CommandRefusal>>
        ensures obeys { Obeys (λ r. r) result self.old (command.Step count) self.new }
        ensures refuses { RefusesFirst result self.old (command.Step count) }
    {
        let left = self.total() - self.position();
        let position = self.position() + count.min(left);
        Ok(self.move_to(position)?)
    }

    /// Goes back by `count` items, at most to the beginning.
    fn back(&mut self, count: u64) -> Result<Reply, Fault<CommandRefusal>>
        ensures obeys { Obeys (λ r. r) result self.old (command.Back count) self.new }
        ensures refuses { RefusesFirst result self.old (command.Back count) }
    {
        let position = self.position().saturating_sub(count);
        Ok(self.move_to(position)?)
    }

    /// Goes to a position, if there is one.
    fn goto(&mut self, position: u64) -> Result<Reply, Fault<CommandRefusal>>
        ensures obeys { Obeys (λ r. r) result self.old (command.Goto position) self.new }
        ensures refuses { RefusesFirst result self.old (command.Goto position) }
    {
        if position > self.total() {
            return Err(Fault::Refused(CommandRefusal::NoSuchPosition));
        }
        Ok(self.move_to(position)?)
    }

    /// Returns the last stop before the position, and 0 if there is none.
    fn last_stop(&self) -> Result<u64, AllocError>
        ensures stop { let s = self.now in IfOk result (λ t. t
            ≡ last_stop s.run s.marks s.position) }
        ensures within { IfOk result (λ t. t ≤ length self.now.run.items) }
    {
        last_stop(&self.recording, self.position(), &self.marks)
    }

    /// Goes on to the next stop.
    fn run(&mut self) -> Result<Reply, Fault<CommandRefusal>>
        ensures obeys { Obeys (λ r. r) result self.old command.Run self.new }
        ensures refuses { RefusesFirst result self.old command.Run }
    {
        let stop = self.next_stop()?;
        Ok(self.move_to(stop)?)
    }

    /// Goes back to the last stop.
    fn reverse_run(&mut self) -> Result<Reply, Fault<CommandRefusal>>
        ensures obeys { Obeys (λ r. r) result self.old command.ReverseRun self.new }
        ensures refuses { RefusesFirst result self.old command.ReverseRun }
    {
        let stop = self.last_stop()?;
        Ok(self.move_to(stop)?)
    }

    /// Returns the process of this number, if there is one.
    fn process(&self, i: u64) -> Option<u32>
        ensures { result ≡ (if has_process self.now i then Some i else None) }
    {
        if 0 < i && i <= u64::from(self.recording.processes()) {
            Some(i as u32)
        } else {
            None
        }
    }

    /// Checks that the process and the line of a breakpoint exist.
    fn check_breakpoint(&self, b: Breakpoint) -> Result<(), CommandRefusal>
        ensures { result ≡ checked_breakpoint self.now b }
    {
        if self.process(b.process).is_none() {
            return Err(CommandRefusal::NoSuchProcess);
        }
        if !self.program().has_line(b.line) {
            return Err(CommandRefusal::NoSuchLine);
        }
        Ok(())
    }

    /// Checks that a register exists.
    fn check_register(&self, a: Address) -> Result<(), CommandRefusal>
        ensures { result ≡ checked_register self.now a }
    {
        match self.machine().register(a) {
            Ok(_) => Ok(()),
            Err(_) => Err(CommandRefusal::NoSuchRegister),
        }
    }

    /// Sets `marks` in place of the present ones, and returns the reply that says how many there
    /// are.
    fn take_marks(&mut self, marks: Marks) -> Result<Reply, AllocError>
        ensures taken { IfOk result (λ reply. self.new ≡ with_marks marks self.old) }
        ensures reply { IfOk result (λ reply. reply ≡ marks_line marks) }
        ensures unchanged { OnErr result (self.new ≡ self.old) }
    {
        let reply = marks_reply(self.alloc, &marks)?;
        self.marks = marks;
        Ok(reply)
    }

    /// Sets a breakpoint.
    fn set_break(&mut self, b: Breakpoint) -> Result<Reply, Fault<CommandRefusal>>
        ensures obeys { Obeys (λ r. r) result self.old (command.Break b) self.new }
        ensures refuses { RefusesFirst result self.old (command.Break b) }
    {
        self.check_breakpoint(b)?;
        let marks = self.marks.with_break(self.alloc, b)?;
        Ok(self.take_marks(marks)?)
    }

    /// Takes a breakpoint away.
    fn clear_break(&mut self, b: Breakpoint) -> Result<Reply, Fault<CommandRefusal>>
        ensures obeys { Obeys (λ r. r) result self.old (command.Clear b) self.new }
        ensures refuses { RefusesFirst result self.old (command.Clear b) }
    {
        self.check_breakpoint(b)?;
        let marks = self.marks.without_break(self.alloc, b)?;
        Ok(self.take_marks(marks)?)
    }

    /// Watches a register.
    fn set_watch(&mut self, a: Address) -> Result<Reply, Fault<CommandRefusal>>
        ensures obeys { Obeys (λ r. r) result self.old (command.Watch a) self.new }
        ensures refuses { RefusesFirst result self.old (command.Watch a) }
    {
        self.check_register(a)?;
        let marks = self.marks.with_watch(self.alloc, a)?;
        Ok(self.take_marks(marks)?)
    }

    /// Removes a watched register.
    fn clear_watch(&mut self, a: Address) -> Result<Reply, Fault<CommandRefusal>>
        ensures obeys { Obeys (λ r. r) result self.old (command.Unwatch a) self.new }
        ensures refuses { RefusesFirst result self.old (command.Unwatch a) }
    {
        self.check_register(a)?;
        let marks = self.marks.without_watch(self.alloc, a)?;
        Ok(self.take_marks(marks)?)
    }

    /// Shows a register.
    fn show_register(&self, a: Address) -> Result<Reply, Fault<CommandRefusal>>
        ensures obeys { Obeys (λ r. r) result self.now (command.ShowRegister a) self.now }
        ensures refuses { RefusesFirst result self.now (command.ShowRegister a) }
    {
        self.check_register(a)?;
        Ok(register_reply(self.alloc, self.machine(), a)?)
    }

    /// Shows a process.
    fn show_process(&self, i: u64) -> Result<Reply, Fault<CommandRefusal>>
        ensures obeys { Obeys (λ r. r) result self.now (command.ShowProcess i) self.now }
        ensures refuses { RefusesFirst result self.now (command.ShowProcess i) }
    {
        let Some(i) = self.process(i) else {
            return Err(Fault::Refused(CommandRefusal::NoSuchProcess));
        };
        Ok(process_reply(self.alloc, self.machine(), i)?)
    }

    /// Shows the values.
    fn show_values(&self) -> Result<Reply, Fault<CommandRefusal>>
        ensures obeys { Obeys (λ r. r) result self.now command.Values self.now }
        ensures refuses { RefusesFirst result self.now command.Values }
    {
        Ok(values_reply(self.alloc, self.machine())?)
    }

    /// Shows the events up to the position.
    fn show_events(&self) -> Result<Reply, Fault<CommandRefusal>>
        ensures obeys { Obeys (λ r. r) result self.now command.Events self.now }
        ensures refuses { RefusesFirst result self.now command.Events }
    {
        Ok(events_reply(self.alloc, self.recording.events(self.position()))?)
    }

    /// Returns the last item's process and its outcome, if there is one.
    ///
    /// # Errors
    ///
    /// `AllocError` where memory runs out.
    pub fn last(&self) -> Result<Option<(u32, Outcome)>, AllocError>
        ensures { IfOk result (λ last. last ≡ last_of self.now.run self.now.position) }
    {
        let position = self.position();
        if position == 0 {
            return Ok(None);
        }
        let outcome = self.here.last(self.alloc)?;
        Ok(Some((who(self.recording.item(position - 1)), outcome)))
    }

    /// Shows the position of the session and the status of the processes.
    fn show_where(&self) -> Result<Reply, Fault<CommandRefusal>>
        ensures obeys { Obeys (λ r. r) result self.now command.Where self.now }
        ensures refuses { RefusesFirst result self.now command.Where }
    {
        let last = self.last()?;
        Ok(where_reply(
            self.alloc,
            self.machine(),
            self.position(),
            self.total(),
            &last,
        )?)
    }

    /// Does a command, and returns its reply.
    ///
    /// # Errors
    ///
    /// `Refused` with the reason why the command cannot be done; `Memory` where memory runs out.
    /// The session is as it was then.
    pub fn command(&mut self, command: &Command) -> Result<Reply, Fault<CommandRefusal>>
        ensures obeys { Obeys (λ r. r) result self.old command.now self.new }
        ensures refuses { RefusesFirst result self.old command.now }
    {
        match *command {
            Command::Step(count) => self.step(count),
            Command::Back(count) => self.back(count),
            Command::Goto(position) => self.goto(position),
            Command::Run => self.run(),
            Command::ReverseRun => self.reverse_run(),
            Command::Break(b) => self.set_break(b),
            Command::Clear(b) => self.clear_break(b),
            Command::Watch(a) => self.set_watch(a),
            Command::Unwatch(a) => self.clear_watch(a),
            Command::ShowRegister(a) => self.show_register(a),
            Command::ShowProcess(i) => self.show_process(i),
            Command::Values => self.show_values(),
            Command::Events => self.show_events(),
            Command::Where => self.show_where(),
        }
    }

    /// Returns the report of the position.
    ///
    /// # Errors
    ///
    /// `AllocError` where memory runs out.
    pub fn report(&self) -> Result<Report, AllocError>
        ensures { IfOk result (λ t. t ≡ report_at self.now.run self.now.position) }
    {
        let mut text = Draft::new(self.alloc);
        report(
            &mut text,
            self.machine(),
            self.recording.events(self.position()),
            self.position(),
            self.total(),
        );
        Ok(Report::of(text.finish()?))
    }
}
