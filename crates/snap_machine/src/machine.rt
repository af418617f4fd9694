//! `Machine`: a program, its registers and its processes. A machine does one item of a schedule at
//! a time (`apply`), or with an `Undo`.
ghost use Rattle.std.specs.Prelude.{
  ◌≡◌,
  ◌<◌,
  false,
  IfOk,
  IsTrue,
  MatchResult,
  OnErr,
  OnSome,
  length,
  nat_eq,
  option_map,
};
ghost use Rattle.snap_words.specs.Shape.{IsOneOf};
ghost use Rattle.snap_semantics.specs.Memory.{may_grow};
ghost use Rattle.snap_semantics.specs.Readers.{
  activity_of,
  contents,
  line_of,
  link_of,
  local_value,
  operation_of,
};
ghost use Rattle.snap_semantics.specs.State.{initial, process_at, values};
ghost use Rattle.snap_semantics.specs.Table.{done, who};
ghost use Rattle.snap_semantics.specs.declared.process.Item.TheVariants as item;
ghost use Rattle.snap_semantics.specs.declared.process.Status.TheVariants.{Busy};
ghost use Rattle.snap_regs.specs.Store.{IsOfShape};
ghost use Rattle.snap_regs.specs.declared.fault.RegisterFault.TheVariants.{Index};
ghost use Rattle.snap_machine.specs.Configuration.{HasLocals};
ghost use Rattle.snap_machine.specs.SeenContents.{
  local_at,
  seen_contents,
  seen_local,
  seen_named,
  value_there,
};
ghost use Rattle.snap_machine.specs.Undo.{CanPut, put};
ghost use Rattle.snap_machine.specs.SeenProcesses.{seen_locals};

use crate::call::{call, crash};
use crate::contents::{Contents, Local};
use crate::copies::copy_processes;
use crate::fresh::new_processes;
use crate::overwrites::overwritten;
use crate::reversal::revert;
use crate::slot_process::SlotProcess;
use crate::step::{step, step_at};
use crate::undo::Undo;
use snap_asm_program::Program;
use snap_regs::{RegisterFault, Registers};
use snap_semantics::{Activity, BitBank, Item, Name, Op, Outcome, Sort, Status};
use snap_words::{Address, Bank, Field, Kind, Shape, View, field_of};
use std::alloc::{AllocError, Global};
use std::marker::Model;

/// Processes that run a program over registers, seen as the program, the shape and the state.
pub struct Machine<K: Kind> {
    alloc: Global,
    program: Program,
    registers: Registers<K>,
    processes: Vec<SlotProcess<K>>,
}

impl<K: Kind> Drop for Machine<K> {
    // A drop that is written out is one call: it is proved once, and not again at each drop.
    fn drop(self) {
        let Machine {
            alloc: _,
            program: _,
            registers: _,
            processes: _,
        } = self;
    }
}

impl<K: Kind> Model for Machine<K> {
    ghost use Rattle.snap_machine.specs.Configuration.{Configuration, IsConfiguration};

    ghost Value = { Configuration };

    ghost use Rattle.snap_machine.specs.SeenProcesses.{seen_state};

    ghost view = { λ m. record {
      source = m.program;
      shape = m.registers.shape;
      state = seen_state K.as_word m.program m.registers.memory m.processes.items;
    } };

    ghost invariant = { λ m. IsConfiguration K.TAG K.as_word m.program m.registers.shape
        m.processes.items };
}

impl<K: Kind> Machine<K> {
    /// Returns a machine in the initial state.
    ///
    /// # Errors
    ///
    /// `AllocError` where memory runs out.
    pub fn new(alloc: Global, program: &Program, shape: Shape) -> Result<Machine<K>, AllocError>
        requires { program.now.kind ≡ K.TAG }
        ensures { IfOk result (λ m.
            m ≡ record { source = program.now; shape = shape; state = initial program.now shape }) }
    {
        let registers = Registers::new(alloc, shape)?;
        let processes = new_processes(alloc, program.listing(), shape)?;
        let program = program.copy(alloc)?;
        Ok(Machine {
            alloc,
            program,
            registers,
            processes,
        })
    }

    /// Does one item of a schedule, and returns its outcome.
    ///
    /// # Errors
    ///
    /// `AllocError` where memory runs out; the machine is as before then.
    pub fn apply(&mut self, item: Item) -> Result<Outcome, AllocError>
        requires { IsOneOf self.old.shape.n (who item) }
        ensures done { IfOk result (λ o.
            done self.old.source self.old.shape self.old.state item ≡ (self.new.state, o)) }
        ensures source { self.new.source ≡ self.old.source }
        ensures shape { self.new.shape ≡ self.old.shape }
        ensures err { OnErr result (self.new ≡ self.old) }
        ensures grows { OnErr result
            (IsTrue (may_grow self.old.source self.old.shape self.old.state item)) }
    {
        match item {
            Item::Step(i) => step(
                self.alloc,
                &self.program,
                &mut self.registers,
                self.processes.as_mut_slice(),
                i,
            ),
            Item::Call(i, op) => Ok(self.call(i, op)),
            Item::Crash(i) => Ok(self.crash(i)),
        }
    }

    /// Does a step of process `i`, which is at `activity`, and returns its outcome.
    ///
    /// # Errors
    ///
    /// `AllocError` where memory runs out; the machine is as before then.
    #[inline(always)]
    pub fn step_at(&mut self, i: u32, activity: &Activity) -> Result<Outcome, AllocError>
        requires process { IsOneOf self.old.shape.n i }
        requires at { (process_at self.old.state i).status ≡ Busy activity.now }
        ensures done { IfOk result (λ o.
            done self.old.source self.old.shape self.old.state (item.Step i)
            ≡ (self.new.state, o)) }
        ensures source { self.new.source ≡ self.old.source }
        ensures shape { self.new.shape ≡ self.old.shape }
        ensures err { OnErr result (self.new ≡ self.old) }
        ensures grows { OnErr result
            (IsTrue (may_grow self.old.source self.old.shape self.old.state (item.Step i))) }
    {
        step_at(
            self.alloc,
            &self.program,
            &mut self.registers,
            self.processes.as_mut_slice(),
            i,
            activity,
        )
    }

    /// Calls `op` at process `i`, which begins it or skips the call, and returns the outcome.
    pub fn call(&mut self, i: u32, op: Op) -> Outcome
        requires { IsOneOf self.old.shape.n i }
        ensures done { done self.old.source self.old.shape self.old.state (item.Call i op)
            ≡ (self.new.state, result) }
        ensures source { self.new.source ≡ self.old.source }
        ensures shape { self.new.shape ≡ self.old.shape }
    {
        call(
            self.program.listing(),
            &self.registers,
            self.processes.as_mut_slice(),
            i,
            op,
        )
    }

    /// Crashes process `i`, and returns the outcome.
    pub fn crash(&mut self, i: u32) -> Outcome
        requires { IsOneOf self.old.shape.n i }
        ensures done { done self.old.source self.old.shape self.old.state (item.Crash i)
            ≡ (self.new.state, result) }
        ensures source { self.new.source ≡ self.old.source }
        ensures shape { self.new.shape ≡ self.old.shape }
    {
        crash(
            self.program.listing(),
            &self.registers,
            self.processes.as_mut_slice(),
            i,
        )
    }

    /// Returns what `item` would overwrite in this state: once that is put back after the item,
    /// everything is as before. The locals of its process are those of the program.
    ///
    /// # Errors
    ///
    /// `AllocError` where memory runs out.
    pub fn overwritten(&self, item: Item) -> Result<Undo<K>, AllocError>
        requires { IsOneOf self.now.shape.n (who item) }
        ensures back { IfOk result (λ u.
            put self.now.source u (done self.now.source self.now.shape self.now.state item).0
            ≡ self.now.state) }
        ensures fits { IfOk result (λ u. CanPut self.now.source self.now.shape u) }
        ensures process { IfOk result (λ u. u.process ≡ who item) }
        ensures locals { HasLocals self.now.source (process_at self.now.state (who item)).locals }
    {
        overwritten(
            self.alloc,
            &self.program,
            &self.registers,
            self.processes.as_slice(),
            item,
        )
    }

    /// Does one item of a schedule, as `apply` does, and returns its outcome and what it overwrote:
    /// once that is put back, everything is as before.
    ///
    /// # Errors
    ///
    /// `AllocError` where memory runs out; the machine is as before then.
    pub fn apply_undo(&mut self, item: Item) -> Result<(Outcome, Undo<K>), AllocError>
        requires { IsOneOf self.old.shape.n (who item) }
        ensures done { IfOk result (λ r.
            done self.old.source self.old.shape self.old.state item ≡ (self.new.state, r.0)) }
        ensures back { IfOk result (λ r. put self.old.source r.1 self.new.state ≡ self.old.state) }
        ensures fits { IfOk result (λ r. CanPut self.old.source self.old.shape r.1) }
        ensures source { self.new.source ≡ self.old.source }
        ensures shape { self.new.shape ≡ self.old.shape }
        ensures err { OnErr result (self.new ≡ self.old) }
    {
        let undo = self.overwritten(item)?;
        let outcome = self.apply(item)?;
        Ok((outcome, undo))
    }

    /// Puts back what an item overwrote in a machine of this program and shape. No memory is
    /// allocated.
    pub fn revert(&mut self, undo: Undo<K>)
        requires { CanPut self.old.source self.old.shape undo }
        ensures state { self.new.state ≡ put self.old.source undo self.old.state }
        ensures source { self.new.source ≡ self.old.source }
        ensures shape { self.new.shape ≡ self.old.shape }
    {
        revert(
            &self.program,
            &mut self.registers,
            self.processes.as_mut_slice(),
            undo,
        );
    }

    /// Returns the program that the machine runs.
    pub fn program(&self) -> &Program
        ensures value { result.now ≡ self.now.source }
        ensures kind { self.now.source.kind ≡ K.TAG }
    {
        &self.program
    }

    /// Returns the numbers of processes and of words.
    pub fn shape(&self) -> Shape
        ensures shape { result ≡ self.now.shape }
        ensures processes { length self.now.state.processes ≡ self.now.shape.n }
        ensures registers { IsOfShape K.TAG self.now.shape self.now.state.memory }
    {
        self.registers.shape()
    }

    /// Returns the status of process `i`.
    pub fn status(&self, i: u32) -> Status
        requires { IsOneOf self.now.shape.n i }
        ensures { result ≡ (process_at self.now.state i).status }
    {
        self.processes[(i - 1) as usize].status
    }

    /// Returns the activity of a process, or the one at which it trapped or crashed.
    fn activity(&self, i: u32) -> Option<Activity>
        requires { IsOneOf self.now.shape.n i }
        ensures { result ≡ activity_of (process_at self.now.state i).status }
    {
        match self.status(i) {
            Status::Idle => None,
            Status::Busy(activity) | Status::Trapped(_, activity) => Some(activity),
            Status::Crashed(was) => was,
        }
    }

    /// Returns the number of the line that process `i` runs next, or at which it trapped or
    /// crashed.
    pub fn line(&self, i: u32) -> Option<u64>
        requires { IsOneOf self.now.shape.n i }
        ensures { result ≡ line_of (process_at self.now.state i).status }
    {
        Some(self.activity(i)?.line)
    }

    /// Returns the operation of process `i`, or the one during which it trapped or crashed.
    pub fn operation(&self, i: u32) -> Option<Op>
        requires { IsOneOf self.now.shape.n i }
        ensures { result ≡ operation_of (process_at self.now.state i).status }
    {
        Some(self.activity(i)?.op)
    }

    /// Returns the line to which a process goes back at `return`.
    pub fn link(&self, i: u32) -> Option<u64>
        requires { IsOneOf self.now.shape.n i }
        ensures { result ≡ link_of (activity_of (process_at self.now.state i).status) }
    {
        self.activity(i)?.link
    }

    /// Returns the values of the words.
    ///
    /// # Errors
    ///
    /// `AllocError` where memory runs out.
    pub fn values(&self) -> Result<View, AllocError>
        ensures { IfOk result (λ v. v ≡ values self.now.state) }
    {
        let mut values = Vec::new(self.alloc);
        for k in 0..self.registers.shape().w() {
            let Ok(word) = self.registers.word(k + 1) else {
                unreachable!()
            };
            values.push(field_of::<K>(word, Field::Datum))?;
        }
        Ok(View::of(values))
    }

    /// Returns a copy of the machine.
    ///
    /// # Errors
    ///
    /// `AllocError` where memory runs out.
    pub fn copy(&self) -> Result<Machine<K>, AllocError>
        ensures { IfOk result (λ m. m ≡ self.now) }
    {
        let program = self.program.copy(self.alloc)?;
        let registers = self.registers.copy(self.alloc)?;
        let processes = copy_processes(self.alloc, self.processes.as_slice())?;
        Ok(Machine {
            alloc: self.alloc,
            program,
            registers,
            processes,
        })
    }

    /// Returns the contents of the register at `address`.
    ///
    /// # Errors
    ///
    /// `Index` where there is no such register.
    pub fn register(&self, address: Address) -> Result<Contents<'_, K>, RegisterFault>
        ensures { let read = contents self.now.state.memory address.bank address.i address.j in
            MatchResult result (λ c. read ≡ Some (seen_contents K.as_word c)) (λ e. (e ≡ Index) ×
            (read ≡ None)) }
    {
        match address.bank {
            Bank::R => {
                check_lone(address.j)?;
                Ok(Contents::Word(self.registers.word(address.i)?))
            }
            Bank::Q => {
                let bit = self.registers.bit(BitBank::Q, address.i, address.j)?;
                Ok(Contents::Bit(bit))
            }
            Bank::P => {
                let bit = self.registers.bit(BitBank::P, address.i, address.j)?;
                Ok(Contents::Bit(bit))
            }
            Bank::V => {
                check_lone(address.j)?;
                Ok(Contents::View(self.registers.view(address.i)?))
            }
        }
    }

    /// Returns the value of a local, if there is one of this name.
    pub fn local(&self, i: u32, name: Name) -> Option<Local<'_, K>>
        requires { IsOneOf self.now.shape.n i }
        ensures { option_map (seen_local K.as_word) result
            ≡ local_value (process_at self.now.state i).locals name }
    {
        let process = &self.processes[(i - 1) as usize];
        find_local(&self.program, process, name)
    }

    /// Returns the name and the value of local `k` of a sort, counted from 0 in the order of
    /// declaration.
    pub fn local_at(&self, i: u32, sort: Sort, k: usize) -> Option<(Name, Local<'_, K>)>
        requires { IsOneOf self.now.shape.n i }
        ensures value { option_map (seen_named K.as_word) result
            ≡ local_at (process_at self.now.state i).locals sort k }
        ensures few { OnSome result (k < 32) }
    {
        let process = &self.processes[(i - 1) as usize];
        named_local(&self.program, process, sort, k)
    }
}

/// Checks that a register with one index alone is not given a second one.
fn check_lone(j: u64) -> Result<(), RegisterFault>
    ensures { MatchResult result (λ _. j ≡ 0) (λ e. (e ≡ Index) × (nat_eq j 0 ≡ false)) }
{
    if j == 0 {
        Ok(())
    } else {
        Err(RegisterFault::Index)
    }
}

/// Returns the value of a local of a process, if there is one of this name.
fn find_local<'a, K: Kind>(
    program: &Program,
    process: &'a SlotProcess<K>,
    name: Name,
) -> Option<Local<'a, K>>
    ensures { option_map (seen_local K.as_word) result
        ≡ local_value (seen_locals K.as_word program.now process.now) name }
{
    let (sort, k) = program.place(name)?;
    local_there(process, sort, k)
}

/// Returns the name and the value of local `k` of a sort.
fn named_local<'a, K: Kind>(
    program: &Program,
    process: &'a SlotProcess<K>,
    sort: Sort,
    k: usize,
) -> Option<(Name, Local<'a, K>)>
    ensures value { option_map (seen_named K.as_word) result
        ≡ local_at (seen_locals K.as_word program.now process.now) sort k }
    ensures few { OnSome result (k < 32) }
{
    let name = program.name(sort, k)?;
    let value = local_there(process, sort, k)?;
    Some((name, value))
}

/// Returns the value of local `k` of a sort.
fn local_there<'a, K: Kind>(
    process: &'a SlotProcess<K>,
    sort: Sort,
    k: usize,
) -> Option<Local<'a, K>>
    ensures { option_map (seen_local K.as_word) result ≡ value_there K.as_word process.now sort k }
{
    match sort {
        Sort::Scalar => Some(Local::Number(*process.scalars.get(k)?)),
        Sort::Row => Some(Local::Row(process.rows.get(k)?.as_slice())),
        Sort::Words => Some(Local::Words(process.words.get(k)?.as_slice())),
        Sort::View => Some(Local::View(process.views.get(k)?)),
    }
}
