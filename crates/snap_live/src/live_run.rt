//! `run_live`: plays the scripts of all processes at once, a worker with one seat in a thread for
//! each.
ghost use Rattle.std.specs.Prelude.{◌≡◌, ◌+◌, ◌-◌, ◌*◌, ◌^◌, ◌<◌, ◌≤◌, [], ◌∷◌};
ghost use Rattle.std.specs.Prelude.{ℕ, length, vec_len, All, map};
ghost use Rattle.std.specs.Prelude.{slice_index_or, IfOk, IfErr, Some, None};
ghost use Rattle.snap_words.specs.Shape.{IsOneOf, max_items};
ghost use Rattle.snap_live.specs.declared.seat_state.Setting.{Setting};
ghost use Rattle.snap_live.specs.Script.{script_at};
ghost use Rattle.snap_live.specs.Shown.{seat_of, seats_of};
ghost use Rattle.snap_live.specs.Worker.{HasRoom, IsWorked, WorkedView};
ghost use Rattle.snap_live.specs.LiveRun.{AllWorked, IsLive, MayFault};
ghost use Rattle.snap_live.specs.LiveRun.{first_stop, then_first, fault_of};

use crate::closed_desk::close;
use crate::desk::{Desk, open};
use crate::gate::Gate;
use crate::refusal::LiveFault;
use crate::seat::{Seat, Turn};
use crate::start_gate::StartGate;
use crate::table::Table;
use crate::worker::{Stop, Worked, work};
use snap_asm_program::Program;
use snap_record::{MAX_ITEMS, Record};
use snap_sched::{Script, Scripts};
use snap_semantics::{Fault, LiveRefusal};
use snap_words::Kind;
use std::alloc::{AllocError, Global};
use std::marker::Model;
use std::snapshot::Snapshot;
use std::sync::Wait;
use std::thread;
use std::thread::{Promise, PromisedHandle, Scope, Threads};

/// The turns of a process, in order.
#[derive(Drop)]
pub struct Turns {
    turns: Vec<Turn>,
}

impl Model for Turns {
    ghost use Rattle.std.specs.Prelude.{List};
    ghost use Rattle.snap_live.specs.declared.seat.Turn.{Turn};

    ghost Value = { List Turn };

    ghost view = { λ t. t.turns.items };
}

impl Turns {
    /// Returns a list of these turns.
    pub fn of(turns: Vec<Turn>) -> Turns
        ensures { result ≡ turns.items }
    {
        Turns { turns }
    }

    /// Returns the turns as a slice.
    pub fn as_slice(&self) -> &[Turn]
        ensures { result.now ≡ self.now }
    {
        self.turns.as_slice()
    }
}

/// What all workers did.
pub struct LiveRun<K: Kind> {
    /// The record of all turns.
    pub kept: Record<K>,
    /// The turns of each process, in the order of processes.
    pub turns: Vec<Turns>,
}

impl<K: Kind> Drop for LiveRun<K> {
    // A drop that is written out is one call: it is proved once, and not again at each drop.
    fn drop(self) {
        let LiveRun { kept: _, turns: _ } = self;
    }
}

/// The promise of a worker, about what it is given.
#[derive(Drop)]
struct WorkerPromise<K: Kind, G> {
    seat: Snapshot<Seat<K>>,
    script: Snapshot<Script>,
    gate: Snapshot<G>,
    limit: u64,
}

impl<K: Kind, G: Gate> Promise<Worked<K>> for WorkerPromise<K, G> {
    ghost kept_by = { λ p r. IsWorked (G.may_answer p.gate.value)
        p.seat.value.desk p.seat.value.process p.script.value p.limit r };
}

/// Starts the worker of a seat, in a thread of its own.
fn start<'s, E, K: Kind, G: Gate, R: Threads + Wait + Sync>(
    scope: &Scope<'s, E>,
    table: &'s Table<'s, K, G, R>,
    alloc: Global,
    seat: Seat<K>,
    script: &'s Script,
) -> Result<PromisedHandle<Worked<K>, WorkerPromise<K, G>>, AllocError>
    requires { (seat ≡ seat_of table.now.desk.now seat.process) × (table.now.limit ≤ max_items) }
    ensures seat { IfOk result (λ h. h.promise.seat.value ≡ seat) }
    ensures script { IfOk result (λ h. h.promise.script.value ≡ script.now) }
    ensures gate { IfOk result (λ h. h.promise.gate.value ≡ table.now.gate.now) }
    ensures limit { IfOk result (λ h. h.promise.limit ≡ table.now.limit) }
{
    let promise = WorkerPromise {
        seat: Snapshot::of(&seat),
        script: Snapshot::of(script),
        gate: Snapshot::of(table.gate),
        limit: table.limit,
    };
    let child = scope.spawn_with(
        promise,
        move || -> Worked<K>
            requires { (seat ≡ seat_of table.now.desk.now seat.process) ×
                (table.now.limit ≤ max_items) }
            ensures { IsWorked (G.may_answer table.entry.now.gate.now) table.entry.now.desk.now
                seat.process script.entry.now table.entry.now.limit result }
        { work(table, alloc, seat, script) },
    )?;
    Ok(child)
}

/// Returns the script of a process.
fn script_of(scripts: &Scripts, process: u32) -> &Script
    requires { IsOneOf (length scripts.now.scripts) process }
    ensures { result.now ≡ script_at scripts.now.scripts (process - 1) }
{
    &scripts.scripts()[(process - 1) as usize]
}

/// Starts all workers.
fn start_all<'s, E, K: Kind, G: Gate, R: Threads + Wait + Sync>(
    scope: &Scope<'s, E>,
    table: &'s Table<'s, K, G, R>,
    alloc: Global,
    seats: Vec<Seat<K>>,
    scripts: &'s Scripts,
) -> Result<Vec<PromisedHandle<Worked<K>, WorkerPromise<K, G>>>, AllocError>
    requires { All (λ s. (s ≡ seat_of table.now.desk.now s.process) ×
        IsOneOf (length scripts.now.scripts) s.process) seats.items ×
        (table.now.limit ≤ max_items) }
    ensures seats { IfOk result (λ hs. map (λ h. h.promise.seat.value) hs.items ≡ seats.items) }
    ensures scripts { IfOk result (λ hs. map (λ h. h.promise.script.value) hs.items
        ≡ map (λ s. script_at scripts.now.scripts (s.process - 1)) seats.items) }
    ensures gate { IfOk result (λ hs.
        All (λ h. h.promise.gate.value ≡ table.now.gate.now) hs.items) }
    ensures limit { IfOk result (λ hs. All (λ h. h.promise.limit ≡ table.now.limit) hs.items) }
{
    let mut handles = Vec::new(alloc);
    for seat in seats {
        let script = script_of(scripts, seat.process());
        handles.push(start(scope, table, alloc, seat, script)?)?;
    }
    Ok(handles)
}

/// Runs all workers at once, each in a thread of its own, and joins them. There is room for what
/// they hand back.
fn run_all<'t, K: Kind, G: Gate, R: Threads + Wait + Sync>(
    table: &'t Table<'t, K, G, R>,
    alloc: Global,
    seats: Vec<Seat<K>>,
    worked: Vec<Worked<K>>,
    scripts: &'t Scripts,
) -> Result<Vec<Worked<K>>, AllocError>
    requires seats { seats.items ≡ seats_of table.now.desk.now (length scripts.now.scripts) }
    requires limit { table.now.limit ≤ max_items }
    requires worked { HasRoom (length scripts.now.scripts) worked }
    ensures { IfOk result (λ ws. AllWorked (G.may_answer table.now.gate.now)
        table.now.desk.now scripts.now.scripts table.now.limit ws.items) }
{
    let start_gate = StartGate::of(table.gate, scripts.scripts());
    let workers = Table {
        rt: table.rt,
        desk: table.desk,
        limit: table.limit,
        gate: &start_gate,
    };
    let workers = &workers;
    thread::scope(
        thread::scope_env(),
        table.rt,
        move |scope| -> Result<Vec<Worked<K>>, AllocError>
            requires seats { seats.items
                ≡ seats_of workers.now.desk.now (length scripts.now.scripts) }
            requires limit { workers.now.limit ≤ max_items }
            requires worked { HasRoom (length scripts.now.scripts) worked }
            ensures { IfOk result (λ ws.
                AllWorked (G.may_answer workers.entry.now.gate.now.gate.now)
                workers.entry.now.desk.now scripts.entry.now.scripts
                workers.entry.now.limit ws.items) }
        {
            let started = start_all(scope, workers, alloc, seats, scripts);
            if started.is_err() {
                workers.gate.call_off();
            }
            let handles = started?;
            let all = joined(workers.rt, handles, worked);
            Ok(all)
        },
    )
}

/// Joins all workers, for which there is room. What each of them hands back keeps the promise of
/// its handle.
fn joined<K: Kind, G: Gate, R: Threads>(
    rt: &R,
    handles: Vec<PromisedHandle<Worked<K>, WorkerPromise<K, G>>>,
    mut worked: Vec<Worked<K>>,
) -> Vec<Worked<K>>
    requires { HasRoom (vec_len handles) worked }
    ensures len { length result.items ≡ length handles.items }
    ensures each { (k : ℕ) (w : WorkedView) → k < length handles.items → (h : _)
        × (h ≡ slice_index_or handles.items k h)
        × IsWorked (G.may_answer h.promise.gate.value)
        h.promise.seat.value.desk h.promise.seat.value.process
        h.promise.script.value h.promise.limit (slice_index_or result.items k w) }
{
    for handle in handles {
        worked.push_reserved(handle.join(rt));
    }
    worked
}

/// The room for what all workers hand back: once they have begun, nothing is allocated but the
/// threads and what the desk takes.
#[derive(Drop)]
struct Room<K: Kind> {
    worked: Vec<Worked<K>>,
    seats: Vec<Seat<K>>,
    turns: Vec<Turns>,
}

/// Returns room for `count` workers.
fn room_for<K: Kind>(alloc: Global, count: usize) -> Result<Room<K>, AllocError>
    ensures worked { IfOk result (λ r. HasRoom count r.worked) }
    ensures seats { IfOk result (λ r. HasRoom count r.seats) }
    ensures turns { IfOk result (λ r. HasRoom count r.turns) }
{
    Ok(Room {
        worked: Vec::with_capacity(alloc, count)?,
        seats: Vec::with_capacity(alloc, count)?,
        turns: Vec::with_capacity(alloc, count)?,
    })
}

/// The seats and the turns in the order of processes, and which is the least process that stopped
/// before its end, and why.
#[derive(Drop)]
struct WorkerResults<K: Kind> {
    seats: Vec<Seat<K>>,
    turns: Vec<Turns>,
    stop: Option<(u32, Stop)>,
}

/// Puts what the workers hand back together. There is room for it.
fn results_of<K: Kind>(
    worked: Vec<Worked<K>>,
    mut seats: Vec<Seat<K>>,
    mut turns: Vec<Turns>,
) -> WorkerResults<K>
    requires { HasRoom (vec_len worked) seats × HasRoom (vec_len worked) turns }
    ensures seats { result.seats.items ≡ map (λ w. w.seat) worked.items }
    ensures turns { result.turns.items ≡ map (λ w. w.turns) worked.items }
    ensures stop { result.stop ≡ first_stop worked.items }
{
    let mut first = None;
    for one in worked {
        let (seat, made, stop) = parts_of(one);
        first = then_first(first, seat.process(), stop);
        seats.push_reserved(seat);
        turns.push_reserved(made);
    }
    WorkerResults {
        seats,
        turns,
        stop: first,
    }
}

/// Returns the parts of what a worker hands back.
fn parts_of<K: Kind>(worked: Worked<K>) -> (Seat<K>, Turns, Option<Stop>)
    ensures { (result.0 ≡ worked.seat) × (result.1 ≡ worked.turns) × (result.2 ≡ worked.stop) }
{
    let Worked { seat, turns, stop } = worked;
    (seat, Turns::of(turns), stop)
}

/// Returns the stop that was found before, or else `stop`.
fn then_first(found: Option<(u32, Stop)>, process: u32, stop: Option<Stop>) -> Option<(u32, Stop)>
    ensures { result ≡ then_first found process stop }
{
    match found {
        Some(first) => Some(first),
        None => match stop {
            Some(stop) => Some((process, stop)),
            None => None,
        },
    }
}

/// Plays all scripts at once at a new desk, with a worker in a thread for each process. Each worker
/// makes at most `limit` turns, and asks `gate` before each of them. Workers begin together, unless
/// some come late. All have ended when the function returns.
///
/// # Errors
///
/// `Refused` with `TurnLimit` where `gate` stops a process or a process has no turn left, and with
/// `Full` where the record has no room; `Memory` where memory runs out or no thread can be started.
pub fn run_live<K: Kind, G: Gate, R: Threads + Wait + Sync>(
    rt: &R,
    alloc: Global,
    program: &Program,
    scripts: &Scripts,
    limit: u64,
    gate: &G,
) -> Result<LiveRun<K>, LiveFault>
    requires kind { program.now.kind ≡ K.TAG }
    requires limit { (1 ≤ limit) × (limit ≤ max_items) }
    ensures ok { let base : Setting = record { source = program.now; shape = scripts.now.shape } in
        IfOk result (λ l. IsLive (G.may_answer gate.now)
        base scripts.now.scripts limit l.kept l.turns.items) }
    ensures err { let base : Setting = record { source = program.now; shape = scripts.now.shape } in
        IfErr result (λ f. MayFault (G.may_answer gate.now) base scripts.now.scripts limit f) }
{
    let (desk, seats) = open::<K>(alloc, program, scripts.shape())?;
    let room = room_for::<K>(alloc, scripts.scripts().len())?;
    let table = Table {
        rt,
        desk: &desk,
        limit,
        gate,
    };
    let worked = run_all(&table, alloc, seats, room.worked, scripts)?;
    let WorkerResults { seats, turns, stop } = results_of(worked, room.seats, room.turns);
    let Ok(kept) = close(desk, seats) else {
        unreachable!()
    };
    // What `items` promises: the run of the record is a valid one.
    let _items = kept.items();
    match stop {
        None => Ok(LiveRun { kept, turns }),
        Some((process, stop)) => Err(fault_of(process, stop)),
    }
}

/// Returns the fault of the whole run.
fn fault_of(process: u32, stop: Stop) -> LiveFault
    ensures { result ≡ fault_of process stop }
{
    match stop {
        Stop::Memory => Fault::Memory,
        Stop::Full => Fault::Refused(LiveRefusal::Full(MAX_ITEMS)),
        Stop::TurnLimit => Fault::Refused(LiveRefusal::TurnLimit(process)),
    }
}
