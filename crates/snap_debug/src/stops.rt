//! `next_stop` and `last_stop`: where breakpoints and watched registers stop a run, found by
//! machines that walk along it.
ghost use Rattle.std.specs.Prelude.{◌≡◌, ◌<◌, ◌≤◌, ◌+◌, ◌-◌, if◌then◌else◌};
ghost use Rattle.std.specs.Prelude.{IfOk, Some, bytes_eq, length};
ghost use Rattle.std.specs.List.{list_any};
ghost use Rattle.snap_words.specs.Shape.{IsOneOf};
ghost use Rattle.snap_semantics.specs.State.{process_at};
ghost use Rattle.snap_machine.specs.SeenContents.{seen_contents};
ghost use Rattle.snap_semantics.specs.Table.{who};
ghost use Rattle.snap_runs.specs.Run.{item};
ghost use Rattle.snap_runs.specs.Update.{is_at};
ghost use Rattle.snap_debug.specs.Marks.{is_stop, last_stop, next_stop, same_contents, same_word};
ghost use Rattle.snap_debug.specs.Stops.{AreAt, differs, or_before, stands_at, stops_between};
ghost use Rattle.snap_debug.specs.Recording.{IsCheckpoint};

use crate::checkpoint::Checkpoint;
use crate::marks::Marks;
use crate::recording::Recording;
use snap_debug_commands::Breakpoint;
use snap_machine::{Contents, Machine};
use snap_semantics::Status;
use snap_words::{Address, Field, Kind, field_of, same_handshakes, view_of};
use std::alloc::AllocError;

/// Two machines at one position.
pub struct Walk<K: Kind> {
    before: Checkpoint<K>,
    after: Checkpoint<K>,
}

impl<K: Kind> Drop for Walk<K> {
    // A drop that is written out is one call: it is proved once, and not again at each drop.
    fn drop(self) {
        let Walk {
            before: _,
            after: _,
        } = self;
    }
}

/// Returns whether two lists of numbers are the same.
fn same_numbers(xs: &[u64], ys: &[u64]) -> bool
    ensures { result ≡ bytes_eq xs.now ys.now }
{
    xs == ys
}

/// Returns whether two words have the same fields.
fn same_word<K: Kind>(x: &K::Word, y: &K::Word) -> bool
    ensures { result ≡ same_word (K.as_word x.now) (K.as_word y.now) }
{
    field_of::<K>(x, Field::Datum) == field_of::<K>(y, Field::Datum)
        && field_of::<K>(x, Field::Seq) == field_of::<K>(y, Field::Seq)
        && field_of::<K>(x, Field::Id) == field_of::<K>(y, Field::Id)
        && field_of::<K>(x, Field::Toggle) == field_of::<K>(y, Field::Toggle)
        && same_handshakes::<K>(x, y)
        && same_numbers(view_of::<K>(x), view_of::<K>(y))
}

/// Returns whether two registers have the same contents.
fn same_contents<K: Kind>(x: Contents<'_, K>, y: Contents<'_, K>) -> bool
    ensures { result ≡ same_contents (Some (seen_contents K.as_word x.entry))
        (Some (seen_contents K.as_word y.entry)) }
{
    match x {
        Contents::Word(x) => match y {
            Contents::Word(y) => same_word::<K>(x, y),
            Contents::Bit(_) => false,
            Contents::View(_) => false,
        },
        Contents::Bit(x) => match y {
            Contents::Word(_) => false,
            Contents::Bit(y) => x == y,
            Contents::View(_) => false,
        },
        Contents::View(x) => match y {
            Contents::Word(_) => false,
            Contents::Bit(_) => false,
            Contents::View(y) => same_numbers(x.as_slice(), y.as_slice()),
        },
    }
}

/// Returns whether a register has other contents in another machine.
fn differs<K: Kind>(before: &Machine<K>, after: &Machine<K>, address: Address) -> bool
    ensures { result ≡ differs before.now.state after.now.state address }
{
    match before.register(address) {
        Ok(x) => match after.register(address) {
            Ok(y) => !same_contents(x, y),
            Err(_) => true,
        },
        Err(_) => match after.register(address) {
            Ok(_) => true,
            Err(_) => false,
        },
    }
}

/// Returns whether one of `watches` differs between two machines.
fn any_differs<K: Kind>(before: &Machine<K>, after: &Machine<K>, watches: &[Address]) -> bool
    ensures { result ≡ list_any (differs before.now.state after.now.state) watches.now }
{
    for address in watches {
        if differs(before, after, *address) {
            return true;
        }
    }
    false
}

/// Returns whether a process is busy at a line.
fn is_at(line: u64, status: &Status) -> bool
    ensures { result ≡ is_at line status.now }
{
    match status {
        Status::Idle => false,
        Status::Busy(activity) => activity.line == line,
        Status::Trapped(_, _) => false,
        Status::Crashed(_) => false,
    }
}

/// Returns whether process `i`, of this status, is at the line of the breakpoint `b` for it.
fn stands_at(i: u32, status: &Status, b: Breakpoint) -> bool
    ensures { result ≡ stands_at i status.now b }
{
    u64::from(i) == b.process && is_at(b.line, status)
}

/// Returns whether process `i`, of this status, is at the line of one of `breaks`.
fn any_stands_at(i: u32, status: &Status, breaks: &[Breakpoint]) -> bool
    ensures { result ≡ list_any (stands_at i status.now) breaks.now }
{
    for b in breaks {
        if stands_at(i, status, *b) {
            return true;
        }
    }
    false
}

/// Returns whether marks stop at an item of process `i` that leads from one machine to the other.
fn stops_between<K: Kind>(before: &Machine<K>, after: &Machine<K>, i: u32, marks: &Marks) -> bool
    requires { IsOneOf after.now.shape.n i }
    ensures { result ≡ stops_between before.now.state after.now.state i marks.now }
{
    any_stands_at(i, &after.status(i), marks.breaks())
        || any_differs(before, after, marks.watches())
}

/// Does the next item at a position, and returns its process.
fn pass_item<K: Kind>(
    recording: &Recording<K>,
    current: &mut Checkpoint<K>,
) -> Result<u32, AllocError>
    requires stands { IsCheckpoint recording.now.run current.old }
    requires reached { current.old.position < recording.now.reached }
    ensures stands { IfOk result (λ _. IsCheckpoint recording.now.run current.new) }
    ensures position { IfOk result (λ _. current.new.position ≡ current.old.position + 1) }
    ensures process { let r = recording.now.run in
        IfOk result (λ i. (i ≡ who (item r (current.old.position + 1))) × IsOneOf r.shape.n i) }
{
    let (process, _outcome) = recording.advance(current)?;
    Ok(process)
}

impl<K: Kind> Walk<K> {
    /// Returns a walk from `start` on.
    fn new(start: &Checkpoint<K>) -> Result<Walk<K>, AllocError>
        ensures before { IfOk result (λ w. w.before ≡ start.now) }
        ensures after { IfOk result (λ w. w.after ≡ start.now) }
    {
        Ok(Walk {
            before: start.copy()?,
            after: start.copy()?,
        })
    }

    /// Does the next item, and returns whether marks stop at it.
    fn step(&mut self, recording: &Recording<K>, marks: &Marks) -> Result<bool, AllocError>
        requires walk { AreAt recording.now.run self.old }
        requires reached { self.old.before.position < recording.now.reached }
        ensures walk { IfOk result (λ _. AreAt recording.now.run self.new) }
        ensures position { IfOk result (λ _. self.new.before.position
            ≡ self.old.before.position + 1) }
        ensures stop { IfOk result (λ stop. stop ≡ is_stop recording.now.run marks.now
            (self.old.before.position + 1)) }
    {
        let process = pass_item(recording, &mut self.after)?;
        let stop = stops_between(&self.before.machine, &self.after.machine, process, marks);
        let _same = pass_item(recording, &mut self.before)?;
        Ok(stop)
    }
}

/// Returns the first stop after a position, and the end if there is none. Up to the first stop the
/// watched registers are as they were at that position, so that its machine serves as the one
/// before each item.
///
/// # Errors
///
/// `AllocError` where memory runs out.
pub fn next_stop<K: Kind>(
    recording: &mut Recording<K>,
    here: &Checkpoint<K>,
    marks: &Marks,
) -> Result<u64, AllocError>
    requires stands { IsCheckpoint recording.old.run here.now }
    requires reached { here.now.position ≤ recording.old.reached }
    ensures run { recording.new.run ≡ recording.old.run }
    ensures grows { recording.old.reached ≤ recording.new.reached }
    ensures within { IfOk result (λ t. t ≤ length recording.old.run.items) }
    ensures stop { let r = recording.old.run in let t = here.now.position in
        IfOk result (λ stop. stop ≡ next_stop r marks.now t (length r.items - t)) }
{
    let total = recording.total();
    if marks.count() == 0 {
        return Ok(total);
    }
    let mut current = here.copy()?;
    while current.position < total {
        recording.reach(current.position + 1)?;
        let process = pass_item(recording, &mut current)?;
        if stops_between(&here.machine, &current.machine, process, marks) {
            return Ok(current.position);
        }
    }
    Ok(total)
}

/// Returns the position of the later stop.
fn later(stop: bool, t: u64, last: Option<u64>) -> Option<u64>
    ensures { result ≡ (if stop then Some t else last) }
{
    if stop { Some(t) } else { last }
}

/// Returns the last stop on the way of two machines to a position, if there is one.
fn last_on_way<K: Kind>(
    walk: &mut Walk<K>,
    recording: &Recording<K>,
    position: u64,
    marks: &Marks,
) -> Result<Option<u64>, AllocError>
    requires walk { AreAt recording.now.run walk.old }
    requires before { walk.old.before.position < position }
    requires reached { position ≤ recording.now.reached }
    ensures { let r = recording.now.run in
        IfOk result (λ last. last_stop r marks.now position
        ≡ or_before last (last_stop r marks.now (walk.old.before.position + 1))) }
{
    let mut last = None;
    while walk.before.position + 1 < position {
        let stop = walk.step(recording, marks)?;
        last = later(stop, walk.before.position, last);
    }
    Ok(last)
}

/// Returns the last stop between a checkpoint and a position, if there is one.
fn last_between<K: Kind>(
    recording: &Recording<K>,
    start: &Checkpoint<K>,
    position: u64,
    marks: &Marks,
) -> Result<Option<u64>, AllocError>
    requires stands { IsCheckpoint recording.now.run start.now }
    requires before { start.now.position < position }
    requires reached { position ≤ recording.now.reached }
    ensures { let r = recording.now.run in
        IfOk result (λ last. last_stop r marks.now position
        ≡ or_before last (last_stop r marks.now (start.now.position + 1))) }
{
    let mut walk = Walk::new(start)?;
    last_on_way(&mut walk, recording, position, marks)
}

/// Returns the last stop before a position, and 0 if there is none, sought from checkpoint to
/// checkpoint, the last first.
///
/// # Errors
///
/// `AllocError` where memory runs out.
pub fn last_stop<K: Kind>(
    recording: &Recording<K>,
    position: u64,
    marks: &Marks,
) -> Result<u64, AllocError>
    requires { position ≤ recording.now.reached }
    ensures { IfOk result (λ t. t ≡ last_stop recording.now.run marks.now position) }
{
    if marks.count() == 0 {
        return Ok(0);
    }
    let mut end = position;
    while end > 1 {
        let start = recording.checkpoint(end - 2);
        if let Some(stop) = last_between(recording, start, end, marks)? {
            return Ok(stop);
        }
        end = start.position + 1;
    }
    Ok(0)
}
