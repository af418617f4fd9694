//! `notes`: what each item of a run read, wrote, took or set.
ghost use Rattle.std.specs.Prelude.{◌≡◌, IfOk, MatchOption, length, option_map, take};
ghost use Rattle.snap_words.specs.Shape.{IsOneOf};
ghost use Rattle.snap_words.specs.declared.address.Bank.TheVariants as bank;
ghost use Rattle.snap_semantics.specs.Readers.{contents, local_value};
ghost use Rattle.snap_semantics.specs.State.{process_at};
ghost use Rattle.snap_runs.specs.Run.{run_over};
ghost use Rattle.snap_acts.specs.Trace.{trace_of};
ghost use Rattle.snap_anatomy.specs.Noting.{TellsNote};
ghost use Rattle.snap_anatomy.specs.Notes.{any_of, line_note, note_by, note_of, notes_of};
ghost use Rattle.snap_anatomy.specs.Notes.{row_note, view_note, word_note};

use crate::note::Note;
use snap_acts::{Act, TraceStep};
use snap_asm_program::Program;
use snap_machine::{Address, Bank, Contents, Local, Machine, range_end};
use snap_sched::Schedule;
use snap_semantics::{Instr, Name, who};
use snap_walk::Walk;
use snap_words::{AnyWord, Field, Kind, View, field_of, handshake_of, view_of};
use std::alloc::{AllocError, Global};

/// Returns the handshake bits of a word.
fn handshakes_of<K: Kind>(alloc: Global, word: &K::Word) -> Result<View, AllocError>
    ensures { IfOk result (λ v. v ≡ (K.as_word word.now).handshakes) }
{
    let mut bits = Vec::new(alloc);
    for place in 0..K::handshake_count(word) as usize {
        bits.push(handshake_of::<K>(word, place))?;
    }
    Ok(View::of(bits))
}

/// Returns a word with its fields.
fn any_of<K: Kind>(alloc: Global, word: &K::Word) -> Result<AnyWord, AllocError>
    ensures { IfOk result (λ w. w ≡ any_of (K.as_word word.now)) }
{
    let handshakes = handshakes_of::<K>(alloc, word)?;
    let view = View::of(Vec::from_slice(alloc, view_of::<K>(word))?);
    Ok(AnyWord {
        datum: field_of::<K>(word, Field::Datum),
        seq: field_of::<K>(word, Field::Seq),
        id: field_of::<K>(word, Field::Id),
        toggle: field_of::<K>(word, Field::Toggle),
        handshakes,
        view,
    })
}

/// Returns the word that a register has.
fn word_note<K: Kind>(alloc: Global, machine: &Machine<K>, k: u64) -> Result<Note, AllocError>
    ensures { IfOk result (λ n. n ≡ word_note (contents machine.now.state.memory bank.R k 0)) }
{
    let address = Address {
        bank: Bank::R,
        i: k,
        j: 0,
    };
    match machine.register(address) {
        Ok(Contents::Word(word)) => Ok(Note::Word(any_of::<K>(alloc, word)?)),
        Ok(Contents::Bit(_)) => Ok(Note::Nothing),
        Ok(Contents::View(_)) => Ok(Note::Nothing),
        Err(_) => Ok(Note::Nothing),
    }
}

/// Returns the view that a local of a process has.
fn view_note<K: Kind>(
    alloc: Global,
    machine: &Machine<K>,
    i: u32,
    name: Name,
) -> Result<Note, AllocError>
    requires { IsOneOf machine.now.shape.n i }
    ensures { IfOk result (λ n. n
        ≡ view_note (local_value (process_at machine.now.state i).locals name)) }
{
    match machine.local(i, name) {
        Some(Local::View(view)) => Ok(Note::View(view.copy(alloc)?)),
        _ => Ok(Note::Nothing),
    }
}

/// Returns the first places of a row, at most `count`.
fn first_places(row: &[u64], count: u64) -> &[u64]
    ensures { result.now ≡ take count row.now }
{
    if (count as usize) < row.len() {
        &row[..count as usize]
    } else {
        row
    }
}

/// Returns `count` places of the row that a local of a process has.
fn row_note<K: Kind>(
    alloc: Global,
    machine: &Machine<K>,
    i: u32,
    name: Name,
    count: u64,
) -> Result<Note, AllocError>
    requires { IsOneOf machine.now.shape.n i }
    ensures { IfOk result (λ n. n
        ≡ row_note name count (local_value (process_at machine.now.state i).locals name)) }
{
    match machine.local(i, name) {
        Some(Local::Row(row)) => {
            let places = Vec::from_slice(alloc, first_places(row, count))?;
            Ok(Note::Row(name, View::of(places)))
        }
        _ => Ok(Note::Nothing),
    }
}

/// Returns the places of a row that a line set, if it sets each place of one.
fn line_note<K: Kind>(
    alloc: Global,
    machine: &Machine<K>,
    i: u32,
    line: Option<&Instr>,
) -> Result<Note, AllocError>
    requires { IsOneOf machine.now.shape.n i }
    ensures { IfOk result (λ n. n ≡ line_note machine.now.shape
        (process_at machine.now.state i).locals (option_map (λ l. l.now) line.entry)) }
{
    match line {
        Some(Instr::Each(range, row, _, _)) => {
            row_note(alloc, machine, i, *row, range_end(machine.shape(), *range))
        }
        _ => Ok(Note::Nothing),
    }
}

/// Returns what process `i` read, wrote, took or set by a step, after which this is the machine.
#[tactic(auto, unfolding(crate::specs::Notes::note_of))]
fn note_of<K: Kind>(
    alloc: Global,
    machine: &Machine<K>,
    i: u32,
    step: &TraceStep,
) -> Result<Note, AllocError>
    requires { IsOneOf machine.now.shape.n i }
    ensures { IfOk result (λ n. n ≡ note_of machine.now.source machine.now.shape
        machine.now.state i step.now) }
{
    match &step.act {
        Act::Read(word, _) => word_note(alloc, machine, *word),
        Act::Write(word, _, _) => word_note(alloc, machine, *word),
        Act::Publish(_, view) => view_note(alloc, machine, i, *view),
        Act::Look(_, view) => view_note(alloc, machine, i, *view),
        Act::Borrow(_, view) => view_note(alloc, machine, i, *view),
        Act::Collect(view) => view_note(alloc, machine, i, *view),
        Act::Leave(view) => view_note(alloc, machine, i, *view),
        Act::Other => {
            let line = machine.program().listing().instr(step.line);
            line_note(alloc, machine, i, line)
        }
        _ => Ok(Note::Nothing),
    }
}

/// Does the next item of a run, if there is one, and returns what it read, wrote, took or set.
fn next_note<K: Kind>(
    alloc: Global,
    walk: &mut Walk<'_, K>,
    steps: &[TraceStep],
) -> Result<Option<Note>, AllocError>
    requires { steps.now ≡ trace_of walk.old.run }
    ensures { IfOk result (λ o. MatchOption o (walk.old.at ≡ length walk.old.run.items)
        (λ note. TellsNote walk.old steps.now note walk.new)) }
{
    let place = walk.done() as usize;
    let Some(passed) = walk.next()? else {
        return Ok(None);
    };
    let process = who(passed.item);
    let note = note_of(alloc, walk.machine(), process, &steps[place])?;
    Ok(Some(note))
}

/// Returns what each item of a program's run over a schedule read, wrote, took or set.
///
/// # Errors
///
/// `AllocError` where memory runs out.
pub(crate) fn notes<K: Kind>(
    alloc: Global,
    program: &Program,
    schedule: &Schedule,
    steps: &[TraceStep],
) -> Result<Vec<Note>, AllocError>
    requires kind { program.now.kind ≡ K.TAG }
    requires steps { steps.now ≡ trace_of (run_over program.now schedule.now) }
    ensures { IfOk result (λ v. v.items ≡ notes_of (run_over program.now schedule.now)) }
{
    let mut walk = Walk::<K>::over(alloc, program, schedule)?;
    let mut notes = Vec::new(alloc);
    while let Some(note) = next_note(alloc, &mut walk, steps)? {
        notes.push(note)?;
    }
    Ok(notes)
}
