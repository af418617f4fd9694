//! The double collects of a scan: the places of its reads and tests, the gap between the two
//! collects, and where a row is set behind a test.
ghost use Rattle.std.specs.Prelude.{◌≡◌, ◌++◌, ◌+◌, ◌≤◌, ◌<◌, ◌^◌, IfOk, OnOk, length};
ghost use Rattle.snap_acts.specs.Loans.{step_at};
ghost use Rattle.snap_anatomy.specs.Collects.{first_mark, first_same, gap_into, gap_of, is_mark};
ghost use Rattle.snap_anatomy.specs.Collects.{mark_behind};
ghost use Rattle.snap_anatomy.specs.Collects.{is_passed, is_read, is_row, is_sought, is_test};
ghost use Rattle.snap_anatomy.specs.Collects.{items_between, last_other, local_read, place_if};
ghost use Rattle.snap_anatomy.specs.Collects.{places_between, places_in, reads_local, start_of};
ghost use Rattle.snap_anatomy.specs.Notes.{note_at};

use crate::found::{item_at, note_in, process_at, step_in};
use crate::memory::Span;
use crate::note::Note;
use snap_acts::{Act, TraceStep};
use snap_semantics::Name;
use std::alloc::{AllocError, Global};

/// What is sought among the steps of a process.
#[derive(Clone, Copy)]
pub enum Sought {
    /// A read of a word.
    Read,
    /// The test that ends a double collect.
    Test,
}

fn is_read(act: &Act) -> bool
    ensures { result ≡ is_read act.now }
{
    match act {
        Act::Read(_, _) => true,
        _ => false,
    }
}

fn is_test(act: &Act) -> bool
    ensures { result ≡ is_test act.now }
{
    match act {
        Act::Test(_) => true,
        _ => false,
    }
}

/// Returns whether an item is a test that passed.
fn is_passed(act: &Act) -> bool
    ensures { result ≡ is_passed act.now }
{
    match act {
        Act::Test(passed) => *passed,
        _ => false,
    }
}

/// Returns whether a step of a process is what is sought.
fn is_sought(sought: Sought, process: u32, step: &TraceStep) -> bool
    ensures { result ≡ is_sought sought process step.now }
{
    match sought {
        Sought::Read => is_read(&step.act) && step.process == process,
        Sought::Test => is_test(&step.act) && step.process == process,
    }
}

/// Returns whether a process does at a place what is sought.
fn is_sought_at(sought: Sought, steps: &[TraceStep], process: u32, k: usize) -> bool
    ensures { result ≡ is_sought sought process (step_at steps.now k) }
{
    match step_in(steps, k) {
        Some(step) => is_sought(sought, process, step),
        None => false,
    }
}

/// Appends a place, if a process does there what is sought.
#[tactic(auto, unfolding(crate::specs::Collects::place_if))]
fn push_place_if(
    places: &mut Vec<usize>,
    sought: Sought,
    steps: &[TraceStep],
    process: u32,
    k: usize,
) -> Result<(), AllocError>
    ensures { OnOk result (places.new.items ≡ places.old.items
        ++ place_if sought steps.now process k) }
{
    if is_sought_at(sought, steps, process, k) {
        places.push(k)?;
    }
    Ok(())
}

/// Returns the places between two at which a process does what is sought.
pub(crate) fn places_between(
    alloc: Global,
    sought: Sought,
    steps: &[TraceStep],
    process: u32,
    from: usize,
    to: usize,
) -> Result<Vec<usize>, AllocError>
    ensures { IfOk result (λ v. v.items
        ≡ places_between sought steps.now process from to) }
{
    let mut places = Vec::new(alloc);
    for k in 0..to.saturating_sub(from) {
        push_place_if(&mut places, sought, steps, process, from + k)?;
    }
    Ok(places)
}

/// Returns the place from which on is read for a double collect.
pub(crate) fn start_of(from: usize, tests: &[usize], j: usize) -> usize
    requires { j ≤ length tests.now }
    ensures { result ≡ start_of from tests.now j }
{
    if j > 0 { tests[j - 1] } else { from }
}

/// Returns whether the step at a place is a test that passed.
pub(crate) fn is_passed_at(steps: &[TraceStep], k: usize) -> bool
    ensures { result ≡ is_passed (step_at steps.now k).act }
{
    match step_in(steps, k) {
        Some(step) => is_passed(&step.act),
        None => false,
    }
}

/// Returns the local into which an item reads a word.
fn local_read(act: &Act) -> Option<Name>
    ensures { result ≡ local_read act.now }
{
    match act {
        Act::Read(_, spot) => Some(spot.words),
        _ => None,
    }
}

/// Returns the local into which the step at a place reads a word.
fn local_read_at(steps: &[TraceStep], k: usize) -> Option<Name>
    ensures { result ≡ local_read (step_at steps.now k).act }
{
    match step_in(steps, k) {
        Some(step) => local_read(&step.act),
        None => None,
    }
}

/// Returns whether an item reads a word into this local.
fn reads_local(name: Name, act: &Act) -> bool
    ensures { result ≡ reads_local name act.now }
{
    match act {
        Act::Read(_, spot) => spot.words.is(&name),
        _ => false,
    }
}

/// Returns whether the step at a place reads a word into this local.
fn reads_local_at(steps: &[TraceStep], name: Name, k: usize) -> bool
    ensures { result ≡ reads_local name (step_at steps.now k).act }
{
    match step_in(steps, k) {
        Some(step) => reads_local(name, &step.act),
        None => false,
    }
}

/// Returns the last of these reads that is into another local.
fn last_other(steps: &[TraceStep], name: Name, reads: &[usize]) -> Option<usize>
    ensures { result ≡ last_other steps.now name reads.now (length reads.now) }
{
    let mut j = reads.len();
    while j > 0 {
        if !reads_local_at(steps, name, reads[j - 1]) {
            return Some(reads[j - 1]);
        }
        j -= 1;
    }
    None
}

/// Returns the first of these reads that is into the local.
fn first_same(steps: &[TraceStep], name: Name, reads: &[usize]) -> Option<usize>
    ensures { result ≡ first_same steps.now name reads.now }
{
    for k in reads {
        if reads_local_at(steps, name, *k) {
            return Some(*k);
        }
    }
    None
}

/// Returns from which item to which one, if the second place lies behind the first one.
fn items_between(steps: &[TraceStep], first: Option<usize>, second: Option<usize>) -> Option<Span>
    ensures { result ≡ items_between steps.now first second }
{
    let a = first?;
    let b = second?;
    if a < b {
        Some(Span {
            from: item_at(steps, a),
            to: item_at(steps, b),
        })
    } else {
        None
    }
}

/// Returns the gap between the reads into a local and those before them.
fn gap_into(steps: &[TraceStep], reads: &[usize], name: Option<Name>) -> Option<Span>
    ensures { result ≡ gap_into steps.now reads.now name }
{
    let name = name?;
    let first = last_other(steps, name, reads);
    items_between(steps, first, first_same(steps, name, reads))
}

/// Returns the gap of a double collect for which was read at these places.
#[tactic(auto, unfolding(crate::specs::Collects::gap_of))]
pub(crate) fn gap_of(steps: &[TraceStep], reads: &[usize]) -> Option<Span>
    ensures { result ≡ gap_of steps.now reads.now }
{
    if reads.len() == 0 {
        return None;
    }
    gap_into(steps, reads, local_read_at(steps, reads[reads.len() - 1]))
}

/// Returns whether a row was set.
fn is_row(note: &Note) -> bool
    ensures { result ≡ is_row note.now }
{
    match note {
        Note::Row(_, _) => true,
        _ => false,
    }
}

/// Returns whether a row was set at a place.
fn is_row_at(notes: &[Note], k: usize) -> bool
    ensures { result ≡ is_row (note_at notes.now k) }
{
    match note_in(notes, k) {
        Some(note) => is_row(note),
        None => false,
    }
}

/// Returns whether a process sets a row at a place, or goes on to the next double collect.
fn is_mark(steps: &[TraceStep], notes: &[Note], process: u32, k: usize) -> bool
    ensures { result ≡ is_mark process (step_at steps.now k) (note_at notes.now k) }
{
    let goes_on = is_sought_at(Sought::Read, steps, process, k)
        || is_sought_at(Sought::Test, steps, process, k);
    goes_on || (is_row_at(notes, k) && process_at(steps, k) == process)
}

/// Returns the first of `count` places at which a process sets a row, or goes on to the next double
/// collect.
fn first_mark(
    steps: &[TraceStep],
    notes: &[Note],
    process: u32,
    from: usize,
    count: usize,
) -> Option<usize>
    requires { from + count < 2 ^ 64 }
    ensures { result ≡ first_mark steps.now notes.now process from count }
{
    let mut k = from;
    let mut left = count;
    while left > 0 {
        if is_mark(steps, notes, process, k) {
            return Some(k);
        }
        k += 1;
        left -= 1;
    }
    None
}

/// Returns where a process sets a row, or goes on to the next double collect, behind one place and
/// before another one.
pub(crate) fn mark_behind(
    steps: &[TraceStep],
    notes: &[Note],
    process: u32,
    test: usize,
    end: usize,
) -> Option<usize>
    ensures { result ≡ mark_behind steps.now notes.now process test end }
{
    if test < end {
        first_mark(steps, notes, process, test + 1, end - (test + 1))
    } else {
        None
    }
}
