//! `followed`: for a run and a process or word that is left out, the items of a run of the smaller
//! shape that goes along with it, line by line.
ghost use Rattle.std.specs.Prelude.{◌≡◌};

use crate::candidate::{Candidate, has_process};
use crate::places::{Gone, Place, item_left};
use snap_asm_program::Program;
use snap_machine::{Local, Machine};
use snap_semantics::{Index, Instr, Item, Name, Range, who};
use snap_words::{Bits, Kind, KindTag, Multi, Seq, Shape};
use std::alloc::{AllocError, Global};

/// Does an item, if the machine has its process.
fn apply<K: Kind>(machine: &mut Machine<K>, item: Item) -> Result<(), AllocError> {
    if has_process(machine.shape(), item) {
        let _outcome = machine.apply(item)?;
    }
    Ok(())
}

/// Returns the line at which the process of an item stands.
fn line<K: Kind>(machine: &Machine<K>, item: Item) -> Option<u64> {
    if has_process(machine.shape(), item) {
        machine.line(who(item))
    } else {
        None
    }
}

/// Returns the local that an index is.
fn scalar_of(index: Index) -> Option<Name> {
    match index {
        Index::Scalar(name) => Some(name),
        _ => None,
    }
}

/// Returns the local that has the number of the process or the word that a line is about.
fn numbered_by(instr: &Instr) -> Option<(Range, Name)> {
    match instr {
        Instr::Get(_, _, j) => Some((Range::Words, scalar_of(*j)?)),
        Instr::Bit(_, _, i, j) | Instr::PutBit(_, i, j, _) => {
            Some((Range::Processes, scalar_of(*i).or(scalar_of(*j))?))
        }
        Instr::Look(_, i) | Instr::LetPlace(_, i, _) => Some((Range::Processes, scalar_of(*i)?)),
        Instr::Next(name, range, _) => Some((*range, *name)),
        _ => None,
    }
}

/// Returns the line that the process of an item executes next.
fn instr<'a, K: Kind>(machine: &'a Machine<K>, item: Item) -> Option<&'a Instr> {
    let number = line(machine, item)?;
    machine.program().listing().instr(number)
}

/// Returns the value of a local of the process of an item.
fn scalar<K: Kind>(machine: &Machine<K>, item: Item, name: Name) -> Option<u64> {
    if !has_process(machine.shape(), item) {
        return None;
    }
    match machine.local(who(item), name)? {
        Local::Number(value) => Some(value),
        Local::Row(_) | Local::Words(_) | Local::View(_) => None,
    }
}

/// Returns whether a place is the one that is gone.
fn is_gone(number: u64, gone: Option<Place>) -> bool {
    match gone {
        Some(place) => place.number == number,
        None => false,
    }
}

/// Returns whether the line that the process of an item executes next is about what is gone.
fn is_about_gone<K: Kind>(machine: &Machine<K>, item: Item, gone: Gone) -> Option<bool> {
    let (range, name) = numbered_by(instr(machine, item)?)?;
    let number = scalar(machine, item, name)?;
    match range {
        Range::Processes => Some(is_gone(number, gone.process)),
        Range::Words => Some(is_gone(number, gone.word)),
    }
}

/// Returns whether a machine is to go along with an item. It goes along with a step if its own
/// process is at the same line, and the line is not about what is gone.
fn goes_along<K: Kind>(
    leader: &Machine<K>,
    item: Item,
    machine: &Machine<K>,
    own: Item,
    gone: Gone,
) -> bool {
    match item {
        Item::Step(_) => {
            line(leader, item) == line(machine, own)
                && is_about_gone(leader, item, gone) != Some(true)
        }
        Item::Call(_, _) | Item::Crash(_) => true,
    }
}

/// Applies an item of a run, and its counterpart in the smaller run, if any.
fn follow_item<K: Kind>(
    leader: &mut Machine<K>,
    machine: &mut Machine<K>,
    item: Item,
    gone: Gone,
    items: &mut Vec<Item>,
) -> Result<(), AllocError> {
    if let Some(own) = item_left(item, gone) {
        if goes_along(leader, item, machine, own, gone) {
            apply(machine, own)?;
            items.push(own)?;
        }
    }
    apply(leader, item)
}

/// Returns the items of the run that goes along with `all`.
fn follow_items<K: Kind>(
    alloc: Global,
    leader: &mut Machine<K>,
    machine: &mut Machine<K>,
    all: &[Item],
    gone: Gone,
) -> Result<Vec<Item>, AllocError> {
    let mut items = Vec::new(alloc);
    for item in all {
        follow_item(leader, machine, *item, gone, &mut items)?;
    }
    Ok(items)
}

/// Returns the items of the run that goes along with that of a candidate, for a kind.
fn followed_in<K: Kind>(
    alloc: Global,
    program: &Program,
    candidate: &Candidate,
    gone: Gone,
    shape: Shape,
) -> Result<Vec<Item>, AllocError>
    requires { program.now.kind ≡ K.TAG }
{
    let mut leader = Machine::<K>::new(alloc, program, candidate.shape)?;
    let mut machine = Machine::<K>::new(alloc, program, shape)?;
    follow_items(
        alloc,
        &mut leader,
        &mut machine,
        candidate.items.as_slice(),
        gone,
    )
}

/// Returns the items of a run of a smaller shape that goes along with that of a candidate, line by
/// line. The smaller run waits while the candidate is at what is gone, for instance in loops over
/// the processes, which end sooner in the smaller run.
pub(crate) fn followed(
    alloc: Global,
    program: &Program,
    candidate: &Candidate,
    gone: Gone,
    shape: Shape,
) -> Result<Vec<Item>, AllocError> {
    match program.kind() {
        KindTag::Seq => followed_in::<Seq>(alloc, program, candidate, gone, shape),
        KindTag::Bits => followed_in::<Bits>(alloc, program, candidate, gone, shape),
        KindTag::Multi => followed_in::<Multi>(alloc, program, candidate, gone, shape),
    }
}
