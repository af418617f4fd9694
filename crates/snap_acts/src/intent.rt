//! `Intent`: what the line that an item is about to run will do: write or read a word, write or
//! take a view, or test.
ghost use Rattle.std.specs.Prelude.{◌≡◌};
ghost use Rattle.snap_words.specs.Shape.{IsOneOf};
ghost use Rattle.snap_semantics.specs.Source.{instr_at};
ghost use Rattle.snap_semantics.specs.State.{process_at, value_at};
ghost use Rattle.snap_semantics.specs.Table.{who};
ghost use Rattle.snap_semantics.specs.Value.{index_value, word_of};
ghost use Rattle.snap_acts.specs.Trace.{context_of, intent_of, intent_of_instr, intent_of_line};
ghost use Rattle.snap_acts.specs.Trace.{spot_of, view_beside};

use crate::act::Spot;
use snap_machine::{Local, Machine};
use snap_semantics::{Activity, Index, Instr, Item, Name, Op, Status, Tuple};
use snap_words::Kind;

/// What a line is about to do, with its indices taken.
#[derive(Clone, Copy)]
pub(crate) enum Intent {
    Write(u64, Option<Name>),
    Publish(u64, Name),
    Read(u64, Spot),
    Look(u64, Name),
    Borrow(Spot, Name),
    Collect(Name),
    /// A test that leads to this line if it passes.
    Test(u64),
    Enter,
    Leave(Name),
    Other,
}

/// Returns the word of an update, and 0 in a scan.
fn word_of(op: Op) -> u64
    ensures { result ≡ word_of op }
{
    match op {
        Op::Scan => 0,
        Op::Update { word, .. } => word,
    }
}

/// Returns the scalar of a process that has this name.
#[tactic(auto, using(crate::proofs::Scalars::scalar_there, crate::proofs::Scalars::row_there, crate::proofs::Scalars::words_there, crate::proofs::Scalars::view_there, crate::proofs::Scalars::none_there))]
fn scalar_of<K: Kind>(machine: &Machine<K>, i: u32, name: Name) -> u64
    requires { IsOneOf machine.now.shape.n i }
    ensures { result ≡ value_at name (process_at machine.now.state i).locals.scalars 0 }
{
    match machine.local(i, name) {
        Some(Local::Number(number)) => number,
        Some(Local::Row(_)) => 0,
        Some(Local::Words(_)) => 0,
        Some(Local::View(_)) => 0,
        None => 0,
    }
}

/// Returns the place that an index stands for, and 0 for the place of a quantifier.
pub fn index_value<K: Kind>(machine: &Machine<K>, i: u32, op: Op, index: Index) -> u64
    requires { IsOneOf machine.now.shape.n i }
    ensures { result ≡ index_value
        (context_of machine.now.shape i (process_at machine.now.state i) op) index }
{
    match index {
        Index::Number(k) => k,
        Index::Processes => machine.shape().n(),
        Index::Words => machine.shape().w(),
        Index::Me => u64::from(i),
        Index::Word => word_of(op),
        Index::Place => 0,
        Index::Scalar(name) => scalar_of(machine, i, name),
    }
}

/// Returns the place of a `words` local that an index stands for.
fn spot_of<K: Kind>(machine: &Machine<K>, i: u32, op: Op, words: Name, index: Index) -> Spot
    requires { IsOneOf machine.now.shape.n i }
    ensures { result ≡ spot_of
        (context_of machine.now.shape i (process_at machine.now.state i) op) words index }
{
    Spot {
        words,
        place: index_value(machine, i, op, index),
    }
}

/// Returns the local with the view that a tuple writes beside its value.
fn view_beside(tuple: &Tuple) -> Option<Name>
    ensures { result ≡ view_beside tuple.now }
{
    match tuple {
        Tuple::Seq(_, _, view) => Some(*view),
        Tuple::Bits(_, _, _, view) => Some(*view),
        Tuple::Multi(_, _, _) => None,
    }
}

/// Returns what a line is about to do.
fn intent_of_line<K: Kind>(machine: &Machine<K>, i: u32, op: Op, instr: &Instr) -> Intent
    requires { IsOneOf machine.now.shape.n i }
    ensures { result ≡ intent_of_line
        (context_of machine.now.shape i (process_at machine.now.state i) op) instr.now }
{
    match instr {
        Instr::Put(k, tuple) => {
            Intent::Write(index_value(machine, i, op, *k), view_beside(tuple))
        }
        Instr::PutView(k, view) => Intent::Publish(index_value(machine, i, op, *k), *view),
        Instr::Get(words, k, word) => Intent::Read(
            index_value(machine, i, op, *word),
            spot_of(machine, i, op, *words, *k),
        ),
        Instr::Look(view, k) => Intent::Look(index_value(machine, i, op, *k), *view),
        Instr::ViewOf(view, words, k) => {
            Intent::Borrow(spot_of(machine, i, op, *words, *k), *view)
        }
        Instr::ViewData(view, _) => Intent::Collect(*view),
        Instr::IfAll(_, _, target) => Intent::Test(*target),
        Instr::Call(_) => Intent::Enter,
        Instr::Return(view) => Intent::Leave(*view),
        _ => Intent::Other,
    }
}

/// Returns what the line is about to do at which a process stands.
fn intent_at<K: Kind>(machine: &Machine<K>, i: u32, activity: Activity) -> Intent
    requires { IsOneOf machine.now.shape.n i }
    ensures { result ≡ intent_of_instr
        (context_of machine.now.shape i (process_at machine.now.state i) activity.op)
        (instr_at machine.now.source.lines activity.line) }
{
    match machine.program().listing().instr(activity.line) {
        Some(instr) => intent_of_line(machine, i, activity.op, instr),
        None => Intent::Other,
    }
}

/// Returns what an item is about to do.
pub(crate) fn intent_of<K: Kind>(machine: &Machine<K>, item: Item) -> Intent
    requires { IsOneOf machine.now.shape.n (who item) }
    ensures { result ≡ intent_of machine.now.source machine.now.shape machine.now.state item }
{
    let Item::Step(i) = item else {
        return Intent::Other;
    };
    match machine.status(i) {
        Status::Busy(activity) => intent_at(machine, i, activity),
        Status::Idle => Intent::Other,
        Status::Trapped(_, _) => Intent::Other,
        Status::Crashed(_) => Intent::Other,
    }
}
