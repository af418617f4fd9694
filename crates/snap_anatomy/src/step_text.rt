//! What each item of a run did, as JSON.
ghost use Rattle.std.specs.Prelude.{◌≡◌, ◌≤◌, length};
ghost use Rattle.snap_text.specs.Drafted.{Adds};
ghost use Rattle.snap_acts.specs.Loans.{step_at};
ghost use Rattle.snap_anatomy.specs.Notes.{note_at};
ghost use Rattle.snap_anatomy.specs.StepText.{act_fields, act_name, note_fields, op_fields};
ghost use Rattle.snap_anatomy.specs.StepText.{other_name, spot_fields, step_head, step_json};
ghost use Rattle.snap_anatomy.specs.StepText.{steps_to, word_fields, word_json};

use crate::found::note_in;
use crate::json::{
    push_bool, push_field, push_list_field, push_number_field, push_separator, push_text_field,
};
use crate::note::Note;
use snap_acts::{Act, Spot, TraceStep};
use snap_semantics::Op;
use snap_text::Draft;
use snap_words::{AnyWord, KindTag};

/// Returns what is said of a step that the trace says no more of.
fn other_name(note: &Note) -> &'static [u8]
    ensures { result.now ≡ other_name note.now }
{
    match note {
        Note::Row(_, _) => b"set",
        _ => b"stepped",
    }
}

/// Returns what is said of what an item did.
fn act_name(act: &Act, note: &Note) -> &'static [u8]
    ensures { result.now ≡ act_name act.now note.now }
{
    match act {
        Act::Call(_) => b"called",
        Act::Answer(_, _) => b"answered",
        Act::Done => b"finished",
        Act::Crash => b"crashed",
        Act::Trap => b"trapped",
        Act::Skip => b"skipped",
        Act::Write(_, _, _) => b"wrote",
        Act::Publish(_, _) => b"published",
        Act::Read(_, _) => b"read",
        Act::Look(_, _) => b"looked",
        Act::Borrow(_, _) => b"borrowed",
        Act::Collect(_) => b"collected",
        Act::Test(_) => b"tested",
        Act::Enter => b"entered",
        Act::Leave(_) => b"left",
        Act::Other => other_name(note),
    }
}

/// Appends the fields of an operation.
fn push_op(out: &mut Draft, op: Op)
    ensures { Adds out.old out.new (op_fields op) }
{
    match op {
        Op::Scan => push_text_field(out, b"op", b"scan"),
        Op::Update { word, value } => {
            push_text_field(out, b"op", b"update");
            push_number_field(out, b"word", word);
            push_number_field(out, b"value", value);
        }
    }
}

/// Appends a place of a `words` local, under this name.
#[tactic(auto, unfolding(crate::specs::StepText::spot_fields))]
fn push_spot(out: &mut Draft, name: &[u8], spot: &Spot)
    ensures { Adds out.old out.new (spot_fields name.now spot.now) }
{
    push_text_field(out, name, spot.words.letters());
    push_number_field(out, b"place", spot.place);
}

/// Appends the fields of what an item did.
pub(crate) fn push_act(out: &mut Draft, act: &Act)
    ensures { Adds out.old out.new (act_fields act.now) }
{
    match act {
        Act::Call(op) => push_op(out, *op),
        Act::Answer(view, _) => push_list_field(out, b"view", view.as_slice()),
        Act::Write(word, values, _) => {
            push_number_field(out, b"word", *word);
            push_list_field(out, b"values", values.as_slice());
        }
        Act::Publish(k, view) => {
            push_number_field(out, b"register", *k);
            push_text_field(out, b"from", view.letters());
        }
        Act::Read(word, spot) => {
            push_number_field(out, b"word", *word);
            push_spot(out, b"into", spot);
        }
        Act::Look(k, view) => {
            push_number_field(out, b"register", *k);
            push_text_field(out, b"into", view.letters());
        }
        Act::Borrow(spot, view) => {
            push_spot(out, b"from", spot);
            push_text_field(out, b"into", view.letters());
        }
        Act::Collect(view) => push_text_field(out, b"into", view.letters()),
        Act::Test(passed) => {
            push_field(out, b"passed");
            push_bool(out, *passed);
        }
        Act::Leave(view) => push_text_field(out, b"returned", view.letters()),
        _ => {}
    }
}

/// Appends what a word has behind its datum.
fn push_word_fields(out: &mut Draft, kind: KindTag, word: &AnyWord)
    ensures { Adds out.old out.new (word_fields kind word.now) }
{
    match kind {
        KindTag::Seq => {
            push_number_field(out, b"seq", word.seq);
            push_list_field(out, b"view", word.view.as_slice());
        }
        KindTag::Bits => {
            push_list_field(out, b"hands", word.handshakes.as_slice());
            push_number_field(out, b"toggle", word.toggle);
            push_list_field(out, b"view", word.view.as_slice());
        }
        KindTag::Multi => {
            push_number_field(out, b"id", word.id);
            push_number_field(out, b"toggle", word.toggle);
        }
    }
}

/// Appends a word.
#[tactic(auto, unfolding(crate::specs::StepText::word_json))]
fn push_word(out: &mut Draft, kind: KindTag, word: &AnyWord)
    ensures { Adds out.old out.new (word_json kind word.now) }
{
    out.push(b"{\"datum\":");
    out.push_number(word.datum);
    push_word_fields(out, kind, word);
    out.push(b"}");
}

/// Appends the fields of a note.
fn push_note(out: &mut Draft, kind: KindTag, note: &Note)
    ensures { Adds out.old out.new (note_fields kind note.now) }
{
    match note {
        Note::Word(word) => {
            push_field(out, b"has");
            push_word(out, kind, word);
        }
        Note::View(view) => push_list_field(out, b"view", view.as_slice()),
        Note::Row(row, values) => {
            push_text_field(out, b"row", row.letters());
            push_list_field(out, b"values", values.as_slice());
        }
        Note::Nothing => {}
    }
}

/// Appends where and by whom a step was done.
#[tactic(auto, unfolding(crate::specs::StepText::step_head))]
fn push_step_head(out: &mut Draft, step: &TraceStep)
    ensures { Adds out.old out.new (step_head step.now) }
{
    out.push(b"{\"item\":");
    out.push_number(step.item);
    push_number_field(out, b"process", u64::from(step.process));
    push_number_field(out, b"line", step.line);
}

/// Appends a step with its note.
#[tactic(auto, unfolding(crate::specs::StepText::step_json))]
fn push_step(out: &mut Draft, kind: KindTag, step: &TraceStep, note: &Note)
    ensures { Adds out.old out.new (step_json kind step.now note.now) }
{
    push_step_head(out, step);
    push_text_field(out, b"does", act_name(&step.act, note));
    push_act(out, &step.act);
    push_note(out, kind, note);
    out.push(b"}");
}

/// Appends the step at a place with its note.
fn push_step_at(out: &mut Draft, kind: KindTag, step: &TraceStep, notes: &[Note], k: usize)
    ensures { Adds out.old out.new (step_json kind step.now (note_at notes.now k)) }
{
    match note_in(notes, k) {
        Some(note) => push_step(out, kind, step, note),
        None => push_step(out, kind, step, &Note::Nothing),
    }
}

/// Appends all steps with their notes.
pub(crate) fn push_steps(out: &mut Draft, kind: KindTag, steps: &[TraceStep], notes: &[Note])
    ensures { Adds out.old out.new (steps_to kind steps.now notes.now (length steps.now)) }
{
    for k in 0..steps.len() {
        push_separator(out, k);
        push_step_at(out, kind, &steps[k], notes, k);
    }
}
