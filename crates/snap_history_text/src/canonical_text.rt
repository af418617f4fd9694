//! Histories in their canonical text.
ghost use Rattle.std.specs.Prelude.{◌≡◌, ◌∷◌, ◌++◌, [], map, codes, OnOk, IfOk};
ghost use Rattle.snap_semantics.specs.Layout.{line_text, lines_text};
ghost use Rattle.snap_semantics.specs.Token.{Identifier, Number};
ghost use Rattle.snap_history_text.specs.HistoryForms.{spelled_event};
ghost use Rattle.snap_history_text.specs.HistoryText.{history_text};

use snap_judge::History;
use snap_sched::push_shape;
use snap_semantics::{Event, Happening, Op};
use snap_text::{Token, push_laid_out};
use std::alloc::{AllocError, Global};

/// Appends the line of an event that has a word alone.
fn push_mark(out: &mut Vec<u8>, item: u64, process: u64, word: &[u8]) -> Result<(), AllocError>
    ensures { OnOk result (out.new.items ≡ out.old.items ++ line_text
        (Identifier (codes "event") ∷ Number item ∷ Number process ∷ Identifier word.now ∷ [])) }
{
    push_laid_out(
        out,
        &[
            Token::Identifier(b"event"),
            Token::Number(item),
            Token::Number(process),
            Token::Identifier(word),
        ],
    )
}

/// Appends the line of an update's call.
fn push_update(
    out: &mut Vec<u8>,
    item: u64,
    process: u64,
    word: u64,
    value: u64,
) -> Result<(), AllocError>
    ensures { OnOk result (out.new.items ≡ out.old.items ++ line_text
        (Identifier (codes "event") ∷ Number item ∷ Number process ∷ Identifier (codes "update")
        ∷ Number word ∷ Number value ∷ [])) }
{
    push_laid_out(
        out,
        &[
            Token::Identifier(b"event"),
            Token::Number(item),
            Token::Number(process),
            Token::Identifier(b"update"),
            Token::Number(word),
            Token::Number(value),
        ],
    )
}

/// Appends the line of an answer.
#[tactic(auto, using(crate::proofs::Tokens::one_number))]
fn push_answer(
    alloc: Global,
    out: &mut Vec<u8>,
    item: u64,
    process: u64,
    values: &[u64],
) -> Result<(), AllocError>
    ensures { OnOk result (out.new.items ≡ out.old.items ++ line_text
        (Identifier (codes "event") ∷ Number item ∷ Number process ∷ Identifier (codes "answer")
        ∷ map (λ x. Number x) values.now)) }
{
    let mut tokens = Vec::new(alloc);
    tokens.push(Token::Identifier(b"event"))?;
    tokens.push(Token::Number(item))?;
    tokens.push(Token::Number(process))?;
    tokens.push(Token::Identifier(b"answer"))?;
    for value in values {
        tokens.push(Token::Number(*value))?;
    }
    push_laid_out(out, tokens.as_slice())
}

/// Appends the line of an event.
fn push_event(alloc: Global, out: &mut Vec<u8>, event: &Event) -> Result<(), AllocError>
    ensures { OnOk result (out.new.items ≡ out.old.items
        ++ line_text (spelled_event event.now)) }
{
    let item = event.item;
    let process = u64::from(event.process);
    match &event.what {
        Happening::Call(Op::Scan) => push_mark(out, item, process, b"scan"),
        Happening::Call(Op::Update { word, value }) => {
            push_update(out, item, process, *word, *value)
        }
        Happening::Answer(view) => push_answer(alloc, out, item, process, view.as_slice()),
        Happening::Done => push_mark(out, item, process, b"done"),
        Happening::Crash => push_mark(out, item, process, b"crash"),
    }
}

/// Appends the lines of events.
fn push_events(alloc: Global, out: &mut Vec<u8>, events: &[Event]) -> Result<(), AllocError>
    ensures { OnOk result (out.new.items ≡ out.old.items
        ++ lines_text (map spelled_event events.now)) }
{
    for event in events {
        push_event(alloc, out, event)?;
    }
    Ok(())
}

/// Returns the canonical text of a history.
///
/// # Errors
///
/// `AllocError` where memory runs out.
pub fn print(alloc: Global, history: &History) -> Result<Vec<u8>, AllocError>
    ensures { IfOk result (λ text. text.items ≡ history_text history.now) }
{
    let mut out = Vec::new(alloc);
    push_shape(&mut out, history.shape)?;
    push_events(alloc, &mut out, history.events.as_slice())?;
    Ok(out)
}
