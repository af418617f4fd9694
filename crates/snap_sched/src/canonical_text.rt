//! Schedules in their canonical text.
ghost use Rattle.std.specs.Prelude.{◌≡◌, ◌++◌, map, OnOk, IfOk};
ghost use Rattle.snap_semantics.specs.ScheduleForms.{Crashes, spelled_shape, spelled_steps};
ghost use Rattle.snap_semantics.specs.ScheduleForms.{spelled_call, spelled_form};
ghost use Rattle.snap_semantics.specs.Layout.{line_text};
ghost use Rattle.snap_semantics.specs.ScheduleText.{forms_text, schedule_text};
ghost use Rattle.snap_sched.specs.Segments.{segment_form};
ghost use Rattle.snap_semantics.specs.declared.process.Op.TheVariants.{Scan, Update};

use crate::schedule::Schedule;
use crate::segments::{Segment, Segments};
use snap_semantics::{Op, Symbol};
use snap_text::{Token, push_laid_out};
use snap_words::Shape;
use std::alloc::{AllocError, Global};

/// Appends the line of steps: `I` or `I*K`.
fn push_steps(out: &mut Vec<u8>, process: u64, count: u64) -> Result<(), AllocError>
    ensures { OnOk result (out.new.items ≡ out.old.items
        ++ line_text (spelled_steps process count)) }
{
    if count == 1 {
        return push_laid_out(out, &[Token::Number(process)]);
    }
    push_laid_out(
        out,
        &[
            Token::Number(process),
            Token::Sign(Symbol::Star),
            Token::Number(count),
        ],
    )
}

/// Appends the line of a scan: `I scan`.
fn push_scan(out: &mut Vec<u8>, process: u64) -> Result<(), AllocError>
    ensures { OnOk result (out.new.items ≡ out.old.items ++ line_text (spelled_call process Scan)) }
{
    push_laid_out(out, &[Token::Number(process), Token::Identifier(b"scan")])
}

/// Appends the line of an update: `I update K X`.
fn push_update(out: &mut Vec<u8>, process: u64, word: u64, value: u64) -> Result<(), AllocError>
    ensures { OnOk result (out.new.items ≡ out.old.items
        ++ line_text (spelled_call process (Update word value))) }
{
    push_laid_out(
        out,
        &[
            Token::Number(process),
            Token::Identifier(b"update"),
            Token::Number(word),
            Token::Number(value),
        ],
    )
}

/// Appends the line of a crash: `I crash`.
fn push_crash(out: &mut Vec<u8>, process: u64) -> Result<(), AllocError>
    ensures { OnOk result (out.new.items ≡ out.old.items
        ++ line_text (spelled_form (Crashes process))) }
{
    push_laid_out(out, &[Token::Number(process), Token::Identifier(b"crash")])
}

/// Appends the line of a segment.
fn push_segment(out: &mut Vec<u8>, segment: Segment) -> Result<(), AllocError>
    ensures { OnOk result (out.new.items ≡ out.old.items
        ++ line_text (spelled_form (segment_form segment))) }
{
    match segment {
        Segment::Steps { process, count } => push_steps(out, u64::from(process), count),
        Segment::Call {
            process,
            op: Op::Scan,
        } => push_scan(out, u64::from(process)),
        Segment::Call {
            process,
            op: Op::Update { word, value },
        } => push_update(out, u64::from(process), word, value),
        Segment::Crash { process } => push_crash(out, u64::from(process)),
    }
}

/// Appends the lines of segments.
fn push_segments(out: &mut Vec<u8>, segments: Segments<'_>) -> Result<(), AllocError>
    ensures { OnOk result (out.new.items ≡ out.old.items
        ++ forms_text (map segment_form segments.entry)) }
{
    for segment in segments {
        push_segment(out, segment)?;
    }
    Ok(())
}

/// Appends the line of a shape: `shape N W`.
///
/// # Errors
///
/// `AllocError` where memory runs out.
pub fn push_shape(out: &mut Vec<u8>, shape: Shape) -> Result<(), AllocError>
    ensures { OnOk result (out.new.items ≡ out.old.items ++ line_text (spelled_shape shape)) }
{
    push_laid_out(
        out,
        &[
            Token::Identifier(b"shape"),
            Token::Number(shape.n()),
            Token::Number(shape.w()),
        ],
    )
}

/// Returns the canonical text of `schedule`.
///
/// # Errors
///
/// `AllocError` where memory runs out.
pub fn print(alloc: Global, schedule: &Schedule) -> Result<Vec<u8>, AllocError>
    ensures { IfOk result (λ text. text.items ≡ schedule_text schedule.now) }
{
    let mut out = Vec::new(alloc);
    push_shape(&mut out, schedule.shape())?;
    push_segments(&mut out, schedule.items().segments())?;
    Ok(out)
}
