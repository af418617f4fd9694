//! What a picture crosses out: the operation whose end is the first event up to which no order of
//! the operations explains what the callers saw.
ghost use Rattle.std.specs.Prelude.{◌≡◌, ◌++◌, IfOk, OnOk, option_map};
ghost use Rattle.snap_judge.specs.Judgement.{NamesEvent};
ghost use Rattle.snap_run_judge.specs.RunHistory.{history_of};
ghost use Rattle.snap_picture.specs.ShapeText.{bar_span};
ghost use Rattle.snap_picture.specs.Crossed.{crossed_at, crossed_bar, crossed_out, crossed_shape};
ghost use Rattle.snap_picture.specs.Crossed.{wrong_at};

use crate::shape::{Bar, Shape, Span};
use snap_record::Record;
use snap_run_judge::Failing;
use snap_semantics::Event;
use snap_words::Kind;
use std::alloc::{AllocError, Global};

/// Returns the event at which a run fails by a judgement of it.
pub(crate) fn wrong_at<K: Kind>(history: &Record<K>, failing: Failing) -> Option<&Event>
    requires { NamesEvent (history_of history.now) failing }
    ensures { option_map (λ e. e.now) result ≡ wrong_at history.now failing }
{
    match failing {
        Failing::At(count) => Some(&history.events()[count - 1]),
        Failing::Nowhere => None,
        Failing::Undecided(_) => None,
    }
}

/// Returns where an operation lies.
fn bar_span(bar: &Bar) -> Span
    ensures { result ≡ bar_span bar.now }
{
    Span {
        process: bar.process,
        from: bar.from,
        to: bar.to,
    }
}

/// Appends an operation, if it ended with this event.
fn push_crossed_bar(crossed: &mut Vec<Shape>, event: &Event, bar: &Bar) -> Result<(), AllocError>
    ensures { OnOk result (crossed.new.items
        ≡ crossed.old.items ++ crossed_bar event.now.process event.now.item bar.now) }
{
    if bar.process == event.process && bar.to == event.item {
        crossed.push(Shape::Unexplained(bar_span(bar)))?;
    }
    Ok(())
}

/// Appends a shape, if it is an operation that ended with this event.
fn push_crossed(crossed: &mut Vec<Shape>, event: &Event, shape: &Shape) -> Result<(), AllocError>
    ensures { OnOk result (crossed.new.items
        ≡ crossed.old.items ++ crossed_shape event.now.process event.now.item shape.now) }
{
    match shape {
        Shape::Operation(bar) => push_crossed_bar(crossed, event, bar),
        _ => Ok(()),
    }
}

/// Returns the operation that ended with this event, among what is drawn.
fn crossed_out(alloc: Global, event: &Event, shapes: &[Shape]) -> Result<Vec<Shape>, AllocError>
    ensures { IfOk result (λ out. out.items
        ≡ crossed_out event.now.process event.now.item shapes.now) }
{
    let mut crossed = Vec::new(alloc);
    for shape in shapes {
        push_crossed(&mut crossed, event, shape)?;
    }
    Ok(crossed)
}

/// Returns the operation that ended with an event, if one is given.
pub(crate) fn crossed_at(
    alloc: Global,
    wrong: Option<&Event>,
    shapes: &[Shape],
) -> Result<Vec<Shape>, AllocError>
    ensures { IfOk result (λ out. out.items
        ≡ crossed_at (option_map (λ e. e.now) wrong.entry) shapes.now) }
{
    match wrong {
        Some(event) => crossed_out(alloc, event, shapes),
        None => Ok(Vec::new(alloc)),
    }
}
