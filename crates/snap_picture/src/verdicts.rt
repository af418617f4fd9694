//! What a picture draws of an audit's verdicts: the point of a scan with the values at it, or that
//! it has none.
ghost use Rattle.std.specs.Prelude.{◌≡◌, ◌++◌, IfOk, OnOk};
ghost use Rattle.snap_record.specs.Record.{values_after};
ghost use Rattle.snap_picture.specs.Shapes.{scan_of, values_or_none, verdict_shape, verdict_shapes};

use crate::shape::{Point, Shape, Span};
use snap_audit::Verdict;
use snap_record::Record;
use snap_words::{Kind, View};
use std::alloc::{AllocError, Global};

fn scan_of(verdict: &Verdict) -> Span
    ensures { result ≡ scan_of verdict.now }
{
    Span {
        process: verdict.process,
        from: verdict.call,
        to: verdict.answer,
    }
}

/// Returns the values after an item, if it is in the run.
pub(crate) fn values_at<K: Kind>(
    alloc: Global,
    history: &Record<K>,
    item: u64,
) -> Result<View, AllocError>
    ensures { IfOk result (λ v. v ≡ values_or_none (values_after history.now item)) }
{
    match history.values_after(item)? {
        Some(values) => Ok(values),
        None => Ok(View::of(Vec::new(alloc))),
    }
}

/// Returns a point with the state that it stands for, or that there is none.
#[tactic(auto, unfolding(crate::specs::Shapes::verdict_shape))]
fn verdict_shape<K: Kind>(
    alloc: Global,
    history: &Record<K>,
    verdict: &Verdict,
) -> Result<Shape, AllocError>
    ensures { IfOk result (λ s. s ≡ verdict_shape history.now verdict.now) }
{
    match verdict.point {
        Some(item) => Ok(Shape::Point(Point {
            scan: scan_of(verdict),
            item,
            collects: verdict.collects,
            values: values_at(alloc, history, item)?,
        })),
        None => Ok(Shape::NoPoint(scan_of(verdict))),
    }
}

/// Appends what is drawn of verdicts.
pub(crate) fn push_verdicts<K: Kind>(
    alloc: Global,
    shapes: &mut Vec<Shape>,
    history: &Record<K>,
    verdicts: &[Verdict],
) -> Result<(), AllocError>
    ensures { OnOk result (shapes.new.items ≡ shapes.old.items
        ++ verdict_shapes history.now verdicts.now) }
{
    for verdict in verdicts {
        shapes.push(verdict_shape(alloc, history, verdict)?)?;
    }
    Ok(())
}
