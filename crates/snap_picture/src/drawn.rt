//! `shapes`: what a picture draws of a run, from its record and what each item did. A later shape
//! lies above.
ghost use Rattle.std.specs.Prelude.{◌≡◌, IfOk};
ghost use Rattle.snap_picture.specs.Shapes.{first_period, shapes_by};

use crate::shape::Shape;
use crate::steps::{period_of, push_steps};
use crate::verdicts::{push_verdicts, values_at};
use snap_acts::TraceStep;
use snap_audit::audit;
use snap_record::Record;
use snap_words::Kind;
use std::alloc::{AllocError, Global};

/// Returns the values before the first write.
#[tactic(auto, unfolding(crate::specs::Shapes::first_period))]
fn first_period<K: Kind>(
    alloc: Global,
    history: &Record<K>,
    steps: &[TraceStep],
) -> Result<Shape, AllocError>
    ensures { IfOk result (λ s. s ≡ first_period history.now steps.now) }
{
    Ok(period_of(steps, 0, 0, values_at(alloc, history, 0)?))
}

/// Returns the shapes of a run whose items did `steps`; a later shape lies above the others.
///
/// # Errors
///
/// `AllocError` where memory runs out.
#[tactic(auto, unfolding(crate::specs::Shapes::shapes_by))]
pub fn shapes<K: Kind>(
    alloc: Global,
    history: &Record<K>,
    steps: &[TraceStep],
) -> Result<Vec<Shape>, AllocError>
    ensures { IfOk result (λ v. v.items ≡ shapes_by history.now steps.now) }
{
    let verdicts = audit(alloc, history)?;
    let mut shapes = Vec::new(alloc);
    shapes.push(first_period(alloc, history, steps)?)?;
    push_steps(alloc, &mut shapes, steps)?;
    push_verdicts(alloc, &mut shapes, history, verdicts.as_slice())?;
    Ok(shapes)
}
