//! `Sought`: what the title of a run's picture counts among its shapes, as scans that were answered
//! or scans without a point.
ghost use Rattle.std.specs.Prelude.{◌≡◌};
ghost use Rattle.snap_picture.specs.Picture.{counted, counts_as, is_update};

use crate::shape::Shape;
use snap_semantics::Op;

/// What is counted among shapes.
#[derive(Clone, Copy)]
pub(crate) enum Sought {
    /// A scan that has been answered.
    Scan,
    /// A scan that has no point.
    NoPoint,
    Update,
}

fn is_update(op: Op) -> bool
    ensures { result ≡ is_update op }
{
    match op {
        Op::Scan => false,
        Op::Update { .. } => true,
    }
}

/// Returns whether a shape is one that is counted.
fn counts_as(sought: Sought, shape: &Shape) -> bool
    ensures { result ≡ counts_as sought shape.now }
{
    match (sought, shape) {
        (Sought::Scan, Shape::Point(_)) => true,
        (Sought::Scan, Shape::NoPoint(_)) => true,
        (Sought::NoPoint, Shape::NoPoint(_)) => true,
        (Sought::Update, Shape::Operation(bar)) => is_update(bar.op),
        _ => false,
    }
}

/// Returns how many shapes are ones that are counted.
pub(crate) fn count(sought: Sought, shapes: &[Shape]) -> u64
    ensures { result ≡ counted sought shapes.now }
{
    let mut found = 0;
    for shape in shapes {
        if counts_as(sought, shape) {
            found += 1;
        }
    }
    found
}
