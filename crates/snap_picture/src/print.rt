//! `push_shapes`: the SVG of the shapes of a run, as far as they are in the picture's `Window`.
ghost use Rattle.std.specs.Prelude.{◌≡◌};
ghost use Rattle.snap_text.specs.Drafted.{Adds};
ghost use Rattle.snap_picture.specs.ShapeText.{is_drawn, shape_text, shapes_text};

use crate::bars::{bar_text, embedded_text, none_text, period_text, point_text, wrong_text};
use crate::shape::Shape;
use crate::spots::{crash_text, loan_text, read_text, test_text, trap_text, write_text};
use crate::window::Window;
use snap_text::Draft;

/// Returns whether a shape is drawn: some of its items are in the window, and there is room for it.
pub(crate) fn is_drawn(window: &Window, shape: &Shape) -> bool
    ensures { result ≡ is_drawn window.now shape.now }
{
    match shape {
        Shape::Values(period) => window.is_near(period.from, period.to),
        Shape::Operation(bar) => window.is_near(bar.from, bar.to),
        Shape::Embedded(span) => !window.is_thin() && window.is_near(span.from, span.to),
        Shape::Read(read) => !window.is_thin() && window.is_here(read.spot.item),
        Shape::Write(write) => window.is_here(write.spot.item),
        Shape::Test(spot, _) => !window.is_thin() && window.is_here(spot.item),
        Shape::Trap(spot) => window.is_here(spot.item),
        Shape::Crash(spot) => window.is_here(spot.item),
        Shape::Loan(loan) => window.is_near(loan.ended, loan.taken.item),
        Shape::Point(point) => window.is_here(point.item),
        Shape::NoPoint(span) => window.is_near(span.from, span.to),
        Shape::Unexplained(span) => window.is_near(span.from, span.to),
    }
}

/// Appends what is drawn of a run.
fn shape_text(out: &mut Draft, window: &Window, shape: &Shape)
    ensures { Adds out.old out.new (shape_text window.now shape.now) }
{
    match shape {
        Shape::Values(period) => period_text(out, window, period),
        Shape::Operation(bar) => bar_text(out, window, bar),
        Shape::Embedded(span) => embedded_text(out, window, *span),
        Shape::Read(read) => read_text(out, window, *read),
        Shape::Write(write) => write_text(out, window, write),
        Shape::Test(spot, passed) => test_text(out, window, *spot, *passed),
        Shape::Trap(spot) => trap_text(out, window, *spot),
        Shape::Crash(spot) => crash_text(out, window, *spot),
        Shape::Loan(loan) => loan_text(out, window, *loan),
        Shape::Point(point) => point_text(out, window, point),
        Shape::NoPoint(span) => none_text(out, window, *span),
        Shape::Unexplained(span) => wrong_text(out, window, *span),
    }
}

/// Appends the shapes that are drawn, one after another: a later one lies above.
pub fn push_shapes(out: &mut Draft, window: &Window, shapes: &[Shape])
    ensures { Adds out.old out.new (shapes_text window.now shapes.now) }
{
    for shape in shapes {
        if is_drawn(window, shape) {
            shape_text(out, window, shape);
        }
    }
}
