//! `push_shape_lines`: the shapes of a run as lines of text, in items and processes, as far as they
//! are in the picture's `Window`.
ghost use Rattle.std.specs.Prelude.{◌≡◌};
ghost use Rattle.snap_text.specs.Drafted.{Adds};
ghost use Rattle.snap_picture.specs.ShapeLines.{
  bar_line,
  end_words,
  loan_line,
  op_numbers,
  point_line,
  shape_line,
  shape_lines,
  shape_words,
  span_line,
  spot_line,
  test_name,
  values_line,
  write_line,
};
ghost use Rattle.snap_picture.specs.ShapeText.{bar_class};

use crate::bars::bar_class;
use crate::print::is_drawn;
use crate::shape::{Bar, End, Loan, Period, Point, Shape, Span, Spot, Write};
use crate::window::Window;
use snap_semantics::Op;
use snap_text::Draft;

/// Adds `NAME I FROM TO`.
#[tactic(auto, unfolding(crate::specs::ShapeLines::span_line))]
fn push_span(out: &mut Draft, name: &[u8], span: Span)
    ensures { Adds out.old out.new (span_line name.now span) }
{
    out.push(name);
    out.push_numbers(&[u64::from(span.process), span.from, span.to]);
}

/// Adds `NAME I ITEM LINE`.
#[tactic(auto, unfolding(crate::specs::ShapeLines::spot_line))]
fn push_spot(out: &mut Draft, name: &[u8], spot: Spot)
    ensures { Adds out.old out.new (spot_line name.now spot) }
{
    out.push(name);
    out.push_numbers(&[u64::from(spot.process), spot.item, spot.line]);
}

/// Adds `values FROM TO V1 .. VW`.
#[tactic(auto, unfolding(crate::specs::ShapeLines::values_line))]
fn push_values(out: &mut Draft, period: &Period)
    ensures { Adds out.old out.new (values_line period.now) }
{
    out.push(b"values");
    out.push_numbers(&[period.from, period.to]);
    out.push_numbers(period.values.as_slice());
}

/// Adds the word and the value of an update.
fn push_op_numbers(out: &mut Draft, op: Op)
    ensures { Adds out.old out.new (op_numbers op) }
{
    match op {
        Op::Scan => {}
        Op::Update { word, value } => out.push_numbers(&[word, value]),
    }
}

/// Adds what came of an operation.
#[tactic(auto, unfolding(crate::specs::ShapeLines::end_words))]
fn push_end(out: &mut Draft, end: &End)
    ensures { Adds out.old out.new (end_words end.now) }
{
    match end {
        End::Answer(view) => {
            out.push(b" answer");
            out.push_numbers(view.as_slice());
        }
        End::Done => out.push(b" done"),
        End::Crash => out.push(b" crash"),
        End::Trap => out.push(b" trap"),
        End::Open => out.push(b" open"),
    }
}

/// Adds `scan I FROM TO END` or `update I FROM TO WORD VALUE END`.
#[tactic(auto, unfolding(crate::specs::ShapeLines::bar_line))]
fn push_bar(out: &mut Draft, bar: &Bar)
    ensures { Adds out.old out.new (bar_line bar.now) }
{
    let span = Span {
        process: bar.process,
        from: bar.from,
        to: bar.to,
    };
    push_span(out, bar_class(bar.op), span);
    push_op_numbers(out, bar.op);
    push_end(out, &bar.end);
}

/// Adds `write I ITEM LINE WORD V1 .. VW`.
#[tactic(auto, unfolding(crate::specs::ShapeLines::write_line))]
fn push_write(out: &mut Draft, write: &Write)
    ensures { Adds out.old out.new (write_line write.now) }
{
    push_spot(out, b"write", write.spot);
    out.push_numbers(&[write.word]);
    out.push_numbers(write.values.as_slice());
}

/// Adds `loan LENDER ENDED I ITEM LINE`.
#[tactic(auto, unfolding(crate::specs::ShapeLines::loan_line))]
fn push_loan(out: &mut Draft, loan: Loan)
    ensures { Adds out.old out.new (loan_line loan) }
{
    out.push(b"loan");
    out.push_numbers(&[u64::from(loan.lender), loan.ended]);
    let taken = loan.taken;
    out.push_numbers(&[u64::from(taken.process), taken.item, taken.line]);
}

/// Adds `point I FROM TO ITEM COLLECTS V1 .. VW`.
#[tactic(auto, unfolding(crate::specs::ShapeLines::point_line))]
fn push_point(out: &mut Draft, point: &Point)
    ensures { Adds out.old out.new (point_line point.now) }
{
    push_span(out, b"point", point.scan);
    out.push_numbers(&[point.item, point.collects]);
    out.push_numbers(point.values.as_slice());
}

/// Returns the name of a test that passed, or of one that did not.
fn test_name(passed: bool) -> &'static [u8]
    ensures { result.now ≡ test_name passed }
{
    if passed { b"pass" } else { b"fail" }
}

/// Adds what a shape is.
fn push_words(out: &mut Draft, shape: &Shape)
    ensures { Adds out.old out.new (shape_words shape.now) }
{
    match shape {
        Shape::Values(period) => push_values(out, period),
        Shape::Operation(bar) => push_bar(out, bar),
        Shape::Embedded(span) => push_span(out, b"inner", *span),
        Shape::Read(read) => {
            push_spot(out, b"read", read.spot);
            out.push_numbers(&[read.word]);
        }
        Shape::Write(write) => push_write(out, write),
        Shape::Test(spot, passed) => push_spot(out, test_name(*passed), *spot),
        Shape::Trap(spot) => push_spot(out, b"trap", *spot),
        Shape::Crash(spot) => push_spot(out, b"crash", *spot),
        Shape::Loan(loan) => push_loan(out, *loan),
        Shape::Point(point) => push_point(out, point),
        Shape::NoPoint(span) => push_span(out, b"none", *span),
        Shape::Unexplained(span) => push_span(out, b"wrong", *span),
    }
}

/// Adds a shape as a line.
#[tactic(auto, unfolding(crate::specs::ShapeLines::shape_line))]
fn push_shape(out: &mut Draft, shape: &Shape)
    ensures { Adds out.old out.new (shape_line shape.now) }
{
    push_words(out, shape);
    out.push(b"\n");
}

/// Adds the lines of the shapes that are drawn, one after another: a later one lies above.
pub(crate) fn push_shape_lines(out: &mut Draft, window: &Window, shapes: &[Shape])
    ensures { Adds out.old out.new (shape_lines window.now shapes.now) }
{
    for shape in shapes {
        if is_drawn(window, shape) {
            push_shape(out, shape);
        }
    }
}
