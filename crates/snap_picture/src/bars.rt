//! The SVG of what lasts longer than an item: values, operations, scans with their points, and
//! operations that are crossed out.
ghost use Rattle.std.specs.Prelude.{◌≡◌, ◌≤◌};
ghost use Rattle.snap_semantics.specs.Report.{op_text};
ghost use Rattle.snap_text.specs.Drafted.{Adds};
ghost use Rattle.snap_picture.specs.ShapeText.{
  bar_box,
  bar_class,
  bar_label,
  bar_span,
  bar_text,
  bar_words,
  embedded_box,
  embedded_text,
  end_text,
  found_words,
  none_box,
  none_text,
  period_box,
  period_text,
  period_title,
  point_path,
  point_text,
  point_title,
  point_words,
  values_words,
  wrong_box,
  wrong_text,
};

use crate::elements::{
    BOX_BODY, box_head, edges_text, group_head, line_text, path_head, words_head,
};
use crate::shape::{Bar, End, Period, Point, Span};
use crate::spots::span_text;
use crate::window::{Window, width_of, y_of};
use snap_report::op_text;
use snap_semantics::Op;
use snap_text::Draft;

/// The least width of a box that has words.
const LEAST_WORDS: u64 = 22;

/// The last place at which the words of what is crossed out begin, so that the picture has room for
/// them.
const LAST_WORDS: u64 = 1450;

/// Appends what is said of values.
#[tactic(auto, unfolding(crate::specs::ShapeText::period_title))]
fn period_title(out: &mut Draft, period: &Period)
    ensures { Adds out.old out.new (period_title period.now) }
{
    out.push(b"values");
    out.push_numbers(period.values.as_slice());
    out.push(b" from item ");
    out.push_number(period.from);
    out.push(b" to item ");
    out.push_number(period.to);
}

/// Appends values, if there is room for them.
#[tactic(auto, unfolding(crate::specs::ShapeText::values_words))]
fn values_words(out: &mut Draft, width: u64, values: &[u64])
    ensures { Adds out.old out.new (values_words width values.now) }
{
    if width < LEAST_WORDS {
        return;
    }
    words_head(out, b"state", 5, 22);
    out.push_numbers(values);
    out.push(b"</text>");
}

/// Appends the values from an item on, in a box.
#[tactic(auto, unfolding(crate::specs::ShapeText::period_box))]
fn period_box(out: &mut Draft, period: &Period, x: u64, width: u64)
    ensures { Adds out.old out.new (period_box period.now x width) }
{
    box_head(out, b"values", x, 84, width, 34);
    period_title(out, period);
    out.push(BOX_BODY);
    values_words(out, width, period.values.as_slice());
    out.push(b"</svg>\n");
}

/// Appends the values from an item on.
#[tactic(auto, unfolding(crate::specs::ShapeText::period_text))]
pub(crate) fn period_text(out: &mut Draft, window: &Window, period: &Period)
    ensures { Adds out.old out.new (period_text window.now period.now) }
{
    let x = window.x_of(period.from);
    period_box(out, period, x, width_of(x, window.x_of(period.to)));
}

/// Appends the outcome of an operation.
#[tactic(auto, unfolding(crate::specs::ShapeText::end_text))]
fn end_text(out: &mut Draft, end: &End)
    ensures { Adds out.old out.new (end_text end.now) }
{
    match end {
        End::Answer(view) => {
            out.push(b" &#8594;");
            out.push_numbers(view.as_slice());
        }
        End::Done => {}
        End::Crash => out.push(b" crashed"),
        End::Trap => out.push(b" trapped"),
        End::Open => out.push(b" .."),
    }
}

/// Appends an operation and its outcome.
#[tactic(auto, unfolding(crate::specs::ShapeText::bar_words))]
fn bar_words(out: &mut Draft, bar: &Bar)
    ensures { Adds out.old out.new (bar_words bar.now) }
{
    op_text(out, bar.op);
    end_text(out, &bar.end);
}

/// Appends an operation and its outcome, if there is room for them.
#[tactic(auto, unfolding(crate::specs::ShapeText::bar_label))]
fn bar_label(out: &mut Draft, width: u64, bar: &Bar)
    ensures { Adds out.old out.new (bar_label width bar.now) }
{
    if width < LEAST_WORDS {
        return;
    }
    words_head(out, b"words", 5, 17);
    bar_words(out, bar);
    out.push(b"</text>");
}

/// Returns the class of an operation.
pub(crate) fn bar_class(op: Op) -> &'static [u8]
    ensures { result.now ≡ bar_class op }
{
    match op {
        Op::Scan => b"scan",
        Op::Update { .. } => b"update",
    }
}

/// Appends an operation, in a box.
#[tactic(auto, unfolding(crate::specs::ShapeText::bar_box))]
fn bar_box(out: &mut Draft, bar: &Bar, x: u64, width: u64)
    ensures { Adds out.old out.new (bar_box bar.now x width) }
{
    let span = Span {
        process: bar.process,
        from: bar.from,
        to: bar.to,
    };
    box_head(out, bar_class(bar.op), x, y_of(bar.process) + 6, width, 44);
    span_text(out, span);
    bar_words(out, bar);
    out.push(BOX_BODY);
    bar_label(out, width, bar);
    out.push(b"</svg>\n");
}

/// Appends an operation.
#[tactic(auto, unfolding(crate::specs::ShapeText::bar_text))]
pub(crate) fn bar_text(out: &mut Draft, window: &Window, bar: &Bar)
    ensures { Adds out.old out.new (bar_text window.now bar.now) }
{
    let x = window.x_before(bar.from);
    bar_box(out, bar, x, width_of(x, window.x_of(bar.to)));
}

/// Appends a scan within an update, in a box.
#[tactic(auto, unfolding(crate::specs::ShapeText::embedded_box))]
fn embedded_box(out: &mut Draft, span: Span, x: u64, y: u64, width: u64)
    ensures { Adds out.old out.new (embedded_box span x y width) }
{
    box_head(out, b"inner", x, y, width, 18);
    span_text(out, span);
    out.push(b"the scan of an update");
    out.push(BOX_BODY);
    out.push(b"</svg>\n");
}

/// Appends a scan within an update.
#[tactic(auto, unfolding(crate::specs::ShapeText::embedded_text))]
pub(crate) fn embedded_text(out: &mut Draft, window: &Window, span: Span)
    ensures { Adds out.old out.new (embedded_text window.now span) }
{
    let x = window.x_before(span.from);
    let width = width_of(x, window.x_of(span.to));
    embedded_box(out, span, x, y_of(span.process) + 30, width);
}

/// Appends what is said of a point.
#[tactic(auto, unfolding(crate::specs::ShapeText::found_words))]
fn found_words(out: &mut Draft, scan: Span, item: u64, values: &[u64], collects: u64)
    ensures { Adds out.old out.new (found_words scan item values.now collects) }
{
    span_text(out, scan);
    out.push(b"a scan with its point after item ");
    out.push_number(item);
    out.push(b", values");
    out.push_numbers(values);
    out.push(b", double collects ");
    out.push_number(collects);
    out.push(b"</title>");
}

/// Appends what is said of a point.
#[tactic(auto, unfolding(crate::specs::ShapeText::point_title))]
fn point_title(out: &mut Draft, point: &Point)
    ensures { Adds out.old out.new (point_title point.now) }
{
    found_words(
        out,
        point.scan,
        point.item,
        point.values.as_slice(),
        point.collects,
    );
}

/// Appends the state of a point, if there is room for it.
#[tactic(auto, unfolding(crate::specs::ShapeText::point_words))]
fn point_words(out: &mut Draft, window: &Window, point: &Point)
    ensures { Adds out.old out.new (point_words window.now point.now) }
{
    if window.is_thin() {
        return;
    }
    words_head(out, b"seen", window.x_of(point.item), 78);
    out.push_numbers(point.values.as_slice());
    out.push(b"</text>");
}

/// Appends the point of a scan, with a line down to the scan.
#[tactic(auto, unfolding(crate::specs::ShapeText::point_path))]
fn point_path(out: &mut Draft, window: &Window, point: &Point, x: u64, y: u64)
    ensures { Adds out.old out.new (point_path window.now point.now x y) }
{
    group_head(out, b"point");
    point_title(out, point);
    line_text(out, b"drop", x, 118, x, y);
    path_head(out, b"diamond", x, 106, b"l9 12-9 12-9-12z");
    out.push(b"</title></path>");
    point_words(out, window, point);
    out.push(b"</g>\n");
}

/// Appends the point of a scan.
#[tactic(auto, unfolding(crate::specs::ShapeText::point_text))]
pub(crate) fn point_text(out: &mut Draft, window: &Window, point: &Point)
    ensures { Adds out.old out.new (point_text window.now point.now) }
{
    let y = y_of(point.scan.process) + 6;
    point_path(out, window, point, window.x_of(point.item), y);
}

/// Appends a scan without a point, in a box of its own.
#[tactic(auto, unfolding(crate::specs::ShapeText::none_box))]
fn none_box(out: &mut Draft, span: Span, x: u64, y: u64, width: u64)
    requires { y ≤ 1000000000000 }
    ensures { Adds out.old out.new (none_box span x y width) }
{
    group_head(out, b"none");
    span_text(out, span);
    out.push(b"a scan without a point</title><rect");
    edges_text(out, x, y, width, 44);
    out.push(b"/>");
    words_head(out, b"without", x, y + 40);
    out.push(b"point none</text></g>\n");
}

/// Appends a scan without a point.
#[tactic(auto, unfolding(crate::specs::ShapeText::none_text))]
pub(crate) fn none_text(out: &mut Draft, window: &Window, span: Span)
    ensures { Adds out.old out.new (none_text window.now span) }
{
    let x = window.x_before(span.from);
    let width = width_of(x, window.x_of(span.to));
    none_box(out, span, x, y_of(span.process) + 6, width);
}

/// Appends an operation whose end nothing explains, crossed out.
#[tactic(auto, unfolding(crate::specs::ShapeText::wrong_box))]
fn wrong_box(out: &mut Draft, span: Span, x: u64, right: u64, y: u64, width: u64)
    requires { y ≤ 1000000000000 }
    ensures { Adds out.old out.new (wrong_box span x right y width) }
{
    group_head(out, b"wrong");
    span_text(out, span);
    out.push(b"no order of the operations explains how this ended: ");
    out.push(b"the run is not linearizable</title><rect");
    edges_text(out, x, y, width, 44);
    out.push(b"/>");
    line_text(out, b"bar", x, y, right, y + 44);
    line_text(out, b"bar", x, y + 44, right, y);
    words_head(out, b"no", x.min(LAST_WORDS), y + 58);
    out.push(b"not linearizable</text></g>\n");
}

/// Appends an operation whose end no order of the operations explains.
#[tactic(auto, unfolding(crate::specs::ShapeText::wrong_text))]
pub(crate) fn wrong_text(out: &mut Draft, window: &Window, span: Span)
    ensures { Adds out.old out.new (wrong_text window.now span) }
{
    let x = window.x_before(span.from);
    let right = window.x_of(span.to);
    wrong_box(
        out,
        span,
        x,
        right,
        y_of(span.process) + 6,
        width_of(x, right),
    );
}
