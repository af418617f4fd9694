//! The SVG elements of a picture as text: boxes, paths, lines, dots and words, with their
//! attributes.
ghost use Rattle.snap_text.specs.Drafted.{Adds};
ghost use Rattle.snap_picture.specs.Elements.{
  attribute,
  box_head,
  dot_text,
  edges_text,
  group_head,
  line_text,
  path_head,
  place_text,
  words_head,
};

use snap_text::Draft;

/// What stands behind what is said of a box.
pub(crate) const BOX_BODY: &[u8] = b"</title><rect width=\"100%\" height=\"100%\"/>";

/// Appends ` NAME="X"`.
#[tactic(auto, unfolding(crate::specs::Elements::attribute))]
pub(crate) fn attribute(out: &mut Draft, name: &[u8], x: u64)
    ensures { Adds out.old out.new (attribute name.now x) }
{
    out.push(b" ");
    out.push(name);
    out.push(b"=\"");
    out.push_number(x);
    out.push(b"\"");
}

/// Appends a place in a path.
#[tactic(auto, unfolding(crate::specs::Elements::place_text))]
fn place_text(out: &mut Draft, x: u64, y: u64)
    ensures { Adds out.old out.new (place_text x y) }
{
    out.push_number(x);
    out.push(b" ");
    out.push_number(y);
}

/// Appends four edges.
#[tactic(auto, unfolding(crate::specs::Elements::edges_text))]
pub(crate) fn edges_text(out: &mut Draft, x: u64, y: u64, width: u64, height: u64)
    ensures { Adds out.old out.new (edges_text x y width height) }
{
    attribute(out, b"x", x);
    attribute(out, b"y", y);
    attribute(out, b"width", width);
    attribute(out, b"height", height);
}

/// Appends an element of a class, up to its description.
#[tactic(auto, unfolding(crate::specs::Elements::group_head))]
pub(crate) fn group_head(out: &mut Draft, class: &[u8])
    ensures { Adds out.old out.new (group_head class.now) }
{
    out.push(b"<g class=\"");
    out.push(class);
    out.push(b"\"><title>");
}

/// Appends a box of a class, up to its description.
#[tactic(auto, unfolding(crate::specs::Elements::box_head))]
pub(crate) fn box_head(out: &mut Draft, class: &[u8], x: u64, y: u64, width: u64, height: u64)
    ensures { Adds out.old out.new (box_head class.now x y width height) }
{
    out.push(b"<svg class=\"");
    out.push(class);
    out.push(b"\"");
    edges_text(out, x, y, width, height);
    out.push(b"><title>");
}

/// Appends a path of a class that begins at a place and has this form, up to its description.
#[tactic(auto, unfolding(crate::specs::Elements::path_head))]
pub(crate) fn path_head(out: &mut Draft, class: &[u8], x: u64, y: u64, form: &[u8])
    ensures { Adds out.old out.new (path_head class.now x y form.now) }
{
    out.push(b"<path class=\"");
    out.push(class);
    out.push(b"\" d=\"M");
    place_text(out, x, y);
    out.push(form);
    out.push(b"\"><title>");
}

/// Appends a straight path.
#[tactic(auto, unfolding(crate::specs::Elements::line_text))]
pub(crate) fn line_text(out: &mut Draft, class: &[u8], x: u64, y: u64, to_x: u64, to_y: u64)
    ensures { Adds out.old out.new (line_text class.now x y to_x to_y) }
{
    out.push(b"<path class=\"");
    out.push(class);
    out.push(b"\" d=\"M");
    place_text(out, x, y);
    out.push(b"L");
    place_text(out, to_x, to_y);
    out.push(b"\"/>");
}

/// Appends a dot.
#[tactic(auto, unfolding(crate::specs::Elements::dot_text))]
pub(crate) fn dot_text(out: &mut Draft, x: u64, y: u64)
    ensures { Adds out.old out.new (dot_text x y) }
{
    out.push(b"<circle r=\"5\"");
    attribute(out, b"cx", x);
    attribute(out, b"cy", y);
    out.push(b"/>");
}

/// Appends words of a class at a place, up to the words.
#[tactic(auto, unfolding(crate::specs::Elements::words_head))]
pub(crate) fn words_head(out: &mut Draft, class: &[u8], x: u64, y: u64)
    ensures { Adds out.old out.new (words_head class.now x y) }
{
    out.push(b"<text class=\"");
    out.push(class);
    out.push(b"\"");
    attribute(out, b"x", x);
    attribute(out, b"y", y);
    out.push(b">");
}
