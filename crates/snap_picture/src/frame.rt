//! The SVG around what is drawn of a run: title, lanes, numbers of items, legend.
ghost use Rattle.std.specs.Prelude.{◌≡◌, ◌+◌, ◌<◌, ◌≤◌, option_map};
ghost use Rattle.snap_text.specs.Drafted.{Adds};
ghost use Rattle.snap_picture.specs.FrameText.{
  all_lanes,
  all_ticks,
  counts_words,
  foot_text,
  head_text,
  input_text,
  kind_name,
  lane_box,
  lane_text,
  lanes_text,
  listing_part,
  name_text,
  opening,
  opening_of,
  step_of,
  thin_words,
  tick_or_none,
  tick_text,
  ticks_text,
  title_words,
  titles,
};

use crate::elements::{edges_text, line_text, words_head};
use crate::escape::push_escaped;
use crate::window::{Window, y_of};
use snap_text::Draft;
use snap_words::KindTag;

/// What a title says of a run.
#[derive(Clone, Copy)]
pub struct Counts {
    pub kind: KindTag,
    pub words: u64,
    /// Items of the whole run.
    pub items: u64,
    /// Scans that were called and have been answered.
    pub scans: u64,
    /// Scans that were called and have no point.
    pub without_point: u64,
    /// Updates that were called.
    pub updates: u64,
}

fn kind_name(kind: KindTag) -> &'static [u8]
    ensures { result.now ≡ kind_name kind }
{
    match kind {
        KindTag::Seq => b"seq",
        KindTag::Bits => b"bit",
        KindTag::Multi => b"multi",
    }
}

/// Appends the opening of a picture of this height.
#[tactic(auto, unfolding(crate::specs::FrameText::opening_of))]
fn opening_of(out: &mut Draft, height: u64)
    ensures { Adds out.old out.new (opening_of height) }
{
    out.push(b"<svg xmlns=\"http://www.w3.org/2000/svg\" role=\"img\" viewBox=\"0 0 1600 ");
    out.push_number(height);
    out.push(b"\">\n");
}

#[tactic(auto, unfolding(crate::specs::FrameText::opening))]
fn opening(out: &mut Draft, window: &Window)
    ensures { Adds out.old out.new (opening window.now) }
{
    opening_of(out, window.height());
}

/// Appends the kind and the shape of the listing, and which items of its run.
#[tactic(auto, unfolding(crate::specs::FrameText::title_words))]
fn title_words(out: &mut Draft, window: &Window, counts: &Counts)
    ensures { Adds out.old out.new (title_words window.now counts.now) }
{
    out.push(b"A listing of kind ");
    out.push(kind_name(counts.kind));
    out.push(b", shape ");
    out.push_number(window.processes());
    out.push(b" ");
    out.push_number(counts.words);
    out.push(b": items ");
    out.push_number(window.first());
    out.push(b" to ");
    out.push_number(window.to());
    out.push(b" of ");
    out.push_number(counts.items);
}

/// Appends what is left out.
fn thin_words(out: &mut Draft, window: &Window)
    ensures { Adds out.old out.new (thin_words window.now) }
{
    if window.is_thin() {
        out.push(b". Thinned: reads, tests and scans of updates are left out");
    }
}

#[tactic(auto, unfolding(crate::specs::FrameText::counts_words))]
fn counts_words(out: &mut Draft, window: &Window, counts: &Counts)
    ensures { Adds out.old out.new (counts_words window.now counts.now) }
{
    out.push(b"In the whole run: scans answered ");
    out.push_number(counts.scans);
    out.push(b", of these without a point ");
    out.push_number(counts.without_point);
    out.push(b", updates called ");
    out.push_number(counts.updates);
    thin_words(out, window);
}

/// Appends the name of the picture.
#[tactic(auto, unfolding(crate::specs::FrameText::name_text))]
fn name_text(out: &mut Draft, window: &Window, counts: &Counts)
    ensures { Adds out.old out.new (name_text window.now counts.now) }
{
    out.push(b"<title>");
    title_words(out, window, counts);
    out.push(b"</title>\n");
}

/// Appends the title, in sight, with what was counted.
#[tactic(auto, unfolding(crate::specs::FrameText::titles))]
fn titles(out: &mut Draft, window: &Window, counts: &Counts)
    ensures { Adds out.old out.new (titles window.now counts.now) }
{
    words_head(out, b"title", 12, 30);
    title_words(out, window, counts);
    out.push(b"</text>\n");
    words_head(out, b"counts", 12, 54);
    counts_words(out, window, counts);
    out.push(b"</text>\n");
}

/// Appends a listing, if one is given.
#[tactic(auto, unfolding(crate::specs::FrameText::listing_part))]
fn listing_part(out: &mut Draft, listing: Option<&[u8]>)
    ensures { Adds out.old out.new (listing_part (option_map (λ t. t.now) listing.entry)) }
{
    let Some(text) = listing else {
        return;
    };
    push_escaped(out, text);
    out.push(b"\n%\n");
}

/// Appends the input of the run, as it is given to `snaplab run`.
#[tactic(auto, unfolding(crate::specs::FrameText::input_text))]
pub fn push_input(out: &mut Draft, listing: Option<&[u8]>, schedule: &[u8])
    ensures { Adds out.old out.new
        (input_text (option_map (λ t. t.now) listing.entry) schedule.now) }
{
    out.push(b"<metadata>");
    listing_part(out, listing);
    push_escaped(out, schedule);
    out.push(b"</metadata>\n");
}

/// Appends the lane of a process, with its name at a height.
#[tactic(auto, unfolding(crate::specs::FrameText::lane_box))]
fn lane_box(out: &mut Draft, process: u64, y: u64, name_y: u64)
    ensures { Adds out.old out.new (lane_box process y name_y) }
{
    out.push(b"<rect class=\"lane\"");
    edges_text(out, 110, y, 1460, 56);
    out.push(b"/>");
    words_head(out, b"who", 12, name_y);
    out.push(b"process ");
    out.push_number(process);
    out.push(b"</text>\n");
}

/// Appends the lane of a process.
#[tactic(auto, unfolding(crate::specs::FrameText::lane_text))]
fn lane_text(out: &mut Draft, process: u32)
    ensures { Adds out.old out.new (lane_text process) }
{
    let y = y_of(process);
    lane_box(out, u64::from(process), y, y + 34);
}

/// Appends the lanes of `count` processes.
fn lanes_text(out: &mut Draft, count: u64)
    requires { count ≤ 64 }
    ensures { Adds out.old out.new (lanes_text count) }
{
    for k in 0..count {
        lane_text(out, k as u32 + 1);
    }
}

/// Returns how far apart the numbers of items stand, for `count` items.
fn step_of(count: u64) -> u64
    ensures step { result ≡ step_of count }
    ensures some { (0 < result) × (result ≤ 2000) }
{
    match count {
        0..=24 => 2,
        25..=60 => 5,
        61..=120 => 10,
        121..=240 => 20,
        241..=600 => 50,
        601..=1200 => 100,
        1201..=2400 => 200,
        2401..=6000 => 500,
        6001..=12000 => 1000,
        _ => 2000,
    }
}

/// Appends the number of an item, below the lanes.
#[tactic(auto, unfolding(crate::specs::FrameText::tick_text))]
fn tick_text(out: &mut Draft, window: &Window, item: u64)
    ensures { Adds out.old out.new (tick_text window.now item) }
{
    let x = window.x_of(item);
    let y = window.y_end();
    line_text(out, b"tick", x, y, x, y + 6);
    words_head(out, b"number", x, y + 22);
    out.push_number(item);
    out.push(b"</text>\n");
}

/// Appends the number of an item that is drawn.
fn tick_or_none(out: &mut Draft, window: &Window, item: u64)
    ensures { Adds out.old out.new (tick_or_none window.now item) }
{
    if item <= window.to() {
        tick_text(out, window, item);
    }
}

/// Appends `count` numbers, a step apart, from the first one on.
fn ticks_text(out: &mut Draft, window: &Window, step: u64, first: u64, count: u64)
    requires { (step ≤ 2000) × ((first ≤ 1002000) × (count ≤ 20001)) }
    ensures { Adds out.old out.new (ticks_text window.now step first count) }
{
    let mut item = first;
    let mut k = 0;
    while k < count {
        tick_or_none(out, window, item);
        item += step;
        k += 1;
    }
}

/// Appends the numbers of items.
#[tactic(auto, using(crate::proofs::Places::quotient_le))]
fn all_ticks(out: &mut Draft, window: &Window, step: u64)
    requires { (0 < step) × (step ≤ 2000) }
    ensures { Adds out.old out.new (all_ticks window.now step) }
{
    let from = window.from();
    let first = from - from % step + step;
    ticks_text(out, window, step, first, window.count() / step + 1);
}

/// Appends the lanes, and the numbers of items below them.
#[tactic(auto, unfolding(crate::specs::FrameText::all_lanes))]
fn all_lanes(out: &mut Draft, window: &Window)
    ensures { Adds out.old out.new (all_lanes window.now) }
{
    lanes_text(out, window.processes());
    all_ticks(out, window, step_of(window.count()));
}

/// Appends what stands before the shapes.
#[tactic(auto, unfolding(crate::specs::FrameText::head_text))]
pub fn push_head(out: &mut Draft, window: &Window, counts: &Counts, style: &[u8])
    ensures { Adds out.old out.new (head_text window.now counts.now style.now) }
{
    opening(out, window);
    name_text(out, window, counts);
    out.push(style);
    titles(out, window, counts);
    words_head(out, b"who", 12, 106);
    out.push(b"values</text>\n");
    all_lanes(out, window);
}

/// Appends what stands behind the shapes.
#[tactic(auto, unfolding(crate::specs::FrameText::foot_text))]
pub fn push_foot(out: &mut Draft, window: &Window, legend: &[u8])
    ensures { Adds out.old out.new (foot_text window.now legend.now) }
{
    out.push(b"<g class=\"legend\" transform=\"translate(12 ");
    out.push_number(window.y_end() + 50);
    out.push(b")\">");
    out.push(legend);
    out.push(b"</g>\n</svg>\n");
}
