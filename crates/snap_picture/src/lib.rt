//! Pictures of runs as SVG: what is drawn of a run, in items and lanes, in which what is not
//! linearizable is crossed out.
#![tactic(auto)]

mod bars;
mod crossed;
mod drawing;
mod drawn;
mod elements;
mod escape;
mod frame;
mod last_writes;
mod look;
mod options;
mod print;
mod refusal;
mod shape;
mod shape_lines;
mod sought;
mod spots;
mod steps;
mod told;
mod verdicts;
mod window;

pub use drawing::picture;
pub use drawn::shapes;
pub use escape::{what_is_escaped_begins_no_tag, what_is_escaped_comes_back};
pub use frame::Counts;
pub use look::{LEGEND, STYLE};
pub use options::{Look, Options};
pub use refusal::PictureRefusal;
pub use shape::{Bar, End, Loan, Period, Point, Read, Shape, Span, Spot, Write, Written};
pub use told::told_shapes;
pub use window::Window;
