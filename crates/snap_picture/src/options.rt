//! `Options`: which items of a run a picture shows, and how long the run is judged; `Look`: its
//! style and its legend.

/// Which items are drawn, unless all are; whether reads lead to what they read; and how many
/// configurations the judgement of the run keeps at most.
#[derive(Clone, Copy)]
pub struct Options {
    pub from: Option<u64>,
    pub to: Option<u64>,
    pub reads: bool,
    pub most: usize,
}

/// How a picture looks: its style with the definitions of arrow and hatch, and its legend, as SVG.
#[derive(Clone, Copy)]
pub struct Look<'a> {
    pub style: &'a [u8],
    pub legend: &'a [u8],
}
