//! `Band`: what the values of memory were from one write to the next; and the `Span`s of positions
//! at which they were a view.
ghost use Rattle.std.specs.Prelude.{◌≡◌, ◌++◌, ◌≤◌, ◌<◌, IfOk, OnOk, length, option_map};
ghost use Rattle.snap_acts.specs.Loans.{step_at};
ghost use Rattle.snap_acts.specs.Searches.{is_write};
ghost use Rattle.snap_anatomy.specs.Memory.{band_at, band_from, band_in, bands_of, common_span};
ghost use Rattle.snap_anatomy.specs.Memory.{first_band, last_until, span_before, span_behind};
ghost use Rattle.snap_anatomy.specs.Memory.{span_outside, span_part, spans_at, spans_to, until};
ghost use Rattle.snap_anatomy.specs.Memory.{values_by, values_from};

use crate::found::step_in;
use snap_acts::{Act, StepPattern, TraceStep, first_step_from};
use std::alloc::{AllocError, Global};

/// Positions of a run, from one to another; position t is the state after t items.
#[derive(Clone, Copy)]
pub struct Span {
    pub from: u64,
    pub to: u64,
}

/// The positions from a write to the next one, and the place of the write in the trace; those
/// before the first write have none.
#[derive(Clone, Copy)]
pub struct Band {
    pub span: Span,
    pub write: Option<usize>,
}

/// Returns whether an item wrote a word.
fn is_write(act: &Act) -> bool
    ensures { result ≡ is_write act.now }
{
    match act {
        Act::Write(_, _, _) => true,
        _ => false,
    }
}

/// Returns the position before a step, and the last one if there is no step.
fn until(last: u64, step: Option<&TraceStep>) -> u64
    ensures { result ≡ until last (option_map (λ s. s.now) step.entry) }
{
    match step {
        Some(step) => step.item.saturating_sub(1),
        None => last,
    }
}

/// Returns the last position before the next write from a place on.
fn last_until(steps: &[TraceStep], k: usize) -> u64
    ensures { result ≡ last_until steps.now k }
{
    let found = first_step_from(steps, k, StepPattern::Write);
    until(steps.len() as u64, found)
}

/// Returns the positions before the first write.
fn first_band(steps: &[TraceStep]) -> Band
    ensures { result ≡ first_band steps.now }
{
    Band {
        span: Span {
            from: 0,
            to: last_until(steps, 0),
        },
        write: None,
    }
}

/// Returns the positions from the write at a place to the next one.
fn band_from(steps: &[TraceStep], k: usize) -> Band
    requires { k < length steps.now }
    ensures { result ≡ band_from steps.now k }
{
    Band {
        span: Span {
            from: steps[k].item,
            to: last_until(steps, k + 1),
        },
        write: Some(k),
    }
}

/// Appends the positions from the step at a place on, if that is a write.
#[tactic(auto, unfolding(crate::specs::Memory::band_at))]
fn push_band(bands: &mut Vec<Band>, steps: &[TraceStep], k: usize) -> Result<(), AllocError>
    requires { k < length steps.now }
    ensures { OnOk result (bands.new.items ≡ bands.old.items ++ band_at steps.now k) }
{
    if is_write(&steps[k].act) {
        bands.push(band_from(steps, k))?;
    }
    Ok(())
}

/// Returns the positions of a run from write to write.
pub(crate) fn bands_of(alloc: Global, steps: &[TraceStep]) -> Result<Vec<Band>, AllocError>
    ensures { IfOk result (λ v. v.items ≡ bands_of steps.now) }
{
    let mut bands = Vec::new(alloc);
    bands.push(first_band(steps))?;
    for k in 0..steps.len() {
        push_band(&mut bands, steps, k)?;
    }
    Ok(bands)
}

/// Returns the values that an item leaves if it is a write, and else these.
fn values_by<'a>(values: &'a [u64], act: &'a Act) -> &'a [u64]
    ensures { result.now ≡ values_by values.now act.now }
{
    match act {
        Act::Write(_, left, _) => left.as_slice(),
        _ => values,
    }
}

/// Returns the values that the write at a place leaves, and these if there is none.
pub(crate) fn values_from<'a>(
    values: &'a [u64],
    steps: &'a [TraceStep],
    write: Option<usize>,
) -> &'a [u64]
    ensures { result.now ≡ values_from values.now steps.now write }
{
    match write {
        Some(k) => match step_in(steps, k) {
            Some(step) => values_by(values, &step.act),
            None => values,
        },
        None => values,
    }
}

/// Appends what two spans have in common.
fn push_common(spans: &mut Vec<Span>, a: Span, b: Span) -> Result<(), AllocError>
    ensures { OnOk result (spans.new.items ≡ spans.old.items ++ common_span a b) }
{
    let from = a.from.max(b.from);
    let to = a.to.min(b.to);
    if from <= to {
        spans.push(Span { from, to })?;
    }
    Ok(())
}

/// Appends what a span has before a position.
fn push_before(spans: &mut Vec<Span>, a: Span, c: u64) -> Result<(), AllocError>
    ensures { OnOk result (spans.new.items ≡ spans.old.items ++ span_before a c) }
{
    if a.from < c {
        spans.push(Span {
            from: a.from,
            to: a.to.min(c - 1),
        })?;
    }
    Ok(())
}

/// Appends what a span has behind a position.
fn push_behind(spans: &mut Vec<Span>, a: Span, e: u64) -> Result<(), AllocError>
    ensures { OnOk result (spans.new.items ≡ spans.old.items ++ span_behind a e) }
{
    if e < a.to {
        spans.push(Span {
            from: a.from.max(e + 1),
            to: a.to,
        })?;
    }
    Ok(())
}

/// Appends the part of a span that lies within another one, or outside of it.
#[tactic(auto, unfolding(crate::specs::Memory::span_outside))]
fn push_part(spans: &mut Vec<Span>, is_within: bool, a: Span, b: Span) -> Result<(), AllocError>
    ensures { OnOk result (spans.new.items ≡ spans.old.items ++ span_part is_within a b) }
{
    if is_within {
        push_common(spans, a, b)
    } else {
        push_before(spans, a, b.from)?;
        push_behind(spans, a, b.to)
    }
}

/// Where a view is sought: within a span or outside of it, in a memory with these values before the
/// first write.
#[derive(Clone, Copy)]
pub(crate) struct Sighting<'a> {
    pub(crate) is_within: bool,
    pub(crate) span: Span,
    pub(crate) view: &'a [u64],
    pub(crate) values: &'a [u64],
}

/// Appends the part of a band in which the values of memory are a view.
#[tactic(auto, unfolding(crate::specs::Memory::spans_at))]
fn push_spans_at(
    spans: &mut Vec<Span>,
    sought: Sighting<'_>,
    steps: &[TraceStep],
    band: Band,
) -> Result<(), AllocError>
    ensures { OnOk result (spans.new.items ≡ spans.old.items ++ spans_at sought.entry.is_within
        sought.entry.span sought.entry.view.now sought.entry.values.now steps.now band) }
{
    if values_from(sought.values, steps, band.write) == sought.view {
        push_part(spans, sought.is_within, band.span, sought.span)?;
    }
    Ok(())
}

/// Returns the spans in which the values of memory are a view.
pub(crate) fn spans_of(
    alloc: Global,
    sought: Sighting<'_>,
    steps: &[TraceStep],
    bands: &[Band],
) -> Result<Vec<Span>, AllocError>
    ensures { IfOk result (λ v. v.items ≡ spans_to sought.entry.is_within sought.entry.span
        sought.entry.view.now sought.entry.values.now steps.now bands.now (length bands.now)) }
{
    let mut spans = Vec::new(alloc);
    for k in 0..bands.len() {
        push_spans_at(&mut spans, sought, steps, bands[k])?;
    }
    Ok(spans)
}
