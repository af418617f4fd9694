//! Pieces of JSON: separators, lists of numbers, and the fields of objects.
ghost use Rattle.std.specs.Prelude.{◌≡◌, length};
ghost use Rattle.snap_text.specs.Drafted.{Adds};
ghost use Rattle.snap_anatomy.specs.Json.{bool_json, field, list_field, list_json, number_field};
ghost use Rattle.snap_anatomy.specs.Json.{numbers_to, place_field, place_json, process_json};
ghost use Rattle.snap_anatomy.specs.Json.{separator, span_json, text_field};

use crate::found::{item_at, process_at};
use crate::memory::Span;
use snap_acts::TraceStep;
use snap_text::Draft;

/// Appends what stands before element `k` of a list, counted from 0.
pub(crate) fn push_separator(out: &mut Draft, k: usize)
    ensures { Adds out.old out.new (separator k) }
{
    if k != 0 {
        out.push(b",");
    }
}

/// Appends numbers, separated.
fn push_numbers(out: &mut Draft, numbers: &[u64])
    ensures { Adds out.old out.new (numbers_to numbers.now (length numbers.now)) }
{
    for k in 0..numbers.len() {
        push_separator(out, k);
        out.push_number(numbers[k]);
    }
}

/// Appends a list of numbers.
#[tactic(auto, unfolding(crate::specs::Json::list_json))]
pub(crate) fn push_list(out: &mut Draft, numbers: &[u64])
    ensures { Adds out.old out.new (list_json numbers.now) }
{
    out.push(b"[");
    push_numbers(out, numbers);
    out.push(b"]");
}

/// Appends a truth value.
pub(crate) fn push_bool(out: &mut Draft, value: bool)
    ensures { Adds out.old out.new (bool_json value) }
{
    if value {
        out.push(b"true");
    } else {
        out.push(b"false");
    }
}

/// Appends the item of the step at a place, if there is one.
fn push_place(out: &mut Draft, steps: &[TraceStep], place: Option<usize>)
    ensures { Adds out.old out.new (place_json steps.now place) }
{
    match place {
        Some(k) => out.push_number(item_at(steps, k)),
        None => out.push(b"null"),
    }
}

/// Appends the process of the step at a place, if there is one.
pub(crate) fn push_process(out: &mut Draft, steps: &[TraceStep], place: Option<usize>)
    ensures { Adds out.old out.new (process_json steps.now place) }
{
    match place {
        Some(k) => out.push_number(u64::from(process_at(steps, k))),
        None => out.push(b"null"),
    }
}

/// Appends a span.
#[tactic(auto, unfolding(crate::specs::Json::span_json))]
pub(crate) fn push_span(out: &mut Draft, span: Span)
    ensures { Adds out.old out.new (span_json span) }
{
    out.push(b"[");
    out.push_number(span.from);
    out.push(b",");
    out.push_number(span.to);
    out.push(b"]");
}

/// Appends the name of a field behind another one.
#[tactic(auto, unfolding(crate::specs::Json::field))]
pub(crate) fn push_field(out: &mut Draft, name: &[u8])
    ensures { Adds out.old out.new (field name.now) }
{
    out.push(b",\"");
    out.push(name);
    out.push(b"\":");
}

/// Appends a field that is a number.
#[tactic(auto, unfolding(crate::specs::Json::number_field))]
pub(crate) fn push_number_field(out: &mut Draft, name: &[u8], number: u64)
    ensures { Adds out.old out.new (number_field name.now number) }
{
    push_field(out, name);
    out.push_number(number);
}

/// Appends a field that is a text.
#[tactic(auto, unfolding(crate::specs::Json::text_field))]
pub(crate) fn push_text_field(out: &mut Draft, name: &[u8], text: &[u8])
    ensures { Adds out.old out.new (text_field name.now text.now) }
{
    push_field(out, name);
    out.push(b"\"");
    out.push(text);
    out.push(b"\"");
}

/// Appends a field that is a list of numbers.
#[tactic(auto, unfolding(crate::specs::Json::list_field))]
pub(crate) fn push_list_field(out: &mut Draft, name: &[u8], numbers: &[u64])
    ensures { Adds out.old out.new (list_field name.now numbers.now) }
{
    push_field(out, name);
    push_list(out, numbers);
}

/// Appends a field that is the item of the step at a place, if there is one.
#[tactic(auto, unfolding(crate::specs::Json::place_field))]
pub(crate) fn push_place_field(
    out: &mut Draft,
    name: &[u8],
    steps: &[TraceStep],
    place: Option<usize>,
)
    ensures { Adds out.old out.new (place_field name.now steps.now place) }
{
    push_field(out, name);
    push_place(out, steps, place);
}
