//! The scans of a run with their double collects, as JSON.
ghost use Rattle.std.specs.Prelude.{◌≡◌, ◌≤◌, ◌<◌, length, option_map};
ghost use Rattle.snap_text.specs.Drafted.{Adds};
ghost use Rattle.snap_acts.specs.Loans.{step_at};
ghost use Rattle.snap_anatomy.specs.Notes.{note_at};
ghost use Rattle.snap_anatomy.specs.StepText.{act_fields};
ghost use Rattle.snap_anatomy.specs.ScanText.{answer_json, places_of};
ghost use Rattle.snap_anatomy.specs.ScanText.{act_json, began, borrowed_json, collect_json};
ghost use Rattle.snap_anatomy.specs.ScanText.{collects_by, collects_json, collects_to, fits_json};
ghost use Rattle.snap_anatomy.specs.ScanText.{gap_json, held_json, item_or, lent_json, moved_json};
ghost use Rattle.snap_anatomy.specs.ScanText.{noted_json, open_collect, reads_json, reads_to};
ghost use Rattle.snap_anatomy.specs.ScanText.{row_json, scan_head, scan_json, scan_span};
ghost use Rattle.snap_anatomy.specs.ScanText.{scans_json_to, source_fields, source_json};
ghost use Rattle.snap_anatomy.specs.ScanText.{spans_json, spans_json_to, sure_by, sure_in};
ghost use Rattle.snap_anatomy.specs.ScanText.{sure_json, test_json, untested_json, view_json};
ghost use Rattle.snap_anatomy.specs.ScanText.{writing_call};

use crate::collects::{Sought, gap_of, mark_behind, places_between, start_of};
use crate::found::{item_at, note_in, process_at, step_in};
use crate::json::{
    push_field, push_list, push_list_field, push_number_field, push_place_field, push_process,
    push_separator, push_span, push_text_field,
};
use crate::memory::{Band, Sighting, Span, spans_of};
use crate::note::Note;
use crate::scans::{Scan, call_before, end_or, view_at};
use crate::sources::{last_gap, source_of};
use crate::step_text::push_act;
use snap_acts::{Borrowed, ScanPlaces, TraceStep, view_taken};
use snap_text::Draft;
use std::alloc::Global;

/// What is known of a run: what its items did, the values of memory before the first write, and
/// those from write to write.
#[derive(Clone, Copy)]
pub(crate) struct Told<'a> {
    pub(crate) steps: &'a [TraceStep],
    pub(crate) notes: &'a [Note],
    pub(crate) values: &'a [u64],
    pub(crate) bands: &'a [Band],
}

/// Appends the fields of what the step at a place did.
fn push_act_fields(out: &mut Draft, steps: &[TraceStep], k: usize)
    ensures { Adds out.old out.new (act_fields (step_at steps.now k).act) }
{
    match step_in(steps, k) {
        Some(step) => push_act(out, &step.act),
        None => {}
    }
}

/// Appends what the step at a place did.
#[tactic(auto, unfolding(crate::specs::ScanText::noted_json))]
fn push_act_at(out: &mut Draft, steps: &[TraceStep], k: usize)
    ensures { Adds out.old out.new (act_json steps.now k) }
{
    out.push(b"{\"item\":");
    out.push_number(item_at(steps, k));
    push_act_fields(out, steps, k);
    out.push(b"}");
}

/// Appends the reads at these places.
fn push_reads(out: &mut Draft, steps: &[TraceStep], reads: &[usize])
    ensures { Adds out.old out.new (reads_to steps.now reads.now (length reads.now)) }
{
    for j in 0..reads.len() {
        push_separator(out, j);
        push_act_at(out, steps, reads[j]);
    }
}

/// Appends a gap.
fn push_gap(out: &mut Draft, gap: Option<Span>)
    ensures { Adds out.old out.new (gap_json gap) }
{
    match gap {
        Some(span) => push_span(out, span),
        None => out.push(b"null"),
    }
}

/// Appends a row that was set by an item.
#[tactic(auto, unfolding(crate::specs::ScanText::noted_json))]
fn push_row(out: &mut Draft, item: u64, note: &Note)
    ensures { Adds out.old out.new (row_json item note.now) }
{
    match note {
        Note::Row(row, values) => {
            out.push(b"{\"item\":");
            out.push_number(item);
            push_text_field(out, b"row", row.letters());
            push_list_field(out, b"values", values.as_slice());
            out.push(b"}");
        }
        _ => out.push(b"null"),
    }
}

/// Appends the row that was set at a place, if there is one.
fn push_moved(out: &mut Draft, told: Told<'_>, place: Option<usize>)
    ensures { Adds out.old out.new (moved_json told.entry.steps.now told.entry.notes.now place) }
{
    let Some(k) = place else {
        out.push(b"null");
        return;
    };
    match note_in(told.notes, k) {
        Some(note) => push_row(out, item_at(told.steps, k), note),
        None => out.push(b"null"),
    }
}

/// Appends the reads of a double collect, and its gap.
#[tactic(auto, unfolding(crate::specs::ScanText::reads_json))]
fn push_collected(out: &mut Draft, steps: &[TraceStep], reads: &[usize])
    ensures { Adds out.old out.new (reads_json steps.now reads.now) }
{
    out.push(b"{\"reads\":[");
    push_reads(out, steps, reads);
    out.push(b"]");
    push_field(out, b"gap");
    push_gap(out, gap_of(steps, reads));
}

/// Appends the test of a double collect, and the row that is set then.
#[tactic(auto, unfolding(crate::specs::ScanText::test_json))]
fn push_test(out: &mut Draft, told: Told<'_>, process: u32, test: usize, end: usize)
    ensures { Adds out.old out.new
        (test_json told.entry.steps.now told.entry.notes.now process test end) }
{
    push_field(out, b"test");
    push_act_at(out, told.steps, test);
    push_field(out, b"moved");
    let place = mark_behind(told.steps, told.notes, process, test, end);
    push_moved(out, told, place);
}

/// Appends the double collect that a test of a scan ends.
#[tactic(auto, unfolding(crate::specs::ScanText::collect_json))]
fn push_collect(
    alloc: Global,
    out: &mut Draft,
    told: Told<'_>,
    scan: ScanPlaces,
    tests: &[usize],
    j: usize,
)
    requires { j < length tests.now }
    ensures { Adds out.old out.new (collect_json told.entry.steps.now told.entry.notes.now
        scan.process scan.from scan.to tests.now j) }
{
    let start = start_of(scan.from, tests, j);
    match places_between(
        alloc,
        Sought::Read,
        told.steps,
        scan.process,
        start,
        tests[j],
    ) {
        Ok(reads) => {
            push_collected(out, told.steps, reads.as_slice());
            push_test(out, told, scan.process, tests[j], scan.to);
            out.push(b"}");
        }
        Err(error) => out.fail(error),
    }
}

/// Appends the double collects that the tests of a scan end.
fn push_tested(alloc: Global, out: &mut Draft, told: Told<'_>, scan: ScanPlaces, tests: &[usize])
    ensures { Adds out.old out.new (collects_to told.entry.steps.now told.entry.notes.now
        scan.process scan.from scan.to tests.now (length tests.now)) }
{
    for j in 0..tests.len() {
        push_separator(out, j);
        push_collect(alloc, out, told, scan, tests, j);
    }
}

/// Appends what was read behind the last test.
#[tactic(auto, unfolding(crate::specs::ScanText::untested_json))]
fn push_untested(out: &mut Draft, steps: &[TraceStep], tests: usize, reads: &[usize])
    ensures { Adds out.old out.new (untested_json steps.now tests reads.now) }
{
    push_separator(out, tests);
    push_collected(out, steps, reads);
    out.push(b",\"test\":null,\"moved\":null}");
}

/// Appends what was read behind the last test, if something was.
fn push_open(out: &mut Draft, steps: &[TraceStep], tests: usize, reads: &[usize])
    ensures { Adds out.old out.new (open_collect steps.now tests reads.now) }
{
    if reads.len() != 0 {
        push_untested(out, steps, tests, reads);
    }
}

/// Appends the double collects of a scan, whose tests these are.
#[tactic(auto, unfolding(crate::specs::ScanText::collects_by))]
fn push_collects_by(
    alloc: Global,
    out: &mut Draft,
    told: Told<'_>,
    scan: ScanPlaces,
    tests: &[usize],
)
    ensures { Adds out.old out.new (collects_by told.entry.steps.now told.entry.notes.now
        scan.process scan.from scan.to tests.now) }
{
    push_tested(alloc, out, told, scan, tests);
    let start = start_of(scan.from, tests, tests.len());
    match places_between(
        alloc,
        Sought::Read,
        told.steps,
        scan.process,
        start,
        scan.to,
    ) {
        Ok(reads) => push_open(out, told.steps, tests.len(), reads.as_slice()),
        Err(error) => out.fail(error),
    }
}

/// Appends the double collects of a scan.
#[tactic(auto, unfolding(crate::specs::ScanText::collects_json))]
fn push_collects(alloc: Global, out: &mut Draft, told: Told<'_>, scan: ScanPlaces)
    ensures { Adds out.old out.new (collects_json told.entry.steps.now told.entry.notes.now
        scan.process scan.from scan.to) }
{
    push_field(out, b"collects");
    out.push(b"[");
    match places_between(
        alloc,
        Sought::Test,
        told.steps,
        scan.process,
        scan.from,
        scan.to,
    ) {
        Ok(tests) => push_collects_by(alloc, out, told, scan, tests.as_slice()),
        Err(error) => out.fail(error),
    }
    out.push(b"]");
}

/// Appends spans, separated.
fn push_spans_to(out: &mut Draft, spans: &[Span])
    ensures { Adds out.old out.new (spans_json_to spans.now (length spans.now)) }
{
    for k in 0..spans.len() {
        push_separator(out, k);
        push_span(out, spans[k]);
    }
}

/// Appends a list of spans.
#[tactic(auto, unfolding(crate::specs::ScanText::spans_json))]
fn push_spans(out: &mut Draft, spans: &[Span])
    ensures { Adds out.old out.new (spans_json spans.now) }
{
    out.push(b"[");
    push_spans_to(out, spans);
    out.push(b"]");
}

/// Appends the spans in which memory was a view.
#[tactic(auto, unfolding(crate::specs::ScanText::held_json))]
fn push_held(alloc: Global, out: &mut Draft, told: Told<'_>, sought: Sighting<'_>)
    ensures { Adds out.old out.new (held_json sought.entry.is_within sought.entry.span
        sought.entry.view.now sought.entry.values.now told.entry.steps.now told.entry.bands.now) }
{
    match spans_of(alloc, sought, told.steps, told.bands) {
        Ok(spans) => push_spans(out, spans.as_slice()),
        Err(error) => out.fail(error),
    }
}

/// Appends where memory was the view of a scan, if it has one.
fn push_fits(alloc: Global, out: &mut Draft, told: Told<'_>, span: Span, view: Option<&[u64]>)
    ensures { Adds out.old out.new (fits_json span (option_map (λ v. v.now) view.entry)
        told.entry.values.now told.entry.steps.now told.entry.bands.now) }
{
    let Some(view) = view else {
        out.push(b",\"fits\":[],\"outside\":[]");
        return;
    };
    let within = Sighting {
        is_within: true,
        span,
        view,
        values: told.values,
    };
    push_field(out, b"fits");
    push_held(alloc, out, told, within);
    push_field(out, b"outside");
    push_held(
        alloc,
        out,
        told,
        Sighting {
            is_within: false,
            span,
            view,
            values: told.values,
        },
    );
}

/// Appends a view, if there is one.
fn push_view(out: &mut Draft, view: Option<&[u64]>)
    ensures { Adds out.old out.new (view_json (option_map (λ v. v.now) view.entry)) }
{
    match view {
        Some(view) => push_list(out, view),
        None => out.push(b"null"),
    }
}

/// Returns the place at which a scan began.
fn began(scan: Option<ScanPlaces>) -> Option<usize>
    ensures { result ≡ began scan }
{
    Some(scan?.from)
}

/// Returns the call of the operation that wrote at a place.
fn writing_call(steps: &[TraceStep], place: Option<usize>) -> Option<usize>
    ensures { result ≡ writing_call steps.now place }
{
    let k = place?;
    call_before(steps, process_at(steps, k), k)
}

/// Appends who wrote a view that was taken.
#[tactic(auto, unfolding(crate::specs::ScanText::lent_json))]
fn push_lent(out: &mut Draft, steps: &[TraceStep], view: Borrowed)
    ensures { Adds out.old out.new (lent_json steps.now view) }
{
    push_place_field(out, b"wrote", steps, view.written);
    push_field(out, b"process");
    push_process(out, steps, view.written);
    push_place_field(out, b"update", steps, writing_call(steps, view.written));
    push_place_field(out, b"scan", steps, began(view.lender));
}

/// Appends the view that a scan took, if it took one.
#[tactic(auto, unfolding(crate::specs::ScanText::noted_json))]
fn push_borrowed(out: &mut Draft, steps: &[TraceStep], view: Option<Borrowed>)
    ensures { Adds out.old out.new (borrowed_json steps.now view) }
{
    let Some(view) = view else {
        out.push(b"null");
        return;
    };
    out.push(b"{\"item\":");
    out.push_number(item_at(steps, view.taken));
    push_lent(out, steps, view);
    out.push(b"}");
}

/// Appends the gap of a scan.
#[tactic(auto, unfolding(crate::specs::ScanText::sure_in))]
fn push_sure_in(out: &mut Draft, steps: &[TraceStep], scan: ScanPlaces, span: Span)
    ensures { Adds out.old out.new (sure_in steps.now scan span) }
{
    out.push(b"{\"scan\":");
    out.push_number(item_at(steps, scan.from));
    push_number_field(out, b"from", span.from);
    push_number_field(out, b"to", span.to);
    out.push(b"}");
}

/// Appends the gap of a scan, if it has one.
fn push_sure_by(out: &mut Draft, steps: &[TraceStep], scan: ScanPlaces, span: Option<Span>)
    ensures { Adds out.old out.new (sure_by steps.now scan span) }
{
    match span {
        Some(span) => push_sure_in(out, steps, scan, span),
        None => out.push(b"null"),
    }
}

/// Appends the gap in which a view was read, by the scan that read it.
fn push_sure(alloc: Global, out: &mut Draft, steps: &[TraceStep], scan: Option<ScanPlaces>)
    ensures { Adds out.old out.new (sure_json steps.now scan) }
{
    let Some(scan) = scan else {
        out.push(b"null");
        return;
    };
    match last_gap(alloc, steps, scan) {
        Ok(span) => push_sure_by(out, steps, scan, span),
        Err(error) => out.fail(error),
    }
}

/// Appends where the view of a scan comes from.
#[tactic(auto, unfolding(crate::specs::ScanText::source_fields))]
fn push_source_fields(alloc: Global, out: &mut Draft, steps: &[TraceStep], scan: ScanPlaces)
    requires { scan.to ≤ length steps.now }
    ensures { Adds out.old out.new (source_fields steps.now scan) }
{
    push_field(out, b"borrowed");
    push_borrowed(out, steps, view_taken(steps, scan));
    push_field(out, b"sure");
    push_sure(alloc, out, steps, source_of(steps, scan));
}

/// Appends where the view of a scan comes from, if it has one.
fn push_source(
    alloc: Global,
    out: &mut Draft,
    steps: &[TraceStep],
    scan: ScanPlaces,
    view: Option<&[u64]>,
)
    requires { scan.to ≤ length steps.now }
    ensures { Adds out.old out.new
        (source_json steps.now scan (option_map (λ v. v.now) view.entry)) }
{
    match view {
        Some(_) => push_source_fields(alloc, out, steps, scan),
        None => out.push(b",\"borrowed\":null,\"sure\":null"),
    }
}

/// Appends by whom a scan was made, and from where to where.
#[tactic(auto, unfolding(crate::specs::ScanText::scan_head))]
fn push_scan_head(out: &mut Draft, steps: &[TraceStep], scan: Scan)
    ensures { Adds out.old out.new (scan_head steps.now scan) }
{
    out.push(b"{\"process\":");
    out.push_number(u64::from(scan.process));
    push_place_field(out, b"call", steps, Some(scan.from));
    push_place_field(out, b"end", steps, scan.to);
    push_place_field(out, b"update", steps, scan.around);
}

/// Returns the item of the step at a place, and this one if there is none.
fn item_or(last: u64, steps: &[TraceStep], place: Option<usize>) -> u64
    ensures { result ≡ item_or last steps.now place }
{
    match place {
        Some(k) => item_at(steps, k),
        None => last,
    }
}

/// Returns from which item to which one a scan goes.
fn scan_span(steps: &[TraceStep], scan: Scan) -> Span
    ensures { result ≡ scan_span steps.now scan }
{
    Span {
        from: item_at(steps, scan.from),
        to: item_or(steps.len() as u64, steps, scan.to),
    }
}

/// Returns the places of a scan, up to the end of the run if it goes on.
fn places_of(steps: &[TraceStep], scan: Scan) -> ScanPlaces
    ensures places { result ≡ places_of (length steps.now) scan }
    ensures within { result.to ≤ length steps.now }
{
    ScanPlaces {
        process: scan.process,
        from: scan.from,
        to: end_or(steps.len(), scan.to),
    }
}

/// Appends what a scan answered, and its double collects.
#[tactic(auto, unfolding(crate::specs::ScanText::answer_json))]
fn push_answer(
    alloc: Global,
    out: &mut Draft,
    told: Told<'_>,
    scan: ScanPlaces,
    view: Option<&[u64]>,
)
    ensures { Adds out.old out.new (answer_json told.entry.steps.now told.entry.notes.now scan
        (option_map (λ v. v.now) view.entry)) }
{
    push_field(out, b"answer");
    push_view(out, view);
    push_collects(alloc, out, told, scan);
}

/// Appends a scan.
#[tactic(auto, unfolding(crate::specs::ScanText::scan_json))]
fn push_scan(alloc: Global, out: &mut Draft, told: Told<'_>, scan: Scan)
    ensures { Adds out.old out.new (scan_json told.entry.steps.now told.entry.notes.now
        told.entry.values.now told.entry.bands.now scan) }
{
    let view = view_at(told.steps, told.notes, scan.to);
    let places = places_of(told.steps, scan);
    push_scan_head(out, told.steps, scan);
    push_answer(alloc, out, told, places, view);
    push_fits(alloc, out, told, scan_span(told.steps, scan), view);
    push_source(alloc, out, told.steps, places, view);
    out.push(b"}");
}

/// Appends these scans, separated.
pub(crate) fn push_scans(alloc: Global, out: &mut Draft, told: Told<'_>, scans: &[Scan])
    ensures { Adds out.old out.new (scans_json_to told.entry.steps.now told.entry.notes.now
        told.entry.values.now told.entry.bands.now scans.now (length scans.now)) }
{
    for k in 0..scans.len() {
        push_separator(out, k);
        push_scan(alloc, out, told, scans[k]);
    }
}
