//! `anatomy`: the anatomy of a run, as JSON.
ghost use Rattle.std.specs.Prelude.{◌≡◌, IfOk, length, replicate};
ghost use Rattle.snap_text.specs.Drafted.{Adds};
ghost use Rattle.snap_runs.specs.Run.{run_over};
ghost use Rattle.snap_anatomy.specs.AnatomyText.{anatomy_by, anatomy_text, band_json, head_json};
ghost use Rattle.snap_anatomy.specs.AnatomyText.{bands_json_to, kind_name, memory_json};
ghost use Rattle.snap_anatomy.specs.AnatomyText.{scans_json, steps_json};
ghost use Rattle.snap_anatomy.specs.Memory.{bands_of};

use crate::json::{push_list_field, push_number_field, push_separator};
use crate::memory::{Band, bands_of, values_from};
use crate::note::Note;
use crate::notes::notes;
use crate::scan_text::{Told, push_scans};
use crate::scans::scans_of;
use crate::step_text::push_steps;
use snap_acts::{TraceStep, trace};
use snap_asm_program::Program;
use snap_machine::Shape;
use snap_sched::Schedule;
use snap_text::Draft;
use snap_words::{Kind, KindTag, View};
use std::alloc::{AllocError, Global};

/// Returns a kind as a listing names it.
fn kind_name(kind: KindTag) -> &'static [u8]
    ensures { result.now ≡ kind_name kind }
{
    match kind {
        KindTag::Seq => b"seq",
        KindTag::Bits => b"bit",
        KindTag::Multi => b"multi",
    }
}

/// Appends of how many processes, words and items a run is.
#[tactic(auto, unfolding(crate::specs::AnatomyText::head_json))]
fn push_head(out: &mut Draft, kind: KindTag, shape: Shape, items: u64)
    ensures { Adds out.old out.new (head_json kind shape items) }
{
    out.push(b"{\"kind\":\"");
    out.push(kind_name(kind));
    out.push(b"\"");
    push_number_field(out, b"processes", shape.n());
    push_number_field(out, b"words", shape.w());
    push_number_field(out, b"items", items);
}

/// Appends the values of memory from one write to the next.
#[tactic(auto, unfolding(crate::specs::AnatomyText::band_json))]
fn push_band(out: &mut Draft, values: &[u64], steps: &[TraceStep], band: Band)
    ensures { Adds out.old out.new (band_json values.now steps.now band) }
{
    out.push(b"{\"from\":");
    out.push_number(band.span.from);
    push_number_field(out, b"to", band.span.to);
    push_list_field(out, b"values", values_from(values, steps, band.write));
    out.push(b"}");
}

/// Appends the values of memory from write to write, separated.
fn push_bands(out: &mut Draft, values: &[u64], steps: &[TraceStep], bands: &[Band])
    ensures { Adds out.old out.new
        (bands_json_to values.now steps.now bands.now (length bands.now)) }
{
    for k in 0..bands.len() {
        push_separator(out, k);
        push_band(out, values, steps, bands[k]);
    }
}

/// Appends what the values of memory were.
#[tactic(auto, unfolding(crate::specs::AnatomyText::memory_json))]
fn push_memory(out: &mut Draft, values: &[u64], steps: &[TraceStep], bands: &[Band])
    ensures { Adds out.old out.new (memory_json values.now steps.now bands.now) }
{
    out.push(b",\"memory\":[");
    push_bands(out, values, steps, bands);
    out.push(b"]");
}

/// Appends what each item did.
#[tactic(auto, unfolding(crate::specs::AnatomyText::steps_json))]
fn push_all_steps(out: &mut Draft, kind: KindTag, steps: &[TraceStep], notes: &[Note])
    ensures { Adds out.old out.new (steps_json kind steps.now notes.now) }
{
    out.push(b",\"steps\":[");
    push_steps(out, kind, steps, notes);
    out.push(b"]");
}

/// Appends the scans.
#[tactic(auto, unfolding(crate::specs::AnatomyText::scans_json))]
fn push_all_scans(alloc: Global, out: &mut Draft, told: Told<'_>)
    ensures { Adds out.old out.new (scans_json told.entry.steps.now told.entry.notes.now
        told.entry.values.now told.entry.bands.now) }
{
    out.push(b",\"scans\":[");
    match scans_of(alloc, told.steps) {
        Ok(scans) => push_scans(alloc, out, told, scans.as_slice()),
        Err(error) => out.fail(error),
    }
    out.push(b"]}");
}

/// Returns the anatomy of a run with this trace, whose items did this besides.
#[tactic(auto, unfolding(crate::specs::AnatomyText::anatomy_by))]
fn anatomy_by(
    alloc: Global,
    kind: KindTag,
    shape: Shape,
    steps: &[TraceStep],
    notes: &[Note],
) -> Result<Vec<u8>, AllocError>
    ensures { IfOk result (λ text. text.items ≡ anatomy_by kind shape steps.now notes.now) }
{
    let values = View::zeros(alloc, shape.w())?;
    let bands = bands_of(alloc, steps)?;
    let told = Told {
        steps,
        notes,
        values: values.as_slice(),
        bands: bands.as_slice(),
    };
    let mut out = Draft::new(alloc);
    push_head(&mut out, kind, shape, steps.len() as u64);
    push_memory(&mut out, told.values, steps, told.bands);
    push_all_steps(&mut out, kind, steps, notes);
    push_all_scans(alloc, &mut out, told);
    out.finish()
}

/// Returns the anatomy of a program's run over a schedule, as one JSON object: the values of memory
/// from write to write, what each item did, and the scans.
///
/// # Errors
///
/// `AllocError` where memory runs out.
#[tactic(auto, unfolding(crate::specs::AnatomyText::anatomy_text))]
pub fn anatomy<K: Kind>(
    alloc: Global,
    program: &Program,
    schedule: &Schedule,
) -> Result<Vec<u8>, AllocError>
    requires { program.now.kind ≡ K.TAG }
    ensures { IfOk result (λ text. text.items
        ≡ anatomy_text (run_over program.now schedule.now)) }
{
    let steps = trace::<K>(alloc, program, schedule)?;
    let notes = notes::<K>(alloc, program, schedule, steps.as_slice())?;
    anatomy_by(
        alloc,
        program.kind(),
        schedule.shape(),
        steps.as_slice(),
        notes.as_slice(),
    )
}
