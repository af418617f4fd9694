//! What a picture draws of the single steps of a run: operations, scans of updates, values, reads,
//! writes, borrowed views and more.
ghost use Rattle.std.specs.Prelude.{◌≡◌, ◌≤◌, ◌<◌, ◌+◌, ◌++◌, ◌∷◌, []};
ghost use Rattle.std.specs.Prelude.{IfOk, IfSome, OnOk, drop, length, option_map};
ghost use Rattle.snap_acts.specs.Searches.{last_before};
ghost use Rattle.snap_acts.specs.declared.searches.StepPattern.TheVariants as wanted;
ghost use Rattle.snap_picture.specs.LastPlaces.{AreLast};
ghost use Rattle.snap_picture.specs.declared.shape.Shape.TheVariants as shape;
ghost use Rattle.snap_picture.specs.Shapes.{
  bar_of,
  embedded_of,
  end_by,
  end_of,
  item_or,
  loan_from,
  loan_of,
  spot_of,
  shapes_at,
  shapes_of,
  shapes_to,
  period_of,
  written_at,
};

use crate::last_writes::LastWrites;
use crate::shape::{Bar, End, Loan, Period, Read, Shape, Span, Spot, Write, Written};
use snap_acts::{Act, ScanPlaces, StepPattern, TraceStep, first_step_from, lender_at, source_at};
use snap_semantics::Op;
use snap_words::View;
use std::alloc::{AllocError, Global};

fn spot_of(step: &TraceStep) -> Spot
    ensures { result ≡ spot_of step.now }
{
    Spot {
        process: step.process,
        item: step.item,
        line: step.line,
    }
}

/// Returns the item of a step, and the last item if there is none.
fn item_or(last: u64, step: Option<&TraceStep>) -> u64
    ensures { result ≡ item_or last (option_map (λ s. s.now) step.entry) }
{
    match step {
        Some(step) => step.item,
        None => last,
    }
}

/// Returns how an operation ended.
fn end_by(alloc: Global, act: &Act) -> Result<End, AllocError>
    ensures { IfOk result (λ e. e ≡ end_by act.now) }
{
    match act {
        Act::Answer(view, _) => Ok(End::Answer(view.copy(alloc)?)),
        Act::Done => Ok(End::Done),
        Act::Crash => Ok(End::Crash),
        Act::Trap => Ok(End::Trap),
        _ => Ok(End::Open),
    }
}

fn end_of(alloc: Global, step: Option<&TraceStep>) -> Result<End, AllocError>
    ensures { IfOk result (λ e. e ≡ end_of (option_map (λ s. s.now) step.entry)) }
{
    match step {
        Some(step) => end_by(alloc, &step.act),
        None => Ok(End::Open),
    }
}

/// Returns the operation that the step before a place called.
fn bar_of(
    alloc: Global,
    steps: &[TraceStep],
    from: usize,
    step: &TraceStep,
    op: Op,
) -> Result<Bar, AllocError>
    ensures { IfOk result (λ b. b ≡ bar_of (length steps.now) step.now op (drop from steps.now)) }
{
    let found = first_step_from(steps, from, StepPattern::End(step.process));
    let end = end_of(alloc, found)?;
    Ok(Bar {
        process: step.process,
        op,
        from: step.item,
        to: item_or(steps.len() as u64, found),
        end,
    })
}

/// Returns the scan of an update that the step before a place began.
fn embedded_of(steps: &[TraceStep], from: usize, step: &TraceStep) -> Span
    ensures { result ≡ embedded_of (length steps.now) step.now (drop from steps.now) }
{
    let found = first_step_from(steps, from, StepPattern::Closing(step.process));
    Span {
        process: step.process,
        from: step.item,
        to: item_or(steps.len() as u64, found),
    }
}

/// Returns the values from an item on, up to the next write from a place on.
pub(crate) fn period_of(steps: &[TraceStep], from: usize, item: u64, values: View) -> Shape
    ensures { result ≡ period_of (length steps.now) item values (drop from steps.now) }
{
    let found = first_step_from(steps, from, StepPattern::Write);
    Shape::Values(Period {
        from: item,
        to: item_or(steps.len() as u64, found),
        values,
    })
}

/// Returns who wrote at a place, if there is one.
fn written_at(steps: &[TraceStep], place: Option<usize>) -> Option<Written>
    requires { IfSome place (λ k. k < length steps.now) }
    ensures { result ≡ written_at steps.now place }
{
    let step = &steps[place?];
    Some(Written {
        process: step.process,
        item: step.item,
    })
}

/// Appends an arrow from the lender's scan to the step that takes its view.
fn push_loan(
    shapes: &mut Vec<Shape>,
    steps: &[TraceStep],
    step: &TraceStep,
    lender: Option<ScanPlaces>,
) -> Result<(), AllocError>
    requires { IfSome lender (λ s. s.to < length steps.now) }
    ensures { OnOk result (shapes.new.items ≡ shapes.old.items
        ++ loan_from steps.now step.now lender) }
{
    let Some(scan) = lender else {
        return Ok(());
    };
    shapes.push(Shape::Loan(Loan {
        lender: scan.process,
        ended: steps[scan.to].item,
        taken: spot_of(step),
    }))?;
    Ok(())
}

/// Appends an arrow to the step at a place, if it takes the view of a scan.
fn push_loan_of(
    shapes: &mut Vec<Shape>,
    steps: &[TraceStep],
    k: usize,
    step: &TraceStep,
) -> Result<(), AllocError>
    requires { k < length steps.now }
    ensures { OnOk result (shapes.new.items ≡ shapes.old.items ++ loan_of steps.now k step.now) }
{
    let lender = lender_at(steps, source_at(steps, Some(k)));
    push_loan(shapes, steps, step, lender)
}

/// Appends a write, behind the values that it leaves up to the next write from a place on.
fn push_write(
    alloc: Global,
    shapes: &mut Vec<Shape>,
    steps: &[TraceStep],
    from: usize,
    write: Write,
) -> Result<(), AllocError>
    ensures { OnOk result (shapes.new.items ≡ shapes.old.items
        ++ period_of (length steps.now) write.spot.item write.values (drop from steps.now)
        ∷ shape.Write write ∷ []) }
{
    let values = write.values.copy(alloc)?;
    shapes.push(period_of(steps, from, write.spot.item, values))?;
    shapes.push(Shape::Write(write))?;
    Ok(())
}

/// Returns the read of a word by the step at a place, before which `writes` are the last writes.
fn read_of(steps: &[TraceStep], writes: &LastWrites, k: usize, step: &TraceStep, word: u64) -> Shape
    requires few { k ≤ length steps.now }
    requires noted { AreLast steps.now k writes.now.places }
    ensures { result ≡ shape.Read (record {
      spot = spot_of step.now;
      word = word;
      written = written_at steps.now (last_before (wanted.WriteOf word) steps.now k);
    }) }
{
    let place = writes.of(steps, k, word);
    Shape::Read(Read {
        spot: spot_of(step),
        word,
        written: written_at(steps, place),
    })
}

/// Appends a shape.
fn push(shapes: &mut Vec<Shape>, shape: Shape) -> Result<(), AllocError>
    ensures { OnOk result (shapes.new.items ≡ shapes.old.items ++ shape ∷ []) }
{
    shapes.push(shape)?;
    Ok(())
}

/// Appends the operation that the step before a place called.
fn push_bar(
    alloc: Global,
    shapes: &mut Vec<Shape>,
    steps: &[TraceStep],
    from: usize,
    step: &TraceStep,
    op: Op,
) -> Result<(), AllocError>
    ensures { OnOk result (shapes.new.items ≡ shapes.old.items
        ++ shape.Operation (bar_of (length steps.now) step.now op (drop from steps.now)) ∷ []) }
{
    let bar = bar_of(alloc, steps, from, step, op)?;
    push(shapes, Shape::Operation(bar))
}

/// Appends what is drawn of a step, which is at this place.
fn push_shapes_of(
    alloc: Global,
    shapes: &mut Vec<Shape>,
    steps: &[TraceStep],
    writes: &LastWrites,
    k: usize,
    step: &TraceStep,
) -> Result<(), AllocError>
    requires few { k < length steps.now }
    requires noted { AreLast steps.now k writes.now.places }
    ensures { OnOk result (shapes.new.items ≡ shapes.old.items
        ++ shapes_of steps.now k step.now step.now.act) }
{
    match &step.act {
        Act::Call(op) => push_bar(alloc, shapes, steps, k + 1, step, *op),
        Act::Enter => push(shapes, Shape::Embedded(embedded_of(steps, k + 1, step))),
        Act::Write(word, values, _) => {
            let write = Write {
                spot: spot_of(step),
                word: *word,
                values: values.copy(alloc)?,
            };
            push_write(alloc, shapes, steps, k + 1, write)
        }
        Act::Read(word, _) => push(shapes, read_of(steps, writes, k, step, *word)),
        Act::Test(passed) => push(shapes, Shape::Test(spot_of(step), *passed)),
        Act::Trap => push(shapes, Shape::Trap(spot_of(step))),
        Act::Crash => push(shapes, Shape::Crash(spot_of(step))),
        Act::Borrow(_, _) => push_loan_of(shapes, steps, k, step),
        Act::Look(_, _) => push_loan_of(shapes, steps, k, step),
        _ => Ok(()),
    }
}

/// Appends what is drawn of the step at a place.
#[tactic(auto, unfolding(crate::specs::Shapes::shapes_at))]
fn push_shapes_at(
    alloc: Global,
    shapes: &mut Vec<Shape>,
    steps: &[TraceStep],
    writes: &LastWrites,
    k: usize,
) -> Result<(), AllocError>
    requires few { k < length steps.now }
    requires noted { AreLast steps.now k writes.now.places }
    ensures { OnOk result (shapes.new.items ≡ shapes.old.items ++ shapes_at steps.now k) }
{
    push_shapes_of(alloc, shapes, steps, writes, k, &steps[k])
}

/// Appends what is drawn of all steps.
pub(crate) fn push_steps(
    alloc: Global,
    shapes: &mut Vec<Shape>,
    steps: &[TraceStep],
) -> Result<(), AllocError>
    ensures { OnOk result (shapes.new.items ≡ shapes.old.items
        ++ shapes_to steps.now (length steps.now)) }
{
    let mut writes = LastWrites::new();
    for k in 0..steps.len() {
        push_shapes_at(alloc, shapes, steps, &writes, k)?;
        writes.note(k, &steps[k]);
    }
    Ok(())
}
