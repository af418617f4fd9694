//! Schedules read from texts.
ghost use Rattle.std.specs.Prelude.{◌≡◌, ◌≤◌, ◌<◌, ◌+◌, ◌^◌, ◌++◌};
ghost use Rattle.std.specs.Prelude.{length, option_map, Some, Err, IfOk, OnOk};
ghost use Rattle.std.specs.List.{AllByRecursion};
ghost use Rattle.snap_words.specs.Shape.{IsOneOf, max_count, max_items};
ghost use Rattle.snap_semantics.specs.Answers.{Answers, Gives};
ghost use Rattle.snap_semantics.specs.Schedule.{admitted, items_of, max_schedule, schedule_of};
ghost use Rattle.snap_semantics.specs.Schedule.{form_process, form_count, form_items};
ghost use Rattle.snap_semantics.specs.ScheduleText.{FitsItem};
ghost use Rattle.snap_semantics.specs.Table.{who};
ghost use Rattle.snap_semantics.specs.declared.fault.Fault.TheVariants.{Refused};
ghost use Rattle.snap_semantics.specs.declared.refusal.ScheduleRefusal.{ScheduleRefusal};
ghost use Rattle.snap_semantics.specs.declared.refusal.ScheduleRefusal.TheVariants.{TooLong};
ghost use Rattle.snap_semantics.specs.ScheduleForms.{item_form, spelled_call};
ghost use Rattle.snap_text.specs.Lines.{view_line};
ghost use Rattle.snap_text.specs.Numbers.{number_tokens, view_numbers};
ghost use Rattle.snap_text.specs.Tokens.{Finds};
ghost use Rattle.snap_sched.specs.ReaderSteps.{view_form, line_form, next_form, first_shape};
ghost use Rattle.snap_sched.specs.ReaderSteps.{items_with};

use crate::fault::ScheduleFault;
use crate::forms::{ItemForm, item_form, shape_form};
use crate::items::Items;
use crate::schedule::{MAX_BYTES, Schedule};
use snap_semantics::ScheduleRefusal;
use snap_text::{CallLine, NumberLine, TextLines, TokenLine};
use snap_words::{MAX_ITEMS, Shape};
use std::alloc::{AllocError, Global};

/// Returns `form` if its process is one of `n` and it has no more than `left` items.
fn admitted(n: u64, left: u64, line: u64, form: ItemForm) -> Result<ItemForm, ScheduleRefusal>
    ensures { Gives view_form result (admitted n left line (view_form form)) }
{
    let (process, count) = match form {
        ItemForm::Steps { process, count } => (process, count),
        ItemForm::Call { process, .. } => (process, 1),
        ItemForm::Crash { process } => (process, 1),
    };
    if process == 0 || n < process {
        return Err(ScheduleRefusal::NoSuchProcess(line));
    }
    if left < count {
        return Err(ScheduleRefusal::TooManyItems(line));
    }
    Ok(form)
}

/// Returns the form of a line, whose process is one of `n`, and which has no more than `left`
/// items.
fn line_form(n: u64, left: u64, line: &TokenLine<'_>) -> Result<ItemForm, ScheduleRefusal>
    ensures { Gives view_form result (line_form n left (view_line line.now)) }
{
    let found = match &line.tokens {
        Some(tokens) => item_form(tokens.as_slice()),
        None => None,
    };
    match found {
        Some(form) => admitted(n, left, line.number, form),
        None => Err(ScheduleRefusal::BadItem(line.number)),
    }
}

/// Appends the items of a form.
#[inline(always)]
fn push_form(items: &mut Items, form: ItemForm) -> Result<(), AllocError>
    requires process { form_process (view_form form) < 2 ^ 32 }
    requires few { length items.old + form_count (view_form form) < 2 ^ 32 }
    ensures added { OnOk result (items.new ≡ items.old ++ form_items (view_form form)) }
    ensures fits { AllByRecursion FitsItem items.new }
{
    match form {
        ItemForm::Steps { process, count } => items.push_steps(process as u32, count),
        ItemForm::Call { process, op } => items.push_call(process as u32, op),
        ItemForm::Crash { process } => items.push_crash(process as u32),
    }
}

/// Reads the shape on the first line.
pub(crate) fn first_shape(alloc: Global, lines: &mut TextLines<'_>) -> Result<Shape, ScheduleFault>
    ensures { Answers (λ s. (s, lines.new)) result (first_shape lines.old) }
{
    let Some(line) = lines.next_line(alloc)? else {
        return Err(ScheduleFault::Refused(ScheduleRefusal::BadShape));
    };
    let found = match &line.tokens {
        Some(tokens) => shape_form(tokens.as_slice()),
        None => None,
    };
    match found {
        Some(shape) => Ok(shape),
        None => Err(ScheduleFault::Refused(ScheduleRefusal::BadShape)),
    }
}

/// Returns the form of a line of one or two numbers.
#[tactic(auto, unfolding(snap_semantics::specs::ScheduleForms::item_form, snap_semantics::specs::ScheduleForms::step_form, snap_semantics::specs::ScheduleForms::steps_form))]
fn numbers_form(line: &NumberLine) -> Option<ItemForm>
    ensures { Finds view_form result (item_form (number_tokens line.now.first line.now.second)) }
{
    match line.second {
        Some(0) => None,
        Some(count) => Some(ItemForm::Steps {
            process: line.first,
            count,
        }),
        None => Some(ItemForm::Steps {
            process: line.first,
            count: 1,
        }),
    }
}

/// Returns the form of a line of one or two numbers, whose process is one of `n`, and which has no
/// more than `left` items.
#[inline(always)]
fn numbers_line_form(n: u64, left: u64, line: &NumberLine) -> Result<ItemForm, ScheduleRefusal>
    ensures { Gives view_form result (line_form n left (view_numbers line.now)) }
{
    match numbers_form(line) {
        Some(form) => admitted(n, left, line.number, form),
        None => Err(ScheduleRefusal::BadItem(line.number)),
    }
}

/// Returns the form of a call.
fn call_form(line: &CallLine) -> ItemForm
    ensures { item_form (spelled_call line.now.process line.now.op) ≡ Some (view_form result) }
{
    ItemForm::Call {
        process: line.process,
        op: line.op,
    }
}

/// Reads the form of the next line, which has no more than `left` items, by its tokens.
#[inline(always)]
fn next_line_form(
    alloc: Global,
    n: u64,
    left: u64,
    lines: &mut TextLines<'_>,
) -> Result<Option<ItemForm>, ScheduleFault>
    ensures { Answers (option_map (λ f. (view_form f, lines.new))) result
        (next_form n left lines.old) }
{
    match lines.next_line(alloc)? {
        Some(line) => Ok(Some(line_form(n, left, &line)?)),
        None => Ok(None),
    }
}

/// Reads the form of the next line, which has no more than `left` items. No memory is allocated for
/// a line that is `I`, `I*K` or a call, with no more space than it needs and no comment.
fn next_form(
    alloc: Global,
    n: u64,
    left: u64,
    lines: &mut TextLines<'_>,
) -> Result<Option<ItemForm>, ScheduleFault>
    ensures { Answers (option_map (λ f. (view_form f, lines.new))) result
        (next_form n left lines.old) }
{
    if let Some(line) = lines.next_numbers() {
        return Ok(Some(numbers_line_form(n, left, &line)?));
    }
    if let Some(line) = lines.next_call() {
        return Ok(Some(admitted(n, left, line.number, call_form(&line))?));
    }
    next_line_form(alloc, n, left, lines)
}

/// Appends the items of the next lines, as long as each is `I` or `I*K` with no space or comment,
/// as most lines are.
#[inline(always)]
fn push_step_lines(
    n: u64,
    lines: &mut TextLines<'_>,
    items: &mut Items,
) -> Result<(), ScheduleFault>
    requires n { n ≤ max_count }
    requires few { length items.old ≤ max_items }
    requires processes { AllByRecursion (λ x. IsOneOf n (who x)) items.old }
    requires fits { AllByRecursion FitsItem items.old }
    ensures same { OnOk result (items_with n items.new lines.new
        ≡ items_with n items.old lines.old) }
    ensures few { OnOk result (length items.new ≤ max_items) }
    ensures processes { OnOk result (AllByRecursion (λ x. IsOneOf n (who x)) items.new) }
    ensures fits { OnOk result (AllByRecursion FitsItem items.new) }
    ensures left { OnOk result (length lines.new ≤ length lines.old) }
    ensures refused { (e : ScheduleRefusal) → result ≡ Err (Refused e) →
        items_with n items.old lines.old ≡ Err e }
{
    while let Some(line) = lines.next_numbers() {
        let form = numbers_line_form(n, MAX_ITEMS - items.len(), &line)?;
        push_form(items, form)?;
    }
    Ok(())
}

/// Reads the items of the lines.
fn items_of(alloc: Global, n: u64, lines: &mut TextLines<'_>) -> Result<Items, ScheduleFault>
    requires { n ≤ max_count }
    ensures items { Answers (λ items. items) result (items_of n max_items lines.old) }
    ensures processes { IfOk result (λ items. AllByRecursion (λ x. IsOneOf n (who x)) items) }
    ensures few { IfOk result (λ items. length items ≤ max_items) }
    ensures fits { IfOk result (λ items. AllByRecursion FitsItem items) }
{
    let mut items = Items::new(alloc);
    while let Some(form) = next_form(alloc, n, MAX_ITEMS - items.len(), lines)? {
        push_form(&mut items, form)?;
        push_step_lines(n, lines, &mut items)?;
    }
    Ok(items)
}

/// Reads the schedule that `text` spells.
///
/// # Errors
///
/// `Refused` with the first reason why `text` is no schedule; `Memory` where memory runs out.
pub fn read(alloc: Global, text: &[u8]) -> Result<Schedule, ScheduleFault>
    ensures schedule { Answers (λ s. s) result (schedule_of text.now) }
    ensures too_long { max_schedule < length text.now → result ≡ Err (Refused TooLong) }
{
    if text.len() > MAX_BYTES {
        return Err(ScheduleFault::Refused(ScheduleRefusal::TooLong));
    }
    let mut lines = TextLines::new(text);
    let shape = first_shape(alloc, &mut lines)?;
    let items = items_of(alloc, shape.n(), &mut lines)?;
    Ok(Schedule::new(shape, items))
}
