//! `read_scripts`: the scripts of a live run, one for each process, read from a text.
ghost use Rattle.std.specs.Prelude.{◌≡◌, ◌≤◌, ◌<◌, [], length, Err, IfOk};
ghost use Rattle.snap_semantics.specs.Schedule.{max_schedule};
ghost use Rattle.snap_words.specs.Shape.{max_count};
ghost use Rattle.snap_semantics.specs.Answers.{Answers, Gives};
ghost use Rattle.snap_semantics.specs.declared.fault.Fault.TheVariants.{Refused};
ghost use Rattle.snap_semantics.specs.declared.refusal.ScheduleRefusal.TheVariants.{TooLong};
ghost use Rattle.snap_text.specs.Lines.{view_line};
ghost use Rattle.snap_sched.specs.ScriptText.{admitted_script, crashes_again, script_line};
ghost use Rattle.snap_sched.specs.ScriptText.{script_lines, script_of, scripts_from, scripts_of};

use crate::fault::ScheduleFault;
use crate::reader::first_shape;
use crate::schedule::MAX_BYTES;
use crate::script_forms::{ScriptForm, crash_of, ops_of, script_form};
use crate::scripts::{Script, Scripts};
use snap_semantics::ScheduleRefusal;
use snap_text::{TextLines, TokenLine};
use std::alloc::{AllocError, Global};

/// Returns whether `form` is a second crash of its process.
fn crashes_again(before: &[ScriptForm], form: ScriptForm) -> bool
    ensures { result ≡ crashes_again before.now form }
{
    match form {
        ScriptForm::Call { .. } => false,
        ScriptForm::Crash { process, .. } => match crash_of(before, process) {
            Some(_) => true,
            None => false,
        },
    }
}

/// Returns `form` if its process is one of `n`, and it is no second crash.
fn admitted(
    n: u64,
    before: &[ScriptForm],
    line: u64,
    form: ScriptForm,
) -> Result<ScriptForm, ScheduleRefusal>
    ensures { Gives (λ x. x) result (admitted_script n before.now line form) }
{
    if crashes_again(before, form) {
        return Err(ScheduleRefusal::BadItem(line));
    }
    let process = match form {
        ScriptForm::Call { process, .. } => process,
        ScriptForm::Crash { process, .. } => process,
    };
    if process == 0 || n < process {
        return Err(ScheduleRefusal::NoSuchProcess(line));
    }
    Ok(form)
}

/// Returns the form of a line of scripts, behind the forms `before`.
fn script_line(
    n: u64,
    before: &[ScriptForm],
    line: &TokenLine<'_>,
) -> Result<ScriptForm, ScheduleRefusal>
    ensures { Gives (λ x. x) result (script_line n before.now (view_line line.now)) }
{
    let found = match &line.tokens {
        Some(tokens) => script_form(tokens.as_slice()),
        None => None,
    };
    match found {
        Some(form) => admitted(n, before, line.number, form),
        None => Err(ScheduleRefusal::BadItem(line.number)),
    }
}

/// Reads the forms of the lines.
fn script_lines(
    alloc: Global,
    n: u64,
    lines: &mut TextLines<'_>,
) -> Result<Vec<ScriptForm>, ScheduleFault>
    ensures { Answers (λ forms. forms.items) result (script_lines n [] lines.old) }
{
    let mut forms = Vec::new(alloc);
    while let Some(line) = lines.next_line(alloc)? {
        match script_line(n, forms.as_slice(), &line) {
            Ok(form) => forms.push(form)?,
            Err(refusal) => return Err(ScheduleFault::Refused(refusal)),
        }
    }
    Ok(forms)
}

/// Returns the script of `process`.
fn script_of(alloc: Global, forms: &[ScriptForm], process: u64) -> Result<Script, AllocError>
    ensures { IfOk result (λ s. s ≡ script_of forms.now process) }
{
    Ok(Script::new(ops_of(alloc, forms, process)?, crash_of(forms, process)))
}

/// Returns the scripts of `n` processes.
fn each_script(alloc: Global, forms: &[ScriptForm], n: u64) -> Result<Vec<Script>, AllocError>
    requires { n ≤ max_count }
    ensures scripts { IfOk result (λ scripts. scripts.items ≡ scripts_from forms.now 1 n) }
    ensures each { IfOk result (λ scripts. length scripts.items ≡ n) }
{
    let mut scripts = Vec::new(alloc);
    let mut k = 0;
    while k < n {
        scripts.push(script_of(alloc, forms, k + 1)?)?;
        k += 1;
    }
    Ok(scripts)
}

/// Reads the scripts that `text` spells.
///
/// # Errors
///
/// `Refused` with the first reason why `text` is no such text; `Memory` where memory runs out.
pub fn read_scripts(alloc: Global, text: &[u8]) -> Result<Scripts, ScheduleFault>
    ensures scripts { Answers (λ s. s) result (scripts_of text.now) }
    ensures too_long { max_schedule < length text.now → result ≡ Err (Refused TooLong) }
{
    if text.len() > MAX_BYTES {
        return Err(ScheduleFault::Refused(ScheduleRefusal::TooLong));
    }
    let mut lines = TextLines::new(text);
    let shape = first_shape(alloc, &mut lines)?;
    let forms = script_lines(alloc, shape.n(), &mut lines)?;
    let scripts = each_script(alloc, forms.as_slice(), shape.n())?;
    Ok(Scripts::new(shape, scripts))
}
