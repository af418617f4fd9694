//! The line at which updates write, as the certification of a run chooses it: that of the first
//! item which changes the values.
ghost use Rattle.std.specs.Prelude.{◌≡◌, [], IfOk, length, suc};
ghost use Rattle.snap_semantics.specs.State.{values};
ghost use Rattle.snap_runs.specs.Run.{run_over, state};
ghost use Rattle.snap_record.specs.Roles.{AreRoles};
ghost use Rattle.snap_walk.specs.Walk.{Passes, Way, line_told, look_ahead};
ghost use Rattle.snap_certify.specs.Certification.{
  changing_line,
  is_put,
  putting_line,
  seen_item,
  write_line,
};
ghost use Rattle.snap_certify.specs.Finding.{WritesWord, changed_line};

use crate::sight::{Sight, changes, executed_line, writing};
use snap_asm_program::Program;
use snap_record::{LineRole, new_roles};
use snap_sched::Schedule;
use snap_semantics::{Instr, Line, who};
use snap_walk::{Passed, Walk};
use snap_words::Kind;
use std::alloc::{AllocError, Global};

/// Returns the line that the last passed item executes, if it changes the values, which were `past`
/// before it.
fn changed_line<K: Kind>(
    walk: &Walk<'_, K>,
    roles: &[LineRole],
    past: &[u64],
    passed: &Passed,
) -> Result<Option<Option<u64>>, AllocError>
    ensures { IfOk result (λ o. (w : Way) → Passes w passed.now walk.now →
        passed.now.activity ≡ line_told (look_ahead [] w) →
        AreRoles w.run.source roles.now →
        past.now ≡ values (state w.run w.at) →
        o ≡ changed_line (seen_item w.run (suc w.at))) }
{
    let Some(activity) = writing(roles, passed.activity) else {
        return Ok(None);
    };
    let after = walk.machine().values()?;
    let sight = Sight {
        process: who(passed.item),
        activity: Some(activity),
        outcome: &passed.outcome,
        values_before: past,
        values_after: after.as_slice(),
    };
    if changes(&sight) {
        Ok(Some(executed_line(&sight)))
    } else {
        Ok(None)
    }
}

/// Returns the line of the first item that changes the values, found by a walk up to that item.
fn changing_line<K: Kind>(
    alloc: Global,
    program: &Program,
    schedule: &Schedule,
) -> Result<Option<u64>, AllocError>
    requires { program.now.kind ≡ K.TAG }
    ensures { IfOk result (λ l. l
        ≡ changing_line (run_over program.now schedule.now) 0 (length schedule.now.items)) }
{
    let mut walk = Walk::<K>::over(alloc, program, schedule)?;
    let roles = new_roles(alloc, program)?;
    let values = walk.machine().values()?;
    while let Some(passed) = walk.next()? {
        let changed = changed_line(&walk, roles.as_slice(), values.as_slice(), &passed)?;
        if let Some(line) = changed {
            return Ok(line);
        }
    }
    Ok(None)
}

/// Returns whether a line writes a word.
fn is_put(instr: &Instr) -> bool
    ensures { result ≡ is_put instr.now }
{
    match instr {
        Instr::Put(_, _) => true,
        _ => false,
    }
}

/// Returns the number of the first line that writes a word, and 0 where none does.
fn putting_line(lines: &[Line]) -> u64
    ensures { result ≡ putting_line lines.now }
{
    for line in lines {
        if is_put(&line.instr) {
            return line.number;
        }
    }
    0
}

/// Returns the line at which updates write in the run of a program over a schedule: that of the
/// first item that changes the values, and if none does, the first line that writes a word.
#[tactic(auto, using(crate::proofs::Lines::chosen, crate::proofs::Lines::putting_writes))]
pub(crate) fn write_line<K: Kind>(
    alloc: Global,
    program: &Program,
    schedule: &Schedule,
) -> Result<u64, AllocError>
    requires { program.now.kind ≡ K.TAG }
    ensures line { IfOk result (λ l. l ≡ write_line (run_over program.now schedule.now)) }
    ensures word { IfOk result (λ l. WritesWord program.now l) }
{
    let lines = program.listing().lines();
    match changing_line::<K>(alloc, program, schedule)? {
        Some(line) => Ok(line),
        None => Ok(putting_line(lines)),
    }
}
