//! `LineRole`: which lines of a program write a word, test, or return a view, found by line number.
ghost use Rattle.std.specs.Prelude.{◌≡◌, IfOk, IfSome, IsTrue, is_some, option_map};
ghost use Rattle.snap_semantics.specs.Source.{Source, instr_at};
ghost use Rattle.snap_semantics.specs.State.{Locals};
ghost use Rattle.snap_semantics.specs.declared.process.Activity.{Activity};
ghost use Rattle.snap_runs.specs.StepRoles.{step_role_at, Nothing};
ghost use Rattle.snap_record.specs.Roles.{AreRoles, NoneBeyond, is_plain, is_telling, role_in, role_of};
ghost use Rattle.snap_record.specs.SeenRoles.{seen_step_role};

use crate::step_role::StepRole;
use snap_asm_program::Program;
use snap_semantics::Instr;
use std::alloc::{AllocError, Global};

/// A line that writes a word, one that tests for all, one that may answer a scan, or another.
#[derive(Clone, Copy)]
pub enum LineRole {
    Write,
    Test,
    Return,
    Nothing,
}

/// Returns the role of an instruction.
fn role_of(instr: Option<&Instr>) -> LineRole
    ensures { result ≡ role_of (option_map (λ i. i.now) instr.entry) }
{
    match instr {
        Some(Instr::Put(_, _)) => LineRole::Write,
        Some(Instr::IfAll(_, _, _)) => LineRole::Test,
        Some(Instr::Return(_)) => LineRole::Return,
        _ => LineRole::Nothing,
    }
}

/// Returns the number after that of the last line.
fn end_number(program: &Program) -> u64
    ensures { NoneBeyond program.now result }
{
    match program.listing().lines().last() {
        Some(line) => line.number + 1,
        None => 0,
    }
}

/// Returns the roles of the lines of `program`, by their numbers.
///
/// # Errors
///
/// `AllocError` where memory runs out.
pub fn new_roles(alloc: Global, program: &Program) -> Result<Vec<LineRole>, AllocError>
    ensures { IfOk result (λ m. AreRoles program.now m.items) }
{
    let listing = program.listing();
    let mut roles = Vec::new(alloc);
    for number in 0..end_number(program) {
        roles.push(role_of(listing.instr(number)))?;
    }
    Ok(roles)
}

/// Returns the role of the line with this number. A number that the table does not have is no
/// line's.
#[inline(always)]
pub fn role_in(roles: &[LineRole], line: u64) -> LineRole
    ensures { result ≡ role_in roles.now line }
{
    match roles.get(line as usize) {
        Some(role) => *role,
        None => LineRole::Nothing,
    }
}

/// Returns the role of line `line`, if its number decides it.
pub fn step_role_by(roles: &[LineRole], line: u64) -> Option<StepRole>
    ensures told { is_some result ≡ is_telling (role_in roles.now line) }
    ensures role { (a : Activity) (l : Locals) (s : Source) → AreRoles s roles.now →
        IfSome result (λ d. seen_step_role d ≡ step_role_at a l (instr_at s.lines line)) }
{
    match role_in(roles, line) {
        LineRole::Write => Some(StepRole::Write),
        LineRole::Test => Some(StepRole::Test),
        LineRole::Return => None,
        LineRole::Nothing => Some(StepRole::Nothing),
    }
}

/// Returns whether the number of a line tells that the line writes no word, tests nothing for all
/// and answers nothing.
#[inline(always)]
pub fn is_plain(roles: &[LineRole], line: u64) -> bool
    ensures told { result ≡ is_plain (role_in roles.now line) }
    ensures role { (a : Activity) (l : Locals) (s : Source) → AreRoles s roles.now → IsTrue result →
        step_role_at a l (instr_at s.lines line) ≡ Nothing }
{
    match role_in(roles, line) {
        LineRole::Nothing => true,
        _ => false,
    }
}
