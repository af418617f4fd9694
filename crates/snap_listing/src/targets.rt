//! `checked_targets`: checks that each line to which an instruction of a listing may lead is one of
//! its lines; and copies of lines.
ghost use Rattle.std.specs.Prelude.{◌≡◌, [], ◌∷◌, ◌++◌, OnOk};
ghost use Rattle.snap_semantics.specs.Listing.{instr_targets, checked_targets, line_targets};
ghost use Rattle.snap_listing.specs.Targets.{target_list, checked_target};

use snap_listing_core::has_line;
use snap_semantics::{Instr, Line, ListingRefusal};
use std::alloc::AllocError;
use std::slice;

/// Appends a copy of `line`.
///
/// # Errors
///
/// `AllocError` where memory runs out.
pub fn push_line_copy(lines: &mut Vec<Line>, line: &Line) -> Result<(), AllocError>
    ensures { OnOk result (lines.new.items ≡ lines.old.items ++ line.now ∷ []) }
{
    lines.extend_from_slice(slice::from_ref(line))
}

/// Returns the line that an instruction names as its target, if it names one.
fn instr_target(instr: &Instr) -> Option<u64>
    ensures { instr_targets instr.now ≡ target_list result }
{
    match instr {
        Instr::First(_, _, _, target) => Some(*target),
        Instr::Next(_, _, target) => Some(*target),
        Instr::If(_, target) => Some(*target),
        Instr::IfAll(_, _, target) => Some(*target),
        Instr::Goto(target) => Some(*target),
        Instr::Call(target) => Some(*target),
        _ => None,
    }
}

/// Checks that one of `lines` has the number `target`.
///
/// # Errors
///
/// `NoSuchLine` where none has.
pub fn checked_target(lines: &[Line], target: u64) -> Result<(), ListingRefusal>
    ensures { result ≡ checked_target lines.now target }
{
    if has_line(lines, target) {
        Ok(())
    } else {
        Err(ListingRefusal::NoSuchLine(target))
    }
}

/// Checks that each line to which an instruction may lead is one of `lines`.
///
/// # Errors
///
/// `NoSuchLine` with the first target that is no line.
pub fn checked_targets(lines: &[Line]) -> Result<(), ListingRefusal>
    ensures { result ≡ checked_targets lines.now (line_targets lines.now) }
{
    for line in lines {
        if let Some(target) = instr_target(&line.instr) {
            checked_target(lines, target)?;
        }
    }
    Ok(())
}
