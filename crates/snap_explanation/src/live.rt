//! `turn_limit_explanation`: what is said of a live run in which a process was not done within its
//! turns.
ghost use Rattle.std.specs.Prelude.{◌≡◌, IfOk};
ghost use Rattle.snap_explanation.specs.LiveExplanation.{turn_limit_explanation};

use crate::wording::{NOT_DONE, SCRIPT_OF};
use snap_text::Draft;
use std::alloc::{AllocError, Global};

/// Returns the text behind the line that refuses a live run, because the script of `process` was
/// not done within its turns.
///
/// # Errors
///
/// `AllocError` where memory runs out.
pub fn turn_limit_explanation(alloc: Global, process: u32) -> Result<Vec<u8>, AllocError>
    ensures { IfOk result (λ text. text.items ≡ turn_limit_explanation process) }
{
    let mut out = Draft::new(alloc);
    out.push(SCRIPT_OF);
    out.push_number(u64::from(process));
    out.push(NOT_DONE);
    out.finish()
}
