//! `push_text`, `push_number` and `push_numbers`: texts
//! that are put together from bytes and decimal numbers.
ghost use Rattle.std.specs.Prelude.{◌≡◌, ◌++◌, OnOk, decimal};
ghost use Rattle.snap_semantics.specs.Report.{numbers_text};

use itoa::Buffer;
use std::alloc::AllocError;

/// Appends `text`.
///
/// # Errors
///
/// `AllocError` where memory runs out.
pub fn push_text(out: &mut Vec<u8>, text: &[u8]) -> Result<(), AllocError>
    ensures { OnOk result (out.new.items ≡ out.old.items ++ text.now) }
{
    out.extend_from_slice(text)
}

/// Appends `number` in decimal digits.
///
/// # Errors
///
/// `AllocError` where memory runs out.
#[inline(always)]
pub fn push_number(out: &mut Vec<u8>, number: u64) -> Result<(), AllocError>
    ensures { OnOk result (out.new.items ≡ out.old.items ++ decimal number) }
{
    let mut buffer = Buffer::new();
    out.extend_from_slice(buffer.format(number).as_bytes())
}

/// Appends each of `numbers` behind a space.
///
/// # Errors
///
/// `AllocError` where memory runs out.
pub fn push_numbers(out: &mut Vec<u8>, numbers: &[u64]) -> Result<(), AllocError>
    ensures { OnOk result (out.new.items ≡ out.old.items ++ numbers_text numbers.now) }
{
    for number in numbers {
        push_text(out, b" ")?;
        push_number(out, *number)?;
    }
    Ok(())
}
