//! Bytes of an input, as an explanation shows them.
ghost use Rattle.snap_text.specs.Drafted.{Adds};
ghost use Rattle.snap_explanation.specs.Said.{shown_byte, shown, said_cut};
ghost use Rattle.std.specs.Prelude.{◌≡◌, replicate};

use crate::spot::front;
use crate::wording::CUT;
use snap_text::Draft;

/// The most bytes of a piece that are shown.
const PIECE: usize = 40;

/// Returns a byte in the form in which it is shown.
fn shown_byte(byte: u8) -> u8
    ensures { result ≡ shown_byte byte }
{
    if b' ' <= byte && byte <= b'~' {
        byte
    } else if byte == b'\t' || byte == b'\r' {
        b' '
    } else {
        b'?'
    }
}

/// Appends bytes as they are shown.
pub fn push_shown(out: &mut Draft, bytes: &[u8])
    ensures { Adds out.old out.new (shown bytes.now) }
{
    for byte in bytes {
        out.push(&[shown_byte(*byte)]);
    }
}

/// Appends spaces.
pub fn push_spaces(out: &mut Draft, count: usize)
    ensures { Adds out.old out.new (replicate count 32) }
{
    let mut left = count;
    while left > 0 {
        out.push(b" ");
        left -= 1;
    }
}

/// Appends a piece of a line as it is shown.
pub fn push_cut(out: &mut Draft, bytes: &[u8])
    ensures { Adds out.old out.new (said_cut bytes.now) }
{
    push_shown(out, front(bytes, PIECE));
    if bytes.len() > PIECE {
        out.push(CUT);
    }
}
