//! `split_parts`: the parts of an input, split at the lines that are `%` alone.
ghost use Rattle.std.specs.Prelude.{◌≡◌, ◌+◌, ◌≤◌, ◌<◌, ℕ, IfOk, map, length, take, drop, [], ◌∷◌};
ghost use Rattle.std.specs.Prelude.{false, true};
ghost use Rattle.std.specs.Io.BufRead.{take_through, drop_through};
ghost use Rattle.snap_input.specs.Parts.{ends_part, onto_part, parts_of};

use memchr::{memchr, memrchr};
use std::alloc::{AllocError, Global};

/// Returns the length of the first line, with its line feed.
fn first_line_len(bytes: &[u8]) -> usize
    ensures within { result ≤ length bytes.now }
    ensures some { 0 < length bytes.now → 0 < result }
    ensures line { take result bytes.now ≡ take_through 10 bytes.now }
    ensures rest { drop result bytes.now ≡ drop_through 10 bytes.now }
{
    let mut len = 0;
    while len < bytes.len() {
        len += 1;
        if bytes[len - 1] == b'\n' {
            return len;
        }
    }
    len
}

/// Returns the length of the whole lines at the front before the first `%`, or of all bytes if
/// there is none: none of these lines ends a part. Most of an input is a schedule, which has no
/// `%`.
fn plain_len(bytes: &[u8]) -> usize
    ensures within { result ≤ length bytes.now }
    ensures plain { ends_part (take result bytes.now) ≡ false }
    ensures parts { parts_of bytes.now
        ≡ onto_part (take result bytes.now) (parts_of (drop result bytes.now)) }
{
    let Some(sign) = memchr(b'%', bytes) else {
        return bytes.len();
    };
    match memrchr(b'\n', &bytes[..sign]) {
        Some(feed) => feed + 1,
        None => 0,
    }
}

/// Returns the length of the first piece: of the lines before the first `%`, or of the line that
/// has it.
fn first_piece_len(bytes: &[u8]) -> usize
    ensures within { result ≤ length bytes.now }
    ensures some { 0 < length bytes.now → 0 < result }
    ensures ends { ends_part (take result bytes.now) ≡ true →
        parts_of bytes.now ≡ [] ∷ parts_of (drop result bytes.now) }
    ensures goes_on { ends_part (take result bytes.now) ≡ false → parts_of bytes.now
        ≡ onto_part (take result bytes.now) (parts_of (drop result bytes.now)) }
{
    let plain = plain_len(bytes);
    if plain > 0 {
        plain
    } else {
        first_line_len(bytes)
    }
}

/// Returns whether the piece is the line `%` alone.
fn is_separator(piece: &[u8]) -> bool
    ensures { result ≡ ends_part piece.now }
{
    piece == b"%\n".as_slice()
        || piece == b"%\r\n".as_slice()
        || piece == b"%".as_slice()
        || piece == b"%\r".as_slice()
}

/// Returns how many lines of `input` end a part, one less than the number of parts. No memory is
/// allocated.
pub fn count_separators(input: &[u8]) -> usize
    ensures parts { result + 1 ≡ length (parts_of input.now) }
    ensures few { result ≤ length input.now }
{
    let mut count = 0;
    let mut rest = input;
    while !rest.is_empty() {
        let (piece, after) = rest.split_at(first_piece_len(rest));
        if is_separator(piece) {
            count += 1;
        }
        rest = after;
    }
    count
}

/// Returns the parts of an input.
///
/// # Errors
///
/// `AllocError` where memory runs out.
pub fn split_parts(alloc: Global, input: &[u8]) -> Result<Vec<&[u8]>, AllocError>
    ensures { IfOk result (λ parts. map (λ part. part.now) parts.items ≡ parts_of input.now) }
{
    let mut parts = Vec::new(alloc);
    let mut part = input;
    let mut len = 0;
    let mut rest = input;
    while !rest.is_empty() {
        let (piece, after) = rest.split_at(first_piece_len(rest));
        if is_separator(piece) {
            parts.push(&part[..len])?;
            part = after;
            len = 0;
        } else {
            len = part.len() - after.len();
        }
        rest = after;
    }
    parts.push(part)?;
    Ok(parts)
}
