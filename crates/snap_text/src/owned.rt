//! `push_owned_lines`: the lines of a text, each indented one with its
//! owner, the first two words of the line above that is not indented.
ghost use Rattle.std.specs.Prelude.{◌≡◌, ◌≤◌, [], length};
ghost use Rattle.snap_semantics.specs.Token.{lines_of};
ghost use Rattle.snap_text.specs.Drafted.{Adds};
ghost use Rattle.snap_text.specs.Owned.{next_owner, owned_line, owned_text, two_words, word_len};

use crate::draft::Draft;
use crate::lines::split_line;

/// Returns how many bytes stand before the first space.
fn word_len(bytes: &[u8]) -> usize
    ensures value { result ≡ word_len bytes.now }
    ensures within { result ≤ length bytes.now }
{
    let mut len = 0;
    while len < bytes.len() && bytes[len] != b' ' {
        len += 1;
    }
    len
}

/// Returns the first two words of a line.
fn two_words(line: &[u8]) -> &[u8]
    ensures { result.now ≡ two_words line.now }
{
    let first = word_len(line);
    if first == line.len() {
        return line;
    }
    let second = word_len(&line[first + 1..]);
    &line[..first + 1 + second]
}

/// Returns the owner of the indented lines that follow `line`.
fn next_owner<'a>(owner: &'a [u8], line: &'a [u8]) -> &'a [u8]
    ensures { result.now ≡ next_owner owner.now line.now }
{
    match line {
        [b' ', ..] => owner,
        _ => two_words(line),
    }
}

/// Appends a line, with `owner` in place of its first space if it is indented.
fn push_owned_line(out: &mut Draft, owner: &[u8], line: &[u8])
    ensures { Adds out.old out.new (owned_line owner.now line.now) }
{
    match line {
        [b' ', rest @ ..] => {
            out.push(owner);
            out.push(rest);
        }
        _ => out.push(line),
    }
}

/// Appends the lines of `text`, each indented one with its owner: the first two words of the
/// nearest line above that is not indented.
pub fn push_owned_lines(out: &mut Draft, text: &[u8])
    ensures { Adds out.old out.new (owned_text [] (lines_of text.now)) }
{
    let mut rest = text;
    let mut owner: &[u8] = b"";
    while !rest.is_empty() {
        let (line, behind) = split_line(rest);
        push_owned_line(out, owner, line);
        out.push(b"\n");
        owner = next_owner(owner, line);
        rest = behind;
    }
}
