//! `saving_of`: the file that a line at the prompt names behind `save` or `save!`.
ghost use Rattle.std.specs.Prelude.{◌≡◌, option_map};
ghost use Rattle.std.specs.List.{list_any};
ghost use Rattle.snap_prompt.specs.SaveForm.{behind, ends_name, file_named, is_file_name};
ghost use Rattle.snap_prompt.specs.SaveForm.{saving_of};

use crate::ask::body;

/// Returns what stands behind `word`, if `line` begins with it.
fn behind<'l>(word: &[u8], line: &'l [u8]) -> Option<&'l [u8]>
    ensures { option_map (λ s. s.now) result ≡ behind word.now line.now }
{
    if word.len() <= line.len() && &line[..word.len()] == word {
        Some(&line[word.len()..])
    } else {
        None
    }
}

/// Returns whether a byte stands in no name of a file: a space and what is below it, and the `#` of
/// a comment.
fn ends_name(byte: u8) -> bool
    ensures { result ≡ ends_name byte }
{
    byte <= b' ' || byte == b'#'
}

/// Returns whether a text has a byte that stands in no name of a file.
fn has_an_end(text: &[u8]) -> bool
    ensures { result ≡ list_any ends_name text.now }
{
    text.iter().any(|byte| ends_name(*byte))
}

/// Returns whether a text is a name of a file, as the prompt takes it.
fn is_file_name(text: &[u8]) -> bool
    ensures { result ≡ is_file_name text.now }
{
    match text {
        [] => false,
        _ => !has_an_end(text),
    }
}

/// Returns the file that a line names behind `word`.
fn file_named<'l>(word: &[u8], line: &'l [u8]) -> Option<&'l [u8]>
    ensures { option_map (λ s. s.now) result ≡ file_named word.now line.now }
{
    match behind(word, line) {
        Some(name) if is_file_name(name) => Some(name),
        _ => None,
    }
}

/// Returns the file that a line names behind `save` or `save!`, and whether an existing file of
/// that name is replaced, as behind `save!`.
pub fn saving_of(line: &[u8]) -> Option<(&[u8], bool)>
    ensures { option_map (λ f. (f.0.now, f.1)) result ≡ saving_of line.now }
{
    let body = body(line);
    match file_named(b"save ", body) {
        Some(name) => Some((name, false)),
        None => match file_named(b"save! ", body) {
            Some(name) => Some((name, true)),
            None => None,
        },
    }
}
