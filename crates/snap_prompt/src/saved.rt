//! `push_saved`: a schedule is saved as a file, and what the debugger's prompt says of that.
ghost use Rattle.std.specs.Prelude.{◌≡◌, Err};
ghost use Rattle.snap_text.specs.Drafted.{Adds};
ghost use Rattle.snap_prompt.specs.Saved.{Saves, saved_line, save_reason};

use snap_streams::Folder;
use snap_text::Draft;
use std::io::ErrorKind;

/// Returns why a file was not written, for a person.
fn save_reason(kind: ErrorKind) -> &'static [u8]
    ensures { result.now ≡ save_reason kind }
{
    match kind {
        ErrorKind::AlreadyExists => b"there is such a file, and `save!` writes over it",
        ErrorKind::NotFound => b"there is no such folder",
        ErrorKind::PermissionDenied => b"permission denied",
        ErrorKind::IsADirectory => b"is a directory",
        ErrorKind::InvalidInput => b"no name of a file",
        _ => b"cannot be written",
    }
}

/// Appends why a schedule was not saved under a name.
fn push_reason(out: &mut Draft, name: &[u8], kind: ErrorKind)
    ensures { Adds out.old out.new (saved_line name.now (Err kind)) }
{
    out.push(b"refused: ");
    out.push(name);
    out.push(b": ");
    out.push(save_reason(kind));
    out.push(b"\n");
}

/// Appends the text on a schedule that was saved under a name, or was not.
fn push_outcome(out: &mut Draft, name: &[u8], done: Result<(), ErrorKind>)
    ensures { Adds out.old out.new (saved_line name.now done) }
{
    match done {
        Ok(()) => {
            out.push(b"saved: ");
            out.push(name);
            out.push(b"\n");
        }
        Err(kind) => push_reason(out, name, kind),
    }
}

/// Keeps a text under a name, and adds what is said of that. Returns whether it was kept.
pub(crate) fn push_saved<S: Folder>(
    out: &mut Draft,
    folder: &mut S,
    name: &[u8],
    text: &[u8],
    replaces: bool,
) -> bool
    ensures { Saves name.now text.now (S.kept folder.old) (S.kept folder.new) out.old out.new
        result }
{
    let done = folder.keep(name, text, replaces);
    push_outcome(out, name, done);
    done.is_ok()
}
