//! `Folder`: where a dialog keeps texts under names, as files.
ghost use Rattle.std.specs.Prelude.{ℕ, List, Option, None};
ghost use Rattle.snap_streams.specs.Folder.{Keeps, Kept};

use std::io::ErrorKind;

/// A place where texts are kept under names.
pub trait Folder {
    /// What was kept so far, in order, if it is known.
    ghost kept: { Self → Option (List Kept) } = { λ _. None };

    /// Keeps `text` under `name`. What is already there under `name` is replaced only if
    /// `replaces`.
    ///
    /// # Errors
    ///
    /// The kind of the error that prevented it; `AlreadyExists` where something is there under
    /// `name` and `replaces` is false.
    fn keep(&mut self, name: &[u8], text: &[u8], replaces: bool) -> Result<(), ErrorKind>
        ensures { Keeps result (kept self.old) (kept self.new) name.now text.now };
}
