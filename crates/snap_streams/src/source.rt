//! `FileSource`: where a program reads the files that its command line names; `Disk`: the files of
//! the system.
ghost use Rattle.std.specs.Prelude.{ℕ, List, Option, None, Result};
ghost use Rattle.std.specs.declared.io.ErrorKind.{ErrorKind};
ghost use Rattle.snap_streams.specs.FileTexts.{Reads};

use crate::file_fault::FileFault;
use crate::read::read_named;
use std::alloc::Global;

/// The place where a program reads the files that its command line names.
pub trait FileSource {
    /// What the file of a name has, or why it cannot be read, where that is known.
    ghost found: { Self → List ℕ → Option (Result (List ℕ) ErrorKind) };

    /// Reads the file `name`, and returns its bytes if they are fewer than `most`.
    ///
    /// # Errors
    ///
    /// `TooLong` where the file has `most` bytes or more; `Unread` where it cannot be read;
    /// `Memory` where memory runs out.
    fn read(&self, alloc: Global, name: &str, most: u64) -> Result<Vec<u8>, FileFault>
        ensures { Reads most (found self.now name.now) result };
}

/// The files of the system. Nothing is known of a file before it is read.
#[derive(Clone, Copy)]
pub struct Disk<'r>(pub &'r HostRuntime);

impl FileSource for Disk<'_> {
    ghost found = { λ _ _. None };

    fn read(&self, _alloc: Global, name: &str, most: u64) -> Result<Vec<u8>, FileFault> {
        read_named(self.0, name, most)
    }
}
