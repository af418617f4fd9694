//! `SavedFiles`: texts that are saved whole as files, wherever those are opened.
ghost use Rattle.std.specs.Prelude.{◌≡◌, ◌++◌, ℕ, List, [], Option, None, IfOk};
ghost use Rattle.std.specs.Io.KnownBytes.{Appends};
ghost use Rattle.snap_streams.specs.Folder.{Keeps, Kept, with_kept};

use snap_streams::{FileFault, FileSource, Folder};
use std::alloc::Global;
use std::io;
use std::io::{ErrorKind, Write};

/// Where files are opened to be written whole.
pub(crate) trait Opens {
    /// An open file.
    type File: Write + Drop;

    /// What files had when they were closed, in order, where it is known.
    ghost kept: { Self → Option (List Kept) } = { λ _. None };

    /// That a file was opened under this name and has this text, where that is known.
    ghost has: { Self.File → (name text : List ℕ) → Type 0 };

    /// Opens a file in which nothing is: a new one, or also one that is there if `replaces`.
    ///
    /// # Errors
    ///
    /// Returns why it is not opened, `AlreadyExists` where it is there and is not to be replaced.
    fn open(&self, name: &str, replaces: bool) -> io::Result<Self::File>
        ensures { IfOk result (λ file. has file name.now []) };

    /// Closes a file, which keeps its text.
    fn close(&mut self, file: Self::File)
        ensures { (name text : List ℕ) → has file name text →
            kept self.new ≡ with_kept name text (kept self.old) };

    /// What is written to a file comes behind what it has.
    ghost grows: { (before after : Self.File) (name text more : List ℕ) → has before name text →
        Appends (Self.File.contents before) (Self.File.contents after) more →
        has after name (text ++ more) };
}

/// Writes all of a text to a file, and returns the file.
fn written<W: Write + Drop>(mut file: W, text: &[u8]) -> Result<W, ErrorKind>
    ensures { IfOk result (λ after. Appends (W.contents file) (W.contents after) text.now) }
{
    match file.write_all(text) {
        Ok(()) => Ok(file),
        Err(error) => Err(error.kind()),
    }
}

/// Keeps a text under a name. What is there is replaced only if `replaces`.
fn keep_in<O: Opens>(
    opens: &mut O,
    name: &str,
    text: &[u8],
    replaces: bool,
) -> Result<(), ErrorKind>
    ensures { Keeps result (O.kept opens.old) (O.kept opens.new) name.now text.now }
{
    let opened = match opens.open(name, replaces) {
        Ok(file) => file,
        Err(error) => return Err(error.kind()),
    };
    match written(opened, text) {
        Ok(file) => {
            opens.close(file);
            Ok(())
        }
        Err(kind) => Err(kind),
    }
}

/// Files that are read from one place, and saved in another.
#[derive(Clone, Copy)]
pub(crate) struct SavedFiles<F: Copy, O: Copy> {
    source: F,
    opens: O,
}

impl<F: Copy, O: Copy> SavedFiles<F, O> {
    /// Returns the files of these two.
    pub(crate) fn new(source: F, opens: O) -> SavedFiles<F, O>
        ensures source { result.source ≡ source }
        ensures opens { result.opens ≡ opens }
    {
        SavedFiles { source, opens }
    }
}

impl<F: FileSource + Copy, O: Copy> FileSource for SavedFiles<F, O> {
    ghost found = { λ files name. F.found files.source name };

    fn read(&self, alloc: Global, name: &str, most: u64) -> Result<Vec<u8>, FileFault> {
        self.source.read(alloc, name, most)
    }
}

impl<F: Copy, O: Opens + Copy> Folder for SavedFiles<F, O> {
    ghost kept = { λ files. O.kept files.opens };

    fn keep(&mut self, name: &[u8], text: &[u8], replaces: bool) -> Result<(), ErrorKind> {
        match str::from_utf8(name) {
            Ok(name) => keep_in(&mut self.opens, name, text, replaces),
            Err(_) => Err(ErrorKind::InvalidInput),
        }
    }
}
