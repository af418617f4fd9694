//! `SystemFiles`: the files of the system, as they are opened to be written.
ghost use Rattle.std.specs.Prelude.{◌≡◌, not, true, ⊤};
ghost use Rattle.std.specs.Fs.{asks_create_new, asks_write};

use crate::saved_files::Opens;
use std::fs::{File, OpenOptions};
use std::io;

/// The files of the system, of which nothing is known.
#[derive(Clone, Copy)]
pub(crate) struct SystemFiles<'r> {
    rt: &'r HostRuntime,
}

impl<'r> SystemFiles<'r> {
    /// Returns the files as this runtime reaches them.
    pub(crate) fn new(rt: &'r HostRuntime) -> SystemFiles<'r> {
        SystemFiles { rt }
    }
}

/// Returns how a file is opened that is written whole: a new one, or also one that is there if
/// `replaces`.
fn options_for(replaces: bool) -> OpenOptions
    ensures writes { asks_write result ≡ true }
    ensures makes { asks_create_new result ≡ not replaces }
{
    let mut options = OpenOptions::new();
    options.write(true);
    if replaces {
        options.create(true);
        options.truncate(true);
    } else {
        options.create_new(true);
    }
    options
}

impl Opens for SystemFiles<'_> {
    type File = File;

    ghost has = { λ _ _ _. ⊤ };

    ghost grows = { λ _ _ _ _ _ _ _. tt };

    fn open(&self, name: &str, replaces: bool) -> io::Result<File> {
        options_for(replaces).open(self.rt, name)
    }

    fn close(&mut self, _file: File) {}
}
