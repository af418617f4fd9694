//! `Names`: what a program is called, and the files that its command line names.
ghost use Rattle.std.specs.Prelude.{◌≡◌};
ghost use Rattle.snap_faults.specs.Names.{of_program, view_names};

/// Which of the files that a command line names.
#[derive(Clone, Copy, Debug, PartialEq, Eq)]
pub enum Which {
    Listing,
    Schedule,
}

/// What a program is called, and the names of its files, for each file that it has.
#[derive(Clone, Copy)]
pub struct Names<'a> {
    pub program: &'a str,
    pub listing: Option<&'a str>,
    pub schedule: Option<&'a str>,
}

impl<'a> Names<'a> {
    /// Returns a program that names no files.
    pub fn of_program(program: &'a str) -> Names<'a>
        ensures { view_names result ≡ of_program program.now }
    {
        Names {
            program,
            listing: None,
            schedule: None,
        }
    }
}
