//! `read_texts`: reads the texts of the files that a command line names.
ghost use Rattle.std.specs.Prelude.{◌≡◌, Result, List, ℕ};
ghost use Rattle.snap_streams.specs.declared.file_fault.FileFault.{FileFault};
ghost use Rattle.snap_semantics.specs.Answers.{refused_as};
ghost use Rattle.snap_named_files.specs.Named.{Files, Shipped, view_named};
ghost use Rattle.snap_faults.specs.Faults.{of_file};
ghost use Rattle.snap_named_files.specs.Texts.{AreTexts, Comes, IsTextIn};

use crate::named::Named;
use snap_faults::{ProgramFault, Which, of_file};
use snap_streams::FileSource;
use snap_words::KindTag;
use std::alloc::Global;

/// The most bytes that a file may have, and one more.
const TOO_MANY: u64 = 16_777_217;

/// The texts of the files that are named.
#[derive(Drop)]
pub enum Texts {
    /// The texts of a listing and of a schedule.
    Files(Vec<u8>, Vec<u8>),
    /// The shipped listing of a kind, and the text of a schedule.
    Shipped(KindTag, Vec<u8>),
}

/// Returns the bytes of the file of this name.
fn text_in<F: FileSource>(
    alloc: Global,
    files: &F,
    which: Which,
    name: &str,
) -> Result<Vec<u8>, ProgramFault>
    ensures { (text : Result (List ℕ) FileFault) × IsTextIn (F.found files.now) name.now text
        × Comes (λ v. v.items) result (refused_as (of_file which) text) }
{
    match files.read(alloc, name, TOO_MANY) {
        Ok(text) => Ok(text),
        Err(fault) => Err(of_file(which, fault)),
    }
}

/// Returns the texts of a listing and of a schedule in files of these names.
fn both_texts<F: FileSource>(
    alloc: Global,
    files: &F,
    listing: &str,
    schedule: &str,
) -> Result<Texts, ProgramFault>
    ensures { AreTexts (F.found files.now) (Files listing.now schedule.now) result }
{
    let listing = text_in(alloc, files, Which::Listing, listing)?;
    let schedule = text_in(alloc, files, Which::Schedule, schedule)?;
    Ok(Texts::Files(listing, schedule))
}

/// Returns the text of a schedule for a shipped listing, in the file of this name.
fn one_text<F: FileSource>(
    alloc: Global,
    files: &F,
    kind: KindTag,
    schedule: &str,
) -> Result<Texts, ProgramFault>
    ensures { AreTexts (F.found files.now) (Shipped kind schedule.now) result }
{
    let schedule = text_in(alloc, files, Which::Schedule, schedule)?;
    Ok(Texts::Shipped(kind, schedule))
}

/// Returns the texts of the files that are named.
///
/// # Errors
///
/// A file cannot be read, or is too long, that of the listing before that of the schedule; or
/// there is no memory.
pub fn read_texts<F: FileSource>(
    alloc: Global,
    files: &F,
    named: &Named<'_>,
) -> Result<Texts, ProgramFault>
    ensures { AreTexts (F.found files.now) (view_named named.now) result }
{
    match *named {
        Named::Files(listing, schedule) => both_texts(alloc, files, listing, schedule),
        Named::Shipped(kind, schedule) => one_text(alloc, files, kind, schedule),
    }
}
