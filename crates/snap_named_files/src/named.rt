//! `Named`: what a command line names: the files of a listing and of a schedule, or the file of a
//! schedule for a shipped listing.
ghost use Rattle.std.specs.Prelude.{◌≡◌, map, option_map};
ghost use Rattle.snap_faults.specs.Names.{view_names};
ghost use Rattle.snap_named_files.specs.Named.{named_of, names_of, view_named};

use snap_faults::Names;
use snap_words::KindTag;

/// What a command line names.
#[derive(Clone, Copy)]
pub enum Named<'a> {
    /// The files of a listing and of a schedule.
    Files(&'a str, &'a str),
    /// The shipped listing of a kind, and the file of a schedule.
    Shipped(KindTag, &'a str),
}

/// Returns the files that the names are of: a listing and a schedule, or a schedule alone if a kind
/// is given.
pub fn named_of<'a>(kind: Option<KindTag>, names: &[&'a str]) -> Option<Named<'a>>
    ensures { option_map view_named result ≡ named_of kind (map (λ n. n.now) names.now) }
{
    match (kind, names) {
        (None, [listing, schedule]) => Some(Named::Files(listing, schedule)),
        (Some(kind), [schedule]) => Some(Named::Shipped(kind, schedule)),
        _ => None,
    }
}

/// Returns what a program of this name is called, and the files that are named.
pub fn names_of<'a>(program: &'a str, named: &Named<'a>) -> Names<'a>
    ensures { view_names result ≡ names_of program.now (view_named named.now) }
{
    let (listing, schedule) = match *named {
        Named::Files(listing, schedule) => (Some(listing), schedule),
        Named::Shipped(_, schedule) => (None, schedule),
    };
    Names {
        program,
        listing,
        schedule: Some(schedule),
    }
}
