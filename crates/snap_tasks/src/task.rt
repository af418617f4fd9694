//! `Task`: what the program is to do with its input, as check, assemble, run, trace, debug or
//! audit.
use crate::subject::Subject;

/// What the program is to do with its input.
#[derive(Clone, Copy, PartialEq, Eq)]
pub enum Task {
    /// Whether a text is a listing.
    Check,
    /// What the runs of a listing may run into.
    Lint,
    /// The image of a listing's text.
    Assemble,
    /// The text of a listing's image.
    List,
    /// The image, in the version that is written, of an image in either version.
    Upgrade,
    /// A listing under a schedule.
    Run(Subject),
    /// What each item of a listing under a schedule did.
    Trace(Subject),
    /// A listing under a schedule, as commands ask for it.
    Debug(Subject),
    /// Each finished scan of a listing under a schedule: whether it has a point.
    Audit(Subject),
    /// The linearization points of a listing under a schedule, or which one is missing.
    Certify(Subject),
    /// A listing under many schedules: the report of the end of each.
    Batch(Subject),
    /// A listing under many schedules: what the run of each came to.
    Survey(Subject),
}
