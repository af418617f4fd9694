//! `Layout`: what an input consists of, for each `Request`: a listing's text, an image, a history,
//! or parts between lines `%`.
ghost use Rattle.std.specs.Prelude.{◌≡◌};
ghost use Rattle.snap_explanation.specs.Part.{judged_layout, layout_of};

use snap_tasks::{JudgeSource, Request, Subject, Task};

/// The texts behind the listing.
#[derive(Clone, Copy, PartialEq, Eq)]
pub enum Texts {
    Schedule,
    ScheduleAndCommands,
    /// One schedule or more.
    Schedules,
    Scripts,
}

/// What an input consists of.
#[derive(Clone, Copy, PartialEq, Eq)]
pub enum Layout {
    /// The text of a listing.
    Listing,
    /// The text of a listing in a file that is named before that of a schedule.
    NamedListing,
    /// A schedule in a file that is named behind that of a listing.
    NamedSchedule,
    /// An image.
    Image,
    /// A history.
    History,
    /// Parts between lines `%`: a listing, unless it is shipped, and texts behind it.
    Parts(Subject, Texts),
}

/// Returns the layout of an input that is judged.
fn judged_layout(source: JudgeSource) -> Layout
    ensures { result ≡ judged_layout source }
{
    match source {
        JudgeSource::Run(subject) => Layout::Parts(subject, Texts::Schedule),
        JudgeSource::History => Layout::History,
    }
}

/// Returns the layout of the input of `request`.
pub fn layout_of(request: &Request) -> Layout
    ensures { result ≡ layout_of request.now }
{
    match *request {
        Request::Do(Task::Check | Task::Lint | Task::Assemble) => Layout::Listing,
        Request::Do(Task::List | Task::Upgrade) => Layout::Image,
        Request::Do(
            Task::Run(subject)
            | Task::Trace(subject)
            | Task::Audit(subject)
            | Task::Certify(subject),
        ) => Layout::Parts(subject, Texts::Schedule),
        Request::Do(Task::Debug(subject)) => Layout::Parts(subject, Texts::ScheduleAndCommands),
        Request::Do(Task::Batch(subject) | Task::Survey(subject)) => {
            Layout::Parts(subject, Texts::Schedules)
        }
        Request::Live(subject, _) | Request::Model(subject, _) => {
            Layout::Parts(subject, Texts::Scripts)
        }
        Request::Judge(asked) => judged_layout(asked.source),
    }
}
