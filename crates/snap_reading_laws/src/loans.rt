//! Borrowed views: where the view in a local came from, and whose scan saw it.
ghost use Rattle.snap_reading_laws.specs.loans.Held.{ViewsAreFollowed};

/// In every run of any listing, the view in a view local is the one that was written at the place
/// at which the program says that it was written, be it answered or written on, or held before any
/// item. The view that a scan took and ends with is the one that was written there, and that view
/// is the one that stood in the writer's local when the lender's scan ended. The lender's scan is a
/// whole scan of an update of the writer's.
pub fn views_are_followed()
    ensures { ViewsAreFollowed }
{}
