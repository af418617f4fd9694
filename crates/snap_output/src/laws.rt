//! A law of traces, which holds of all runs: the report of a run is the sum of the changes in its
//! trace.
ghost use Rattle.snap_output.specs.TraceLaws.{SumsToReport};

/// The changes of all items, put one after another into the lines of the beginning,
/// make the lines of the end.
pub fn the_report_is_the_sum_of_the_trace()
    ensures { SumsToReport }
{}
