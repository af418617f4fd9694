//! Laws of reading and printing histories: what is read is a history, and what is printed is read
//! back.
ghost use Rattle.snap_history_text.specs.HistoryLaws.{PrintsAgain, ReadsHistories};

/// What is read is a history.
pub fn reads_histories()
    ensures { ReadsHistories }
{}

/// What is printed of a history is read as that history.
pub fn prints_again()
    ensures { PrintsAgain }
{}
