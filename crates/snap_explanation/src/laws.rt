//! `what_is_lost_stays_lost`: the law that a line that is lost at a token is lost whatever follows
//! it.
ghost use Rattle.snap_explanation.specs.Laws.{StaysLost};

/// A line that is lost at a token is lost whatever follows that token.
pub fn what_is_lost_stays_lost()
    ensures { StaysLost }
{}
