//! The law of the changes between two texts, proved: put into the old
//! lines, they make the new ones, and each says what it replaced.
ghost use Rattle.snap_text.specs.ChangeLaws.{AreReal, MakeTheNew};

/// Put into the old lines, the changes make the new ones; and each change says what stood there
/// before, and what stands there after.
pub fn changes_make_the_new_text()
    ensures make { MakeTheNew }
    ensures real { AreReal }
{}
