//! What is told of a trap is what the table of lines has: the operand that is named is the one for
//! which the line traps.
ghost use Rattle.snap_reading_laws.specs.traps.Told.{TrapsAreTold};

/// In each state of a run of any listing, the operand that `why` names of a process at a line is
/// the one for which a step would trap, the first one, in written order, that cannot be taken
/// there; and none is named if the step would not trap, or for where control goes. The operand that
/// is named after a step that trapped is what it trapped for: the first operand that it could not
/// take.
pub fn traps_are_told()
    ensures { TrapsAreTold }
{}
