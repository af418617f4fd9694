//! Laws of registers: what is written to a register is read from it, and no other register changes.
ghost use Rattle.snap_semantics.specs.WithContents.{PutIsThere, OthersStay};

/// A value that is put into a register is read there, and the registers of all other addresses are
/// as they were.
pub fn what_is_put_is_there()
    ensures there { PutIsThere }
    ensures others { OthersStay }
{}
