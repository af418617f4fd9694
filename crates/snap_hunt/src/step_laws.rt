//! The steps that are counted in a run are those of its operations.
ghost use Rattle.snap_hunt.specs.Operations.{StepsAreOfOperations};

/// An operation of too many steps is one of the run that had not ended before; and if an operation
/// takes too many steps, whether it ends or not, that is found.
pub fn steps_are_of_operations()
    ensures { StepsAreOfOperations }
{}
