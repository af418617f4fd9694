//! A law of schedules made by chance: the order of priorities has each process once, whatever is
//! drawn.
ghost use Rattle.rand_core.specs.Stream.{Stream};
ghost use Rattle.snap_chance.specs.Plan.{Plan};
ghost use Rattle.snap_chance.specs.Priorities.{HasDistinctPriorities};

/// Each process stands in the order of priorities once, whatever is drawn.
pub fn priorities_are_distinct()
    ensures { (p : Plan) (s : Stream) → HasDistinctPriorities p s }
{}
