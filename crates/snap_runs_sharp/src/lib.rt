//! Schedules that take scans of U, B and M to the bounds on their double collects.
#![tactic(auto)]

ghost use Rattle.snap_runs_sharp.specs.Reached.{IsReachedByB, IsReachedByM, IsReachedByU};
ghost use Rattle.snap_runs_sharp.specs.Reached.{NoMoreIsReached, ScanAloneMakesOne};
ghost use Rattle.snap_runs_sharp.specs.Reached.{ScheduleOfBReaches, ScheduleOfMReaches};
ghost use Rattle.snap_runs_sharp.specs.Reached.{ScheduleOfUReaches};

/// Some scan of U, by one of n processes, makes n double collects: no bound on them is less than n.
pub fn sharp_collects_are_reached_by_u()
    ensures { IsReachedByU }
{}

/// The schedule of U makes a run in which a scan makes n double collects.
pub fn schedule_of_u_reaches()
    ensures { ScheduleOfUReaches }
{}

/// Some scan of B, by one of n processes, makes n double collects: no bound on them is less than n.
pub fn sharp_collects_are_reached_by_b()
    ensures { IsReachedByB }
{}

/// The schedule of B makes a run in which a scan makes n double collects.
pub fn schedule_of_b_reaches()
    ensures { ScheduleOfBReaches }
{}

/// Some scan of M, by one of n processes, makes 2 n - 1 double collects: no bound on them is less
/// than 2 n - 1.
pub fn sharp_collects_are_reached_by_m()
    ensures { IsReachedByM }
{}

/// The schedule of M makes a run in which a scan makes 2 n - 1 double collects.
pub fn schedule_of_m_reaches()
    ensures { ScheduleOfMReaches }
{}

/// No finished scan makes more double collects than the schedules reach: n are the most of U and of
/// B, and 2 n - 1 those of M.
pub fn no_more_is_reached()
    ensures { NoMoreIsReached }
{}

/// A scan of U alone makes one double collect, and not two.
pub fn a_scan_alone_makes_one()
    ensures { ScanAloneMakesOne }
{}
