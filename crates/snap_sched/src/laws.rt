//! Laws of reading and printing schedules: a text that is read spells its schedule, each text that
//! spells one is read as it, and what is printed is read back.
ghost use Rattle.snap_sched.specs.Laws.{ReadsOnlySpelled, ReadsAllSpelled, PrintsAgain};

/// Whatever is read is a schedule, and its text spells it.
pub fn reads_only_spelled()
    ensures { ReadsOnlySpelled }
{}

/// Every schedule is read from every text that spells it, however its steps are split into lines.
pub fn reads_all_spelled()
    ensures { ReadsAllSpelled }
{}

/// What is printed of a schedule is read as that schedule.
pub fn prints_again()
    ensures { PrintsAgain }
{}
