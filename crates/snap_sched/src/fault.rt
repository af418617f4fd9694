//! Why a schedule could not be read.
use snap_semantics::{Fault, ScheduleRefusal};

/// Why a text was not read as a schedule: memory ran out, or the text is no schedule.
pub type ScheduleFault = Fault<ScheduleRefusal>;
