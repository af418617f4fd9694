//! `check_schedules`: whether an input has as many schedules as a task on many of them takes.
ghost use Rattle.std.specs.Prelude.{◌≡◌, ◌≤◌, length};
ghost use Rattle.snap_input.specs.Parts.{max_input, parts_of};
ghost use Rattle.snap_input.specs.ManySchedules.{checked_schedules};

use crate::part_counts::count_texts;
use crate::parts::count_separators;
use snap_semantics::Refusal;
use snap_tasks::Subject;

/// The most schedules behind one listing.
const MAX_SCHEDULES: usize = 4096;

/// Checks that 1 to 4,096 texts stand behind the listing.
///
/// # Errors
///
/// `WrongParts` where another number of them does.
pub fn check_schedules(subject: Subject, input: &[u8]) -> Result<(), Refusal>
    requires { length input.now ≤ max_input }
    ensures { result ≡ checked_schedules subject (parts_of input.now) }
{
    let found = count_separators(input) + 1;
    let texts = count_texts(subject, found);
    if 0 < texts && texts <= MAX_SCHEDULES {
        Ok(())
    } else {
        Err(Refusal::WrongParts(found as u64))
    }
}
