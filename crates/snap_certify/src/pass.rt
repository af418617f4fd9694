//! One pass over the items of a run, which finds its writes, or the first thing that is missing.
ghost use Rattle.std.specs.Prelude.{◌≡◌, IfOk, OnOk, length};
ghost use Rattle.snap_runs.specs.Run.{run_over};
ghost use Rattle.snap_walk.specs.Walk.{Way};
ghost use Rattle.snap_audit.specs.Watch.{Watches};
ghost use Rattle.snap_certify.specs.Finding.{Finds, FindsOn, WritesWord, all_of};

use crate::finder::Finder;
use crate::sight::writing;
use snap_asm_program::Program;
use snap_audit::Watch;
use snap_sched::Schedule;
use snap_semantics::who;
use snap_walk::{Passed, Walk};
use snap_words::Kind;
use std::alloc::{AllocError, Global};

/// Notes the item that was told last on the way, for the finder.
fn notice<K: Kind>(
    finder: &mut Finder,
    walk: &Walk<'_, K>,
    passed: &Passed,
) -> Result<(), AllocError>
    requires passed { (w : Way) × FindsOn w finder.old passed.now walk.now }
    ensures line { OnOk result (finder.new.line ≡ finder.old.line) }
    ensures finds { OnOk result (Finds walk.now.run walk.now.at finder.new) }
{
    let process = who(passed.item);
    let outcome = &passed.outcome;
    match writing(finder.roles.as_slice(), passed.activity) {
        Some(activity) => {
            finder.note_write(walk.machine(), passed.number, process, activity, outcome)
        }
        None => {
            finder.note_other(passed.number, process, outcome);
            Ok(())
        }
    }
}

/// Returns what is found of the items of the run of `program` over `schedule`, where updates write
/// at `line`; and what an audit has to know of them.
pub(crate) fn find<K: Kind>(
    alloc: Global,
    program: &Program,
    schedule: &Schedule,
    line: u64,
) -> Result<(Finder, Watch), AllocError>
    requires kind { program.now.kind ≡ K.TAG }
    requires line { WritesWord program.now line }
    ensures line { IfOk result (λ f. f.0.line ≡ line) }
    ensures finds { IfOk result (λ f. Finds (run_over program.now schedule.now)
        (length schedule.now.items) f.0) }
    ensures watches { IfOk result (λ f. Watches (all_of (run_over program.now schedule.now)) f.1) }
{
    let mut walk = Walk::<K>::over(alloc, program, schedule)?;
    let values = walk.machine().values()?;
    let mut finder = Finder::new(alloc, program, schedule, line, values)?;
    let mut watch = Watch::new(alloc, program, schedule)?;
    while let Some(passed) = walk.next_told(watch.silent_lines(), false)? {
        notice(&mut finder, &walk, &passed)?;
        watch.note(&walk, passed)?;
    }
    Ok((finder, watch))
}
