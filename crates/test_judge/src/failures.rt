//! What is told of histories that are not linearizable, worked by hand.
ghost use Rattle.snap_judge.specs.History.{IsHistory};

use crate::reasons_histories::{early_sight, lost_update, new_then_old};
use snap_judge::History;
use snap_judge_reasons::{failure_text, reasons, right_answers};
use std::alloc::{AllocError, Global};
use std::test::Fail;

/// How many configurations a search may keep, more than the histories need.
const CONFIGURATIONS: usize = 100;

/// Returns what is written of the history at its event number `count`.
fn told(alloc: Global, history: &History, count: usize) -> Result<Vec<u8>, AllocError>
    requires { IsHistory history.now }
{
    let answers = right_answers(alloc, history, count, CONFIGURATIONS)?;
    match reasons(alloc, history, count)? {
        Some(reasons) => failure_text(alloc, answers.as_slice(), reasons.as_slice()),
        None => {
            let none = Vec::new(alloc);
            failure_text(alloc, answers.as_slice(), none.as_slice())
        }
    }
}

#[test]
fn new_value_then_old(rt: HostRuntime) -> Result<(), Fail> {
    let history = new_then_old(rt.alloc())?;
    let told = told(rt.alloc(), &history, 5)?;
    let wanted = b"right answer: 5 0
because: scan of process 3 (event 4) did not see update 1 5 (event 1)
because: scan of process 2 (event 2) saw update 1 5 (event 1)
because: scan of process 2 (event 2) ended before scan of process 3 (event 4) was called
";
    assert!(rt; told.as_slice() == wanted.as_slice());
    Ok(())
}

#[test]
fn update_lost(rt: HostRuntime) -> Result<(), Fail> {
    let history = lost_update(rt.alloc())?;
    let told = told(rt.alloc(), &history, 5)?;
    let wanted = b"right answer: 5 0
right answer: 5 7
because: scan of process 3 (event 4) did not see update 1 5 (event 1)
because: update 1 5 (event 1) ended before scan of process 3 (event 4) was called
";
    assert!(rt; told.as_slice() == wanted.as_slice());
    Ok(())
}

#[test]
fn seen_too_early(rt: HostRuntime) -> Result<(), Fail> {
    let history = early_sight(rt.alloc())?;
    let told = told(rt.alloc(), &history, 2)?;
    let wanted = b"right answer: 0 0
because: scan of process 3 (event 1) saw 7 in word 2, but no update 2 7 was called before it ended
";
    assert!(rt; told.as_slice() == wanted.as_slice());
    Ok(())
}
