//! What is said of small histories.
use crate::histories::{open_update, two_updates};
use snap_judge::{Judgement, judge};
use std::test::Fail;

/// How many turns of a search the histories are given, more than they need.
const TURNS: usize = 100;

/// Returns whether a history is judged linearizable, with the operations called at these events in
/// this order.
fn has_order(judgement: &Judgement<'_>, calls: &[u64]) -> bool {
    match judgement {
        Judgement::Linearizable(order) => {
            order.len() == calls.len()
                && order
                    .iter()
                    .zip(calls)
                    .all(|(operation, call)| operation.call == *call)
        }
        Judgement::NotLinearizable(_) => false,
        Judgement::Undecided(_) => false,
    }
}

/// Returns whether a history is judged not to be linearizable at this event, and at none before it.
fn fails_at(judgement: &Judgement<'_>, event: usize) -> bool {
    match judgement {
        Judgement::NotLinearizable(at) => *at == event,
        Judgement::Linearizable(_) => false,
        Judgement::Undecided(_) => false,
    }
}

/// Returns whether it is left open if the history is linearizable up to this event.
fn is_open_at(judgement: &Judgement<'_>, event: usize) -> bool {
    match judgement {
        Judgement::Undecided(at) => *at == event,
        Judgement::Linearizable(_) => false,
        Judgement::NotLinearizable(_) => false,
    }
}

#[test]
fn updates_at_once(rt: HostRuntime) -> Result<(), Fail> {
    let eight = two_updates(rt.alloc(), 8)?;
    let judged = judge(rt.alloc(), &eight, TURNS)?;
    assert!(rt;
        has_order(&judged, [1, 2, 3, 7].as_slice()),
        "8 is seen, and seen again"
    );
    let seven = two_updates(rt.alloc(), 7)?;
    let judged = judge(rt.alloc(), &seven, TURNS)?;
    assert!(rt;
        has_order(&judged, [2, 3, 1, 7].as_slice()),
        "8 is seen, and 7 afterwards"
    );
    let zero = two_updates(rt.alloc(), 0)?;
    let judged = judge(rt.alloc(), &zero, TURNS)?;
    assert!(rt; fails_at(&judged, 8), "0 is not seen any more");
    Ok(())
}

#[test]
fn open_updates(rt: HostRuntime) -> Result<(), Fail> {
    let seen = open_update(rt.alloc(), 7, 7)?;
    let judged = judge(rt.alloc(), &seen, TURNS)?;
    assert!(rt;
        has_order(&judged, [1, 2, 4].as_slice()),
        "it takes place before both scans"
    );
    let between = open_update(rt.alloc(), 0, 7)?;
    let judged = judge(rt.alloc(), &between, TURNS)?;
    assert!(rt;
        has_order(&judged, [2, 1, 4].as_slice()),
        "it takes place between the scans"
    );
    let unseen = open_update(rt.alloc(), 0, 0)?;
    let judged = judge(rt.alloc(), &unseen, TURNS)?;
    assert!(rt;
        has_order(&judged, [2, 4].as_slice()),
        "it does not take place"
    );
    Ok(())
}

#[test]
fn failures(rt: HostRuntime) -> Result<(), Fail> {
    let back = open_update(rt.alloc(), 7, 0)?;
    let judged = judge(rt.alloc(), &back, TURNS)?;
    assert!(rt;
        fails_at(&judged, 5),
        "the update is seen, and then not any more"
    );
    let wrong = open_update(rt.alloc(), 5, 7)?;
    let judged = judge(rt.alloc(), &wrong, TURNS)?;
    assert!(rt; fails_at(&judged, 3), "nobody has set the word to 5");
    let judged = judge(rt.alloc(), &wrong, 0)?;
    assert!(rt; is_open_at(&judged, 5), "without a turn nothing is decided");
    Ok(())
}
