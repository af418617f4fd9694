//! `has_each_turn_once`: whether each item that a live run kept is one turn, by the numbers of the
//! turns.
use snap_live::{LiveRun, Turn};
use snap_words::Seq;
use std::alloc::Global;
use std::test::Fail;

/// Marks the numbers of turns, and returns false if a number is marked before, or is too large.
fn mark(marks: &mut [bool], turns: &[Turn]) -> bool {
    for turn in turns {
        let Some(mark) = marks.get_mut(turn.number.wrapping_sub(1) as usize) else {
            return false;
        };
        if *mark {
            return false;
        }
        *mark = true;
    }
    true
}

/// Returns whether each item that was kept is one turn, by its number.
pub(crate) fn has_each_turn_once(alloc: Global, live: &LiveRun<Seq>) -> Result<bool, Fail> {
    let mut marks = vec![in alloc; false; live.kept.items().len() as usize]?;
    for turns in &live.turns {
        if !mark(marks.as_mut_slice(), turns.as_slice()) {
            return Ok(false);
        }
    }
    Ok(!marks.as_slice().contains(&false))
}
