//! What is written of a judgement of a history.
ghost use Rattle.std.specs.Prelude.{◌≡◌, IfOk};
ghost use Rattle.snap_judge.specs.Judgement.{NamesEvent, failing_of};
ghost use Rattle.snap_history_text.specs.JudgementText.{judgement_text};

use crate::operations::push_linearizable;
use crate::verdicts::{push_not_linearizable, push_undecided};
use snap_judge::{History, Judgement};
use snap_text::Draft;
use std::alloc::{AllocError, Global};

/// Returns what is written of a judgement of `history`.
///
/// # Errors
///
/// `AllocError` where memory runs out.
pub fn judgement_text(
    alloc: Global,
    history: &History,
    judgement: &Judgement<'_>,
) -> Result<Vec<u8>, AllocError>
    requires { NamesEvent history.now (failing_of judgement.now) }
    ensures { IfOk result (λ text. text.items ≡ judgement_text history.now judgement.now) }
{
    let mut out = Draft::new(alloc);
    match judgement {
        Judgement::Linearizable(order) => push_linearizable(&mut out, order.as_slice()),
        Judgement::NotLinearizable(count) => {
            push_not_linearizable(&mut out, &history.events[*count - 1]);
        }
        Judgement::Undecided(count) => push_undecided(&mut out, &history.events[*count - 1]),
    }
    out.finish()
}
