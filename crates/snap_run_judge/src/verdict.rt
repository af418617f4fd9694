//! The line of a verdict on the run of a record.
ghost use Rattle.snap_text.specs.Drafted.{Adds};
ghost use Rattle.snap_judge.specs.Judgement.{NamesEvent};
ghost use Rattle.snap_run_judge.specs.RunHistory.{history_of};
ghost use Rattle.snap_run_judge.specs.VerdictText.{verdict_text};

use snap_history_text::{push_not_linearizable, push_undecided};
use snap_judge::Failing;
use snap_record::Record;
use snap_text::Draft;
use snap_words::Kind;

/// Appends the line of a verdict on the run of a record. No order is written of a linearizable run.
pub fn push_verdict<K: Kind>(out: &mut Draft, history: &Record<K>, failing: Failing)
    requires { NamesEvent (history_of history.now) failing }
    ensures { Adds out.old out.new (verdict_text (history_of history.now) failing) }
{
    let events = history.events();
    match failing {
        Failing::Nowhere => out.push(b"linearizable\n"),
        Failing::At(count) => push_not_linearizable(out, &events[count - 1]),
        Failing::Undecided(count) => push_undecided(out, &events[count - 1]),
    }
}
