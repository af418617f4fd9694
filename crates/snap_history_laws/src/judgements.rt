//! Laws of the histories of runs: what is judged of a history is so of its run, and the histories
//! of the runs of U, B and M are linearizable.
ghost use Rattle.std.specs.Prelude.{ℕ};
ghost use Rattle.snap_words.specs.declared.kind.KindTag.{KindTag};
ghost use Rattle.snap_semantics.specs.IsListing.{IsListing};
ghost use Rattle.snap_shipped.specs.Shipped.{shipped};
ghost use Rattle.snap_judge.specs.Judgement.{IsJudgement};
ghost use Rattle.snap_judge.specs.declared.judgements.Failing.{Failing};
ghost use Rattle.snap_judge.specs.declared.judgements.Judgement.{Judgement};
ghost use Rattle.snap_run_judge.specs.RunHistory.{history_of};
ghost use Rattle.snap_run_judge.specs.RunJudgement.{IsRunJudgement};
ghost use Rattle.snap_history_laws.specs.judgements.JudgementLaws.{FailingsAreOfRuns, FailsThere};
ghost use Rattle.snap_history_laws.specs.judgements.JudgementLaws.{IsSoOf, JudgementsAreOfRuns};
ghost use Rattle.snap_history_laws.specs.judgements.RunLaws.{RunsAreToldByTheirHistories};
ghost use Rattle.snap_history_laws.specs.judgements.RunLaws.{RunsTellEachOnce, TellsEachOnce};
ghost use Rattle.snap_history_laws.specs.judgements.ShippedLaws.{ClosedDesksAreSeenLinearizable};
ghost use Rattle.snap_history_laws.specs.judgements.ShippedLaws.{LiveRunsAreSeenLinearizable};
ghost use Rattle.snap_history_laws.specs.judgements.ShippedLaws.{ShippedRunsAreSeenLinearizable};
ghost use Rattle.snap_history_laws.specs.judgements.ThreadLaws.{ThreadsAreToldTheHistory};

use crate::events::events_tell_operations;
use crate::threads::operations_are_told;
use snap_judge::linearizable_from_the_beginning;
use snap_listing::what_is_read_is_spelled;
use snap_live::Gate;
use snap_record::Record;
use snap_run_judge::runs_have_histories;
use snap_shipped::{shipped_runs_keep_promises, text_b, text_m, text_u};
use snap_words::Kind;

/// The history of a run of any listing has its operations and no others, and therefore the same
/// linearizations.
pub fn runs_are_told_by_their_histories()
    ensures { RunsAreToldByTheirHistories }
{
    events_tell_operations();
}

/// The events of a run of any listing have each call and each end once.
pub fn runs_tell_each_once()
    ensures { RunsTellEachOnce }
{
    events_tell_operations();
    runs_have_histories();
}

/// Where the history of a run is said to fail, the run fails: nowhere, and the run is linearizable;
/// or at the item of that event.
pub fn failings_are_of_runs()
    ensures { FailingsAreOfRuns }
{
    events_tell_operations();
    runs_have_histories();
    runs_are_told_by_their_histories();
    linearizable_from_the_beginning();
}

/// What is judged of the history of a run holds of the run: an order of its operations is a
/// linearization of the run, and the item of an event at which the history fails is one at which
/// the run fails.
pub fn judgements_are_of_runs()
    ensures { JudgementsAreOfRuns }
{
    events_tell_operations();
    runs_have_histories();
    runs_are_told_by_their_histories();
    linearizable_from_the_beginning();
}

/// What is judged of the history of a record holds of its run, whose events have each call and each
/// end once.
pub fn judgements_are_of_records<K: Kind>(kept: &Record<K>)
    ensures judged { (most : ℕ) (j : Judgement) → IsJudgement most (history_of kept.now) j →
        IsSoOf kept.now j }
    ensures fails { (most : ℕ) (f : Failing) → IsRunJudgement most kept.now f →
        FailsThere kept.now f }
    ensures once { TellsEachOnce kept.now }
{
    // What `items` and `lines` promise: the run is a valid one, of a listing.
    let _items = kept.items();
    let _lines = kept.machine().program().listing().lines();
    judgements_are_of_runs();
    failings_are_of_runs();
    runs_tell_each_once();
}

/// What the threads of a run hear, each of its own process, has the same operations as the history
/// of the run.
pub fn threads_are_told_the_history()
    ensures { ThreadsAreToldTheHistory }
{
    operations_are_told();
    runs_are_told_by_their_histories();
}

/// U, B and M are listings.
pub fn shipped_are_listings()
    ensures { (g : KindTag) → IsListing (shipped g) }
{
    // What the texts promise: each is read as its listing.
    let _u = text_u();
    let _b = text_b();
    let _m = text_m();
    what_is_read_is_spelled();
}

/// The history of each run of U, B and M is linearizable, and no judgement of it says otherwise; of
/// U as long as its sequence numbers suffice.
pub fn shipped_runs_are_seen_linearizable()
    ensures { (g : KindTag) → ShippedRunsAreSeenLinearizable g }
{
    runs_have_histories();
    runs_are_told_by_their_histories();
    linearizable_from_the_beginning();
    shipped_are_listings();
    shipped_runs_keep_promises();
}

/// The history of what is kept at a desk of U, B or M is linearizable, and no judgement of it says
/// otherwise, whatever the threads did.
pub fn closed_desks_are_seen_linearizable()
    ensures { ClosedDesksAreSeenLinearizable }
{
    shipped_runs_are_seen_linearizable();
}

/// The history of a live run of U, B or M is linearizable, and no judgement of it says otherwise,
/// whatever its gate answered.
pub fn live_runs_are_seen_linearizable<G: Gate>(gate: &G)
    ensures { LiveRunsAreSeenLinearizable (G.may_answer gate.now) }
{
    shipped_runs_are_seen_linearizable();
}
