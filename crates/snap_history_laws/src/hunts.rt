//! A hunt finds nothing in the runs of the listings that come with the program.
ghost use Rattle.snap_words.specs.declared.kind.KindTag.{KindTag};
ghost use Rattle.snap_history_laws.specs.hunts.Shipped.{FindsNothing, HuntsFindNone};

/// Every run of U, B and M is linearizable, each of its scans has a point, and it has no trap, and
/// no operation of more steps than are promised. A hunt for such failures finds none.
pub fn shipped_listings_have_no_failing_run()
    ensures nothing { (g : KindTag) → FindsNothing g }
    ensures hunts { (g : KindTag) → HuntsFindNone g }
{
    snap_shipped::shipped_runs_keep_promises();
    snap_hunt::steps_are_of_operations();
    crate::judgements::shipped_runs_are_seen_linearizable();
}
