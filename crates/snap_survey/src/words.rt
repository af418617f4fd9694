//! Which of the three words is said of a run.
ghost use Rattle.std.specs.Prelude.{◌≡◌};
ghost use Rattle.snap_survey.specs.Words.{is_linearizable, is_not_linearizable, is_undecided};

use snap_run_judge::Linearizability;

/// Returns whether a run is linearizable.
pub(crate) fn is_linearizable(word: Linearizability) -> bool
    ensures { result ≡ is_linearizable word }
{
    matches!(word, Linearizability::Linearizable)
}

/// Returns whether a run is not linearizable.
pub(crate) fn is_not_linearizable(word: Linearizability) -> bool
    ensures { result ≡ is_not_linearizable word }
{
    matches!(word, Linearizability::NotLinearizable)
}

/// Returns whether it is undecided if a run is linearizable.
pub(crate) fn is_undecided(word: Linearizability) -> bool
    ensures { result ≡ is_undecided word }
{
    matches!(word, Linearizability::Undecided)
}
