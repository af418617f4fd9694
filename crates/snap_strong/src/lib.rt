//! Strong linearizability, and that listing U is not strongly linearizable.
#![tactic(auto)]

ghost use Rattle.snap_strong.specs.StrongLinearization.{LinearizationsAreCompleted};
ghost use Rattle.snap_strong.specs.StrongLinearization.{StrongIsLinearizable};
ghost use Rattle.snap_strong.specs.Futures.{HasTwoFutures, NoneServesBoth};
ghost use Rattle.snap_strong.specs.Futures.{UIsNotStronglyLinearizable};
ghost use Rattle.snap_strong.specs.OneWord.{OneWordIsStronglyLinearizable};

/// Every linearization is one in which scans that have not ended may stand too.
pub fn linearizations_are_completed()
    ensures { LinearizationsAreCompleted }
{}

/// A strongly linearizable listing is linearizable, in the runs below its limit.
pub fn strong_is_linearizable()
    ensures { StrongIsLinearizable }
{}

/// A run of U goes on in two ways: in one its open scan answers what held before an update that has
/// ended, in the other what held after it.
pub fn has_two_futures()
    ensures { HasTwoFutures }
{}

/// No linearization of the run with two futures is the beginning of linearizations of both.
pub fn none_serves_both()
    ensures { NoneServesBoth }
{}

/// Listing U is not strongly linearizable for three processes: no choice of linearizations, even of
/// the runs of fewer than 2^64 items alone, is kept as runs go on.
pub fn u_is_not_strongly_linearizable()
    ensures { UIsNotStronglyLinearizable }
{}

/// A listing of one word that every process sets and sees is strongly linearizable, for every
/// number of processes and in runs of any length.
pub fn one_word_is_strongly_linearizable()
    ensures { OneWordIsStronglyLinearizable }
{}
