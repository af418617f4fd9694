//! From an audit's verdicts, for a `Survey`: how many scans have no point, and the most double
//! collects of a scan.
ghost use Rattle.std.specs.Prelude.{◌≡◌};
ghost use Rattle.snap_survey.specs.Survey.{most_collects, without_point};

use snap_runs::Verdict;

/// Returns how many scans have no point.
pub(crate) fn without_point(verdicts: &[Verdict]) -> u64
    ensures { result ≡ without_point verdicts.now }
{
    let mut missing = 0;
    for verdict in verdicts {
        if verdict.point.is_none() {
            missing += 1;
        }
    }
    missing
}

/// Returns the most double collects of a scan, and 0 where there is no scan.
pub(crate) fn most_collects(verdicts: &[Verdict]) -> u64
    ensures { result ≡ most_collects verdicts.now }
{
    let mut most = 0;
    for verdict in verdicts {
        most = verdict.collects.max(most);
    }
    most
}
