//! `Summary`: in how many of many surveyed runs a scan was answered, a process trapped, and so on,
//! and how many are linearizable.
ghost use Rattle.std.specs.Prelude.{◌≡◌, ◌+◌, ◌<◌, ◌^◌};
ghost use Rattle.snap_survey.specs.Summary.{AreFewer, counted_if, no_runs, summary_of, with_survey};

use crate::findings::JudgedSurvey;
use crate::words::{is_linearizable, is_not_linearizable, is_undecided};

/// How many of many runs have what the fields of a survey count, and how many of them are
/// linearizable.
#[derive(Clone, Copy, PartialEq, Eq)]
pub struct Summary {
    pub schedules: u64,
    /// Runs in which a scan was answered.
    pub answering: u64,
    /// Runs in which an answered scan has no point.
    pub without_point: u64,
    /// The most double collects of an answered scan of any run.
    pub most_collects: u64,
    /// Runs in which an update is done.
    pub updating: u64,
    /// Runs in which an operation has not ended.
    pub unfinished: u64,
    pub trapping: u64,
    pub crashing: u64,
    pub skipping: u64,
    /// Runs that are linearizable.
    pub linearizable: u64,
    /// Runs that are not linearizable.
    pub not_linearizable: u64,
    /// Runs of which it is undecided whether they are linearizable.
    pub undecided: u64,
}

/// Returns one more where something was found.
fn counted_if(count: u64, found: bool) -> u64
    requires { count + 1 < 2 ^ 64 }
    ensures { result ≡ counted_if count found }
{
    count + u64::from(found)
}

impl Summary {
    /// Returns the summary of no run.
    fn new() -> Summary
        ensures { result ≡ no_runs }
    {
        Summary {
            schedules: 0,
            answering: 0,
            without_point: 0,
            most_collects: 0,
            updating: 0,
            unfinished: 0,
            trapping: 0,
            crashing: 0,
            skipping: 0,
            linearizable: 0,
            not_linearizable: 0,
            undecided: 0,
        }
    }

    /// Appends one run more.
    fn add(&mut self, judged: &JudgedSurvey)
        requires few { AreFewer self.old (self.old.schedules + 1) }
        requires room { self.old.schedules + 1 < 2 ^ 64 }
        ensures { self.new ≡ with_survey self.old judged.now }
    {
        let survey = &judged.survey;
        let verdict = judged.linearizability;
        self.schedules += 1;
        self.answering = counted_if(self.answering, survey.scans_answered > 0);
        self.without_point = counted_if(self.without_point, survey.scans_without_point > 0);
        self.most_collects = survey.most_collects.max(self.most_collects);
        self.updating = counted_if(self.updating, survey.updates_done > 0);
        self.unfinished = counted_if(self.unfinished, survey.open_operations > 0);
        self.trapping = counted_if(self.trapping, survey.traps > 0);
        self.crashing = counted_if(self.crashing, survey.crashes > 0);
        self.skipping = counted_if(self.skipping, survey.skips > 0);
        self.linearizable = counted_if(self.linearizable, is_linearizable(verdict));
        self.not_linearizable = counted_if(self.not_linearizable, is_not_linearizable(verdict));
        self.undecided = counted_if(self.undecided, is_undecided(verdict));
    }
}

/// Returns what the runs of `surveys` came to together.
pub fn summary_of(surveys: &[JudgedSurvey]) -> Summary
    ensures { result ≡ summary_of surveys.now }
{
    let mut summary = Summary::new();
    for survey in surveys {
        summary.add(survey);
    }
    summary
}
