//! Audits: whether each scan that a record answered has a point, and how many double collects it
//! made.
#![tactic(auto)]

ghost use Rattle.snap_runs.specs.Audit.{VerdictsAreOfScans, VerdictsHavePoints};
ghost use Rattle.snap_runs.specs.Promises.{HavePoints};
ghost use Rattle.snap_runs.specs.Run.{Run};

mod caller;
mod sweep;
mod text;
mod watch;

pub use snap_runs::Verdict;
pub use sweep::{audit, audit_over};
pub use text::{audit_text, audit_text_over, push_verdict_line, verdict_line};
pub use watch::Watch;

/// A verdict is of a finished scan: its point is the least that the scan has, `None` if it has
/// none, and its count is that of the scan's double collects.
#[tactic(auto, using(snap_runs::proofs::Audits::of_scans))]
pub fn verdicts_are_of_scans()
    ensures { (r : Run) → VerdictsAreOfScans r }
{}

/// In a run whose items are all of its processes: if each finished scan has a point, each verdict
/// of the audit has one.
#[tactic(auto, using(snap_runs::proofs::Audits::verdicts_have_points))]
pub fn every_verdict_has_a_point()
    ensures { (r : Run) → HavePoints r → VerdictsHavePoints r }
{}
