//! `Failure`, `FailureKind` and `Wanted`: what may fail in a run, and which failures are looked
//! for.
ghost use Rattle.std.specs.Prelude.{◌≡◌, true};
ghost use Rattle.snap_hunt.specs.Kinds.{is_kind, kind_of, with_only};

use snap_runs::Verdict;
use snap_semantics::Cause;

/// The own steps of a process since it called an operation.
#[derive(Clone, Copy, PartialEq, Eq)]
pub struct OwnSteps {
    /// Whether the operation is an update; otherwise it is a scan.
    pub update: bool,
    /// The item that called the operation.
    pub call: u64,
    pub count: u64,
}

/// What fails in a run.
#[derive(Clone, Copy, PartialEq, Eq)]
pub enum Failure {
    /// The run is not linearizable up to the event of this item, which is one of this process. Up
    /// to the event before it the run is linearizable.
    NotLinearizable {
        process: u32,
        item: u64,
    },
    /// A finished scan has no point.
    NoPoint(Verdict),
    /// A process has trapped, at this line.
    Trapped {
        process: u32,
        line: u64,
        cause: Cause,
    },
    /// A finished scan made too many double collects.
    ManyCollects(Verdict),
    /// With this item, which is one of its steps, an operation has taken too many steps of its own.
    ManySteps {
        process: u32,
        item: u64,
        own: OwnSteps,
    },
}

/// The kinds of failures.
#[derive(Clone, Copy, PartialEq, Eq)]
pub enum FailureKind {
    Linearizable,
    Point,
    Trap,
    Steps,
    Collects,
}

/// The most steps of its own that an operation may take.
#[derive(Clone, Copy, PartialEq, Eq)]
pub enum StepBound {
    /// The steps within which each operation of the listing that is shipped for the kind is over,
    /// in the given shape.
    Shipped,
    Given(u64),
}

/// The failures that are wanted.
#[derive(Clone, Copy, PartialEq, Eq)]
pub struct Wanted {
    /// That the run is not linearizable.
    pub linearizable: bool,
    pub point: bool,
    pub trap: bool,
    /// The most steps of its own that an operation may take.
    pub steps: Option<StepBound>,
    /// The most double collects that a scan may make.
    pub collects: Option<u64>,
}

/// No failure is wanted.
const NOTHING: Wanted = Wanted {
    linearizable: false,
    point: false,
    trap: false,
    steps: None,
    collects: None,
};

impl Wanted {
    /// Returns these failures, of which those of this kind alone are wanted.
    pub fn with_only(&self, kind: FailureKind) -> Wanted
        ensures { result ≡ with_only kind self.now }
    {
        let mut wanted = NOTHING;
        match kind {
            FailureKind::Linearizable => wanted.linearizable = self.linearizable,
            FailureKind::Point => wanted.point = self.point,
            FailureKind::Trap => wanted.trap = self.trap,
            FailureKind::Steps => wanted.steps = self.steps,
            FailureKind::Collects => wanted.collects = self.collects,
        }
        wanted
    }
}

impl Failure {
    /// Returns the kind of the failure.
    pub fn kind(&self) -> FailureKind
        ensures { result ≡ kind_of self.now }
    {
        match self {
            Failure::NotLinearizable { .. } => FailureKind::Linearizable,
            Failure::NoPoint(_) => FailureKind::Point,
            Failure::Trapped { .. } => FailureKind::Trap,
            Failure::ManySteps { .. } => FailureKind::Steps,
            Failure::ManyCollects(_) => FailureKind::Collects,
        }
    }

    /// Returns whether the failure is of this kind.
    pub fn is_kind(&self, kind: FailureKind) -> bool
        ensures value { result ≡ is_kind kind self.now }
        ensures kind { result ≡ true → kind_of self.now ≡ kind }
    {
        match (kind, self) {
            (FailureKind::Linearizable, Failure::NotLinearizable { .. }) => true,
            (FailureKind::Point, Failure::NoPoint(_)) => true,
            (FailureKind::Trap, Failure::Trapped { .. }) => true,
            (FailureKind::Steps, Failure::ManySteps { .. }) => true,
            (FailureKind::Collects, Failure::ManyCollects(_)) => true,
            _ => false,
        }
    }
}
