//! `Gate`: whether a process may make its next turn, as the workers of a live run ask before each
//! turn.
ghost use Rattle.std.specs.Prelude.{◌≡◌, ℕ, Bool, true};

/// Lets processes on, turn by turn.
pub trait Gate: Sync {
    /// What the gate may answer to which process at which turn.
    ghost may_answer: { Self → ℕ → ℕ → Bool → Type 0 };

    /// Returns whether `process` may make turn number `turn`, its next one, counted from 1.
    fn enter(&self, process: u32, turn: u64) -> bool
        ensures { may_answer self.now process turn result };
}

/// Lets everybody on.
pub struct NoGate;

impl Gate for NoGate {
    ghost may_answer = { λ _ _ _ answer. answer ≡ true };

    fn enter(&self, _process: u32, _turn: u64) -> bool {
        true
    }
}
