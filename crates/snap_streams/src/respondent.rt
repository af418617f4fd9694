//! `Respondent`: the partner of a dialog, who answers its lines.
ghost use Rattle.std.specs.Prelude.{◌≡◌, ℕ, List, ◌++◌, IfOk, OnOk};
ghost use Rattle.snap_streams.specs.Dialog.{Replies, Next};

use std::alloc::AllocError;

/// The partner of a dialog, who answers its lines.
pub trait Respondent {
    /// The prompt before a line.
    ghost prompt_of: { Self → List ℕ };

    /// Whether a text may be answered to a line.
    ghost says: { Self → List ℕ → List ℕ → Type 0 };

    /// What the respondent is after a line and its answer, and whether the dialog goes on.
    ghost next_of: { Self → List ℕ → List ℕ → Next Self };

    /// Appends the prompt of the next line to `out`.
    ///
    /// # Errors
    ///
    /// `AllocError` where memory runs out.
    fn push_prompt(&self, out: &mut Vec<u8>) -> Result<(), AllocError>
        ensures { OnOk result (out.new.items ≡ out.old.items ++ prompt_of self.now) };

    /// Appends an answer to `line` to `out`, and returns whether the dialog goes on.
    ///
    /// # Errors
    ///
    /// `AllocError` where memory runs out.
    fn push_answer(&mut self, out: &mut Vec<u8>, line: &[u8]) -> Result<bool, AllocError>
        ensures { IfOk result (λ more. Replies says next_of self.old line.now
            out.old.items out.new.items self.new more) };
}
